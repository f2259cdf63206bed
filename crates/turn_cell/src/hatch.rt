//! A hatch, an object whose calls wait: a Put until it is empty, a Take until it is full.
use crate::object::Object;
use orb_base::NoMemory;

/// A place for one number.
#[derive(Drop)]
pub struct Hatch {
    pub held: Option<u64>,
}

/// A call of a hatch.
#[derive(Clone, Copy, Debug, PartialEq, Eq)]
pub enum HatchCall {
    /// Puts a number in, once the hatch is empty.
    Put(u64),
    /// Takes the number out, once there is one.
    Take,
}

/// The reply to a call of a hatch.
#[derive(Clone, Copy, Debug, PartialEq, Eq)]
pub enum HatchReply {
    /// A Put was made.
    Done,
    /// The number that was taken.
    Took(u64),
}

/// Where a Put waits.
const PUTS: u32 = 0;

/// Where a Take waits.
const TAKES: u32 = 1;

impl Object for Hatch {
    ghost use Rattle.turn_cell.specs.Hatch.{can, step};
    ghost use Rattle.turn_cell.specs.Register.{heir};
    ghost use Rattle.turn_cell.specs.RegisterHeirs.{one_parent_of, never_first_of};

    type Call = HatchCall;

    type Reply = HatchReply;

    ghost ready = { can };

    ghost sound = { λ _ _. Unit {0} };

    ghost step = { step };

    ghost opens = { λ _. Unit {0} };

    ghost heir = { heir };

    ghost fit = { λ _ _ _ _. Unit {0} };

    fn ready(&self, call: &HatchCall) -> bool {
        match call {
            HatchCall::Put(_) => self.held.is_none(),
            HatchCall::Take => self.held.is_some(),
        }
    }

    fn apply(&mut self, call: &HatchCall) -> Result<(HatchReply, HatchReply), NoMemory> {
        let reply = match *call {
            HatchCall::Put(number) => {
                self.held = Some(number);
                HatchReply::Done
            }
            HatchCall::Take => HatchReply::Took(self.held.take().unwrap()),
        };
        Ok((reply, reply))
    }

    fn heir_of(n: u32, k: u32) -> Option<u32> {
        if n == 0 && k < 8 { Some(k + 1) } else { None }
    }

    fn bell_of(call: &HatchCall) -> u32 {
        match call {
            HatchCall::Put(_) => PUTS,
            HatchCall::Take => TAKES,
        }
    }

    fn rings(&self, _call: &HatchCall, reply: &HatchReply, bell: u32) -> bool {
        match reply {
            HatchReply::Done => bell == TAKES,
            HatchReply::Took(_) => bell == PUTS,
        }
    }

    ghost one_parent = { one_parent_of };

    ghost never_first = { never_first_of };

    ghost enough = { λ _ _ _ _ _ _ _ _. tt };
}
