//! A register, the smallest object: its tests are those of the cell.
ghost use Rattle.std.specs.Prelude.{true};

use crate::object::Object;
use orb_base::NoMemory;

/// One number that callers put and get.
#[derive(Drop)]
pub struct Register {
    pub value: u64,
}

/// A call of a register. Each is ready at any time.
#[derive(Clone, Copy, Debug, PartialEq, Eq)]
pub enum RegisterCall {
    /// Sets the number.
    Put(u64),
    /// Asks for the number.
    Get,
}

/// The reply to a call of a register.
#[derive(Clone, Copy, Debug, PartialEq, Eq)]
pub enum RegisterReply {
    /// A Put was made.
    Done,
    /// The number that a Get found.
    Was(u64),
}

impl Object for Register {
    ghost use Rattle.std.specs.Prelude.{true};
    ghost use Rattle.turn_cell.specs.Register.{step, heir};
    ghost use Rattle.turn_cell.specs.RegisterHeirs.{one_parent_of, never_first_of};

    type Call = RegisterCall;

    type Reply = RegisterReply;

    ghost ready = { λ _ _. true };

    ghost sound = { λ _ _. Unit {0} };

    ghost step = { step };

    ghost opens = { λ _. Unit {0} };

    ghost heir = { heir };

    ghost fit = { λ _ _ _ _. Unit {0} };

    fn ready(&self, _call: &RegisterCall) -> bool {
        true
    }

    fn apply(&mut self, call: &RegisterCall) -> Result<(RegisterReply, RegisterReply), NoMemory> {
        let reply = match *call {
            RegisterCall::Put(value) => {
                self.value = value;
                RegisterReply::Done
            }
            RegisterCall::Get => RegisterReply::Was(self.value),
        };
        Ok((reply, reply))
    }

    fn heir_of(n: u32, k: u32) -> Option<u32> {
        if n == 0 && k < 8 { Some(k + 1) } else { None }
    }

    ghost one_parent = { one_parent_of };

    ghost never_first = { never_first_of };

    ghost enough = { λ _ _ _ _ _ _ _ _. tt };
}
