//! What threads may share by a turn cell.
ghost use Rattle.std.specs.Prelude.{◌≡◌, ℕ, Bool, true, List, Option, IfOk, OnErr};
ghost use Rattle.turn_cell.specs.History.{IsEnough};
ghost use Rattle.turn_cell.specs.Numbers.{Injects, NotFirst};
ghost use Rattle.turn_cell.specs.Replies.{IsStep};
ghost use Rattle.turn_cell.specs.declared.entry.Entry.{Entry};

use orb_base::NoMemory;

/// An object whose calls are answered one after another.
///
/// Its meaning is a step from state to state. A caller sees only its own calls, so a call is asked to be `fit` by
/// them, and the law `enough` says that a fit call is `sound` after every legal history that fits.
pub trait Object: Drop {
    type Call: Drop;

    type Reply: Drop;

    /// Whether a call can be answered now; one that can't waits.
    ghost ready: { Self → Self.Call → Bool };

    /// What a ready call needs of the state.
    ghost sound: { Self → Self.Call → Type 0 };

    /// The state after a call, and its reply.
    ghost step: { Self → Self.Call → Self × Self.Reply };

    /// The states that a cell may open with.
    ghost opens: { Self → Type 0 };

    /// The number of the seat that is split as the k-th from a seat, if it may be.
    ghost heir: { ℕ → ℕ → Option ℕ };

    /// Whether a caller may make a call: by the opening state, its number and its own calls.
    ghost fit: { Self → ℕ → List (Entry Self Self.Call Self.Reply) → Self.Call → Type 0 };

    /// Whether the call can be answered now. Takes no memory.
    fn ready(&self, call: &Self::Call) -> bool
        ensures { result ≡ ready self.now call.now };

    /// Answers a call, with the reply twice: one for the history and one for the caller.
    fn apply(&mut self, call: &Self::Call) -> Result<(Self::Reply, Self::Reply), NoMemory>
        requires ready { ready self.old call.now ≡ true }
        requires sound { sound self.old call.now }
        ensures done { IfOk result (IsStep (step self.old call.now) self.new) }
        ensures same { OnErr result (self.new ≡ self.old) };

    /// The number of the seat that is split as the k-th from seat n, k from 0. Takes no memory.
    fn heir_of(n: u32, k: u32) -> Option<u32>
        ensures { result ≡ heir n k };

    /// The bell, counted modulo 64, at which a caller sleeps while this call can't be answered. A hint alone: no
    /// clause rests on it, and a sleeper looks again after a bounded time whatever is rung.
    fn bell_of(_call: &Self::Call) -> u32 {
        0
    }

    /// Whether an entry of this call with this reply rings a bell, 0 to 63, at which callers sleep; `self` is the
    /// state after the entry. A hint alone.
    fn rings(&self, _call: &Self::Call, _reply: &Self::Reply, _bell: u32) -> bool {
        true
    }

    /// No two seats have one heir.
    ghost one_parent: { Injects heir };

    /// The first seat is nobody's heir.
    ghost never_first: { NotFirst heir };

    /// What a caller can see is enough.
    ghost enough: { IsEnough ready sound step opens fit };
}
