//! How many calls a group has.
ghost use Rattle.std.specs.Prelude.{◌≡◌, ◌≤◌};
ghost use Rattle.pipe_runs.specs.Batches as Spec;

use std::marker::Model;

/// How many calls a group of the pipe has at most, 1 to 64.
#[derive(Clone, Copy, Debug, PartialEq, Eq)]
pub struct Batch {
    calls: u8,
}

impl Model for Batch {
    ghost use Rattle.std.specs.Prelude.{ℕ, ◌≤◌};

    ghost Value = { ℕ };

    ghost view = { λ b. b.calls };

    ghost invariant = { λ b. (1 ≤ b.calls) × (b.calls ≤ 64) };

    ghost inverse = { λ n. record { calls = n } };
}

impl Batch {
    /// Groups of one call.
    pub fn one() -> Batch
        ensures { result ≡ 1 }
    {
        Batch { calls: 1 }
    }

    /// Groups of so many calls. None exactly where they aren't 1 to 64.
    pub fn new(calls: u16) -> Option<Batch>
        ensures { result ≡ Spec.batch calls }
    {
        if calls < 1 || calls > 64 {
            return None;
        }
        Some(Batch { calls: calls as u8 })
    }

    /// The number of the calls.
    pub fn calls(self) -> u8
        ensures value { result ≡ self }
        ensures some { 1 ≤ result }
        ensures few { result ≤ 64 }
    {
        self.calls
    }
}
