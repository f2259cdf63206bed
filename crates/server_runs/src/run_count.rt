//! How many runs a server makes.
ghost use Rattle.std.specs.Prelude.{◌≡◌, ◌≤◌, ◌<◌, ◌-◌};
ghost use Rattle.server_runs.specs.Counts as Spec;

use orb_base::limits::MAX_RUNS;
use std::marker::Model;

/// How many runs a server makes at most, one after another, 1 to `MAX_RUNS`, which is 16.
#[derive(Clone, Copy, Debug, PartialEq, Eq)]
pub struct RunCount {
    runs: u8,
}

impl Model for RunCount {
    ghost use Rattle.std.specs.Prelude.{ℕ, ◌≤◌};
    ghost use Rattle.orb_base.specs.declared.limits.TheConstants.{MAX_RUNS};

    ghost Value = { ℕ };

    ghost view = { λ c. c.runs };

    ghost invariant = { λ c. (1 ≤ c.runs) × (c.runs ≤ MAX_RUNS) };

    ghost inverse = { λ n. record { runs = n } };
}

impl RunCount {
    /// One run.
    pub fn one() -> RunCount
        ensures { result ≡ 1 }
    {
        RunCount { runs: 1 }
    }

    /// So many runs. None exactly where they aren't 1 to `MAX_RUNS`.
    pub fn new(runs: u16) -> Option<RunCount>
        ensures { result ≡ Spec.run_count runs }
    {
        if runs < 1 || runs > u16::from(MAX_RUNS) {
            return None;
        }
        Some(RunCount { runs: runs as u8 })
    }

    /// The number of the runs.
    pub fn count(self) -> u8
        ensures value { result ≡ self }
        ensures some { 1 ≤ result }
        ensures few { result ≤ MAX_RUNS }
    {
        self.runs
    }

    /// One run fewer.
    pub fn one_less(self) -> RunCount
        requires { 1 < self }
        ensures { result ≡ self - 1 }
    {
        RunCount {
            runs: self.runs - 1,
        }
    }
}
