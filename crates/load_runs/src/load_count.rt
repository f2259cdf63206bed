//! How many requests a load has.
ghost use Rattle.std.specs.Prelude.{◌≡◌, ◌≤◌};
ghost use Rattle.load_runs.specs.Counts as Spec;

use orb_base::limits::MAX_RUN_CALLS;
use std::marker::Model;

/// How many requests a load has, 1 to `MAX_RUN_CALLS`, which is 65,536.
#[derive(Clone, Copy, Debug, PartialEq, Eq)]
pub struct LoadCount {
    requests: u32,
}

impl Model for LoadCount {
    ghost use Rattle.std.specs.Prelude.{ℕ, ◌≤◌};
    ghost use Rattle.orb_base.specs.declared.limits.TheConstants.{MAX_RUN_CALLS};

    ghost Value = { ℕ };

    ghost view = { λ c. c.requests };

    ghost invariant = { λ c. (1 ≤ c.requests) × (c.requests ≤ MAX_RUN_CALLS) };

    ghost inverse = { λ n. record { requests = n } };
}

impl LoadCount {
    ghost use Rattle.orb_base.specs.declared.limits.TheConstants.{MAX_RUN_CALLS};

    /// So many requests. None exactly where they aren't 1 to `MAX_RUN_CALLS`.
    pub fn new(requests: u32) -> Option<LoadCount>
        ensures { result ≡ Spec.load_count requests }
    {
        if requests < 1 || requests > MAX_RUN_CALLS {
            return None;
        }
        Some(LoadCount { requests })
    }

    /// The number of the requests.
    pub fn requests(self) -> u32
        ensures value { result ≡ self }
        ensures some { 1 ≤ result }
        ensures few { result ≤ MAX_RUN_CALLS }
    {
        self.requests
    }
}
