//! How many callers share a link.
ghost use Rattle.std.specs.Prelude.{◌≡◌, ◌≤◌};
ghost use Rattle.client_mux.specs.declared.limits.TheConstants.{MAX_CALLERS};
ghost use Rattle.client_mux.specs.Counts as Spec;

use crate::limits::MAX_CALLERS;
use std::marker::Model;

/// How many callers share a link, 1 to `MAX_CALLERS`, which is 16.
#[derive(Clone, Copy, Debug, PartialEq, Eq)]
pub struct CallerCount {
    callers: u8,
}

impl Model for CallerCount {
    ghost use Rattle.std.specs.Prelude.{ℕ, ◌≤◌};
    ghost use Rattle.client_mux.specs.declared.limits.TheConstants.{MAX_CALLERS};

    ghost Value = { ℕ };

    ghost view = { λ c. c.callers };

    ghost invariant = { λ c. (1 ≤ c.callers) × (c.callers ≤ MAX_CALLERS) };

    ghost inverse = { λ n. record { callers = n } };
}

impl CallerCount {
    /// So many callers. None exactly where they aren't 1 to `MAX_CALLERS`.
    pub fn new(callers: u16) -> Option<CallerCount>
        ensures { result ≡ Spec.caller_count callers }
    {
        if callers < 1 || callers > u16::from(MAX_CALLERS) {
            return None;
        }
        Some(CallerCount {
            callers: callers as u8,
        })
    }

    /// The number of the callers.
    pub fn count(self) -> u8
        ensures value { result ≡ self }
        ensures some { 1 ≤ result }
        ensures few { result ≤ MAX_CALLERS }
    {
        self.callers
    }
}
