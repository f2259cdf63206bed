//! Verdicts.

use orb_base::{Band, Priority};

/// Where a request runs.
#[derive(Clone, Copy, Debug, PartialEq, Eq)]
pub struct Place {
    /// The number of its object, counted from 0.
    pub target: u16,
    /// The mandated priority.
    pub priority: Priority,
    /// The number of its lane, counted from 0; 0 without lanes.
    pub lane: u8,
}

/// What becomes of a request that isn't refused.
#[derive(Clone, Copy, Debug, PartialEq, Eq)]
pub enum Verdict {
    /// It runs here.
    Runs(Place),
    /// It binds this band, from the next message of its connection on.
    Binds(Band),
}
