//! The lines of a trace as data, but for a summary.

use orb_base::LaneSpec;
use trace_lines::TraceLine;

/// What a pool allows: lanes, lending, and that requests wait.
#[derive(Clone, Copy)]
pub struct Flags {
    pub laned: bool,
    pub borrowing: bool,
    pub buffering: bool,
}

/// The limits of what may wait, and of a run.
#[derive(Clone, Copy)]
pub struct Limits {
    pub max_requests: u32,
    pub max_bytes: u32,
    pub run_calls: u32,
    pub run_bytes: u64,
}

/// What a run opened with, but for its lanes.
#[derive(Clone, Copy)]
pub struct Head {
    pub flags: Flags,
    pub limits: Limits,
    pub slots: u8,
    pub per_slot: u8,
}

/// A line of a trace.
#[derive(Clone, Copy)]
pub enum Row {
    /// The first line.
    Pool(Head),
    /// A lane.
    Lane(LaneSpec),
    /// An entry.
    Entry(TraceLine),
    /// How many entries there are.
    Count(usize),
}
