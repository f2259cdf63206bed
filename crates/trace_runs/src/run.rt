//! A run, as a trace says it.

use orb_base::{List, PoolSpec};
use std::marker::Model;
use trace_lines::TraceLine;

/// A run, as a trace says it.
#[derive(Drop)]
pub struct Run {
    /// The pool that it opened with.
    pub pool: PoolSpec,
    /// How many slots there were.
    pub slots: u8,
    /// How many connections each slot might have.
    pub per_slot: u8,
    /// A line for each entry of its history.
    pub lines: List<TraceLine>,
    /// Whether its summary was after them.
    pub summed: bool,
}

impl Model for Run {
    ghost use Rattle.trace_reading.specs.Traces.{Trace};

    ghost Value = { Trace };

    ghost view = { λ r. record {
      pool = r.pool;
      slots = r.slots;
      per_slot = r.per_slot;
      lines = r.lines.items;
      summed = r.summed;
    } };
}
