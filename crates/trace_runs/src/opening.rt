//! The first line of a run.
ghost use Rattle.std.specs.Prelude.{◌≡◌, ◌↔◌, [], ◌∷◌, IsTrue};
ghost use Rattle.orb_base.specs.Pool.{HasSlots, HasRoom, IsWithinLimits};
ghost use Rattle.trace_reading.specs.Traces.{IsTrace};
ghost use Rattle.trace_runs.specs.Begun.{run_of as run_of_lem, pool_of, first_lane};
ghost use Rattle.trace_runs.specs.Opening.{LendsAmongLanes, HasBareLimits};
ghost use Rattle.trace_runs.specs.Reading.{OpensWith, OpensRun};

use crate::run::Run;
use orb_base::limits::{
    MAX_BUFFERED_BYTES, MAX_BUFFERED_REQUESTS, MAX_CONNECTIONS, MAX_RUN_BYTES, MAX_RUN_CALLS,
    MAX_SLOTS,
};
use orb_base::{List, PoolSpec};
use std::alloc::Global;
use trace_reading::{Head, Row, read_line};

/// Whether a run may open with these slots, and connections in each.
fn are_slots(slots: u8, per_slot: u8) -> bool
    ensures { IsTrue result ↔ HasSlots slots per_slot }
{
    1 <= slots
        && slots <= MAX_SLOTS
        && 1 <= per_slot
        && u16::from(slots) * u16::from(per_slot) <= MAX_CONNECTIONS
}

/// Whether the limits of what may wait are 0 where nothing may.
fn has_bare_limits(head: &Head) -> bool
    ensures { IsTrue result ↔ HasBareLimits head.now }
{
    head.flags.buffering || (head.limits.max_requests == 0 && head.limits.max_bytes == 0)
}

/// Whether no thread is lent where there are no lanes.
fn lends_among_lanes(head: &Head) -> bool
    ensures { IsTrue result ↔ LendsAmongLanes head.now }
{
    head.flags.laned || !head.flags.borrowing
}

/// Whether a request fits where it may wait.
fn has_room(head: &Head) -> bool
    ensures { IsTrue result ↔ HasRoom (pool_of head.now []) }
{
    !head.flags.buffering || (1 <= head.limits.max_requests && 1 <= head.limits.max_bytes)
}

/// Whether the four limits pass none of theirs.
fn is_within_limits(head: &Head) -> bool
    ensures { IsTrue result ↔ IsWithinLimits (pool_of head.now []) }
{
    head.limits.max_requests <= MAX_BUFFERED_REQUESTS
        && head.limits.max_bytes <= MAX_BUFFERED_BYTES
        && head.limits.run_calls <= MAX_RUN_CALLS
        && head.limits.run_bytes <= MAX_RUN_BYTES
}

/// Whether a run may open so, whatever its lanes are.
#[tactic(auto, using(crate::proofs::Opened::may_open, crate::proofs::Opened::was_open))]
fn may_open(head: &Head) -> bool
    ensures { IsTrue result ↔ IsTrace (run_of_lem head.now (first_lane ∷ []) []) }
{
    are_slots(head.slots, head.per_slot)
        && lends_among_lanes(head)
        && has_room(head)
        && is_within_limits(head)
        && has_bare_limits(head)
}

/// A run without lanes yet.
fn run_of(alloc: Global, head: &Head) -> Run
    ensures { result ≡ run_of_lem head.now [] [] }
{
    Run {
        pool: PoolSpec {
            laned: head.flags.laned,
            lanes: List::new(alloc),
            borrowing: head.flags.borrowing,
            buffering: head.flags.buffering,
            max_requests: head.limits.max_requests,
            max_bytes: head.limits.max_bytes,
            run_calls: head.limits.run_calls,
            run_bytes: head.limits.run_bytes,
        },
        slots: head.slots,
        per_slot: head.per_slot,
        lines: List::new(alloc),
        summed: false,
    }
}

/// The run that opens so. None where none does.
fn open_head(alloc: Global, head: &Head) -> Option<Run>
    ensures { OpensWith head.now result }
{
    if may_open(head) {
        Some(run_of(alloc, head))
    } else {
        None
    }
}

/// The run that a line opens, without its line feed. None where it opens none. Takes no memory.
#[tactic(auto, using(crate::proofs::Opened::opened, crate::proofs::Opened::no_head, crate::proofs::Opened::no_row))]
pub fn open_run(alloc: Global, line: &[u8]) -> Option<Run>
    ensures { OpensRun line.now result }
{
    match read_line(line) {
        Some(Row::Pool(head)) => open_head(alloc, &head),
        Some(Row::Lane(_)) => None,
        Some(Row::Entry(_)) => None,
        Some(Row::Count(_)) => None,
        None => None,
    }
}
