//! What holds within the pool and the server of a configuration.
ghost use Rattle.std.specs.Prelude.{◌≡◌, ◌+◌, ◌*◌, ◌/◌, ◌&&◌, ◌==◌, ◌≤◌, ◌↔◌, IsTrue, nat_lt, not, None, map, position, sum_by};
ghost use Rattle.orb_base.specs.Pool.{HasSlots};
ghost use Rattle.config_tables.specs.Fault.{Judged};
ghost use Rattle.adapter_policies.specs.PoolRelations.{is_above, out_of_order, is_idle, pool_threads, slots_of, per_slot_of, lane_order_fault, no_thread_fault, thread_count_fault, slot_limit_fault, borrowing_fault};

use crate::lane::LaneTable;
use crate::pool::PoolTable;
use crate::refusals::{refuse_entry, refuse_entry_key, refuse_where};
use crate::server::ServerTable;
use config_tables::{ConfigCause, SetupError};
use orb_base::Priority;
use orb_base::limits::{MAX_CONNECTIONS, MAX_SLOTS};
use std::alloc::Global;

/// Judges that each lane's priority is above that of the lane before it.
pub fn judge_lane_order(alloc: Global, pool: &PoolTable) -> Result<(), SetupError>
    ensures { Judged result (lane_order_fault pool.now) }
{
    let found = out_of_order(pool.lanes.as_slice());
    refuse_entry_key(
        alloc,
        "pool.lanes",
        "priority",
        ConfigCause::LaneOrder,
        found,
    )
}

/// The number of the first lane whose priority isn't above the one before it.
fn out_of_order(lanes: &[LaneTable]) -> Option<usize>
    ensures { result ≡ out_of_order None 0 (map (λ l. l.priority) lanes.now) }
{
    let mut before: Option<Priority> = None;
    for (n, lane) in lanes.iter().enumerate() {
        if !is_above(before, lane.priority) {
            return Some(n);
        }
        before = Some(lane.priority);
    }
    None
}

/// Whether a priority is above the one before it, if there is one.
pub fn is_above(before: Option<Priority>, p: Priority) -> bool
    ensures { result ≡ is_above before p }
{
    match before {
        None => true,
        Some(lower) => lower < p,
    }
}

/// Judges that each lane, or the pool without lanes, has a thread.
#[tactic(auto, using(config_tables::proofs::Judging::refuses_first, config_tables::proofs::Judging::refuses_later))]
pub fn judge_threads(alloc: Global, pool: &PoolTable) -> Result<(), SetupError>
    ensures { Judged result (no_thread_fault pool.now) }
{
    refuse_entry(
        alloc,
        "pool.lanes",
        ConfigCause::NoThread,
        first_idle(pool.lanes.as_slice()),
    )?;
    refuse_where(
        alloc,
        is_without_threads(pool),
        "pool",
        ConfigCause::NoThread,
    )
}

/// The number of the first lane without a thread.
fn first_idle(lanes: &[LaneTable]) -> Option<usize>
    ensures { result ≡ position is_idle lanes.now }
{
    lanes
        .iter()
        .position(|lane| lane.statics == 0 && lane.dynamics == 0)
}

/// Whether a pool without lanes has no thread.
fn is_without_threads(pool: &PoolTable) -> bool
    ensures { result ≡ (not pool.now.laned && (pool.now.statics == 0 && pool.now.dynamics == 0)) }
{
    !pool.laned && (pool.statics == 0 && pool.dynamics == 0)
}

/// Judges that there are at most 64 threads.
pub fn judge_thread_count(alloc: Global, pool: &PoolTable) -> Result<(), SetupError>
    ensures { Judged result (thread_count_fault pool.now) }
{
    refuse_where(alloc, is_crowded(pool), "pool", ConfigCause::TooManyThreads)
}

/// Whether a pool has more than 64 threads.
fn is_crowded(pool: &PoolTable) -> bool
    ensures { result ≡ nat_lt 64 (pool_threads pool.now) }
{
    let own = u32::from(pool.statics) + u32::from(pool.dynamics);
    are_many(pool.lanes.as_slice(), own)
}

/// Whether there are more than 64 threads, those of lanes and so many beside them.
fn are_many(lanes: &[LaneTable], own: u32) -> bool
    requires { own ≤ 510 }
    ensures { result ≡ nat_lt 64 (sum_by (λ l. l.statics + l.dynamics) lanes.now + own) }
{
    let mut total = own;
    for lane in lanes {
        if total > 64 {
            return true;
        }
        total += u32::from(lane.statics) + u32::from(lane.dynamics);
    }
    total > 64
}

/// Judges that only a pool with lanes lends threads.
pub fn judge_borrowing(alloc: Global, pool: &PoolTable) -> Result<(), SetupError>
    ensures { Judged result (borrowing_fault pool.now) }
{
    let lends = pool.borrowing && !pool.laned;
    refuse_where(
        alloc,
        lends,
        "pool.borrowing",
        ConfigCause::BorrowWithoutLanes,
    )
}

/// Judges that the slots have at most 128 connections together.
pub fn judge_slots(alloc: Global, server: Option<ServerTable>) -> Result<(), SetupError>
    ensures { Judged result (slot_limit_fault server) }
{
    refuse_where(
        alloc,
        has_too_many(server),
        "server",
        ConfigCause::SlotLimit,
    )
}

/// Whether the slots have more than 128 connections together.
fn has_too_many(server: Option<ServerTable>) -> bool
    ensures { result ≡ nat_lt 128 (slots_of server * per_slot_of server) }
{
    u32::from(slots_of(server)) * u32::from(per_slot_of(server)) > 128
}

/// How many slots a server has: 4 by default.
pub fn slots_of(server: Option<ServerTable>) -> u8
    ensures { result ≡ slots_of server }
{
    match server {
        None => 4,
        Some(limits) => limits.slots.unwrap_or(4),
    }
}

/// How many connections each slot of a server has: by default 128 are shared among the slots.
pub fn per_slot_of(server: Option<ServerTable>) -> u8
    ensures { result ≡ per_slot_of server }
{
    match server {
        None => 32,
        Some(limits) => match limits.per_slot {
            Some(per_slot) => per_slot,
            None => share_of(limits.slots.unwrap_or(4)),
        },
    }
}

/// What each of so many slots gets of 128 connections.
fn share_of(slots: u8) -> u8
    ensures { result ≡ 128 / slots }
{
    match slots {
        0 => 0,
        _ => 128 / slots,
    }
}

/// Whether a run may open with so many slots, and so many connections in each.
pub fn are_slots(slots: u8, per_slot: u8) -> bool
    ensures { IsTrue result ↔ HasSlots slots per_slot }
{
    1 <= slots
        && slots <= MAX_SLOTS
        && 1 <= per_slot
        && u16::from(slots) * u16::from(per_slot) <= MAX_CONNECTIONS
}
