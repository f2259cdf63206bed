//! Whose priorities are those of lanes, and have native ones.
ghost use Rattle.std.specs.Prelude.{◌≡◌, ◌==◌, not, position};
ghost use Rattle.std.specs.List.{list_any};
ghost use Rattle.config_tables.specs.Fault.{Judged};
ghost use Rattle.adapter_policies.specs.MapRelations.{has_native};
ghost use Rattle.adapter_policies.specs.PriorityRelations.{has_lane, level_fault, own_meets, not_a_lane_fault, pool_native_fault, no_native_fault};
ghost use Rattle.adapter_policies.specs.Found.{adapters_fault};
ghost use Rattle.config_tables.specs.declared.fault.ConfigCause.TheVariants.{NoNative, PriorityNotALane};

use crate::adapter::AdapterTable;
use crate::inbound::InboundTable;
use crate::lane::LaneTable;
use crate::object::ObjectTable;
use crate::pool::PoolTable;
use crate::refusals::{refuse_adapter_where, refuse_entry_key, refuse_row_to, refuse_where};
use config_tables::{ConfigCause, SetupError};
use orb_base::Priority;
use priority_maps::Map;
use std::alloc::Global;

/// Judges that each priority of an adapter, of a row of its transform or of an object is that of a lane, if there are lanes.
#[tactic(auto, unfolding(crate::specs::PriorityRelations::not_a_lane_fault), using(config_tables::proofs::Judging::refuses_first, config_tables::proofs::Judging::refuses_later))]
pub fn judge_in_lanes(
    alloc: Global,
    pool: &PoolTable,
    adapters: &[AdapterTable],
    objects: &[ObjectTable],
) -> Result<(), SetupError>
    ensures { Judged result (not_a_lane_fault pool.now adapters.now objects.now) }
{
    judge_adapters_in_lanes(alloc, pool, adapters)?;
    let cause = ConfigCause::PriorityNotALane;
    let object = first_object_outside(pool, objects);
    refuse_entry_key(alloc, "object", "priority", cause, object)
}

/// Judges adapter by adapter that its priorities are those of lanes, if there are lanes.
#[tactic(auto, using(config_tables::proofs::Judging::refuses_first, config_tables::proofs::Judging::refuses_later))]
fn judge_adapters_in_lanes(
    alloc: Global,
    pool: &PoolTable,
    adapters: &[AdapterTable],
) -> Result<(), SetupError>
    ensures { Judged result (adapters_fault (level_fault PriorityNotALane (has_lane pool.now)) 0 adapters.now) }
{
    for (n, adapter) in adapters.iter().enumerate() {
        judge_adapter_in_lanes(alloc, pool, n, adapter)?;
    }
    Ok(())
}

/// Judges that an adapter's priority, and then each one that a row of its transform gives, is that of a lane, if there are lanes.
#[tactic(auto, unfolding(crate::specs::PriorityRelations::level_fault), using(config_tables::proofs::Judging::refuses_first, config_tables::proofs::Judging::refuses_later))]
fn judge_adapter_in_lanes(
    alloc: Global,
    pool: &PoolTable,
    n: usize,
    adapter: &AdapterTable,
) -> Result<(), SetupError>
    ensures { Judged result (level_fault PriorityNotALane (has_lane pool.now) n adapter.now) }
{
    let cause = ConfigCause::PriorityNotALane;
    let wanting = !has_lane(pool, adapter.priority);
    refuse_adapter_where(alloc, wanting, n, "priority", cause)?;
    let row = first_row_outside(pool, adapter.inbound.as_slice());
    refuse_row_to(alloc, n, cause, row)
}

/// The number of the first row that gives a priority of no lane.
fn first_row_outside(pool: &PoolTable, rows: &[InboundTable]) -> Option<usize>
    ensures { result ≡ position (λ row. not (has_lane pool.now row.to)) rows.now }
{
    rows.iter().position(|row| !has_lane(pool, row.to))
}

/// The number of the first object whose own priority is that of no lane.
fn first_object_outside(pool: &PoolTable, objects: &[ObjectTable]) -> Option<usize>
    ensures { result ≡ position (λ o. not (own_meets (has_lane pool.now) o.priority)) objects.now }
{
    objects.iter().position(|o| !own_has_lane(pool, o.priority))
}

/// Whether an object's own priority, if it has one, is that of a lane, or there are no lanes.
fn own_has_lane(pool: &PoolTable, own: Option<Priority>) -> bool
    ensures { result ≡ own_meets (has_lane pool.now) own }
{
    match own {
        None => true,
        Some(p) => has_lane(pool, p),
    }
}

/// Whether a priority is that of a lane, or there are no lanes. There are at most 16 lanes.
fn has_lane(pool: &PoolTable, p: Priority) -> bool
    ensures { result ≡ has_lane pool.now p }
{
    if pool.laned {
        return is_lane(pool.lanes.as_slice(), p);
    }
    true
}

/// Whether a priority is that of one of some lanes.
fn is_lane(lanes: &[LaneTable], p: Priority) -> bool
    ensures { result ≡ list_any (λ l. l.priority == p) lanes.now }
{
    lanes.iter().any(|lane| lane.priority == p)
}

/// Judges that each priority has a native one.
#[tactic(auto, unfolding(crate::specs::PriorityRelations::no_native_fault), using(config_tables::proofs::Judging::refuses_first, config_tables::proofs::Judging::refuses_later))]
pub fn judge_natives(
    alloc: Global,
    map: &Map,
    pool: &PoolTable,
    adapters: &[AdapterTable],
    objects: &[ObjectTable],
) -> Result<(), SetupError>
    ensures { Judged result (no_native_fault map.now pool.now adapters.now objects.now) }
{
    let cause = ConfigCause::NoNative;
    judge_pool_natives(alloc, map, pool)?;
    judge_adapters_natives(alloc, map, adapters)?;
    let object = first_object_without(map, objects);
    refuse_entry_key(alloc, "object", "priority", cause, object)
}

/// Judges that each priority of the pool has a native one.
#[tactic(auto, unfolding(crate::specs::PriorityRelations::pool_native_fault), using(config_tables::proofs::Judging::refuses_first, config_tables::proofs::Judging::refuses_later))]
fn judge_pool_natives(alloc: Global, map: &Map, pool: &PoolTable) -> Result<(), SetupError>
    ensures { Judged result (pool_native_fault map.now pool.now) }
{
    let cause = ConfigCause::NoNative;
    let lane = first_lane_without(map, pool.lanes.as_slice());
    refuse_entry_key(alloc, "pool.lanes", "priority", cause, lane)?;
    let wanting = !pool.laned && !has_native(map, pool.priority);
    refuse_where(alloc, wanting, "pool.default_priority", cause)
}

/// The number of the first lane whose priority has no native one.
fn first_lane_without(map: &Map, lanes: &[LaneTable]) -> Option<usize>
    ensures { result ≡ position (λ l. not (has_native map.now l.priority)) lanes.now }
{
    lanes
        .iter()
        .position(|lane| !has_native(map, lane.priority))
}

/// Judges adapter by adapter that its priorities have native ones.
#[tactic(auto, using(config_tables::proofs::Judging::refuses_first, config_tables::proofs::Judging::refuses_later))]
fn judge_adapters_natives(
    alloc: Global,
    map: &Map,
    adapters: &[AdapterTable],
) -> Result<(), SetupError>
    ensures { Judged result (adapters_fault (level_fault NoNative (has_native map.now)) 0 adapters.now) }
{
    for (n, adapter) in adapters.iter().enumerate() {
        judge_adapter_natives(alloc, map, n, adapter)?;
    }
    Ok(())
}

/// Judges that an adapter's priority, and then each one that a row of its transform gives, has a native one.
#[tactic(auto, unfolding(crate::specs::PriorityRelations::level_fault), using(config_tables::proofs::Judging::refuses_first, config_tables::proofs::Judging::refuses_later))]
fn judge_adapter_natives(
    alloc: Global,
    map: &Map,
    n: usize,
    adapter: &AdapterTable,
) -> Result<(), SetupError>
    ensures { Judged result (level_fault NoNative (has_native map.now) n adapter.now) }
{
    let cause = ConfigCause::NoNative;
    let wanting = !has_native(map, adapter.priority);
    refuse_adapter_where(alloc, wanting, n, "priority", cause)?;
    let row = first_row_without(map, adapter.inbound.as_slice());
    refuse_row_to(alloc, n, cause, row)
}

/// The number of the first row that gives a priority without a native one.
fn first_row_without(map: &Map, rows: &[InboundTable]) -> Option<usize>
    ensures { result ≡ position (λ row. not (has_native map.now row.to)) rows.now }
{
    rows.iter().position(|row| !has_native(map, row.to))
}

/// The number of the first object whose own priority has no native one.
fn first_object_without(map: &Map, objects: &[ObjectTable]) -> Option<usize>
    ensures { result ≡ position (λ o. not (own_meets (has_native map.now) o.priority)) objects.now }
{
    objects
        .iter()
        .position(|o| !own_has_native(map, o.priority))
}

/// Whether an object's own priority, if it has one, has a native one.
fn own_has_native(map: &Map, own: Option<Priority>) -> bool
    ensures { result ≡ own_meets (has_native map.now) own }
{
    match own {
        None => true,
        Some(p) => has_native(map, p),
    }
}

/// Whether a priority has a native one.
fn has_native(map: &Map, p: Priority) -> bool
    ensures { result ≡ has_native map.now p }
{
    map.to_native(p).is_some()
}
