//! The parts of a setup, made of what the tables of a document say.
ghost use Rattle.std.specs.Prelude.{◌≡◌, ◌≤◌, ◌<◌, IfOk, IfSome, length, map, position};
ghost use Rattle.adapter_policies.specs.NameRelations.{is_named};
ghost use Rattle.adapter_policies.specs.SetupData.{lane_of, lanes_of, run_calls_of, run_bytes_of, pool_made, span_of, transform_row_of, adapter_made, adapter_number, priority_at, object_made};

use crate::adapter::AdapterTable;
use crate::adapter_spec::AdapterSpec;
use crate::band::BandTable;
use crate::inbound::InboundTable;
use crate::lane::LaneTable;
use crate::name_relations::is_named;
use crate::object::ObjectTable;
use crate::object_spec::ObjectSpec;
use crate::pool::PoolTable;
use crate::server::ServerTable;
use orb_base::limits::{MAX_RUN_BYTES, MAX_RUN_CALLS};
use orb_base::{Band, LaneSpec, List, NoMemory, PoolSpec, Priority, Text};
use priority_models::{Transform, TransformRow};
use std::alloc::{AllocError, Global};

/// The pool, with the limits of the run.
pub fn pool_made(
    alloc: Global,
    pool: &PoolTable,
    server: Option<ServerTable>,
) -> Result<PoolSpec, NoMemory>
    ensures { IfOk result (λ p. p ≡ pool_made pool.now server) }
{
    let lanes = lanes_made(alloc, pool)?;
    Ok(PoolSpec {
        laned: pool.laned,
        lanes: List::from_vec(lanes),
        borrowing: pool.borrowing,
        buffering: pool.buffering,
        max_requests: pool.max_requests,
        max_bytes: pool.max_bytes,
        run_calls: run_calls_of(server),
        run_bytes: run_bytes_of(server),
    })
}

/// The lanes of a pool.
fn lanes_made(alloc: Global, pool: &PoolTable) -> Result<Vec<LaneSpec>, NoMemory>
    ensures { IfOk result (λ lanes. lanes.items ≡ lanes_of pool.now) }
{
    if pool.laned {
        return Ok(lane_specs(alloc, pool.lanes.as_slice())?);
    }
    let lane = LaneSpec {
        priority: pool.priority,
        statics: pool.statics,
        dynamics: pool.dynamics,
    };
    Ok(Vec::from_slice(alloc, &[lane])?)
}

/// Lanes as the setup has them.
fn lane_specs(alloc: Global, lanes: &[LaneTable]) -> Result<Vec<LaneSpec>, AllocError>
    ensures { IfOk result (λ specs. specs.items ≡ map lane_of lanes.now) }
{
    lanes.iter().map(|lane| lane_of(*lane)).collect(alloc)
}

/// A lane as the setup has it.
fn lane_of(lane: LaneTable) -> LaneSpec
    ensures { result ≡ lane_of lane }
{
    LaneSpec {
        priority: lane.priority,
        statics: lane.statics,
        dynamics: lane.dynamics,
    }
}

/// How many calls a run hears.
fn run_calls_of(server: Option<ServerTable>) -> u32
    ensures { result ≡ run_calls_of server }
{
    match server {
        None => MAX_RUN_CALLS,
        Some(limits) => limits.max_calls.unwrap_or(MAX_RUN_CALLS),
    }
}

/// How many bytes a run takes.
fn run_bytes_of(server: Option<ServerTable>) -> u64
    ensures { result ≡ run_bytes_of server }
{
    match server {
        None => MAX_RUN_BYTES,
        Some(limits) => match limits.max_bytes {
            None => MAX_RUN_BYTES,
            Some(bytes) => u64::from(bytes),
        },
    }
}

/// Bands as the setup has them.
fn bands_made(alloc: Global, bands: &[BandTable]) -> Result<Vec<Band>, NoMemory>
    ensures { IfOk result (λ made. made.items ≡ map span_of bands.now) }
{
    let mut made = Vec::new(alloc);
    for band in bands {
        let Some(band) = Band::new(band.low, band.high) else {
            return Err(NoMemory);
        };
        made.push(band)?;
    }
    Ok(made)
}

/// Rows of a transform as the setup has them.
fn rows_made(alloc: Global, rows: &[InboundTable]) -> Result<Vec<TransformRow>, NoMemory>
    ensures { IfOk result (λ made. made.items ≡ map transform_row_of rows.now) }
{
    let mut made = Vec::new(alloc);
    for row in rows {
        let Some(band) = Band::new(row.low, row.high) else {
            return Err(NoMemory);
        };
        made.push(TransformRow { band, to: row.to })?;
    }
    Ok(made)
}

/// The transform of rows, which are few, and no two of which share a priority: that is tested once more.
fn transform_made(alloc: Global, rows: &[InboundTable]) -> Result<Transform, NoMemory>
    ensures { IfOk result (λ t. t ≡ map transform_row_of rows.now) }
{
    let made = rows_made(alloc, rows)?;
    match Transform::new(List::from_vec(made)) {
        Some(transform) => Ok(transform),
        None => Err(NoMemory),
    }
}

/// An adapter as the setup has it.
fn adapter_made(alloc: Global, adapter: &AdapterTable) -> Result<AdapterSpec, NoMemory>
    ensures { IfOk result (λ a. a ≡ adapter_made adapter.now) }
{
    let name = adapter.name.copy(alloc)?;
    let bands = bands_made(alloc, adapter.bands.as_slice())?;
    let inbound = transform_made(alloc, adapter.inbound.as_slice())?;
    Ok(AdapterSpec {
        name,
        model: adapter.model,
        priority: adapter.priority,
        bands: List::from_vec(bands),
        inbound,
    })
}

/// Adapters as the setup has them.
pub fn adapters_made(alloc: Global, adapters: &[AdapterTable]) -> Result<Vec<AdapterSpec>, NoMemory>
    ensures { IfOk result (λ made. made.items ≡ map adapter_made adapters.now) }
{
    let mut made = Vec::new(alloc);
    for adapter in adapters {
        let spec = adapter_made(alloc, adapter)?;
        made.push(spec)?;
    }
    Ok(made)
}

/// The number of the adapter of a name.
fn adapter_number(adapters: &[AdapterTable], name: &Text) -> u8
    requires { length adapters.now ≤ 64 }
    ensures { result ≡ adapter_number adapters.now name.now }
{
    match first_named(adapters, name) {
        Some(n) => n as u8,
        None => 0,
    }
}

/// The number of the first adapter of a name.
fn first_named(adapters: &[AdapterTable], name: &Text) -> Option<usize>
    ensures place { result ≡ position (is_named name.now) adapters.now }
    ensures bound { IfSome result (λ n. n < length adapters.now) }
{
    adapters.iter().position(|adapter| is_named(adapter, name))
}

/// The priority of the adapter of a number.
fn priority_at(adapters: &[AdapterTable], n: usize) -> Priority
    ensures { result ≡ priority_at adapters.now n }
{
    match adapters.get(n) {
        Some(adapter) => priority_of(adapter),
        None => Priority::new(0).unwrap(),
    }
}

/// The priority of an adapter.
fn priority_of(adapter: &AdapterTable) -> Priority
    ensures { result ≡ adapter.now.priority }
{
    adapter.priority
}

/// An object as the setup has it.
fn object_made(
    alloc: Global,
    adapters: &[AdapterTable],
    object: &ObjectTable,
) -> Result<ObjectSpec, NoMemory>
    requires { length adapters.now ≤ 64 }
    ensures { IfOk result (λ o. o ≡ object_made adapters.now object.now) }
{
    let adapter = adapter_number(adapters, &object.adapter);
    let served = priority_at(adapters, usize::from(adapter));
    let key = object.key.copy(alloc)?;
    let interface = object.interface.copy(alloc)?;
    Ok(ObjectSpec {
        key,
        adapter,
        interface,
        priority: object.priority.unwrap_or(served),
    })
}

/// Objects as the setup has them.
pub fn objects_made(
    alloc: Global,
    adapters: &[AdapterTable],
    objects: &[ObjectTable],
) -> Result<Vec<ObjectSpec>, NoMemory>
    requires { length adapters.now ≤ 64 }
    ensures { IfOk result (λ made. made.items ≡ map (object_made adapters.now) objects.now) }
{
    let mut made = Vec::new(alloc);
    for object in objects {
        let spec = object_made(alloc, adapters, object)?;
        made.push(spec)?;
    }
    Ok(made)
}
