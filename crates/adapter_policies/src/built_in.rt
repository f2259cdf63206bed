//! The setup without a configuration, and that of the name service.
ghost use Rattle.std.specs.Prelude.{◌≡◌, IfOk, codes};
ghost use Rattle.adapter_policies.specs.BuiltIn.{built_in_pool, built_in_adapter, built_in_object, names_object};

use crate::adapter_spec::AdapterSpec;
use crate::object_spec::ObjectSpec;
use orb_base::limits::{MAX_RUN_BYTES, MAX_RUN_CALLS};
use orb_base::{LaneSpec, List, NoMemory, PoolSpec, Priority, PriorityModel, Text};
use priority_models::Transform;
use std::alloc::Global;

/// The priority of the pool, the adapter and the object.
fn priority() -> Priority
    ensures { result ≡ 100 }
{
    Priority::new(100).unwrap()
}

/// A text without a NUL.
fn text(alloc: Global, bytes: &[u8]) -> Result<Text, NoMemory>
    ensures { IfOk result (λ t. t ≡ bytes.now) }
{
    Text::new(alloc, bytes).map_err(|_| NoMemory)
}

/// One static thread, without lanes and buffering.
pub fn pool(alloc: Global) -> Result<PoolSpec, NoMemory>
    ensures { IfOk result (λ p. p ≡ built_in_pool) }
{
    let lane = LaneSpec {
        priority: priority(),
        statics: 1,
        dynamics: 0,
    };
    Ok(PoolSpec {
        laned: false,
        lanes: List::from_vec(Vec::from_slice(alloc, &[lane])?),
        borrowing: false,
        buffering: false,
        max_requests: 0,
        max_bytes: 0,
        run_calls: MAX_RUN_CALLS,
        run_bytes: MAX_RUN_BYTES,
    })
}

/// The adapter `main`.
pub fn adapter(alloc: Global) -> Result<AdapterSpec, NoMemory>
    ensures { IfOk result (λ a. a ≡ built_in_adapter) }
{
    let name = text(alloc, b"main")?;
    Ok(AdapterSpec {
        name,
        model: PriorityModel::ClientPropagated,
        priority: priority(),
        bands: List::new(alloc),
        inbound: Transform::none(alloc),
    })
}

/// The object of the first adapter with this key and this interface.
fn first_object(alloc: Global, key: &[u8], interface: &[u8]) -> Result<ObjectSpec, NoMemory>
    ensures { IfOk result (λ o. o ≡ record { key = key.now; adapter = 0; interface = interface.now; priority = 100 }) }
{
    let key = text(alloc, key)?;
    let interface = text(alloc, interface)?;
    Ok(ObjectSpec {
        key,
        adapter: 0,
        interface,
        priority: priority(),
    })
}

/// The object `ping`.
pub fn object(alloc: Global) -> Result<ObjectSpec, NoMemory>
    ensures { IfOk result (λ o. o ≡ built_in_object) }
{
    first_object(alloc, b"ping", b"IDL:Orb/Ping:1.0")
}

/// The object of the name service.
pub fn names(alloc: Global) -> Result<ObjectSpec, NoMemory>
    ensures { IfOk result (λ o. o ≡ names_object) }
{
    first_object(alloc, b"NameService", b"IDL:Orb/Names:1.0")
}
