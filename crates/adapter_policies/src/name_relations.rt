//! What holds between the names of a configuration.
ghost use Rattle.std.specs.Prelude.{◌≡◌, ◌&&◌, not, position};
ghost use Rattle.std.specs.List.{list_any};
ghost use Rattle.config_tables.specs.Fault.{Judged};
ghost use Rattle.adapter_policies.specs.NameRelations.{duplicate_fault, unknown_adapter_fault, not_allowed_fault, is_named, is_stray, is_too_many, propagates};

use crate::adapter::AdapterTable;
use crate::clashes::first_clash;
use crate::object::ObjectTable;
use crate::refusals::refuse_entry_key;
use config_tables::{ConfigCause, SetupError};
use orb_base::{PriorityModel, Text};
use std::alloc::Global;

/// Judges that no two adapters have one name, and no two objects one key.
#[tactic(auto, using(config_tables::proofs::Judging::refuses_first, config_tables::proofs::Judging::refuses_later))]
pub fn judge_duplicates(
    alloc: Global,
    adapters: &[AdapterTable],
    objects: &[ObjectTable],
) -> Result<(), SetupError>
    ensures { Judged result (duplicate_fault adapters.now objects.now) }
{
    let adapter = first_clash(adapters);
    refuse_entry_key(alloc, "adapter", "name", ConfigCause::Duplicate, adapter)?;
    let object = first_clash(objects);
    refuse_entry_key(alloc, "object", "key", ConfigCause::Duplicate, object)
}

/// Judges that each object's adapter is there.
pub fn judge_adapters_named(
    alloc: Global,
    adapters: &[AdapterTable],
    objects: &[ObjectTable],
) -> Result<(), SetupError>
    ensures { Judged result (unknown_adapter_fault adapters.now objects.now) }
{
    let found = first_stray(adapters, objects);
    refuse_entry_key(
        alloc,
        "object",
        "adapter",
        ConfigCause::UnknownAdapter,
        found,
    )
}

/// Judges that an object has a priority of its own only under an adapter that declares priorities.
pub fn judge_own_priorities(
    alloc: Global,
    adapters: &[AdapterTable],
    objects: &[ObjectTable],
) -> Result<(), SetupError>
    ensures { Judged result (not_allowed_fault adapters.now objects.now) }
{
    let found = first_not_allowed(adapters, objects);
    refuse_entry_key(
        alloc,
        "object",
        "priority",
        ConfigCause::PriorityNotAllowed,
        found,
    )
}

/// The number of the first object whose adapter isn't there. The work is the number of objects times that of adapters, of
/// which there are at most 64.
fn first_stray(adapters: &[AdapterTable], objects: &[ObjectTable]) -> Option<usize>
    ensures { result ≡ position (is_stray adapters.now) objects.now }
{
    objects
        .iter()
        .position(|object| !is_one(adapters, &object.adapter))
}

/// Whether an adapter has a name.
fn is_one(adapters: &[AdapterTable], name: &Text) -> bool
    ensures { result ≡ list_any (is_named name.now) adapters.now }
{
    adapters.iter().any(|adapter| is_named(adapter, name))
}

/// Whether this adapter has a name.
pub fn is_named(adapter: &AdapterTable, name: &Text) -> bool
    ensures { result ≡ is_named name.now adapter.now }
{
    adapter.name == *name
}

/// The number of the first object that has a priority of its own, which its adapter does not allow.
fn first_not_allowed(adapters: &[AdapterTable], objects: &[ObjectTable]) -> Option<usize>
    ensures { result ≡ position (is_too_many adapters.now) objects.now }
{
    objects.iter().position(|object| object.priority.is_some()
        && is_propagated(adapters, &object.adapter))
}

/// Whether an adapter of a name lets the client's priority stand.
fn is_propagated(adapters: &[AdapterTable], name: &Text) -> bool
    ensures { result ≡ list_any (λ a. is_named name.now a && propagates a.model) adapters.now }
{
    adapters
        .iter()
        .any(|adapter| is_named(adapter, name) && lets_stand(adapter))
}

/// Whether this adapter lets the client's priority stand.
pub fn lets_stand(adapter: &AdapterTable) -> bool
    ensures { result ≡ propagates adapter.now.model }
{
    propagates(adapter.model)
}

/// Whether a model lets the client's priority stand.
fn propagates(model: PriorityModel) -> bool
    ensures { result ≡ propagates model }
{
    match model {
        PriorityModel::ClientPropagated => true,
        PriorityModel::ServerDeclared => false,
    }
}
