//! The bases and operations of an interface.
ghost use Rattle.std.specs.Prelude.{◌≡◌, ◌++◌, IfOk, OnOk, map, slice_get};
ghost use Rattle.idl_scopes.specs.Ids as ids;
ghost use Rattle.idl_scopes.specs.Views.{table_of};
ghost use Rattle.idl_types.specs.Views.{operation_of};
ghost use Rattle.idl_names.specs.Changes.{thing_in};
ghost use Rattle.idl_names.specs.Views.{thing_of};
ghost use Rattle.idl_reader.specs.Declared.{ids_at, operations_at, operations_of};

use crate::copies::copy_operation;
use idl_names::Thing;
use idl_scopes::Scopes;
use idl_types::Operation;
use orb_base::{List, NoMemory, Text};
use std::alloc::Global;

/// The repository id of the declaration at a place. No name has a NUL; one that had would be given as out of memory.
pub(crate) fn id_text(scopes: &Scopes, at: usize) -> Result<Text, NoMemory>
    ensures { IfOk result (λ t. t ≡ ids.id_of (table_of scopes.now) at) }
{
    match Text::from_vec(scopes.id_of(at)?) {
        Ok(text) => Ok(text),
        Err(_) => Err(NoMemory),
    }
}

/// The ids of the declarations at these places.
pub(crate) fn ids_of(alloc: Global, scopes: &Scopes, places: &[u32]) -> Result<List<Text>, NoMemory>
    ensures { IfOk result (λ l. l.items ≡ ids_at (table_of scopes.now) places.now) }
{
    let mut ids = Vec::new(alloc);
    for place in places {
        ids.push(id_text(scopes, *place as usize)?)?;
    }
    Ok(List::from_vec(ids))
}

/// Copies of operations after others.
fn add_copies(
    alloc: Global,
    found: &mut Vec<Operation>,
    operations: &[Operation],
) -> Result<(), NoMemory>
    ensures { OnOk result (map operation_of found.new.items ≡ map operation_of found.old.items ++ map operation_of operations.now) }
{
    for operation in operations {
        found.push(copy_operation(alloc, operation)?)?;
    }
    Ok(())
}

/// Copies of the operations that a name stands for, after others.
fn add_operations(alloc: Global, found: &mut Vec<Operation>, thing: &Thing) -> Result<(), NoMemory>
    ensures { OnOk result (map operation_of found.new.items ≡ map operation_of found.old.items ++ operations_of (thing_of thing.now)) }
{
    match thing {
        Thing::Operations(operations, _) => add_copies(alloc, found, operations),
        _ => Ok(()),
    }
}

/// Copies of the operations of the name at a place, after others.
fn add_operations_at(
    alloc: Global,
    found: &mut Vec<Operation>,
    things: &[Thing],
    at: u32,
) -> Result<(), NoMemory>
    ensures { OnOk result (map operation_of found.new.items
        ≡ map operation_of found.old.items ++ operations_of (thing_in (slice_get (map thing_of things.now) at))) }
{
    match things.get(at as usize) {
        Some(thing) => add_operations(alloc, found, thing),
        None => Ok(()),
    }
}

/// Copies of the operations of the names at these places, in order.
pub(crate) fn operations_in(
    alloc: Global,
    things: &[Thing],
    places: &[u32],
) -> Result<List<Operation>, NoMemory>
    ensures { IfOk result (λ l. map operation_of l.items ≡ operations_at (map thing_of things.now) places.now) }
{
    let mut found = Vec::new(alloc);
    for place in places {
        add_operations_at(alloc, &mut found, things, *place)?;
    }
    Ok(List::from_vec(found))
}
