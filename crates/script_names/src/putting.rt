//! Putting ids into the index, each where it isn't there yet.
ghost use Rattle.std.specs.Prelude.{◌≡◌, OnOk, [], map};
ghost use Rattle.cdr_values.specs.Kinds.{members_view, cases_view};
ghost use Rattle.cdr_values.specs.Trees.{members_of, cases_of};
ghost use Rattle.cdr_values.specs.Lawful.{member_names};
ghost use Rattle.idl_types.specs.Apart.{case_names};
ghost use Rattle.idl_types.specs.Names.{operation_names};
ghost use Rattle.idl_types.specs.Views.{operation_of};
ghost use Rattle.script_names.specs.Paths.{id_in, around, path_of};
ghost use Rattle.script_names.specs.Meanings.{unused, enumerators, declared_name, modules_of};
ghost use Rattle.script_names.specs.Views.{pairs_of, with_pair, with_pairs};
ghost use Rattle.script_names.specs.declared.meaning.Meaning.TheVariants as means;

use crate::meaning::Meaning;
use crate::paths::{declared_name, id_in, path_of};
use cdr_values::{Case, Member};
use idl_types::Operation;
use indexmap::IndexMap;
use orb_base::{NoMemory, Text};
use std::alloc::Global;

/// Puts an id with what it stands for after the others, unless it is there. One hash.
pub(crate) fn put(
    index: &mut IndexMap<Vec<u8>, Meaning>,
    id: Vec<u8>,
    meaning: Meaning,
) -> Result<(), NoMemory>
    ensures { OnOk result (pairs_of index.new.entries ≡ with_pair (pairs_of index.old.entries) (id.items, meaning)) }
{
    if index.contains_key(id.as_slice()) {
        return Ok(());
    }
    index.insert(id, meaning)?;
    Ok(())
}

/// Puts a name of a scope that stands for nothing that a script names.
fn put_unused(
    alloc: Global,
    index: &mut IndexMap<Vec<u8>, Meaning>,
    scope: &[u8],
    name: &[u8],
) -> Result<(), NoMemory>
    ensures { OnOk result (pairs_of index.new.entries ≡ with_pair (pairs_of index.old.entries) (id_in scope.now name.now, means.Other)) }
{
    let id = id_in(alloc, scope, name)?;
    put(index, id, Meaning::Other)
}

/// Puts the names of members.
pub(crate) fn put_members(
    alloc: Global,
    index: &mut IndexMap<Vec<u8>, Meaning>,
    scope: &[u8],
    members: &[Member],
) -> Result<(), NoMemory>
    ensures { OnOk result (pairs_of index.new.entries
        ≡ with_pairs (pairs_of index.old.entries) (unused scope.now (member_names (members_of (members_view members.now))))) }
{
    for member in members {
        put_unused(alloc, index, scope, member.name.as_slice())?;
    }
    Ok(())
}

/// Puts the names of the members of cases.
pub(crate) fn put_cases(
    alloc: Global,
    index: &mut IndexMap<Vec<u8>, Meaning>,
    scope: &[u8],
    cases: &[Case],
) -> Result<(), NoMemory>
    ensures { OnOk result (pairs_of index.new.entries
        ≡ with_pairs (pairs_of index.old.entries) (unused scope.now (case_names (cases_of (cases_view cases.now))))) }
{
    for case in cases {
        put_unused(alloc, index, scope, case.member.name.as_slice())?;
    }
    Ok(())
}

/// Puts the names of operations and attributes.
pub(crate) fn put_operations(
    alloc: Global,
    index: &mut IndexMap<Vec<u8>, Meaning>,
    scope: &[u8],
    operations: &[Operation],
) -> Result<(), NoMemory>
    ensures { OnOk result (pairs_of index.new.entries
        ≡ with_pairs (pairs_of index.old.entries) (unused scope.now (map declared_name (operation_names (map operation_of operations.now))))) }
{
    for operation in operations {
        put_unused(
            alloc,
            index,
            scope,
            declared_name(operation.name.as_slice()),
        )?;
    }
    Ok(())
}

/// Puts the enumerator of an enum at a place.
fn put_label(
    alloc: Global,
    index: &mut IndexMap<Vec<u8>, Meaning>,
    scope: &[u8],
    label: &[u8],
    place: usize,
    number: usize,
) -> Result<(), NoMemory>
    ensures { OnOk result (pairs_of index.new.entries ≡ with_pair (pairs_of index.old.entries) (id_in scope.now label.now, means.Enumerator place number)) }
{
    let id = id_in(alloc, scope, label)?;
    put(index, id, Meaning::Enumerator(place, number))
}

/// Puts the enumerators of the enum at a place.
pub(crate) fn put_labels(
    alloc: Global,
    index: &mut IndexMap<Vec<u8>, Meaning>,
    scope: &[u8],
    labels: &[Text],
    place: usize,
) -> Result<(), NoMemory>
    ensures { OnOk result (pairs_of index.new.entries
        ≡ with_pairs (pairs_of index.old.entries) (enumerators place scope.now 0 labels.now)) }
{
    for (number, label) in labels.iter().enumerate() {
        put_label(alloc, index, scope, label.as_slice(), place, number)?;
    }
    Ok(())
}

/// Puts the modules around an id.
pub(crate) fn put_modules(
    alloc: Global,
    index: &mut IndexMap<Vec<u8>, Meaning>,
    id: &[u8],
) -> Result<(), NoMemory>
    ensures { OnOk result (pairs_of index.new.entries ≡ with_pairs (pairs_of index.old.entries) (modules_of id.now)) }
{
    put_around(alloc, index, path_of(id))
}

/// Puts the modules around a path, from the inside out.
fn put_around(
    alloc: Global,
    index: &mut IndexMap<Vec<u8>, Meaning>,
    path: &[u8],
) -> Result<(), NoMemory>
    ensures { OnOk result (pairs_of index.new.entries ≡ with_pairs (pairs_of index.old.entries) (unused [] (around path.now))) }
{
    let mut rest = path;
    while let [front @ .., last] = rest {
        if *last == b'/' {
            put_unused(alloc, index, b"".as_slice(), front)?;
        }
        rest = front;
    }
    Ok(())
}
