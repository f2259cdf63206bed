//! What a declared thing declares beside itself.
ghost use Rattle.std.specs.Prelude.{◌≡◌, OnOk};
ghost use Rattle.cdr_values.specs.Kinds.{kind_of};
ghost use Rattle.idl_types.specs.Things.{id_of};
ghost use Rattle.idl_types.specs.Views.{thing_of};
ghost use Rattle.script_names.specs.Paths.{around};
ghost use Rattle.script_names.specs.Meanings.{first_or_file, type_parts, parts_of, modules_of};
ghost use Rattle.script_names.specs.Views.{pairs_of, with_pairs};

use crate::meaning::Meaning;
use crate::paths::path_of;
use crate::putting::{put_cases, put_labels, put_members, put_modules, put_operations};
use cdr_values::IdlType;
use idl_types::Declaration;
use indexmap::IndexMap;
use orb_base::NoMemory;
use std::alloc::Global;

/// The path of the scope around a path; the file's is empty. Takes no memory.
fn outer(path: &[u8]) -> &[u8]
    ensures { result.now ≡ first_or_file (around path.now) }
{
    let mut rest = path;
    while let [front @ .., last] = rest {
        if *last == b'/' {
            return front;
        }
        rest = front;
    }
    b"".as_slice()
}

/// Puts what the type of an id, at a place, declares beside it.
fn put_type_parts(
    alloc: Global,
    index: &mut IndexMap<Vec<u8>, Meaning>,
    id: &[u8],
    kind: &IdlType,
    place: usize,
) -> Result<(), NoMemory>
    ensures { OnOk result (pairs_of index.new.entries ≡ with_pairs (pairs_of index.old.entries) (type_parts place id.now (kind_of kind.now))) }
{
    match kind {
        IdlType::Enum(name, labels) => {
            if name.as_slice() != id {
                return Ok(());
            }
            put_labels(alloc, index, outer(path_of(id)), labels.as_slice(), place)
        }
        IdlType::Struct(name, members) => {
            if name.as_slice() != id {
                return Ok(());
            }
            put_members(alloc, index, path_of(id), members)
        }
        IdlType::Union(name, _, cases) => {
            if name.as_slice() != id {
                return Ok(());
            }
            put_cases(alloc, index, path_of(id), cases)
        }
        IdlType::Boolean => Ok(()),
        IdlType::Octet => Ok(()),
        IdlType::Char => Ok(()),
        IdlType::Short => Ok(()),
        IdlType::UShort => Ok(()),
        IdlType::Long => Ok(()),
        IdlType::ULong => Ok(()),
        IdlType::LongLong => Ok(()),
        IdlType::ULongLong => Ok(()),
        IdlType::Words(_) => Ok(()),
        IdlType::Seq(_, _) => Ok(()),
        IdlType::Array(_, _) => Ok(()),
    }
}

/// Puts what the declaration at a place declares beside itself.
fn put_parts(
    alloc: Global,
    index: &mut IndexMap<Vec<u8>, Meaning>,
    declaration: &Declaration,
    place: usize,
) -> Result<(), NoMemory>
    ensures { OnOk result (pairs_of index.new.entries ≡ with_pairs (pairs_of index.old.entries) (parts_of place (thing_of declaration.now))) }
{
    match declaration {
        Declaration::Constant(_) => Ok(()),
        Declaration::Named(named) => {
            put_type_parts(alloc, index, named.id.as_slice(), &named.kind, place)
        }
        Declaration::Exception(exception) => put_members(
            alloc,
            index,
            path_of(exception.id.as_slice()),
            exception.members.as_slice(),
        ),
        Declaration::Interface(interface) => put_operations(
            alloc,
            index,
            path_of(interface.id.as_slice()),
            interface.operations.as_slice(),
        ),
    }
}

/// Puts what the declaration at a place declares beside itself, then the modules around it.
pub(crate) fn put_beside(
    alloc: Global,
    index: &mut IndexMap<Vec<u8>, Meaning>,
    declaration: &Declaration,
    place: usize,
) -> Result<(), NoMemory>
    ensures { OnOk result (pairs_of index.new.entries
        ≡ with_pairs (with_pairs (pairs_of index.old.entries) (parts_of place (thing_of declaration.now))) (modules_of (id_of (thing_of declaration.now)))) }
{
    put_parts(alloc, index, declaration, place)?;
    put_modules(alloc, index, declaration.id().as_slice())
}
