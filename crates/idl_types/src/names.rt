//! What the name service declares: `module Orb { exception NotFound { }; exception AlreadyBound { }; exception NoRoom { };
//! interface Names { void bind(in string key, in string target) raises (AlreadyBound, NoRoom);
//! void rebind(in string key, in string target) raises (NoRoom); string resolve(in string key) raises (NotFound);
//! void unbind(in string key) raises (NotFound); string next(in string after) raises (NotFound); unsigned long size(); }; };`
ghost use Rattle.std.specs.Prelude.{◌≡◌, ◌∷◌, [], map, IfOk, option_map};
ghost use Rattle.cdr_values.specs.Kinds.{kind_of};
ghost use Rattle.idl_types.specs.BuiltIn as built_in;
ghost use Rattle.idl_types.specs.Sound.{not_found_id, already_bound_id, no_room_id};
ghost use Rattle.idl_types.specs.Views.{thing_of, operation_of, param_of};

use crate::declaration::Declaration;
use crate::exception::Exception;
use crate::interface::Interface;
use crate::operation::Operation;
use crate::param::Param;
use crate::ping::named;
use crate::way::Way;
use cdr_values::IdlType;
use orb_base::{List, NoMemory, Text};
use std::alloc::Global;

/// The ids of the interface and of its exceptions.
const NAMES_ID: &[u8] = b"IDL:Orb/Names:1.0";

const NOT_FOUND_ID: &[u8] = b"IDL:Orb/NotFound:1.0";

const ALREADY_BOUND_ID: &[u8] = b"IDL:Orb/AlreadyBound:1.0";

const NO_ROOM_ID: &[u8] = b"IDL:Orb/NoRoom:1.0";

/// Strings without a NUL.
fn texts(alloc: Global, all: &[&[u8]]) -> Result<List<Text>, NoMemory>
    ensures { IfOk result (λ l. l.items ≡ map (λ b. b.now) all.now) }
{
    let mut texts = Vec::new(alloc);
    for bytes in all {
        texts.push(named(alloc, bytes)?)?;
    }
    Ok(List::from_vec(texts))
}

/// Parameters that are strings, by their names.
fn strings_in(alloc: Global, names: &[&[u8]]) -> Result<List<Param>, NoMemory>
    ensures { IfOk result (λ l. map param_of l.items ≡ map built_in.string_in (map (λ b. b.now) names.now)) }
{
    let mut params = Vec::new(alloc);
    for name in names {
        params.push(Param {
            way: Way::Input,
            name: named(alloc, name)?,
            kind: IdlType::Words(0),
        })?;
    }
    Ok(List::from_vec(params))
}

/// An operation by its name, its result, the names of its strings and the ids of what it raises.
fn operation(
    alloc: Global,
    name: &[u8],
    gives: Option<IdlType>,
    params: &[&[u8]],
    raises: &[&[u8]],
) -> Result<Operation, NoMemory>
    ensures { IfOk result (λ o. operation_of o ≡ built_in.names_operation name.now (option_map kind_of gives) (map (λ b. b.now) params.now) (map (λ b. b.now) raises.now)) }
{
    Ok(Operation {
        name: named(alloc, name)?,
        oneway: false,
        result: gives,
        params: strings_in(alloc, params)?,
        raises: texts(alloc, raises)?,
    })
}

/// The operations of the interface, in order.
fn operations(alloc: Global) -> Result<List<Operation>, NoMemory>
    ensures { IfOk result (λ l. map operation_of l.items ≡ built_in.names_operations) }
{
    let mut all = Vec::new(alloc);
    all.push(operation(
        alloc,
        b"bind",
        None,
        &[b"key", b"target"],
        &[ALREADY_BOUND_ID, NO_ROOM_ID],
    )?)?;
    all.push(operation(alloc, b"rebind", None, &[b"key", b"target"], &[NO_ROOM_ID])?)?;
    all.push(operation(
        alloc,
        b"resolve",
        Some(IdlType::Words(0)),
        &[b"key"],
        &[NOT_FOUND_ID],
    )?)?;
    all.push(operation(alloc, b"unbind", None, &[b"key"], &[NOT_FOUND_ID])?)?;
    all.push(operation(
        alloc,
        b"next",
        Some(IdlType::Words(0)),
        &[b"after"],
        &[NOT_FOUND_ID],
    )?)?;
    all.push(operation(alloc, b"size", Some(IdlType::ULong), &[], &[])?)?;
    Ok(List::from_vec(all))
}

/// The interface.
pub(crate) fn names(alloc: Global) -> Result<Declaration, NoMemory>
    ensures { IfOk result (λ d. thing_of d ≡ built_in.names) }
{
    Ok(Declaration::Interface(Interface {
        id: named(alloc, NAMES_ID)?,
        bases: List::new(alloc),
        operations: operations(alloc)?,
    }))
}

/// An exception without members.
fn bare_exception(alloc: Global, id: &[u8]) -> Result<Declaration, NoMemory>
    ensures { IfOk result (λ d. thing_of d ≡ built_in.bare_exception id.now) }
{
    Ok(Declaration::Exception(Exception {
        id: named(alloc, id)?,
        members: List::new(alloc),
    }))
}

/// The exception of a key that isn't there.
pub(crate) fn not_found(alloc: Global) -> Result<Declaration, NoMemory>
    ensures { IfOk result (λ d. thing_of d ≡ built_in.bare_exception not_found_id) }
{
    bare_exception(alloc, NOT_FOUND_ID)
}

/// The exception of a key that is there.
pub(crate) fn already_bound(alloc: Global) -> Result<Declaration, NoMemory>
    ensures { IfOk result (λ d. thing_of d ≡ built_in.bare_exception already_bound_id) }
{
    bare_exception(alloc, ALREADY_BOUND_ID)
}

/// The exception of a map that is full.
pub(crate) fn no_room(alloc: Global) -> Result<Declaration, NoMemory>
    ensures { IfOk result (λ d. thing_of d ≡ built_in.bare_exception no_room_id) }
{
    bare_exception(alloc, NO_ROOM_ID)
}
