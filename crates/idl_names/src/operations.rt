//! Operations, and those that attributes are.
ghost use Rattle.std.specs.Prelude.{◌≡◌, ◌++◌, IfOk, OnOk, true, false};
ghost use Rattle.cdr_values.specs.Kinds.{kind_of};
ghost use Rattle.idl_names.specs.Each as each;
ghost use Rattle.idl_names.specs.Interfaces as Spec;
ghost use Rattle.idl_names.specs.Views.{parts_of, sized_of, thing_of};
ghost use Rattle.idl_types.specs.Views.{operation_of};

use crate::each::add_places;
use crate::sizes::{SizedType, plus, times};
use crate::state::{Parts, Thing};
use crate::texts::{text_from, text_of};
use cdr_values::{IdlType, copy_type};
use idl_types::{Operation, Param, Way};
use indexmap::IndexSet;
use orb_base::{List, NoMemory, Text};
use std::alloc::Global;

/// Whether a thing is an interface.
pub(crate) fn is_interface(thing: &Thing) -> bool
    ensures { result ≡ Spec.is_interface (thing_of thing.now) }
{
    match thing {
        Thing::Interface(_, _) => true,
        _ => false,
    }
}

/// Whether a thing is an exception.
pub(crate) fn is_exception(thing: &Thing) -> bool
    ensures { result ≡ Spec.is_exception (thing_of thing.now) }
{
    match thing {
        Thing::Exception(_) => true,
        _ => false,
    }
}

/// The leaves of an operation, or of those of an attribute.
pub(crate) fn operation_leaves(thing: &Thing) -> u32
    ensures { result ≡ Spec.operation_leaves (thing_of thing.now) }
{
    match thing {
        Thing::Operations(_, leaves) => *leaves,
        _ => 0,
    }
}

/// The operations that a base gives, after others.
pub(crate) fn add_operations(found: &mut IndexSet<u32>, thing: &Thing) -> Result<(), NoMemory>
    ensures { OnOk result (found.new.keys ≡ each.and_each found.old.keys (Spec.operations_in (thing_of thing.now))) }
{
    match thing {
        Thing::Interface(_, operations) => add_places(found, operations),
        _ => Ok(()),
    }
}

/// An interface has one operation more.
pub(crate) fn and_operation(thing: &mut Thing, at: u32) -> Result<(), NoMemory>
    ensures { OnOk result (thing_of thing.new ≡ Spec.and_operation at (thing_of thing.old)) }
{
    match thing {
        Thing::Interface(_, operations) => {
            operations.push(at)?;
            Ok(())
        }
        _ => Ok(()),
    }
}

/// Whether a parameter only goes in.
pub(crate) fn is_input(way: Way) -> bool
    ensures { result ≡ Spec.is_input way }
{
    match way {
        Way::Input => true,
        Way::Output => false,
        Way::Both => false,
    }
}

/// An operation of this name, with the parts that were read.
pub(crate) fn operation_of(name: Text, parts: Parts) -> Operation
    ensures { operation_of result ≡ Spec.operation_of name (parts_of parts) }
{
    Operation {
        name,
        oneway: parts.oneway,
        result: parts.result,
        params: parts.params,
        raises: parts.raises,
    }
}

/// A name after a prefix.
fn prefixed(alloc: Global, prefix: &[u8], name: &[u8]) -> Result<Text, NoMemory>
    ensures { IfOk result (λ t. t ≡ prefix.now ++ name.now) }
{
    let mut text = Vec::from_slice(alloc, prefix)?;
    text.extend_from_slice(name)?;
    text_from(text)
}

/// The operation that gives an attribute.
fn getter(alloc: Global, name: &[u8], kind: &IdlType) -> Result<Operation, NoMemory>
    ensures { IfOk result (λ o. operation_of o ≡ Spec.getter name.now (kind_of kind.now)) }
{
    Ok(Operation {
        name: prefixed(alloc, b"_get_", name)?,
        oneway: false,
        result: Some(copy_type(alloc, kind)?),
        params: List::new(alloc),
        raises: List::new(alloc),
    })
}

/// The operation that takes an attribute.
fn setter(alloc: Global, name: &[u8], kind: &IdlType) -> Result<Operation, NoMemory>
    ensures { IfOk result (λ o. operation_of o ≡ Spec.setter name.now (kind_of kind.now)) }
{
    let mut params = Vec::new(alloc);
    params.push(Param {
        way: Way::Input,
        name: text_of(alloc, name)?,
        kind: copy_type(alloc, kind)?,
    })?;
    Ok(Operation {
        name: prefixed(alloc, b"_set_", name)?,
        oneway: false,
        result: None,
        params: List::from_vec(params),
        raises: List::new(alloc),
    })
}

/// The operations of an attribute that is readonly.
fn readonly_attribute(alloc: Global, name: &[u8], kind: &SizedType) -> Result<Thing, NoMemory>
    ensures { IfOk result (λ t. thing_of t ≡ Spec.attribute_of true name.now (sized_of kind.now)) }
{
    let mut operations = Vec::new(alloc);
    operations.push(getter(alloc, name, &kind.kind)?)?;
    Ok(Thing::Operations(operations, plus(kind.leaves, 1)))
}

/// The operations of an attribute that may be set.
fn settable_attribute(alloc: Global, name: &[u8], kind: &SizedType) -> Result<Thing, NoMemory>
    ensures { IfOk result (λ t. thing_of t ≡ Spec.attribute_of false name.now (sized_of kind.now)) }
{
    let mut operations = Vec::new(alloc);
    operations.push(getter(alloc, name, &kind.kind)?)?;
    operations.push(setter(alloc, name, &kind.kind)?)?;
    let leaves = times(2, plus(kind.leaves, 1));
    Ok(Thing::Operations(operations, leaves))
}

/// The operations of an attribute.
pub(crate) fn attribute_of(
    alloc: Global,
    readonly: bool,
    name: &[u8],
    kind: &SizedType,
) -> Result<Thing, NoMemory>
    ensures { IfOk result (λ t. thing_of t ≡ Spec.attribute_of readonly name.now (sized_of kind.now)) }
{
    if readonly {
        readonly_attribute(alloc, name, kind)
    } else {
        settable_attribute(alloc, name, kind)
    }
}
