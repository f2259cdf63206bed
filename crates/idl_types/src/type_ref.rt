//! References to types inside a repository.
ghost use Rattle.std.specs.Prelude.{◌≡◌, map, slice_get};
ghost use Rattle.std.specs.Option.{option_copied, option_map, option_and_then};
ghost use Rattle.cdr_values.specs.Trees.{members_of};
ghost use Rattle.cdr_values.specs.Kinds.{kind_of, members_view};
ghost use Rattle.idl_types.specs.Views.{thing_of, operation_of, param_of};
ghost use Rattle.idl_types.specs.References.{element_kind, part_kind, member_kind, members_in};

use crate::declaration::Declaration;
use crate::operation::Operation;
use crate::param::Param;
use cdr_values::{IdlType, Member};

/// A part of a declared thing that has a type.
#[derive(Clone, Copy, Debug, PartialEq, Eq)]
pub enum Part {
    /// The type that is named, or the type of a constant.
    Whole,
    /// The member at an index, of a struct or an exception.
    Member(u32),
    /// The result of the operation at an index, of an interface.
    Outcome(u32),
    /// A parameter: the index of the operation, and its own.
    Parameter(u32, u32),
}

/// A reference to a type, in place of a copy: which declared thing, by its place in order of declaration, which part
/// of it, and how many steps into the elements of sequences and arrays.
#[derive(Clone, Copy, Debug, PartialEq, Eq)]
pub struct TypeRef {
    pub place: u32,
    pub part: Part,
    pub steps: u32,
}

/// The type of a part, so many steps into its elements.
pub(crate) fn part_element(declaration: &Declaration, part: Part, steps: u32) -> Option<&IdlType>
    ensures { option_map kind_of (option_copied result) ≡ option_and_then (element_kind steps) (part_kind part (thing_of declaration.now)) }
{
    match part_type(declaration, part) {
        Some(kind) => element_type(kind, steps),
        None => None,
    }
}

/// The type of a part.
fn part_type(declaration: &Declaration, part: Part) -> Option<&IdlType>
    ensures { option_map kind_of (option_copied result) ≡ part_kind part (thing_of declaration.now) }
{
    match part {
        Part::Whole => whole_type(declaration),
        Part::Member(at) => member_type(declaration, at as usize),
        Part::Outcome(at) => result_type(declaration, at as usize),
        Part::Parameter(at, param) => param_type(declaration, at as usize, param as usize),
    }
}

fn whole_type(declaration: &Declaration) -> Option<&IdlType>
    ensures { option_map kind_of (option_copied result) ≡ part_kind Part.Whole (thing_of declaration.now) }
{
    match declaration {
        Declaration::Constant(constant) => Some(&constant.kind),
        Declaration::Named(named) => Some(&named.kind),
        _ => None,
    }
}

fn member_type(declaration: &Declaration, at: usize) -> Option<&IdlType>
    ensures { option_map kind_of (option_copied result) ≡ part_kind (Part.Member at) (thing_of declaration.now) }
{
    match declaration {
        Declaration::Named(named) => struct_member(&named.kind, at),
        Declaration::Exception(exception) => member_at(exception.members.as_slice(), at),
        _ => None,
    }
}

fn struct_member(kind: &IdlType, at: usize) -> Option<&IdlType>
    ensures { option_map kind_of (option_copied result) ≡ member_kind at (members_in (kind_of kind.now)) }
{
    member_at(struct_members(kind), at)
}

/// The members of a struct.
fn struct_members(kind: &IdlType) -> &[Member]
    ensures { members_of (members_view result.now) ≡ members_in (kind_of kind.now) }
{
    match kind {
        IdlType::Struct(_, members) => members.as_slice(),
        _ => &[],
    }
}

fn member_at(members: &[Member], at: usize) -> Option<&IdlType>
    ensures { option_map kind_of (option_copied result) ≡ option_map (λ m. m.1) (slice_get (members_view members.now) at) }
{
    match member_in(members, at) {
        Some(member) => Some(&member.kind),
        None => None,
    }
}

fn member_in(members: &[Member], at: usize) -> Option<&Member>
    ensures { option_copied result ≡ slice_get members.now at }
{
    members.get(at)
}

fn result_type(declaration: &Declaration, at: usize) -> Option<&IdlType>
    ensures { option_map kind_of (option_copied result) ≡ part_kind (Part.Outcome at) (thing_of declaration.now) }
{
    match declaration {
        Declaration::Interface(interface) => result_at(interface.operations.as_slice(), at),
        _ => None,
    }
}

fn result_at(operations: &[Operation], at: usize) -> Option<&IdlType>
    ensures { option_map kind_of (option_copied result) ≡ option_and_then (λ o. o.result) (slice_get (map operation_of operations.now) at) }
{
    match operations.get(at) {
        Some(operation) => operation.result.as_ref(),
        None => None,
    }
}

fn param_type(declaration: &Declaration, at: usize, param: usize) -> Option<&IdlType>
    ensures { option_map kind_of (option_copied result) ≡ part_kind (Part.Parameter at param) (thing_of declaration.now) }
{
    match declaration {
        Declaration::Interface(interface) => param_at(interface.operations.as_slice(), at, param),
        _ => None,
    }
}

fn param_at(operations: &[Operation], at: usize, param: usize) -> Option<&IdlType>
    ensures { option_map kind_of (option_copied result)
        ≡ option_and_then (λ o. option_map (λ p. p.kind) (slice_get o.params param)) (slice_get (map operation_of operations.now) at) }
{
    match operations.get(at) {
        Some(operation) => param_kind(operation.params.as_slice(), param),
        None => None,
    }
}

fn param_kind(params: &[Param], at: usize) -> Option<&IdlType>
    ensures { option_map kind_of (option_copied result) ≡ option_map (λ p. p.kind) (slice_get (map param_of params.now) at) }
{
    match params.get(at) {
        Some(param) => Some(&param.kind),
        None => None,
    }
}

/// The type of the elements, so many steps into sequences and arrays.
fn element_type(kind: &IdlType, steps: u32) -> Option<&IdlType>
    ensures { option_map kind_of (option_copied result) ≡ element_kind steps (kind_of kind.now) }
{
    if steps == 0 {
        return Some(kind);
    }
    match kind {
        IdlType::Seq(element, _) => element_type(element, steps - 1),
        IdlType::Array(element, _) => element_type(element, steps - 1),
        _ => None,
    }
}
