//! Whether a declaration keeps by itself what a repository keeps.
ghost use Rattle.std.specs.Prelude.{◌≡◌, ◌&&◌, ◌++◌, ◌∷◌, [], not, IfOk, map};
ghost use Rattle.std.specs.Bool.{OnTrue};
ghost use Rattle.std.specs.List.{list_all, list_any};
ghost use Rattle.std.specs.Option.{option_map};
ghost use Rattle.std.specs.Str.{bytes_eq, str_eq_ignore_ascii_case};
ghost use Rattle.cdr_values.specs.Lawful as law;
ghost use Rattle.cdr_values.specs.Trees.{members_of};
ghost use Rattle.cdr_values.specs.Kinds.{kind_of, members_view};
ghost use Rattle.idl_types.specs.Names.{names_in, operation_names};
ghost use Rattle.idl_types.specs.Views.{thing_of, operation_of, param_of};
ghost use Rattle.idl_types.specs.Sound.{is_sound_type, is_sound_result, is_sound_operation, are_sound_members, is_sound_thing};
ghost use Rattle.idl_types.specs.Apart.{are_apart};

use crate::apart::{are_told_apart, is_told_apart};
use crate::declaration::Declaration;
use crate::folding::is_same_name;
use crate::leaves::{spend, spend_members};
use crate::levels::{are_within_levels, is_within_levels};
use crate::operation::Operation;
use crate::param::Param;
use cdr_values::{IdlType, Member, are_lawful, is_lawful};
use indexmap::IndexSet;
use orb_base::{NoMemory, Text};
use std::alloc::Global;

/// The leaves that a type may have.
const MOST_LEAVES: u32 = 65_536;

/// The levels that a type may have.
const MOST_LEVELS: u32 = 64;

/// Whether the types of a declaration are sound and the names in it told apart.
pub(crate) fn is_sound(alloc: Global, declaration: &Declaration) -> Result<bool, NoMemory>
    ensures { IfOk result (λ b. b ≡ is_sound_thing (thing_of declaration.now)) }
{
    match declaration {
        Declaration::Constant(constant) => Ok(is_sound_kind(&constant.kind)),
        Declaration::Named(named) => Ok(is_sound_kind(&named.kind)),
        Declaration::Exception(exception) => Ok(are_sound(exception.members.as_slice())),
        Declaration::Interface(interface) => are_sound_operations(
            alloc,
            interface.operations.as_slice(),
        ),
    }
}

fn is_sound_kind(kind: &IdlType) -> bool
    ensures { result ≡ is_sound_type (kind_of kind.now) }
{
    if !is_lawful(kind) {
        return false;
    }
    if !is_told_apart(kind) {
        return false;
    }
    if spend(kind, MOST_LEAVES).is_none() {
        return false;
    }
    is_within_levels(kind, MOST_LEVELS)
}

fn are_sound(members: &[Member]) -> bool
    ensures { result ≡ are_sound_members (members_view members.now) }
{
    if !are_lawful(members) {
        return false;
    }
    if !are_told_apart(members) {
        return false;
    }
    if spend_members(members, MOST_LEAVES).is_none() {
        return false;
    }
    are_within_levels(members, MOST_LEVELS)
}

fn are_sound_operations(alloc: Global, operations: &[Operation]) -> Result<bool, NoMemory>
    ensures { IfOk result (λ b. b ≡ (list_all is_sound_operation (map operation_of operations.now) && law.differ bytes_eq (operation_names (map operation_of operations.now)))) }
{
    if !each_is_sound(operations) {
        return Ok(false);
    }
    operations_differ(alloc, operations)
}

fn each_is_sound(operations: &[Operation]) -> bool
    ensures { result ≡ list_all is_sound_operation (map operation_of operations.now) }
{
    for operation in operations {
        if !operation_is_sound(operation) {
            return false;
        }
    }
    true
}

/// Whether no two operations have one name. Costs a hash for each.
fn operations_differ(alloc: Global, operations: &[Operation]) -> Result<bool, NoMemory>
    ensures { IfOk result (λ b. b ≡ law.differ bytes_eq (operation_names (map operation_of operations.now))) }
{
    let mut names = IndexSet::new(alloc);
    for operation in operations {
        if !put_if_new(alloc, &mut names, operation.name.as_slice())? {
            return Ok(false);
        }
    }
    Ok(true)
}

/// Puts a name after the others where it isn't there, and says whether it was put.
fn put_if_new(alloc: Global, names: &mut IndexSet<Vec<u8>>, name: &[u8]) -> Result<bool, NoMemory>
    ensures new { IfOk result (λ b. b ≡ not (list_any (bytes_eq name.now) (names_in names.old.keys))) }
    ensures put { IfOk result (λ b. OnTrue b (names_in names.new.keys ≡ names_in names.old.keys ++ name.now ∷ [])) }
{
    let name = Vec::from_slice(alloc, name)?;
    Ok(names.insert(name)?)
}

fn operation_is_sound(operation: &Operation) -> bool
    ensures { result ≡ is_sound_operation (operation_of operation.now) }
{
    if !result_is_sound(&operation.result) {
        return false;
    }
    if !params_are_sound(operation.params.as_slice()) {
        return false;
    }
    params_are_apart(operation.params.as_slice())
}

fn result_is_sound(kind: &Option<IdlType>) -> bool
    ensures { result ≡ is_sound_result (option_map kind_of kind.now) }
{
    match kind {
        Some(kind) => is_sound_kind(kind),
        None => true,
    }
}

fn params_are_sound(params: &[Param]) -> bool
    ensures { result ≡ list_all (λ p. is_sound_type p.kind) (map param_of params.now) }
{
    for param in params {
        if !is_sound_kind(&param.kind) {
            return false;
        }
    }
    true
}

fn params_are_apart(params: &[Param]) -> bool
    ensures { result ≡ are_apart (map (λ p. p.name) (map param_of params.now)) }
{
    let mut rest = params;
    while let [param, behind @ ..] = rest {
        if has_param(behind, &param.name) {
            return false;
        }
        rest = behind;
    }
    true
}

/// Whether a parameter has this name, case aside.
fn has_param(params: &[Param], name: &Text) -> bool
    ensures { result ≡ list_any (λ y. str_eq_ignore_ascii_case y name.now) (map (λ p. p.name) (map param_of params.now)) }
{
    any_is_like(params, name)
}

fn any_is_like(params: &[Param], name: &Text) -> bool
    ensures { result ≡ list_any (λ p. str_eq_ignore_ascii_case p.name name.now) params.now }
{
    params
        .iter()
        .any(|p| is_same_name(&p.name, name.as_slice()))
}
