//! Counting leaves against what is left of a limit, so that no count overflows and no large array is gone through.
ghost use Rattle.std.specs.Prelude.{◌≡◌, ◌<◌, ◌≤◌, ◌+◌, ◌-◌, ◌*◌, ◌/◌, map, sum_by};
ghost use Rattle.std.specs.Option.{option_map};
ghost use Rattle.cdr_values.specs.Trees.{members_of, cases_of};
ghost use Rattle.cdr_values.specs.Kinds.{kind_of, members_view, cases_view};
ghost use Rattle.idl_types.specs.Views.{thing_of, operation_of, param_of};
ghost use Rattle.idl_types.specs.Budget.{left};
ghost use Rattle.idl_types.specs.Counting.{leaves_of, leaves_of_members, leaves_of_cases, result_leaves, operation_leaves, thing_leaves};

use crate::declaration::Declaration;
use crate::operation::Operation;
use crate::param::Param;
use cdr_values::{Case, IdlType, Member};

/// What is left of a number of leaves after those of a declaration; None where there are too few.
pub(crate) fn spend_declaration(declaration: &Declaration, budget: u32) -> Option<u32>
    ensures { result ≡ left budget (thing_leaves (thing_of declaration.now)) }
{
    match declaration {
        Declaration::Constant(_) => budget.checked_sub(1),
        Declaration::Named(named) => spend(&named.kind, budget),
        Declaration::Exception(exception) => spend_members(exception.members.as_slice(), budget),
        Declaration::Interface(interface) => spend_operations(
            interface.operations.as_slice(),
            budget,
        ),
    }
}

fn spend_operations(operations: &[Operation], budget: u32) -> Option<u32>
    ensures { result ≡ left budget (sum_by operation_leaves (map operation_of operations.now)) }
{
    let mut rest = budget;
    for operation in operations {
        match spend_operation(operation, rest) {
            Some(less) => rest = less,
            None => return None,
        }
    }
    Some(rest)
}

fn spend_operation(operation: &Operation, budget: u32) -> Option<u32>
    ensures { result ≡ left budget (operation_leaves (operation_of operation.now)) }
{
    match spend_result(operation, budget) {
        Some(rest) => spend_params(operation.params.as_slice(), rest),
        None => None,
    }
}

/// One leaf for an operation, and those of its result.
fn spend_result(operation: &Operation, budget: u32) -> Option<u32>
    ensures { result ≡ left budget (1 + result_leaves (option_map kind_of operation.now.result)) }
{
    match budget.checked_sub(1) {
        Some(rest) => match &operation.result {
            Some(kind) => spend(kind, rest),
            None => Some(rest),
        },
        None => None,
    }
}

fn spend_params(params: &[Param], budget: u32) -> Option<u32>
    ensures { result ≡ left budget (sum_by (λ p. leaves_of p.kind) (map param_of params.now)) }
{
    let mut rest = budget;
    for param in params {
        match spend(&param.kind, rest) {
            Some(less) => rest = less,
            None => return None,
        }
    }
    Some(rest)
}

/// What is left of a number of leaves after those of a type. The stack grows with its depth.
#[cycle(spend)]
pub(crate) fn spend(kind: &IdlType, budget: u32) -> Option<u32>
    ensures { result ≡ left budget (leaves_of (kind_of kind.now)) }
{
    match kind {
        IdlType::Boolean => budget.checked_sub(1),
        IdlType::Octet => budget.checked_sub(1),
        IdlType::Char => budget.checked_sub(1),
        IdlType::Short => budget.checked_sub(1),
        IdlType::UShort => budget.checked_sub(1),
        IdlType::Long => budget.checked_sub(1),
        IdlType::ULong => budget.checked_sub(1),
        IdlType::LongLong => budget.checked_sub(1),
        IdlType::ULongLong => budget.checked_sub(1),
        IdlType::Words(_) => budget.checked_sub(1),
        IdlType::Seq(element, _) => spend_sequence(element, budget),
        IdlType::Array(element, len) => spend_array(element, *len, budget),
        IdlType::Struct(_, members) => spend_members(members, budget),
        IdlType::Union(_, _, cases) => spend_union(cases, budget),
        IdlType::Enum(_, _) => budget.checked_sub(1),
    }
}

#[cycle(spend)]
fn spend_sequence(element: &IdlType, budget: u32) -> Option<u32>
    ensures { result ≡ left budget (leaves_of (kind_of element.now) + 1) }
{
    match spend(element, budget) {
        Some(rest) => rest.checked_sub(1),
        None => None,
    }
}

#[cycle(spend)]
#[tactic(auto, using(crate::proofs::Budgets::rest_within))]
fn spend_array(element: &IdlType, len: u32, budget: u32) -> Option<u32>
    ensures { result ≡ left budget (leaves_of (kind_of element.now) * len) }
{
    if len == 0 {
        return Some(budget);
    }
    match spend(element, budget / len) {
        Some(rest) => Some(behind_array(budget, len, rest)),
        None => None,
    }
}

/// What is left of a number after so many times what was taken off of its part.
#[tactic(auto, using(crate::proofs::Budgets::part_fits))]
fn behind_array(budget: u32, len: u32, rest: u32) -> u32
    requires some { 0 < len }
    requires within { rest ≤ budget / len }
    ensures { result ≡ budget - (budget / len - rest) * len }
{
    budget - (budget / len - rest) * len
}

#[cycle(spend)]
pub(crate) fn spend_members(members: &[Member], budget: u32) -> Option<u32>
    ensures { result ≡ left budget (leaves_of_members (members_of (members_view members.now))) }
{
    let mut rest = budget;
    for member in members {
        match spend(&member.kind, rest) {
            Some(less) => rest = less,
            None => return None,
        }
    }
    Some(rest)
}

#[cycle(spend)]
fn spend_union(cases: &[Case], budget: u32) -> Option<u32>
    ensures { result ≡ left budget (leaves_of_cases (cases_of (cases_view cases.now)) + 1) }
{
    match spend_cases(cases, budget) {
        Some(rest) => rest.checked_sub(1),
        None => None,
    }
}

#[cycle(spend)]
fn spend_cases(cases: &[Case], budget: u32) -> Option<u32>
    ensures { result ≡ left budget (leaves_of_cases (cases_of (cases_view cases.now))) }
{
    let mut rest = budget;
    for case in cases {
        match spend(&case.member.kind, rest) {
            Some(less) => rest = less,
            None => return None,
        }
    }
    Some(rest)
}
