//! Zeros of types.
ghost use Rattle.std.specs.Prelude.{◌≡◌, IfOk, [], Some, pos, position, replicate};
ghost use Rattle.cdr_values.specs.Choice.{choose, has_label};
ghost use Rattle.cdr_values.specs.Kinds.{kind_of, members_view, cases_view};
ghost use Rattle.cdr_values.specs.Trees.{items, chosen, value, no_values, text, values_of, members_of, cases_of};
ghost use Rattle.cdr_values.specs.Values.{value_of, values_view, member_view};
ghost use Rattle.dynamic_servants.specs.Zeros.{zero_of, zeros_of, zero_case};

use cdr_values::{Case, IdlType, IdlValue, Member};
use orb_base::{NoMemory, Text};
use std::alloc::Global;

/// The zero of a type. Work and memory grow with its leaves, the stack with its depth.
#[cycle(zero)]
#[tactic(auto, unfolding(crate::specs::Zeros::zero_of))]
pub(crate) fn zero(alloc: Global, kind: &IdlType) -> Result<IdlValue, NoMemory>
    ensures { IfOk result (λ v. value_of v ≡ zero_of (kind_of kind.now)) }
{
    match kind {
        IdlType::Boolean => Ok(IdlValue::Boolean(false)),
        IdlType::Char => Ok(IdlValue::Char(0)),
        IdlType::Octet => Ok(IdlValue::Number(0)),
        IdlType::Short => Ok(IdlValue::Number(0)),
        IdlType::UShort => Ok(IdlValue::Number(0)),
        IdlType::Long => Ok(IdlValue::Number(0)),
        IdlType::ULong => Ok(IdlValue::Number(0)),
        IdlType::LongLong => Ok(IdlValue::Number(0)),
        IdlType::ULongLong => Ok(IdlValue::Number(0)),
        IdlType::Words(_) => zero_words(alloc),
        IdlType::Seq(_, _) => Ok(IdlValue::Items(Vec::new(alloc))),
        IdlType::Array(element, len) => zero_array(alloc, element, *len),
        IdlType::Struct(_, members) => zero_struct(alloc, members),
        IdlType::Union(_, _, cases) => zero_union(alloc, cases),
        IdlType::Enum(_, _) => Ok(IdlValue::Label(0)),
    }
}

fn zero_words(alloc: Global) -> Result<IdlValue, NoMemory>
    ensures { IfOk result (λ v. value_of v ≡ text []) }
{
    match Text::new(alloc, &[]) {
        Ok(text) => Ok(IdlValue::Words(text)),
        Err(_) => Err(NoMemory),
    }
}

#[cycle(zero)]
fn zero_array(alloc: Global, element: &IdlType, len: u32) -> Result<IdlValue, NoMemory>
    ensures { IfOk result (λ v. value_of v ≡ items (values_of (replicate len (zero_of (kind_of element.now))))) }
{
    Ok(IdlValue::Items(zero_times(alloc, element, len)?))
}

#[cycle(zero)]
fn zero_struct(alloc: Global, members: &[Member]) -> Result<IdlValue, NoMemory>
    ensures { IfOk result (λ v. value_of v ≡ items (values_of (zeros_of (members_of (members_view members.now))))) }
{
    Ok(IdlValue::Items(zero_members(alloc, members)?))
}

/// So many zeros of a type.
#[cycle(zero)]
fn zero_times(alloc: Global, kind: &IdlType, n: u32) -> Result<Vec<IdlValue>, NoMemory>
    ensures { IfOk result (λ v. values_view v.items ≡ replicate n (zero_of (kind_of kind.now))) }
{
    let mut values = Vec::new(alloc);
    for _ in 0..n {
        values.push(zero(alloc, kind)?)?;
    }
    Ok(values)
}

#[cycle(zero)]
fn zero_members(alloc: Global, members: &[Member]) -> Result<Vec<IdlValue>, NoMemory>
    ensures { IfOk result (λ v. values_view v.items ≡ zeros_of (members_of (members_view members.now))) }
{
    let mut values = Vec::new(alloc);
    for member in members {
        values.push(zero(alloc, &member.kind)?)?;
    }
    Ok(values)
}

#[cycle(zero)]
fn zero_union(alloc: Global, cases: &[Case]) -> Result<IdlValue, NoMemory>
    ensures { IfOk result (λ v. value_of v ≡ chosen (pos 0) (zero_case (cases_of (cases_view cases.now)) (choose (pos 0) (cases_of (cases_view cases.now))))) }
{
    match zero_chosen(alloc, zero_index(cases), cases)? {
        None => Ok(without_member()),
        Some(member) => Ok(with_member(alloc, member)?),
    }
}

/// The zero of the member of the case at an index, where there is one.
#[cycle(zero)]
#[tactic(auto, unfolding(crate::specs::Zeros::zero_case))]
fn zero_chosen(
    alloc: Global,
    index: Option<usize>,
    cases: &[Case],
) -> Result<Option<IdlValue>, NoMemory>
    ensures { IfOk result (λ m. member_view m ≡ zero_case (cases_of (cases_view cases.now)) index) }
{
    match index {
        None => Ok(None),
        Some(index) => zero_at(alloc, index, cases),
    }
}

#[cycle(zero)]
fn zero_at(alloc: Global, index: usize, cases: &[Case]) -> Result<Option<IdlValue>, NoMemory>
    ensures { IfOk result (λ m. member_view m ≡ zero_case (cases_of (cases_view cases.now)) (Some index)) }
{
    let mut left = index;
    for case in cases {
        if left == 0 {
            return Ok(Some(zero(alloc, &case.member.kind)?));
        }
        left -= 1;
    }
    Ok(None)
}

/// A union's number 0 with a member.
fn with_member(alloc: Global, member: IdlValue) -> Result<IdlValue, NoMemory>
    ensures { IfOk result (λ v. value_of v ≡ chosen (pos 0) (value (value_of member) no_values)) }
{
    let member = Box::new(alloc, member)?;
    Ok(IdlValue::Chosen(0, Some(member)))
}

/// A union's number 0 without a member.
fn without_member() -> IdlValue
    ensures { value_of result ≡ chosen (pos 0) no_values }
{
    IdlValue::Chosen(0, None)
}

/// The index of the case that the number 0 chooses: the first with 0 among its labels, else the first default.
#[tactic(auto, using(crate::proofs::ZeroParts::chosen_by_label, crate::proofs::ZeroParts::chosen_by_default))]
fn zero_index(cases: &[Case]) -> Option<usize>
    ensures { result ≡ choose (pos 0) (cases_of (cases_view cases.now)) }
{
    match labelled(cases) {
        Some(index) => Some(index),
        None => default_case(cases),
    }
}

fn labelled(cases: &[Case]) -> Option<usize>
    ensures { result ≡ position (λ c. has_label (pos 0) c.labels.items) cases.now }
{
    cases
        .iter()
        .position(|case| has_zero(case.labels.as_slice()))
}

fn default_case(cases: &[Case]) -> Option<usize>
    ensures { result ≡ position (λ c. c.is_default) cases.now }
{
    cases.iter().position(|case| case.is_default)
}

fn has_zero(labels: &[i128]) -> bool
    ensures { result ≡ has_label (pos 0) labels.now }
{
    labels.iter().any(|label| *label == 0)
}
