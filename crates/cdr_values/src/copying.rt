//! Copies of types and values.
ghost use Rattle.std.specs.Prelude.{◌≡◌, IfOk};
ghost use Rattle.cdr_values.specs.Trees.{scalar, sequence, array, structure, union, enumeration, items, chosen, no_values, value, values_of, members_of, cases_of};
ghost use Rattle.cdr_values.specs.Kinds.{kind_of, member_of, members_view, case_of, cases_view};
ghost use Rattle.cdr_values.specs.Values.{value_of, values_view};
ghost use Rattle.cdr_values.specs.Trees as trees;

use crate::kind::{Case, IdlType, Member};
use crate::value::{IdlValue, with_member};
use orb_base::{List, NoMemory, Text};
use std::alloc::Global;

/// A type of the same tree. Work and memory grow with its size, the stack with its depth.
#[cycle(copy_type)]
pub fn copy_type(alloc: Global, kind: &IdlType) -> Result<IdlType, NoMemory>
    ensures { IfOk result (λ k. kind_of k ≡ kind_of kind.now) }
{
    match kind {
        IdlType::Boolean => Ok(IdlType::Boolean),
        IdlType::Octet => Ok(IdlType::Octet),
        IdlType::Char => Ok(IdlType::Char),
        IdlType::Short => Ok(IdlType::Short),
        IdlType::UShort => Ok(IdlType::UShort),
        IdlType::Long => Ok(IdlType::Long),
        IdlType::ULong => Ok(IdlType::ULong),
        IdlType::LongLong => Ok(IdlType::LongLong),
        IdlType::ULongLong => Ok(IdlType::ULongLong),
        IdlType::Words(bound) => Ok(IdlType::Words(*bound)),
        IdlType::Seq(element, bound) => copy_sequence(alloc, element, *bound),
        IdlType::Array(element, len) => copy_array(alloc, element, *len),
        IdlType::Struct(name, members) => copy_struct(alloc, name, members),
        IdlType::Union(name, tag, cases) => {
            let tag = copy_type(alloc, tag)?;
            let cases = copy_cases(alloc, cases)?;
            union_of(alloc, name, tag, cases)
        }
        IdlType::Enum(name, labels) => copy_enum(alloc, name, labels),
    }
}

#[cycle(copy_type)]
fn copy_sequence(alloc: Global, element: &IdlType, bound: u32) -> Result<IdlType, NoMemory>
    ensures { IfOk result (λ k. kind_of k ≡ sequence (kind_of element.now) bound) }
{
    Ok(IdlType::Seq(Box::new(alloc, copy_type(alloc, element)?)?, bound))
}

#[cycle(copy_type)]
fn copy_array(alloc: Global, element: &IdlType, len: u32) -> Result<IdlType, NoMemory>
    ensures { IfOk result (λ k. kind_of k ≡ array (kind_of element.now) len) }
{
    Ok(IdlType::Array(Box::new(alloc, copy_type(alloc, element)?)?, len))
}

#[cycle(copy_type)]
fn copy_struct(alloc: Global, name: &Text, members: &[Member]) -> Result<IdlType, NoMemory>
    ensures { IfOk result (λ k. kind_of k ≡ structure name.now (members_of (members_view members.now))) }
{
    Ok(IdlType::Struct(name.copy(alloc)?, copy_members(alloc, members)?))
}

fn union_of(alloc: Global, name: &Text, tag: IdlType, cases: Vec<Case>) -> Result<IdlType, NoMemory>
    ensures { IfOk result (λ k. kind_of k ≡ union name.now (kind_of tag) (cases_of (cases_view cases.items))) }
{
    Ok(IdlType::Union(name.copy(alloc)?, Box::new(alloc, tag)?, cases))
}

fn copy_enum(alloc: Global, name: &Text, labels: &List<Text>) -> Result<IdlType, NoMemory>
    ensures { IfOk result (λ k. kind_of k ≡ scalar (enumeration name.now labels.now.items)) }
{
    Ok(IdlType::Enum(name.copy(alloc)?, copy_texts(alloc, labels.as_slice())?))
}

/// Copies of the members, in order.
#[cycle(copy_type)]
pub fn copy_members(alloc: Global, members: &[Member]) -> Result<Vec<Member>, NoMemory>
    ensures { IfOk result (λ v. members_view v.items ≡ members_view members.now) }
{
    let mut copies = Vec::new(alloc);
    for member in members {
        copies.push(copy_member(alloc, member)?)?;
    }
    Ok(copies)
}

#[cycle(copy_type)]
fn copy_member(alloc: Global, member: &Member) -> Result<Member, NoMemory>
    ensures { IfOk result (λ m. member_of m ≡ member_of member.now) }
{
    Ok(Member {
        name: member.name.copy(alloc)?,
        kind: copy_type(alloc, &member.kind)?,
    })
}

#[cycle(copy_type)]
fn copy_cases(alloc: Global, cases: &[Case]) -> Result<Vec<Case>, NoMemory>
    ensures { IfOk result (λ v. cases_view v.items ≡ cases_view cases.now) }
{
    let mut copies = Vec::new(alloc);
    for case in cases {
        copies.push(copy_case(alloc, case)?)?;
    }
    Ok(copies)
}

#[cycle(copy_type)]
fn copy_case(alloc: Global, case: &Case) -> Result<Case, NoMemory>
    ensures { IfOk result (λ c. case_of c ≡ case_of case.now) }
{
    Ok(Case {
        labels: List::from_vec(Vec::from_slice(alloc, case.labels.as_slice())?),
        is_default: case.is_default,
        member: copy_member(alloc, &case.member)?,
    })
}

/// Equal texts, in order. Work and memory grow with their bytes.
pub fn copy_texts(alloc: Global, texts: &[Text]) -> Result<List<Text>, NoMemory>
    ensures copies { IfOk result (λ l. l.items ≡ texts.now) }
{
    let mut copies = Vec::new(alloc);
    for text in texts {
        copies.push(text.copy(alloc)?)?;
    }
    Ok(List::from_vec(copies))
}

/// A value of the same tree. Work and memory grow with its size, the stack with its depth.
#[cycle(copy_value)]
pub fn copy_value(alloc: Global, value: &IdlValue) -> Result<IdlValue, NoMemory>
    ensures { IfOk result (λ v. value_of v ≡ value_of value.now) }
{
    match value {
        IdlValue::Boolean(b) => Ok(IdlValue::Boolean(*b)),
        IdlValue::Number(n) => Ok(IdlValue::Number(*n)),
        IdlValue::Char(c) => Ok(IdlValue::Char(*c)),
        IdlValue::Words(text) => copy_words(alloc, text),
        IdlValue::Items(values) => copy_items(alloc, values),
        IdlValue::Chosen(tag, None) => Ok(IdlValue::Chosen(*tag, None)),
        IdlValue::Chosen(tag, Some(member)) => copy_chosen(alloc, *tag, member),
        IdlValue::Label(n) => Ok(IdlValue::Label(*n)),
    }
}

fn copy_words(alloc: Global, text: &Text) -> Result<IdlValue, NoMemory>
    ensures { IfOk result (λ v. value_of v ≡ trees.text text.now) }
{
    Ok(IdlValue::Words(text.copy(alloc)?))
}

#[cycle(copy_value)]
fn copy_items(alloc: Global, values: &[IdlValue]) -> Result<IdlValue, NoMemory>
    ensures { IfOk result (λ v. value_of v ≡ items (values_of (values_view values.now))) }
{
    Ok(IdlValue::Items(copy_values(alloc, values)?))
}

#[cycle(copy_value)]
fn copy_chosen(alloc: Global, tag: i128, member: &IdlValue) -> Result<IdlValue, NoMemory>
    ensures { IfOk result (λ v. value_of v ≡ chosen tag (value (value_of member.now) no_values)) }
{
    let member = copy_value(alloc, member)?;
    with_member(alloc, tag, member)
}

#[cycle(copy_value)]
fn copy_values(alloc: Global, values: &[IdlValue]) -> Result<Vec<IdlValue>, NoMemory>
    ensures { IfOk result (λ v. values_view v.items ≡ values_view values.now) }
{
    let mut copies = Vec::new(alloc);
    for value in values {
        copies.push(copy_value(alloc, value)?)?;
    }
    Ok(copies)
}
