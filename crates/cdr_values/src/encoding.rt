//! Values of a type, spelled.
ghost use Rattle.std.specs.Prelude.{IsTrue};
ghost use Rattle.cdr_values.specs.Fitting.{is_of};
ghost use Rattle.cdr_values.specs.Choice.{choose, nth_kind, kind_at};
ghost use Rattle.cdr_values.specs.Kinds.{kind_of, members_view, cases_view};
ghost use Rattle.cdr_values.specs.Numerals.{plain_field};
ghost use Rattle.cdr_values.specs.Spelling.{fields_of, fields_each, fields_members, fields_chosen, one_field, tag_field};
ghost use Rattle.cdr_values.specs.Trees.{Name, items, chosen, value, no_values, words, sequence, array, structure, union, values_of, members_of, cases_of};
ghost use Rattle.cdr_values.specs.Values.{value_of, values_view};
ghost use Rattle.cdr_values.specs.Writing.{Wrote};
ghost use Rattle.cdr_values.specs.Trees as trees;

use crate::choice::chosen_case;
use crate::fitting::{is_bounded_count, is_bounded_text};
use crate::kind::{Case, IdlType, Member};
use crate::spelled::{number_of, spelled};
use crate::value::IdlValue;
use cdr_core::Writer;
use orb_base::{NoMemory, Text};

/// Spells a value of a type at the writer's place and in its order, with pads of 0. Once out of memory the writer
/// holds a prefix of the spelling. Work grows with the bytes put, the stack with the depth of the type.
pub fn encode(kind: &IdlType, value: &IdlValue, into: &mut Writer) -> Result<(), NoMemory>
    requires fits { IsTrue (is_of (value_of value.now) (kind_of kind.now)) }
    ensures { Wrote result into.old into.new (fields_of (value_of value.now) (kind_of kind.now)) }
{
    encode_here(kind, value, into)
}

#[cycle(encode_here)]
#[tactic(auto, using(crate::proofs::Wrote::plain_wrote))]
fn encode_here(kind: &IdlType, value: &IdlValue, into: &mut Writer) -> Result<(), NoMemory>
    ensures { Wrote result into.old into.new (fields_of (value_of value.now) (kind_of kind.now)) }
{
    match kind {
        IdlType::Words(bound) => encode_words(*bound, value, into),
        IdlType::Seq(element, bound) => encode_sequence(element, *bound, value, into),
        IdlType::Array(element, len) => encode_array(element, *len, value, into),
        IdlType::Struct(_, members) => encode_struct(members, value, into),
        IdlType::Union(_, tag, cases) => encode_union(cases, tag, value, into),
        IdlType::Boolean => encode_plain(kind, value, into),
        IdlType::Octet => encode_plain(kind, value, into),
        IdlType::Char => encode_plain(kind, value, into),
        IdlType::Short => encode_plain(kind, value, into),
        IdlType::UShort => encode_plain(kind, value, into),
        IdlType::Long => encode_plain(kind, value, into),
        IdlType::ULong => encode_plain(kind, value, into),
        IdlType::LongLong => encode_plain(kind, value, into),
        IdlType::ULongLong => encode_plain(kind, value, into),
        IdlType::Enum(_, _) => encode_plain(kind, value, into),
    }
}

#[tactic(auto, using(crate::proofs::Wrote::field_wrote, crate::proofs::Wrote::no_field))]
fn encode_plain(kind: &IdlType, value: &IdlValue, into: &mut Writer) -> Result<(), NoMemory>
    ensures { Wrote result into.old into.new (one_field (plain_field (kind_of kind.now) (value_of value.now))) }
{
    match spelled(kind, value) {
        Some(number) => number.put(into),
        None => Ok(()),
    }
}

#[tactic(auto, using(crate::proofs::Wrote::field_wrote, crate::proofs::Wrote::no_field))]
fn encode_tag(kind: &IdlType, tag: i128, into: &mut Writer) -> Result<(), NoMemory>
    ensures { Wrote result into.old into.new (one_field (tag_field (kind_of kind.now) tag)) }
{
    match number_of(kind, tag) {
        Some(number) => number.put(into),
        None => Ok(()),
    }
}

fn encode_words(bound: u32, value: &IdlValue, into: &mut Writer) -> Result<(), NoMemory>
    ensures { Wrote result into.old into.new (fields_of (value_of value.now) (words bound)) }
{
    match value {
        IdlValue::Words(text) => encode_text(bound, text, into),
        _ => Ok(()),
    }
}

#[tactic(auto, using(crate::proofs::Wrote::no_text, crate::proofs::Wrote::text_wrote, crate::proofs::Wrote::text_len))]
fn encode_text(bound: u32, text: &Text, into: &mut Writer) -> Result<(), NoMemory>
    ensures { Wrote result into.old into.new (fields_of (trees.text text.now) (words bound)) }
{
    if !is_bounded_text(bound, text) {
        return Ok(());
    }
    into.put_string(text)
}

#[cycle(encode_here)]
fn encode_sequence(
    element: &IdlType,
    bound: u32,
    value: &IdlValue,
    into: &mut Writer,
) -> Result<(), NoMemory>
    ensures { Wrote result into.old into.new (fields_of (value_of value.now) (sequence (kind_of element.now) bound)) }
{
    match value {
        IdlValue::Items(values) => encode_elements(element, bound, values, into),
        _ => Ok(()),
    }
}

#[cycle(encode_here)]
#[tactic(auto, using(crate::proofs::Wrote::count_len))]
fn encode_elements(
    element: &IdlType,
    bound: u32,
    values: &[IdlValue],
    into: &mut Writer,
) -> Result<(), NoMemory>
    ensures { Wrote result into.old into.new (fields_of (items (values_of (values_view values.now))) (sequence (kind_of element.now) bound)) }
{
    if !is_bounded_count(bound, values.len()) {
        return Ok(());
    }
    into.put_u32(values.len() as u32)?;
    encode_each(element, values, into)
}

#[cycle(encode_here)]
fn encode_array(
    element: &IdlType,
    len: u32,
    value: &IdlValue,
    into: &mut Writer,
) -> Result<(), NoMemory>
    ensures { Wrote result into.old into.new (fields_of (value_of value.now) (array (kind_of element.now) len)) }
{
    match value {
        IdlValue::Items(values) => encode_slots(element, len, values, into),
        _ => Ok(()),
    }
}

#[cycle(encode_here)]
#[tactic(auto, using(crate::proofs::Wrote::slots_wrote))]
fn encode_slots(
    element: &IdlType,
    len: u32,
    values: &[IdlValue],
    into: &mut Writer,
) -> Result<(), NoMemory>
    ensures { Wrote result into.old into.new (fields_of (items (values_of (values_view values.now))) (array (kind_of element.now) len)) }
{
    encode_each(element, values, into)
}

#[cycle(encode_here)]
fn encode_each(element: &IdlType, values: &[IdlValue], into: &mut Writer) -> Result<(), NoMemory>
    ensures { Wrote result into.old into.new (fields_each (values_of (values_view values.now)) (kind_of element.now)) }
{
    for value in values {
        encode_here(element, value, into)?;
    }
    Ok(())
}

#[cycle(encode_here)]
fn encode_struct(members: &[Member], value: &IdlValue, into: &mut Writer) -> Result<(), NoMemory>
    ensures { (name : Name) → Wrote result into.old into.new (fields_of (value_of value.now) (structure name (members_of (members_view members.now)))) }
{
    match value {
        IdlValue::Items(values) => encode_members(members, values, into),
        _ => Ok(()),
    }
}

#[cycle(encode_here)]
fn encode_members(
    members: &[Member],
    values: &[IdlValue],
    into: &mut Writer,
) -> Result<(), NoMemory>
    ensures { Wrote result into.old into.new (fields_members (values_of (values_view values.now)) (members_of (members_view members.now))) }
{
    let mut rest = values;
    for member in members {
        let [value, behind @ ..] = rest else {
            return Ok(());
        };
        encode_here(&member.kind, value, into)?;
        rest = behind;
    }
    Ok(())
}

#[cycle(encode_here)]
fn encode_union(
    cases: &[Case],
    tag: &IdlType,
    value: &IdlValue,
    into: &mut Writer,
) -> Result<(), NoMemory>
    ensures { (name : Name) → Wrote result into.old into.new (fields_of (value_of value.now) (union name (kind_of tag.now) (cases_of (cases_view cases.now)))) }
{
    match value {
        IdlValue::Chosen(number, member) => match member {
            None => encode_bare(tag, cases, *number, into),
            Some(member) => encode_with(cases, tag, *number, member, into),
        },
        _ => Ok(()),
    }
}

fn encode_bare(
    tag: &IdlType,
    cases: &[Case],
    number: i128,
    into: &mut Writer,
) -> Result<(), NoMemory>
    ensures { (name : Name) → Wrote result into.old into.new (fields_of (chosen number no_values) (union name (kind_of tag.now) (cases_of (cases_view cases.now)))) }
{
    encode_tag(tag, number, into)
}

#[cycle(encode_here)]
fn encode_with(
    cases: &[Case],
    tag: &IdlType,
    number: i128,
    member: &IdlValue,
    into: &mut Writer,
) -> Result<(), NoMemory>
    ensures { (name : Name) → Wrote result into.old into.new (fields_of (chosen number (value (value_of member.now) no_values)) (union name (kind_of tag.now) (cases_of (cases_view cases.now)))) }
{
    encode_tag(tag, number, into)?;
    encode_member(cases, number, member, into)
}

/// The member of the case that a number chooses.
#[cycle(encode_here)]
fn encode_member(
    cases: &[Case],
    number: i128,
    member: &IdlValue,
    into: &mut Writer,
) -> Result<(), NoMemory>
    ensures { Wrote result into.old into.new (fields_chosen (value (value_of member.now) no_values) (kind_at (choose number (cases_of (cases_view cases.now))) (cases_of (cases_view cases.now)))) }
{
    encode_chosen(chosen_case(number, cases), cases, member, into)
}

#[cycle(encode_here)]
fn encode_chosen(
    index: Option<usize>,
    cases: &[Case],
    member: &IdlValue,
    into: &mut Writer,
) -> Result<(), NoMemory>
    ensures { Wrote result into.old into.new (fields_chosen (value (value_of member.now) no_values) (kind_at index (cases_of (cases_view cases.now)))) }
{
    match index {
        None => Ok(()),
        Some(index) => encode_case(index, cases, member, into),
    }
}

#[cycle(encode_here)]
fn encode_case(
    index: usize,
    cases: &[Case],
    member: &IdlValue,
    into: &mut Writer,
) -> Result<(), NoMemory>
    ensures { Wrote result into.old into.new (fields_chosen (value (value_of member.now) no_values) (nth_kind index (cases_of (cases_view cases.now)))) }
{
    let mut left = index;
    for case in cases {
        if left == 0 {
            return encode_here(&case.member.kind, member, into);
        }
        left -= 1;
    }
    Ok(())
}
