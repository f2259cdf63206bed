//! Where values of a type end as they are spelled.
ghost use Rattle.std.specs.Prelude.{◌≡◌, ◌+◌, ◌<◌, ◌≤◌, ℕ, List, [], ◌∷◌, IsTrue, length};
ghost use Rattle.cdr_core.specs.Alignment.{pad_len};
ghost use Rattle.cdr_core.specs.Field.{string_fields};
ghost use Rattle.cdr_values.specs.Choice.{nth_kind, kind_at};
ghost use Rattle.cdr_values.specs.Fitting.{is_of};
ghost use Rattle.cdr_values.specs.Kinds.{kind_of, members_view, cases_view};
ghost use Rattle.cdr_values.specs.Lengths.{held, Ends, EndsAt, IsBehind};
ghost use Rattle.cdr_values.specs.Numbers.{field_of};
ghost use Rattle.cdr_values.specs.Numerals.{plain_field};
ghost use Rattle.cdr_values.specs.Spelling.{fields_of, fields_each, fields_members, fields_chosen, one_field, tag_field};
ghost use Rattle.cdr_values.specs.Trees.{Name, items, chosen, value, no_values, values_of, members_of, cases_of};
ghost use Rattle.cdr_values.specs.Trees.{words, sequence, array, structure, union};
ghost use Rattle.cdr_values.specs.Values.{value_of, values_view};

use crate::choice::chosen_case;
use crate::kind::{Case, IdlType, Member};
use crate::spelled::{Number, number_of, spelled};
use crate::value::IdlValue;

/// The place after the spelling of a value that begins at a place, or usize::MAX where that is greater. So the length of the
/// spelling from a place on is what lies between the two, and values spelled one after the other end where the last one does.
/// Takes no memory. Work grows with the size of the value and, at each union, with its labels; the stack grows with the depth
/// of the type. CORBA 3.0.3, section 15.3.
pub fn spelled_end(place: usize, kind: &IdlType, value: &IdlValue) -> usize
    requires fits { IsTrue (is_of (value_of value.now) (kind_of kind.now)) }
    ensures end { EndsAt place (fields_of (value_of value.now) (kind_of kind.now)) result }
    ensures len { IsBehind place (fields_of (value_of value.now) (kind_of kind.now)) result }
{
    end_here(place, kind, value)
}

/// The place after a field of this alignment and length.
fn behind(place: usize, alignment: usize, len: usize) -> usize
    requires some { 0 < alignment }
    requires few { alignment ≤ 8 }
    ensures { result ≡ held (place + pad_len alignment place + len) }
{
    let pad = (alignment - place % alignment) % alignment;
    place.saturating_add(pad).saturating_add(len)
}

/// The place after a number.
fn behind_number(place: usize, number: Number) -> usize
    ensures { Ends place (field_of number ∷ []) result }
{
    match number {
        Number::One(_) => behind(place, 1, 1),
        Number::Two(_) => behind(place, 2, 2),
        Number::Four(_) => behind(place, 4, 4),
        Number::Eight(_) => behind(place, 8, 8),
    }
}

/// The place after a string of so many octets: its count, the octets and the NUL.
fn behind_text(place: usize, len: usize) -> usize
    ensures { (text : List ℕ) → length text ≡ len → Ends place (string_fields text) result }
{
    behind(behind(behind(place, 4, 4), 1, len), 1, 1)
}

#[cycle(end_here)]
#[tactic(auto, using(crate::proofs::Ending::plain_ends))]
fn end_here(place: usize, kind: &IdlType, value: &IdlValue) -> usize
    ensures { EndsAt place (fields_of (value_of value.now) (kind_of kind.now)) result }
{
    match kind {
        IdlType::Words(_) => end_words(place, value),
        IdlType::Seq(element, _) => end_sequence(place, element, value),
        IdlType::Array(element, _) => end_array(place, element, value),
        IdlType::Struct(_, members) => end_struct(place, members, value),
        IdlType::Union(_, tag, cases) => end_union(place, cases, tag, value),
        IdlType::Boolean => end_plain(place, kind, value),
        IdlType::Octet => end_plain(place, kind, value),
        IdlType::Char => end_plain(place, kind, value),
        IdlType::Short => end_plain(place, kind, value),
        IdlType::UShort => end_plain(place, kind, value),
        IdlType::Long => end_plain(place, kind, value),
        IdlType::ULong => end_plain(place, kind, value),
        IdlType::LongLong => end_plain(place, kind, value),
        IdlType::ULongLong => end_plain(place, kind, value),
        IdlType::Enum(_, _) => end_plain(place, kind, value),
    }
}

/// The place after a value of a scalar type.
#[tactic(auto, using(crate::proofs::Ending::field_ends, crate::proofs::Ending::no_field))]
fn end_plain(place: usize, kind: &IdlType, value: &IdlValue) -> usize
    ensures { EndsAt place (one_field (plain_field (kind_of kind.now) (value_of value.now))) result }
{
    match spelled(kind, value) {
        Some(number) => behind_number(place, number),
        None => place,
    }
}

/// The place after the number of a discriminator.
#[tactic(auto, using(crate::proofs::Ending::field_ends, crate::proofs::Ending::no_field))]
fn end_tag(place: usize, kind: &IdlType, tag: i128) -> usize
    ensures { EndsAt place (one_field (tag_field (kind_of kind.now) tag)) result }
{
    match number_of(kind, tag) {
        Some(number) => behind_number(place, number),
        None => place,
    }
}

fn end_words(place: usize, value: &IdlValue) -> usize
    ensures { (bound : ℕ) → EndsAt place (fields_of (value_of value.now) (words bound)) result }
{
    match value {
        IdlValue::Words(text) => behind_text(place, text.len()),
        _ => place,
    }
}

#[cycle(end_here)]
fn end_sequence(place: usize, element: &IdlType, value: &IdlValue) -> usize
    ensures { (bound : ℕ) → EndsAt place (fields_of (value_of value.now) (sequence (kind_of element.now) bound)) result }
{
    match value {
        IdlValue::Items(values) => end_elements(place, element, values),
        _ => place,
    }
}

#[cycle(end_here)]
fn end_elements(place: usize, element: &IdlType, values: &[IdlValue]) -> usize
    ensures { (bound : ℕ) → EndsAt place (fields_of (items (values_of (values_view values.now)))
        (sequence (kind_of element.now) bound)) result }
{
    end_each(behind(place, 4, 4), element, values)
}

#[cycle(end_here)]
fn end_array(place: usize, element: &IdlType, value: &IdlValue) -> usize
    ensures { (len : ℕ) → EndsAt place (fields_of (value_of value.now) (array (kind_of element.now) len)) result }
{
    match value {
        IdlValue::Items(values) => end_each(place, element, values),
        _ => place,
    }
}

#[cycle(end_here)]
fn end_each(place: usize, element: &IdlType, values: &[IdlValue]) -> usize
    ensures { EndsAt place (fields_each (values_of (values_view values.now)) (kind_of element.now)) result }
{
    let mut at = place;
    for value in values {
        at = end_here(at, element, value);
    }
    at
}

#[cycle(end_here)]
fn end_struct(place: usize, members: &[Member], value: &IdlValue) -> usize
    ensures { (name : Name) → EndsAt place (fields_of (value_of value.now)
        (structure name (members_of (members_view members.now)))) result }
{
    match value {
        IdlValue::Items(values) => end_members(place, members, values),
        _ => place,
    }
}

#[cycle(end_here)]
fn end_members(place: usize, members: &[Member], values: &[IdlValue]) -> usize
    ensures { EndsAt place (fields_members (values_of (values_view values.now)) (members_of (members_view members.now))) result }
{
    let mut at = place;
    let mut rest = values;
    for member in members {
        let [value, later @ ..] = rest else {
            return at;
        };
        at = end_here(at, &member.kind, value);
        rest = later;
    }
    at
}

#[cycle(end_here)]
fn end_union(place: usize, cases: &[Case], tag: &IdlType, value: &IdlValue) -> usize
    ensures { (name : Name) → EndsAt place (fields_of (value_of value.now)
        (union name (kind_of tag.now) (cases_of (cases_view cases.now)))) result }
{
    match value {
        IdlValue::Chosen(number, member) => match member {
            None => end_bare(place, tag, cases, *number),
            Some(member) => end_with(place, cases, tag, *number, member),
        },
        _ => place,
    }
}

/// The place after the number of a union without a member.
fn end_bare(place: usize, tag: &IdlType, cases: &[Case], number: i128) -> usize
    ensures { (name : Name) → EndsAt place (fields_of (chosen number no_values)
        (union name (kind_of tag.now) (cases_of (cases_view cases.now)))) result }
{
    end_tag(place, tag, number)
}

/// The place after the number of a union and the member that it chooses.
#[cycle(end_here)]
fn end_with(place: usize, cases: &[Case], tag: &IdlType, number: i128, member: &IdlValue) -> usize
    ensures { (name : Name) → EndsAt place (fields_of (chosen number (value (value_of member.now) no_values))
        (union name (kind_of tag.now) (cases_of (cases_view cases.now)))) result }
{
    let at = end_tag(place, tag, number);
    end_chosen(at, chosen_case(number, cases), cases, member)
}

#[cycle(end_here)]
fn end_chosen(place: usize, index: Option<usize>, cases: &[Case], member: &IdlValue) -> usize
    ensures { EndsAt place (fields_chosen (value (value_of member.now) no_values)
        (kind_at index (cases_of (cases_view cases.now)))) result }
{
    match index {
        None => place,
        Some(index) => end_case(place, index, cases, member),
    }
}

#[cycle(end_here)]
fn end_case(place: usize, index: usize, cases: &[Case], member: &IdlValue) -> usize
    ensures { EndsAt place (fields_chosen (value (value_of member.now) no_values)
        (nth_kind index (cases_of (cases_view cases.now)))) result }
{
    let mut left = index;
    for case in cases {
        if left == 0 {
            return end_here(place, &case.member.kind, member);
        }
        left -= 1;
    }
    place
}
