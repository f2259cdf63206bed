//! Whether a value is one of a type.
ghost use Rattle.std.specs.Prelude.{◌≡◌, ◌<◌, length, not, is_some, is_none, IfSome};
ghost use Rattle.cdr_values.specs.Fitting.{is_of, FitsWhereSpelled};
ghost use Rattle.cdr_values.specs.Kinds.{kind_of, members_view, cases_view};
ghost use Rattle.cdr_values.specs.Numerals.{plain_field};
ghost use Rattle.cdr_values.specs.Choice.{choose, nth_kind, kind_at};
ghost use Rattle.cdr_values.specs.Spelling.{both, one_field, tag_field, fields_of, fields_each, fields_members, fields_chosen, is_text, is_count, is_above};
ghost use Rattle.cdr_values.specs.Trees.{Name, items, value, no_values, words, sequence, array, structure, union, values_of, members_of, cases_of};
ghost use Rattle.cdr_values.specs.Values.{value_of, values_view};

use crate::choice::chosen_case;
use crate::kind::{Case, IdlType, Member};
use crate::spelled::{number_of, spelled};
use crate::value::IdlValue;
use orb_base::Text;

/// Whether a value is one of a type, which is where some bytes spell it. Work grows with the size of the value and, at
/// each union, with its labels; the stack grows with the depth of the value. Takes no memory.
pub fn fits(kind: &IdlType, value: &IdlValue) -> bool
    ensures exact { FitsWhereSpelled result (kind_of kind.now) (value_of value.now) }
    ensures value { result ≡ is_of (value_of value.now) (kind_of kind.now) }
{
    fits_here(kind, value)
}

#[cycle(fits_here)]
#[tactic(auto, using(crate::proofs::HasFields::plain_fits))]
fn fits_here(kind: &IdlType, value: &IdlValue) -> bool
    ensures { result ≡ is_some (fields_of (value_of value.now) (kind_of kind.now)) }
{
    match kind {
        IdlType::Words(bound) => fits_words(*bound, value),
        IdlType::Seq(element, bound) => fits_sequence(element, *bound, value),
        IdlType::Array(element, len) => fits_array(element, *len, value),
        IdlType::Struct(_, members) => fits_struct(members, value),
        IdlType::Union(_, tag, cases) => fits_union(cases, tag, value),
        IdlType::Boolean => fits_plain(kind, value),
        IdlType::Octet => fits_plain(kind, value),
        IdlType::Char => fits_plain(kind, value),
        IdlType::Short => fits_plain(kind, value),
        IdlType::UShort => fits_plain(kind, value),
        IdlType::Long => fits_plain(kind, value),
        IdlType::ULong => fits_plain(kind, value),
        IdlType::LongLong => fits_plain(kind, value),
        IdlType::ULongLong => fits_plain(kind, value),
        IdlType::Enum(_, _) => fits_plain(kind, value),
    }
}

#[tactic(auto, using(crate::proofs::HasFields::mapped))]
fn fits_plain(kind: &IdlType, value: &IdlValue) -> bool
    ensures { result ≡ is_some (plain_field (kind_of kind.now) (value_of value.now)) }
{
    spelled(kind, value).is_some()
}

#[tactic(auto, using(crate::proofs::HasFields::text_fits))]
fn fits_words(bound: u32, value: &IdlValue) -> bool
    ensures { result ≡ is_some (fields_of (value_of value.now) (words bound)) }
{
    match value {
        IdlValue::Words(text) => is_bounded_text(bound, text),
        _ => false,
    }
}

/// Whether a string of this bound may hold the text.
pub(crate) fn is_bounded_text(bound: u32, text: &Text) -> bool
    ensures { result ≡ is_text bound text.now }
{
    let len = text.as_slice().len();
    is_within(bound, len) && len < 0xffff_ffff
}

/// Whether a sequence of this bound may have so many elements.
pub(crate) fn is_bounded_count(bound: u32, len: usize) -> bool
    ensures { result ≡ is_count bound len }
{
    is_within(bound, len) && len < 0x1_0000_0000
}

fn is_within(bound: u32, len: usize) -> bool
    ensures { result ≡ not (is_above bound len) }
{
    bound == 0 || len <= bound as usize
}

#[cycle(fits_here)]
fn fits_sequence(element: &IdlType, bound: u32, value: &IdlValue) -> bool
    ensures { result ≡ is_some (fields_of (value_of value.now) (sequence (kind_of element.now) bound)) }
{
    match value {
        IdlValue::Items(values) => fits_elements(element, bound, values),
        _ => false,
    }
}

#[cycle(fits_here)]
#[tactic(auto, using(crate::proofs::HasFields::counted_fits, crate::proofs::HasFields::uncounted))]
fn fits_elements(element: &IdlType, bound: u32, values: &[IdlValue]) -> bool
    ensures { result ≡ is_some (fields_of (items (values_of (values_view values.now))) (sequence (kind_of element.now) bound)) }
{
    if !is_bounded_count(bound, values.len()) {
        return false;
    }
    fits_each(element, values)
}

#[cycle(fits_here)]
fn fits_array(element: &IdlType, len: u32, value: &IdlValue) -> bool
    ensures { result ≡ is_some (fields_of (value_of value.now) (array (kind_of element.now) len)) }
{
    match value {
        IdlValue::Items(values) => fits_slots(element, len, values),
        _ => false,
    }
}

#[cycle(fits_here)]
#[tactic(auto, using(crate::proofs::HasFields::full_fits, crate::proofs::HasFields::unfull))]
fn fits_slots(element: &IdlType, len: u32, values: &[IdlValue]) -> bool
    ensures { result ≡ is_some (fields_of (items (values_of (values_view values.now))) (array (kind_of element.now) len)) }
{
    if values.len() != len as usize {
        return false;
    }
    fits_each(element, values)
}

#[cycle(fits_here)]
fn fits_each(element: &IdlType, values: &[IdlValue]) -> bool
    ensures { result ≡ is_some (fields_each (values_of (values_view values.now)) (kind_of element.now)) }
{
    for value in values {
        if !fits_here(element, value) {
            return false;
        }
    }
    true
}

#[cycle(fits_here)]
fn fits_struct(members: &[Member], value: &IdlValue) -> bool
    ensures { (name : Name) → result ≡ is_some (fields_of (value_of value.now) (structure name (members_of (members_view members.now)))) }
{
    match value {
        IdlValue::Items(values) => fits_members(members, values),
        _ => false,
    }
}

#[cycle(fits_here)]
fn fits_members(members: &[Member], values: &[IdlValue]) -> bool
    ensures { result ≡ is_some (fields_members (values_of (values_view values.now)) (members_of (members_view members.now))) }
{
    let mut rest = values;
    for member in members {
        let [value, behind @ ..] = rest else {
            return false;
        };
        if !fits_here(&member.kind, value) {
            return false;
        }
        rest = behind;
    }
    rest.len() == 0
}

#[cycle(fits_here)]
fn fits_union(cases: &[Case], tag: &IdlType, value: &IdlValue) -> bool
    ensures { (name : Name) → result ≡ is_some (fields_of (value_of value.now) (union name (kind_of tag.now) (cases_of (cases_view cases.now)))) }
{
    match value {
        IdlValue::Chosen(number, member) => match member {
            None => fits_without(cases, tag, *number),
            Some(member) => fits_with(cases, tag, *number, member),
        },
        _ => false,
    }
}

#[tactic(auto, using(crate::proofs::HasFields::bare_fits))]
fn fits_without(cases: &[Case], tag: &IdlType, number: i128) -> bool
    ensures { result ≡ is_some (both (one_field (tag_field (kind_of tag.now) number)) (fields_chosen no_values (kind_at (choose number (cases_of (cases_view cases.now))) (cases_of (cases_view cases.now))))) }
{
    is_number(tag, number) && is_bare(chosen_case(number, cases), cases)
}

/// Whether a type has a number.
#[tactic(auto, using(crate::proofs::HasFields::mapped))]
fn is_number(kind: &IdlType, number: i128) -> bool
    ensures { result ≡ is_some (tag_field (kind_of kind.now) number) }
{
    number_of(kind, number).is_some()
}

/// Whether there is no case at an index.
#[tactic(auto, using(crate::proofs::HasFields::nth_none))]
fn is_bare(index: Option<usize>, cases: &[Case]) -> bool
    requires { IfSome index (λ i. i < length cases.now) }
    ensures { result ≡ is_none (kind_at index (cases_of (cases_view cases.now))) }
{
    index.is_none()
}

#[cycle(fits_here)]
#[tactic(auto, using(crate::proofs::HasFields::untagged, crate::proofs::HasFields::tagged_fits))]
fn fits_with(cases: &[Case], tag: &IdlType, number: i128, member: &IdlValue) -> bool
    ensures { result ≡ is_some (both (one_field (tag_field (kind_of tag.now) number)) (fields_chosen (value (value_of member.now) no_values) (kind_at (choose number (cases_of (cases_view cases.now))) (cases_of (cases_view cases.now))))) }
{
    if !is_number(tag, number) {
        return false;
    }
    fits_chosen(chosen_case(number, cases), cases, member)
}

#[cycle(fits_here)]
fn fits_chosen(index: Option<usize>, cases: &[Case], member: &IdlValue) -> bool
    ensures { result ≡ is_some (fields_chosen (value (value_of member.now) no_values) (kind_at index (cases_of (cases_view cases.now)))) }
{
    match index {
        None => false,
        Some(index) => fits_case(index, cases, member),
    }
}

#[cycle(fits_here)]
fn fits_case(index: usize, cases: &[Case], member: &IdlValue) -> bool
    ensures { result ≡ is_some (fields_chosen (value (value_of member.now) no_values) (nth_kind index (cases_of (cases_view cases.now)))) }
{
    let mut left = index;
    for case in cases {
        if left == 0 {
            return fits_here(&case.member.kind, member);
        }
        left -= 1;
    }
    false
}
