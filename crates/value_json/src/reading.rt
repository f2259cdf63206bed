//! Values of a type from JSON.
ghost use Rattle.std.specs.Prelude.{◌≡◌, ◌==◌, IfOk, codes, length, not, option_and_then, option_map};
ghost use Rattle.serde_json.specs.Find.{get_member, as_array, as_object};
ghost use Rattle.serde_json.specs.View.{view, items_view, members_view as json_members};
ghost use Rattle.cdr_values.specs.Choice.{choose};
ghost use Rattle.cdr_values.specs.Kinds.{kind_of, members_view, cases_view};
ghost use Rattle.cdr_values.specs.Lawful.{member_names};
ghost use Rattle.cdr_values.specs.Spelling.{is_above, is_count, is_text};
ghost use Rattle.cdr_values.specs.Trees.{Name, boolean, char, unsigned, signed, enumeration, size1, size2, size4, size8, scalar, words, sequence, array, structure, union, members_of, cases_of};
ghost use Rattle.cdr_values.specs.Trees as trees;
ghost use Rattle.cdr_values.specs.Values.{value_of, values_view};
ghost use Rattle.value_json.specs.Gives.{Gives};
ghost use Rattle.value_json.specs.Meant.{meant, meant_members, meant_choice, bounded, each_in, array_of, object_of, then_choice, with_member, without_member};
ghost use Rattle.value_json.specs.Numerals.{integer_in, number_in};
ghost use Rattle.value_json.specs.Texts.{text_of};

use crate::choice::chosen_case;
use crate::fault::JsonError;
use crate::numerals::{integer_in, label_number, letter_code, number_in};
use crate::objects::{found, has_len, named};
use crate::texts::codes_in;
use cdr_values::{Case, IdlType, IdlValue, Member};
use orb_base::{List, NoMemory, Text};
use serde_json::{Map, Value};
use std::alloc::Global;

/// The value of a type that JSON means, and NotOfType exactly where it means none. Integers are exact to 64 bits: a
/// fraction, an exponent, `-0` and a larger number are of no integer type. A struct's object has exactly its members, and
/// a union's `case` and, where a member is chosen, `value`. Work and memory grow with the JSON, at each member with the
/// logarithm of its object, at each enum and union with its labels; the stack grows with the depth of the type.
#[cycle(from_json)]
pub fn from_json(alloc: Global, kind: &IdlType, json: &Value) -> Result<IdlValue, JsonError>
    ensures { Gives value_of result (meant (kind_of kind.now) (view json.now)) }
{
    match kind {
        IdlType::Boolean => boolean_from(json),
        IdlType::Octet => octet_from(json),
        IdlType::Char => char_from(json),
        IdlType::Short => short_from(json),
        IdlType::UShort => ushort_from(json),
        IdlType::Long => long_from(json),
        IdlType::ULong => ulong_from(json),
        IdlType::LongLong => longlong_from(json),
        IdlType::ULongLong => ulonglong_from(json),
        IdlType::Words(bound) => words_from(alloc, *bound, json),
        IdlType::Seq(element, bound) => sequence_from(alloc, element, *bound, json),
        IdlType::Array(element, len) => array_from(alloc, element, *len, json),
        IdlType::Struct(_, members) => struct_from(alloc, members, json),
        IdlType::Union(_, tag, cases) => union_from(alloc, cases, tag, json),
        IdlType::Enum(_, labels) => label_from(labels, json),
    }
}

#[tactic(auto, using(cdr_values::proofs::Members::bit_back), unfolding(crate::specs::Meant::meant, crate::specs::Numerals::numeral_in))]
fn boolean_from(json: &Value) -> Result<IdlValue, JsonError>
    ensures { Gives value_of result (meant (scalar boolean) (view json.now)) }
{
    match json.as_bool() {
        Some(b) => Ok(IdlValue::Boolean(b)),
        None => Err(JsonError::NotOfType),
    }
}

#[tactic(auto, unfolding(crate::specs::Meant::meant, crate::specs::Numerals::numeral_in))]
fn char_from(json: &Value) -> Result<IdlValue, JsonError>
    ensures { Gives value_of result (meant (scalar char) (view json.now)) }
{
    match letter_code(json) {
        Some(code) => Ok(IdlValue::Char(code)),
        None => Err(JsonError::NotOfType),
    }
}

#[tactic(auto, unfolding(crate::specs::Meant::meant, crate::specs::Numerals::numeral_in))]
fn label_from(labels: &List<Text>, json: &Value) -> Result<IdlValue, JsonError>
    ensures { (name : Name) → Gives value_of result (meant (scalar (enumeration name labels.now.items)) (view json.now)) }
{
    match label_number(labels, json) {
        Some(number) => Ok(IdlValue::Label(number)),
        None => Err(JsonError::NotOfType),
    }
}

/// An integer from the lowest one up to a limit.
fn number_from(low: i128, high: i128, json: &Value) -> Result<IdlValue, JsonError>
    ensures { Gives value_of result (option_map trees.number (integer_in low high (view json.now))) }
{
    match integer_in(low, high, json) {
        Some(number) => Ok(IdlValue::Number(number)),
        None => Err(JsonError::NotOfType),
    }
}

#[tactic(auto, unfolding(crate::specs::Meant::meant, crate::specs::Numerals::numeral_in))]
fn octet_from(json: &Value) -> Result<IdlValue, JsonError>
    ensures { Gives value_of result (meant (scalar (unsigned size1)) (view json.now)) }
{
    number_from(0, 0x100, json)
}

#[tactic(auto, unfolding(crate::specs::Meant::meant, crate::specs::Numerals::numeral_in))]
fn short_from(json: &Value) -> Result<IdlValue, JsonError>
    ensures { Gives value_of result (meant (scalar (signed size2)) (view json.now)) }
{
    number_from(-0x8000, 0x8000, json)
}

#[tactic(auto, unfolding(crate::specs::Meant::meant, crate::specs::Numerals::numeral_in))]
fn ushort_from(json: &Value) -> Result<IdlValue, JsonError>
    ensures { Gives value_of result (meant (scalar (unsigned size2)) (view json.now)) }
{
    number_from(0, 0x1_0000, json)
}

#[tactic(auto, unfolding(crate::specs::Meant::meant, crate::specs::Numerals::numeral_in))]
fn long_from(json: &Value) -> Result<IdlValue, JsonError>
    ensures { Gives value_of result (meant (scalar (signed size4)) (view json.now)) }
{
    number_from(-0x8000_0000, 0x8000_0000, json)
}

#[tactic(auto, unfolding(crate::specs::Meant::meant, crate::specs::Numerals::numeral_in))]
fn ulong_from(json: &Value) -> Result<IdlValue, JsonError>
    ensures { Gives value_of result (meant (scalar (unsigned size4)) (view json.now)) }
{
    number_from(0, 0x1_0000_0000, json)
}

#[tactic(auto, unfolding(crate::specs::Meant::meant, crate::specs::Numerals::numeral_in))]
fn longlong_from(json: &Value) -> Result<IdlValue, JsonError>
    ensures { Gives value_of result (meant (scalar (signed size8)) (view json.now)) }
{
    number_from(-0x8000_0000_0000_0000, 0x8000_0000_0000_0000, json)
}

#[tactic(auto, unfolding(crate::specs::Meant::meant, crate::specs::Numerals::numeral_in))]
fn ulonglong_from(json: &Value) -> Result<IdlValue, JsonError>
    ensures { Gives value_of result (meant (scalar (unsigned size8)) (view json.now)) }
{
    number_from(0, 0x1_0000_0000_0000_0000, json)
}

#[tactic(auto, using(crate::proofs::Loops::refuses_then, crate::proofs::Loops::refuses_map), unfolding(crate::specs::Meant::meant))]
fn words_from(alloc: Global, bound: u32, json: &Value) -> Result<IdlValue, JsonError>
    ensures { Gives value_of result (meant (words bound) (view json.now)) }
{
    let bytes = codes_in(alloc, json)?;
    bounded(bound, bytes)
}

/// The string of these bytes, where there is no NUL among them and they are within the bound.
fn bounded(bound: u32, bytes: Vec<u8>) -> Result<IdlValue, JsonError>
    ensures { Gives value_of result (bounded bound bytes.items) }
{
    match Text::from_vec(bytes) {
        Ok(text) => {
            if is_within(bound, text.len()) && text.len() < 0xffff_ffff {
                Ok(IdlValue::Words(text))
            } else {
                Err(JsonError::NotOfType)
            }
        }
        Err(_) => Err(JsonError::NotOfType),
    }
}

/// Whether a length is within a bound, where 0 is no bound.
fn is_within(bound: u32, len: usize) -> bool
    ensures { result ≡ not (is_above bound len) }
{
    bound == 0 || len <= bound as usize
}

#[cycle(from_json)]
#[tactic(auto, using(crate::proofs::Loops::refuses_then, crate::proofs::Loops::refuses_map), unfolding(crate::specs::Meant::meant))]
fn sequence_from(
    alloc: Global,
    element: &IdlType,
    bound: u32,
    json: &Value,
) -> Result<IdlValue, JsonError>
    ensures { Gives value_of result (meant (sequence (kind_of element.now) bound) (view json.now)) }
{
    let list = bounded_list(bound, json)?;
    Ok(IdlValue::Items(items_from(alloc, element, list)?))
}

/// The items of an array within a bound.
#[tactic(auto, using(crate::proofs::Loops::list_len))]
fn bounded_list(bound: u32, json: &Value) -> Result<&[Value], JsonError>
    ensures { Gives (λ list. items_view list.now) result (array_of (is_count bound) (view json.now)) }
{
    match json.as_array() {
        Some(list) => {
            if is_within(bound, list.len()) && list.len() < 0x1_0000_0000 {
                Ok(list.as_slice())
            } else {
                Err(JsonError::NotOfType)
            }
        }
        None => Err(JsonError::NotOfType),
    }
}

#[cycle(from_json)]
#[tactic(auto, using(crate::proofs::Loops::refuses_then, crate::proofs::Loops::refuses_map), unfolding(crate::specs::Meant::meant))]
fn array_from(
    alloc: Global,
    element: &IdlType,
    len: u32,
    json: &Value,
) -> Result<IdlValue, JsonError>
    ensures { Gives value_of result (meant (array (kind_of element.now) len) (view json.now)) }
{
    let list = full_list(len, json)?;
    Ok(IdlValue::Items(items_from(alloc, element, list)?))
}

/// The items of an array of a length.
#[tactic(auto, using(crate::proofs::Loops::list_len))]
fn full_list(len: u32, json: &Value) -> Result<&[Value], JsonError>
    ensures { Gives (λ list. items_view list.now) result (array_of (λ n. n == len) (view json.now)) }
{
    match json.as_array() {
        Some(list) => {
            if list.len() == len as usize {
                Ok(list.as_slice())
            } else {
                Err(JsonError::NotOfType)
            }
        }
        None => Err(JsonError::NotOfType),
    }
}

#[cycle(from_json)]
fn items_from(alloc: Global, element: &IdlType, list: &[Value]) -> Result<Vec<IdlValue>, JsonError>
    ensures { Gives (λ v. values_view v.items) result (each_in (meant (kind_of element.now)) (items_view list.now)) }
{
    let mut values = Vec::with_capacity(alloc, list.len())?;
    for json in list {
        values.push(from_json(alloc, element, json)?)?;
    }
    Ok(values)
}

#[cycle(from_json)]
#[tactic(auto, using(crate::proofs::Loops::refuses_then, crate::proofs::Loops::refuses_map), unfolding(crate::specs::Meant::meant))]
fn struct_from(alloc: Global, members: &[Member], json: &Value) -> Result<IdlValue, JsonError>
    ensures { (name : Name) → Gives value_of result (meant (structure name (members_of (members_view members.now))) (view json.now)) }
{
    let object = full_object(members, json)?;
    Ok(IdlValue::Items(members_from(alloc, members, object)?))
}

/// An object of as many members as a struct has.
#[tactic(auto, using(crate::proofs::Loops::names_len))]
fn full_object<'a>(members: &[Member], json: &'a Value) -> Result<&'a Map<String, Value>, JsonError>
    ensures { Gives (λ m. json_members m.now.entries) result
        (object_of (length (member_names (members_of (members_view members.now)))) (view json.now)) }
{
    match json.as_object() {
        Some(object) => {
            if has_len(object, members.len()) {
                Ok(object)
            } else {
                Err(JsonError::NotOfType)
            }
        }
        None => Err(JsonError::NotOfType),
    }
}

#[cycle(from_json)]
fn members_from(
    alloc: Global,
    members: &[Member],
    object: &Map<String, Value>,
) -> Result<Vec<IdlValue>, JsonError>
    ensures { Gives (λ v. values_view v.items) result
        (meant_members (members_of (members_view members.now)) (json_members object.now.entries)) }
{
    let mut values = Vec::with_capacity(alloc, members.len())?;
    for member in members {
        values.push(member_from(alloc, member, object)?)?;
    }
    Ok(values)
}

#[cycle(from_json)]
#[tactic(auto, using(crate::proofs::Loops::refuses_then))]
fn member_from(
    alloc: Global,
    member: &Member,
    object: &Map<String, Value>,
) -> Result<IdlValue, JsonError>
    ensures { Gives value_of result
        (option_and_then (meant (kind_of member.now.kind)) (get_member (text_of member.now.name) (json_members object.now.entries))) }
{
    let json = named(alloc, object, member.name.as_slice())?;
    from_json(alloc, &member.kind, json)
}

#[cycle(from_json)]
#[tactic(auto, unfolding(crate::specs::Meant::meant))]
fn union_from(
    alloc: Global,
    cases: &[Case],
    tag: &IdlType,
    json: &Value,
) -> Result<IdlValue, JsonError>
    ensures { (name : Name) → Gives value_of result
        (meant (union name (kind_of tag.now) (cases_of (cases_view cases.now))) (view json.now)) }
{
    match json.as_object() {
        Some(object) => object_from(alloc, cases, tag, object),
        None => Err(JsonError::NotOfType),
    }
}

#[cycle(from_json)]
fn object_from(
    alloc: Global,
    cases: &[Case],
    tag: &IdlType,
    object: &Map<String, Value>,
) -> Result<IdlValue, JsonError>
    ensures { Gives value_of result
        (then_choice (λ z. meant_choice (cases_of (cases_view cases.now)) (choose z (cases_of (cases_view cases.now))) z)
        (number_in (kind_of tag.now)) (json_members object.now.entries)) }
{
    match discriminator(tag, object) {
        Some(number) => choice_from(alloc, chosen_case(number, cases), cases, number, object),
        None => Err(JsonError::NotOfType),
    }
}

/// The number that `case` means.
fn discriminator(tag: &IdlType, object: &Map<String, Value>) -> Option<i128>
    ensures { result ≡ option_and_then (number_in (kind_of tag.now)) (get_member (codes "case") (json_members object.now.entries)) }
{
    number_in(tag, found(object, "case")?)
}

/// A union by its number, with the member of the case at an index, where one is chosen.
#[cycle(from_json)]
#[tactic(auto, unfolding(crate::specs::Meant::meant_choice))]
fn choice_from(
    alloc: Global,
    index: Option<usize>,
    cases: &[Case],
    number: i128,
    object: &Map<String, Value>,
) -> Result<IdlValue, JsonError>
    ensures { Gives value_of result (meant_choice (cases_of (cases_view cases.now)) index number (json_members object.now.entries)) }
{
    match index {
        None => bare_from(number, object),
        Some(index) => nth_from(alloc, index, cases, number, object),
    }
}

fn bare_from(number: i128, object: &Map<String, Value>) -> Result<IdlValue, JsonError>
    ensures { Gives value_of result (without_member number (json_members object.now.entries)) }
{
    if has_len(object, 1) {
        Ok(IdlValue::Chosen(number, None))
    } else {
        Err(JsonError::NotOfType)
    }
}

#[cycle(from_json)]
fn nth_from(
    alloc: Global,
    index: usize,
    cases: &[Case],
    number: i128,
    object: &Map<String, Value>,
) -> Result<IdlValue, JsonError>
    ensures { Gives value_of result (meant_choice (cases_of (cases_view cases.now)) (Some index) number (json_members object.now.entries)) }
{
    let mut left = index;
    for case in cases {
        if left == 0 {
            return with_from(alloc, &case.member.kind, number, object);
        }
        left -= 1;
    }
    bare_from(number, object)
}

/// A union with a member of a type.
#[cycle(from_json)]
#[tactic(auto, using(crate::proofs::Loops::with_few, crate::proofs::Loops::with_none, crate::proofs::Loops::with_gives))]
fn with_from(
    alloc: Global,
    kind: &IdlType,
    number: i128,
    object: &Map<String, Value>,
) -> Result<IdlValue, JsonError>
    ensures { Gives value_of result (with_member number (meant (kind_of kind.now)) (json_members object.now.entries)) }
{
    if !has_len(object, 2) {
        return Err(JsonError::NotOfType);
    }
    match found(object, "value") {
        Some(json) => Ok(chosen(alloc, number, from_json(alloc, kind, json)?)?),
        None => Err(JsonError::NotOfType),
    }
}

fn chosen(alloc: Global, tag: i128, member: IdlValue) -> Result<IdlValue, NoMemory>
    ensures { IfOk result (λ v. value_of v ≡ trees.chosen tag (trees.value (value_of member) trees.no_values)) }
{
    let member = Box::new(alloc, member)?;
    Ok(IdlValue::Chosen(tag, Some(member)))
}
