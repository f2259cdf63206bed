//! Values of a type as JSON.
ghost use Rattle.std.specs.Prelude.{◌≡◌, ℕ, IfOk, OnOk, codes, option_map};
ghost use Rattle.serde_json.specs.Data.{Data, array as json_array, object as json_object, member as json_member, no_members, put};
ghost use Rattle.serde_json.specs.View.{view, items_view, members_view as json_members};
ghost use Rattle.cdr_values.specs.Choice.{choose, kind_at, nth_kind};
ghost use Rattle.cdr_values.specs.Kinds.{kind_of, members_view, cases_view};
ghost use Rattle.cdr_values.specs.Trees.{Name, scalar, size1, unsigned, words, sequence, array, structure, union, value, no_values, values_of, members_of, cases_of};
ghost use Rattle.cdr_values.specs.Values.{value_of, values_view};
ghost use Rattle.value_json.specs.Numerals.{number_data};
ghost use Rattle.value_json.specs.Gives.{Shows};
ghost use Rattle.value_json.specs.Texts.{text_of};
ghost use Rattle.value_json.specs.Shown.{shown, shown_each, shown_members, shown_chosen, plain_data, value_member};

use crate::choice::chosen_case;
use crate::numerals::{integer_json, number_json};
use crate::objects::put;
use crate::texts::{text_json, text_of};
use cdr_values::{Case, IdlType, IdlValue, Member};
use orb_base::NoMemory;
use serde_json::{Map, Value};
use std::alloc::Global;

/// A value of a type as JSON: integers and octets are numbers, booleans are booleans, a char and a string are strings of
/// the characters of their byte codes, an enum is its label, sequences and arrays are arrays, a struct is an object of its
/// members, and a union is an object of `case`, the discriminator, and of `value`, where a member is chosen. What is no
/// value of its type is null. An object keeps its keys in ascending order. Work and memory grow with the value and, at each
/// union, with its labels; the stack grows with the depth of the type.
#[cycle(to_json)]
#[tactic(auto, using(crate::proofs::Plain::plain_shown))]
pub fn to_json(alloc: Global, kind: &IdlType, value: &IdlValue) -> Result<Value, NoMemory>
    ensures { Shows result (shown (value_of value.now) (kind_of kind.now)) }
{
    match kind {
        IdlType::Words(_) => words_json(alloc, value),
        IdlType::Seq(element, _) => sequence_json(alloc, element, value),
        IdlType::Array(element, _) => array_json(alloc, element, value),
        IdlType::Struct(_, members) => struct_json(alloc, members, value),
        IdlType::Union(_, tag, cases) => union_json(alloc, cases, tag, value),
        IdlType::Boolean => plain_json(alloc, kind, value),
        IdlType::Octet => plain_json(alloc, kind, value),
        IdlType::Char => plain_json(alloc, kind, value),
        IdlType::Short => plain_json(alloc, kind, value),
        IdlType::UShort => plain_json(alloc, kind, value),
        IdlType::Long => plain_json(alloc, kind, value),
        IdlType::ULong => plain_json(alloc, kind, value),
        IdlType::LongLong => plain_json(alloc, kind, value),
        IdlType::ULongLong => plain_json(alloc, kind, value),
        IdlType::Enum(_, _) => plain_json(alloc, kind, value),
    }
}

/// A value of a type whose values are numbers.
fn plain_json(alloc: Global, kind: &IdlType, value: &IdlValue) -> Result<Value, NoMemory>
    ensures { Shows result (plain_data (kind_of kind.now) (value_of value.now)) }
{
    match value {
        IdlValue::Boolean(b) => number_json(alloc, kind, i128::from(u8::from(*b))),
        IdlValue::Number(z) => number_json(alloc, kind, *z),
        IdlValue::Char(c) => number_json(alloc, kind, i128::from(*c)),
        IdlValue::Label(n) => number_json(alloc, kind, i128::from(*n)),
        _ => Ok(Value::Null),
    }
}

fn words_json(alloc: Global, value: &IdlValue) -> Result<Value, NoMemory>
    ensures { (bound : ℕ) → Shows result (shown (value_of value.now) (words bound)) }
{
    match value {
        IdlValue::Words(text) => text_json(alloc, text.as_slice()),
        _ => Ok(Value::Null),
    }
}

#[cycle(to_json)]
fn sequence_json(alloc: Global, element: &IdlType, value: &IdlValue) -> Result<Value, NoMemory>
    ensures { (bound : ℕ) → Shows result (shown (value_of value.now) (sequence (kind_of element.now) bound)) }
{
    match value {
        IdlValue::Items(values) => elements_json(alloc, element, values),
        _ => Ok(Value::Null),
    }
}

#[cycle(to_json)]
fn array_json(alloc: Global, element: &IdlType, value: &IdlValue) -> Result<Value, NoMemory>
    ensures { (len : ℕ) → Shows result (shown (value_of value.now) (array (kind_of element.now) len)) }
{
    match value {
        IdlValue::Items(values) => elements_json(alloc, element, values),
        _ => Ok(Value::Null),
    }
}

#[cycle(to_json)]
fn elements_json(alloc: Global, element: &IdlType, values: &[IdlValue]) -> Result<Value, NoMemory>
    ensures { Shows result (json_array (shown_each (values_of (values_view values.now)) (kind_of element.now))) }
{
    let list = match element {
        IdlType::Octet => octets_json(alloc, values)?,
        _ => each_json(alloc, element, values)?,
    };
    Ok(Value::Array(list))
}

#[cycle(to_json)]
fn each_json(alloc: Global, element: &IdlType, values: &[IdlValue]) -> Result<Vec<Value>, NoMemory>
    ensures { IfOk result (λ v. items_view v.items ≡ shown_each (values_of (values_view values.now)) (kind_of element.now)) }
{
    let mut list = Vec::with_capacity(alloc, values.len())?;
    for value in values {
        list.push(to_json(alloc, element, value)?)?;
    }
    Ok(list)
}

/// Octets, of which there may be many: each takes no memory of its own.
fn octets_json(alloc: Global, values: &[IdlValue]) -> Result<Vec<Value>, NoMemory>
    ensures { IfOk result (λ v. items_view v.items ≡ shown_each (values_of (values_view values.now)) (scalar (unsigned size1))) }
{
    let mut list = Vec::with_capacity(alloc, values.len())?;
    for value in values {
        list.push(octet_json(value))?;
    }
    Ok(list)
}

fn octet_json(value: &IdlValue) -> Value
    ensures { view result ≡ shown (value_of value.now) (scalar (unsigned size1)) }
{
    match value {
        IdlValue::Boolean(b) => integer_json(i128::from(u8::from(*b))),
        IdlValue::Number(z) => integer_json(*z),
        IdlValue::Char(c) => integer_json(i128::from(*c)),
        IdlValue::Label(n) => integer_json(i128::from(*n)),
        _ => Value::Null,
    }
}

#[cycle(to_json)]
fn struct_json(alloc: Global, members: &[Member], value: &IdlValue) -> Result<Value, NoMemory>
    ensures { (name : Name) → Shows result (shown (value_of value.now) (structure name (members_of (members_view members.now)))) }
{
    match value {
        IdlValue::Items(values) => members_json(alloc, members, values),
        _ => Ok(Value::Null),
    }
}

#[cycle(to_json)]
fn members_json(alloc: Global, members: &[Member], values: &[IdlValue]) -> Result<Value, NoMemory>
    ensures { Shows result
        (json_object (shown_members (values_of (values_view values.now)) (members_of (members_view members.now)) no_members)) }
{
    Ok(Value::Object(object_json(alloc, members, values)?))
}

/// The members in order of declaration, put into an object.
#[cycle(to_json)]
fn object_json(
    alloc: Global,
    members: &[Member],
    values: &[IdlValue],
) -> Result<Map<String, Value>, NoMemory>
    ensures { IfOk result (λ m. json_members m.entries
        ≡ shown_members (values_of (values_view values.now)) (members_of (members_view members.now)) no_members) }
{
    let mut object = Map::new(alloc);
    let mut rest = values;
    for member in members {
        let [value, after @ ..] = rest else {
            return Ok(object);
        };
        put_member(alloc, member, value, &mut object)?;
        rest = after;
    }
    Ok(object)
}

#[cycle(to_json)]
fn put_member(
    alloc: Global,
    member: &Member,
    value: &IdlValue,
    object: &mut Map<String, Value>,
) -> Result<(), NoMemory>
    ensures { OnOk result (json_members object.new.entries
        ≡ put (text_of member.now.name) (shown (value_of value.now) (kind_of member.now.kind)) (json_members object.old.entries)) }
{
    let key = text_of(alloc, member.name.as_slice())?;
    let json = to_json(alloc, &member.kind, value)?;
    put(object, key, json)
}

#[cycle(to_json)]
fn union_json(
    alloc: Global,
    cases: &[Case],
    tag: &IdlType,
    value: &IdlValue,
) -> Result<Value, NoMemory>
    ensures { (name : Name) → Shows result (shown (value_of value.now) (union name (kind_of tag.now) (cases_of (cases_view cases.now)))) }
{
    match value {
        IdlValue::Chosen(number, None) => bare_json(alloc, tag, *number),
        IdlValue::Chosen(number, Some(member)) => chosen_json(alloc, cases, tag, *number, member),
        _ => Ok(Value::Null),
    }
}

/// A union without a member.
fn bare_json(alloc: Global, tag: &IdlType, number: i128) -> Result<Value, NoMemory>
    ensures { Shows result (json_object (json_member (codes "case") (number_data (kind_of tag.now) number) no_members)) }
{
    Ok(Value::Object(case_json(alloc, tag, number)?))
}

/// An object of `case` alone.
fn case_json(alloc: Global, tag: &IdlType, number: i128) -> Result<Map<String, Value>, NoMemory>
    ensures { IfOk result (λ m. json_members m.entries ≡ json_member (codes "case") (number_data (kind_of tag.now) number) no_members) }
{
    let mut object = Map::new(alloc);
    let key = String::from_str(alloc, "case")?;
    let json = number_json(alloc, tag, number)?;
    put(&mut object, key, json)?;
    Ok(object)
}

/// A union with a member.
#[cycle(to_json)]
fn chosen_json(
    alloc: Global,
    cases: &[Case],
    tag: &IdlType,
    number: i128,
    member: &IdlValue,
) -> Result<Value, NoMemory>
    ensures { Shows result (json_object (json_member (codes "case") (number_data (kind_of tag.now) number)
        (shown_chosen (value (value_of member.now) no_values)
        (kind_at (choose number (cases_of (cases_view cases.now))) (cases_of (cases_view cases.now)))))) }
{
    let mut object = case_json(alloc, tag, number)?;
    let shown = member_json(alloc, chosen_case(number, cases), cases, member)?;
    put_value(alloc, shown, &mut object)?;
    Ok(Value::Object(object))
}

/// Puts a member, where there is one, beside `case`.
fn put_value(
    alloc: Global,
    member: Option<Value>,
    object: &mut Map<String, Value>,
) -> Result<(), NoMemory>
    ensures { (d : Data) → OnOk result (json_members object.old.entries ≡ json_member (codes "case") d no_members
        → json_members object.new.entries ≡ json_member (codes "case") d (value_member (option_map view member))) }
{
    match member {
        None => Ok(()),
        Some(json) => {
            let key = String::from_str(alloc, "value")?;
            put(object, key, json)
        }
    }
}

/// The member of the case at an index.
#[cycle(to_json)]
fn member_json(
    alloc: Global,
    index: Option<usize>,
    cases: &[Case],
    member: &IdlValue,
) -> Result<Option<Value>, NoMemory>
    ensures { IfOk result (λ o. value_member (option_map view o)
        ≡ shown_chosen (value (value_of member.now) no_values) (kind_at index (cases_of (cases_view cases.now)))) }
{
    match index {
        None => Ok(None),
        Some(index) => nth_json(alloc, index, cases, member),
    }
}

#[cycle(to_json)]
fn nth_json(
    alloc: Global,
    index: usize,
    cases: &[Case],
    member: &IdlValue,
) -> Result<Option<Value>, NoMemory>
    ensures { IfOk result (λ o. value_member (option_map view o)
        ≡ shown_chosen (value (value_of member.now) no_values) (nth_kind index (cases_of (cases_view cases.now)))) }
{
    let mut left = index;
    for case in cases {
        if left == 0 {
            return Ok(Some(to_json(alloc, &case.member.kind, member)?));
        }
        left -= 1;
    }
    Ok(None)
}
