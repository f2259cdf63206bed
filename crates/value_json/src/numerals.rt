//! Numbers of the types whose values are numbers, as JSON and from JSON.
ghost use Rattle.std.specs.Prelude.{◌≡◌, pos, true, IfOk, option_map, option_and_then, position, slice_get, unwrap_or};
ghost use Rattle.std.specs.Str.{bytes_eq, chars};
ghost use Rattle.serde_json.specs.Data.{null, number as json_number};
ghost use Rattle.serde_json.specs.Find.{of_integer};
ghost use Rattle.serde_json.specs.View.{view};
ghost use Rattle.cdr_values.specs.Kinds.{kind_of};
ghost use Rattle.cdr_values.specs.Trees.{boolean};
ghost use Rattle.value_json.specs.Numerals.{has_64_bits, integer_data, letter_data, label_data, number_data, integer_in, letter_in, only, as_code, as_label, label_in, numeral_in, number_in};
ghost use Rattle.value_json.specs.Gives.{Shows};
ghost use Rattle.value_json.specs.Texts.{text_data, text_of};

use crate::texts::{is_text_of, text_json};
use cdr_values::IdlType;
use orb_base::{List, NoMemory, Text};
use serde_json::{Number, Value};
use std::alloc::Global;

/// A number of a type; null where the type has no such number.
pub(crate) fn number_json(alloc: Global, kind: &IdlType, z: i128) -> Result<Value, NoMemory>
    ensures { Shows result (number_data (kind_of kind.now) z) }
{
    match kind {
        IdlType::Boolean => Ok(Value::Bool(z == 1)),
        IdlType::Octet => Ok(integer_json(z)),
        IdlType::Char => letter_json(alloc, z),
        IdlType::Short => Ok(integer_json(z)),
        IdlType::UShort => Ok(integer_json(z)),
        IdlType::Long => Ok(integer_json(z)),
        IdlType::ULong => Ok(integer_json(z)),
        IdlType::LongLong => Ok(integer_json(z)),
        IdlType::ULongLong => Ok(integer_json(z)),
        IdlType::Enum(_, labels) => label_json(alloc, labels, z),
        _ => Ok(Value::Null),
    }
}

pub(crate) fn integer_json(z: i128) -> Value
    ensures { view result ≡ integer_data z }
{
    if -0x8000_0000_0000_0000 <= z && z < 0x1_0000_0000_0000_0000 {
        small_json(z)
    } else {
        Value::Null
    }
}

/// An integer of 64 bits.
fn small_json(z: i128) -> Value
    requires { has_64_bits z ≡ true }
    ensures { view result ≡ json_number (of_integer z) }
{
    match Number::from_i128(z) {
        Some(number) => Value::Number(number),
        None => Value::Null,
    }
}

#[tactic(auto, using(crate::proofs::Data::letter_found, crate::proofs::Data::letter_none))]
fn letter_json(alloc: Global, z: i128) -> Result<Value, NoMemory>
    ensures { Shows result (letter_data z) }
{
    match u8::try_from(z) {
        Ok(code) => text_json(alloc, &[code]),
        Err(_) => Ok(Value::Null),
    }
}

#[tactic(auto, using(crate::proofs::Data::label_found, crate::proofs::Data::label_none))]
fn label_json(alloc: Global, labels: &List<Text>, z: i128) -> Result<Value, NoMemory>
    ensures { Shows result (label_data labels.now.items z) }
{
    match u32::try_from(z) {
        Ok(number) => nth_label_json(alloc, labels, number as usize),
        Err(_) => Ok(Value::Null),
    }
}

fn nth_label_json(alloc: Global, labels: &List<Text>, at: usize) -> Result<Value, NoMemory>
    ensures { Shows result (unwrap_or (option_map text_data (slice_get labels.now.items at)) null) }
{
    match labels.get(at) {
        Some(label) => text_json(alloc, label.as_slice()),
        None => Ok(Value::Null),
    }
}

/// The number of a type that JSON means; None where it means none.
#[tactic(auto, unfolding(crate::specs::Numerals::numeral_in, crate::specs::Numerals::number_in))]
pub(crate) fn number_in(kind: &IdlType, json: &Value) -> Option<i128>
    ensures { result ≡ number_in (kind_of kind.now) (view json.now) }
{
    match kind {
        IdlType::Boolean => boolean_in(json),
        IdlType::Octet => integer_in(0, 0x100, json),
        IdlType::Char => letter_in(json),
        IdlType::Short => integer_in(-0x8000, 0x8000, json),
        IdlType::UShort => integer_in(0, 0x1_0000, json),
        IdlType::Long => integer_in(-0x8000_0000, 0x8000_0000, json),
        IdlType::ULong => integer_in(0, 0x1_0000_0000, json),
        IdlType::LongLong => integer_in(-0x8000_0000_0000_0000, 0x8000_0000_0000_0000, json),
        IdlType::ULongLong => integer_in(0, 0x1_0000_0000_0000_0000, json),
        IdlType::Enum(_, labels) => label_in(labels, json),
        _ => None,
    }
}

#[tactic(auto, unfolding(crate::specs::Numerals::numeral_in))]
fn boolean_in(json: &Value) -> Option<i128>
    ensures { result ≡ numeral_in boolean (view json.now) }
{
    match json.as_bool() {
        Some(b) => Some(i128::from(u8::from(b))),
        None => None,
    }
}

/// An integer from the lowest one up to a limit.
pub(crate) fn integer_in(low: i128, high: i128, json: &Value) -> Option<i128>
    ensures { result ≡ integer_in low high (view json.now) }
{
    let z = json.as_number()?.as_i128()?;
    if low <= z && z < high { Some(z) } else { None }
}

fn letter_in(json: &Value) -> Option<i128>
    ensures { result ≡ letter_in (view json.now) }
{
    match letter_code(json) {
        Some(code) => Some(i128::from(code)),
        None => None,
    }
}

/// The code of a string's one character; None where it has more or none, or the code is above 255.
pub(crate) fn letter_code(json: &Value) -> Option<u8>
    ensures { option_map pos result ≡ letter_in (view json.now) }
{
    match json.as_str() {
        Some(text) => as_code(only(text)),
        None => None,
    }
}

fn only(text: &str) -> Option<char>
    ensures { result ≡ only (chars text.now) }
{
    let mut characters = text.chars();
    let first = characters.next()?;
    match characters.next() {
        None => Some(first),
        Some(_) => None,
    }
}

fn as_code(character: Option<char>) -> Option<u8>
    ensures { option_map pos result ≡ option_and_then as_code character }
{
    match u8::try_from(character?) {
        Ok(code) => Some(code),
        Err(_) => None,
    }
}

fn label_in(labels: &List<Text>, json: &Value) -> Option<i128>
    ensures { result ≡ label_in labels.now.items (view json.now) }
{
    match label_number(labels, json) {
        Some(number) => Some(i128::from(number)),
        None => None,
    }
}

/// The number of the first enumerator whose label the string is. One pass over the labels.
pub(crate) fn label_number(labels: &List<Text>, json: &Value) -> Option<u32>
    ensures { option_map pos result ≡ label_in labels.now.items (view json.now) }
{
    match json.as_str() {
        Some(text) => as_label(place_of(labels.as_slice(), text)),
        None => None,
    }
}

fn as_label(place: Option<usize>) -> Option<u32>
    ensures { option_map pos result ≡ option_and_then as_label place }
{
    let place = place?;
    if place < 0x1_0000_0000 {
        Some(place as u32)
    } else {
        None
    }
}

fn place_of(labels: &[Text], text: &str) -> Option<usize>
    ensures { result ≡ position (λ l. bytes_eq (text_of l) text.now) labels.now }
{
    labels
        .iter()
        .position(|label| is_text_of(label.as_slice(), text.as_bytes()))
}
