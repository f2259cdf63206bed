//! Numbers of the types whose values are numbers, as they are spelled.
ghost use Rattle.std.specs.Prelude.{◌≡◌, ◌^◌, [], ◌∷◌, length, min, pos, option_map};
ghost use Rattle.std.specs.Int.{w32};
ghost use Rattle.cdr_core.specs.Writing.{Puts};
ghost use Rattle.cdr_values.specs.Kinds.{kind_of};
ghost use Rattle.cdr_values.specs.Numbers.{field_of};
ghost use Rattle.cdr_values.specs.Numerals.{truth_of, letter_of, integer_of, label_of, numeral_of, plain_field};
ghost use Rattle.cdr_values.specs.Spelling.{ranged, number_field, tag_field};
ghost use Rattle.cdr_values.specs.Trees.{size1, size2, size4, size8, boolean, char, unsigned, signed};
ghost use Rattle.cdr_values.specs.Values.{value_of};

use crate::kind::IdlType;
use crate::value::IdlValue;
use cdr_core::Writer;
use orb_base::{List, NoMemory, Text};

/// A number as it is spelled, by its width in bytes.
#[derive(Clone, Copy, Debug, PartialEq, Eq)]
pub(crate) enum Number {
    One(u8),
    Two(u16),
    Four(u32),
    Eight(u64),
}

impl Number {
    pub(crate) fn put(self, into: &mut Writer) -> Result<(), NoMemory>
        ensures { Puts result into.old into.new (field_of self ∷ []) }
    {
        match self {
            Number::One(n) => into.put_u8(n),
            Number::Two(n) => into.put_u16(n),
            Number::Four(n) => into.put_u32(n),
            Number::Eight(n) => into.put_u64(n),
        }
    }
}

/// The number of a value, as it is spelled; None where it is no value of the type, or the type is no scalar.
pub(crate) fn spelled(kind: &IdlType, value: &IdlValue) -> Option<Number>
    ensures { option_map field_of result ≡ plain_field (kind_of kind.now) (value_of value.now) }
{
    number_of(kind, numeral(kind, value)?)
}

/// The number that a value of a scalar type is.
fn numeral(kind: &IdlType, value: &IdlValue) -> Option<i128>
    ensures { result ≡ numeral_of (kind_of kind.now) (value_of value.now) }
{
    match kind {
        IdlType::Boolean => of_truth(value),
        IdlType::Char => of_letter(value),
        IdlType::Octet => of_integer(value),
        IdlType::Short => of_integer(value),
        IdlType::UShort => of_integer(value),
        IdlType::Long => of_integer(value),
        IdlType::ULong => of_integer(value),
        IdlType::LongLong => of_integer(value),
        IdlType::ULongLong => of_integer(value),
        IdlType::Enum(_, _) => of_enumerator(value),
        _ => None,
    }
}

fn of_truth(value: &IdlValue) -> Option<i128>
    ensures { result ≡ truth_of (value_of value.now) }
{
    match value {
        IdlValue::Boolean(b) => Some(i128::from(u8::from(*b))),
        _ => None,
    }
}

fn of_letter(value: &IdlValue) -> Option<i128>
    ensures { result ≡ letter_of (value_of value.now) }
{
    match value {
        IdlValue::Char(c) => Some(i128::from(*c)),
        _ => None,
    }
}

fn of_integer(value: &IdlValue) -> Option<i128>
    ensures { result ≡ integer_of (value_of value.now) }
{
    match value {
        IdlValue::Number(z) => Some(*z),
        _ => None,
    }
}

fn of_enumerator(value: &IdlValue) -> Option<i128>
    ensures { result ≡ label_of (value_of value.now) }
{
    match value {
        IdlValue::Label(n) => Some(i128::from(*n)),
        _ => None,
    }
}

/// How a number of a type is spelled; None where the type has no such number.
pub(crate) fn number_of(kind: &IdlType, z: i128) -> Option<Number>
    ensures { option_map field_of result ≡ tag_field (kind_of kind.now) z }
{
    match kind {
        IdlType::Boolean => of_boolean(z),
        IdlType::Octet => of_octet(z),
        IdlType::Char => of_char(z),
        IdlType::Short => of_short(z),
        IdlType::UShort => of_ushort(z),
        IdlType::Long => of_long(z),
        IdlType::ULong => of_ulong(z),
        IdlType::LongLong => of_longlong(z),
        IdlType::ULongLong => of_ulonglong(z),
        IdlType::Enum(_, labels) => of_label(labels, z),
        _ => None,
    }
}

fn of_boolean(z: i128) -> Option<Number>
    ensures { option_map field_of result ≡ number_field boolean z }
{
    if 0 <= z && z < 2 {
        Some(Number::One(z as u8))
    } else {
        None
    }
}

fn of_octet(z: i128) -> Option<Number>
    ensures { option_map field_of result ≡ number_field (unsigned size1) z }
{
    if 0 <= z && z < 256 {
        Some(Number::One(z as u8))
    } else {
        None
    }
}

fn of_char(z: i128) -> Option<Number>
    ensures { option_map field_of result ≡ number_field char z }
{
    if 0 <= z && z < 256 {
        Some(Number::One(z as u8))
    } else {
        None
    }
}

fn of_short(z: i128) -> Option<Number>
    ensures { option_map field_of result ≡ number_field (signed size2) z }
{
    if -0x8000 <= z && z < 0x8000 {
        Some(Number::Two((z as i16).cast_unsigned()))
    } else {
        None
    }
}

fn of_ushort(z: i128) -> Option<Number>
    ensures { option_map field_of result ≡ number_field (unsigned size2) z }
{
    if 0 <= z && z < 0x1_0000 {
        Some(Number::Two(z as u16))
    } else {
        None
    }
}

fn of_long(z: i128) -> Option<Number>
    ensures { option_map field_of result ≡ number_field (signed size4) z }
{
    if -0x8000_0000 <= z && z < 0x8000_0000 {
        Some(Number::Four((z as i32).cast_unsigned()))
    } else {
        None
    }
}

fn of_ulong(z: i128) -> Option<Number>
    ensures { option_map field_of result ≡ number_field (unsigned size4) z }
{
    if 0 <= z && z < 0x1_0000_0000 {
        Some(Number::Four(z as u32))
    } else {
        None
    }
}

fn of_longlong(z: i128) -> Option<Number>
    ensures { option_map field_of result ≡ number_field (signed size8) z }
{
    if -0x8000_0000_0000_0000 <= z && z < 0x8000_0000_0000_0000 {
        Some(Number::Eight((z as i64).cast_unsigned()))
    } else {
        None
    }
}

fn of_ulonglong(z: i128) -> Option<Number>
    ensures { option_map field_of result ≡ number_field (unsigned size8) z }
{
    if 0 <= z && z < 0x1_0000_0000_0000_0000 {
        Some(Number::Eight(z as u64))
    } else {
        None
    }
}

#[tactic(auto, using(crate::proofs::Labels::in_range, crate::proofs::Labels::out_of_range, crate::proofs::Labels::too_great))]
fn of_label(labels: &List<Text>, z: i128) -> Option<Number>
    ensures { option_map field_of result ≡ ranged (pos 0) (pos (min (length labels.now.items) (2 ^ 32))) w32 z }
{
    if 0 <= z && z < 0x1_0000_0000 {
        let n = z as u32;
        if (n as usize) < labels.len() {
            return Some(Number::Four(n));
        }
    }
    None
}
