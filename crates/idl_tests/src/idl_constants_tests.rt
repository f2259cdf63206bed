//! Literals, and the types that they fit.

use cdr_values::IdlType;
use idl_constants::*;
use orb_base::Text;
use std::alloc::Global;

/// Literals, and the number that each spells.
const INTEGERS: &[(&[u8], u128)] = &[
    (b"0", 0),
    (b"1", 1),
    (b"65536", 65_536),
    (b"017", 15),
    (b"0x1F", 31),
    (b"0xff", 255),
    (b"18446744073709551615", 18_446_744_073_709_551_615),
    (b"18446744073709551616", 18_446_744_073_709_551_616),
    (b"99999999999999999999999", 18_446_744_073_709_551_616),
];

fn spell_numbers() -> bool {
    for (text, want) in INTEGERS {
        if integer_of(text) != *want {
            return false;
        }
    }
    true
}

#[test]
fn a_literal_spells_its_number(rt: HostRuntime) {
    assert!(rt; spell_numbers());
    assert!(rt; character_of(b"'a'") == b'a');
}

/// Whether a type answers this on a value.
fn fits(kind: IdlType, value: ConstValue, want: Result<(), Misfit>) -> bool {
    fit(&kind, &value) == want
}

fn octets_and_shorts_fit() -> bool {
    fits(IdlType::Octet, ConstValue::Number(255), Ok(()))
        && fits(
            IdlType::Octet,
            ConstValue::Number(256),
            Err(Misfit::OutOfRange),
        )
        && fits(IdlType::Short, ConstValue::Number(-32_768), Ok(()))
        && fits(
            IdlType::Short,
            ConstValue::Number(-32_769),
            Err(Misfit::OutOfRange),
        )
}

fn longs_fit() -> bool {
    let most = ConstValue::Number(18_446_744_073_709_551_615);
    let more = ConstValue::Number(9_223_372_036_854_775_808);
    fits(IdlType::ULongLong, most, Ok(()))
        && fits(IdlType::LongLong, more, Err(Misfit::OutOfRange))
        && fits(
            IdlType::Long,
            ConstValue::Truth(false),
            Err(Misfit::WrongKind),
        )
}

fn chars_and_truths_fit() -> bool {
    fits(
        IdlType::Char,
        ConstValue::Number(65),
        Err(Misfit::WrongKind),
    ) && fits(IdlType::Char, ConstValue::Character(65), Ok(()))
        && fits(IdlType::Boolean, ConstValue::Truth(true), Ok(()))
}

/// Whether a string with this bound answers this on abc.
fn abc_fits(alloc: Global, bound: u32, want: Result<(), Misfit>) -> bool {
    match Text::new(alloc, b"abc") {
        Ok(text) => fits(IdlType::Words(bound), ConstValue::Text(text), want),
        Err(_) => false,
    }
}

fn texts_fit(alloc: Global) -> bool {
    abc_fits(alloc, 2, Err(Misfit::OutOfRange)) && abc_fits(alloc, 0, Ok(()))
}

fn are_bounds() -> bool {
    bound_of(&ConstValue::Number(65_536)) == Ok(65_536)
        && bound_of(&ConstValue::Number(65_537)) == Err(Misfit::OutOfRange)
        && bound_of(&ConstValue::Number(0)) == Err(Misfit::OutOfRange)
        && bound_of(&ConstValue::Truth(true)) == Err(Misfit::WrongKind)
}

fn stand_where_they_may() -> bool {
    ConstValue::Truth(true).label() == 1
        && !may_switch(&IdlType::Octet)
        && may_be_constant(&IdlType::Octet)
}

#[test]
fn a_value_fits_a_type_of_its_kind_within_its_range(rt: HostRuntime) {
    assert!(rt; octets_and_shorts_fit());
    assert!(rt; longs_fit());
    assert!(rt; chars_and_truths_fit());
    assert!(rt; texts_fit(rt.alloc()));
    assert!(rt; are_bounds());
    assert!(rt; stand_where_they_may());
}
