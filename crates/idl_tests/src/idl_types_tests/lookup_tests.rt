//! What is declared is found by its id, and by no other.

use super::samples::{constant, exception, labels, named, pair, plain_interface, puts, text, word};
use cdr_values::{IdlType, IdlValue};
use idl_types::*;
use std::alloc::Global;
use std::process::Abort;

const ONE: &[u8] = b"IDL:M/One:1.0";

/// A value that isn't a string.
#[derive(Clone, Copy)]
enum Plain {
    Boolean(bool),
    Char(u8),
    Number(i128),
    Label(u32),
}

fn value_of(plain: Plain) -> IdlValue {
    match plain {
        Plain::Boolean(bit) => IdlValue::Boolean(bit),
        Plain::Char(byte) => IdlValue::Char(byte),
        Plain::Number(number) => IdlValue::Number(number),
        Plain::Label(at) => IdlValue::Label(at),
    }
}

fn is_plain(value: &IdlValue, want: Plain) -> bool {
    match want {
        Plain::Boolean(bit) => matches!(value, IdlValue::Boolean(found) if *found == bit),
        Plain::Char(byte) => matches!(value, IdlValue::Char(found) if *found == byte),
        Plain::Number(number) => matches!(value, IdlValue::Number(found) if *found == number),
        Plain::Label(at) => matches!(value, IdlValue::Label(found) if *found == at),
    }
}

/// Whether the constant that is found is of this type and has this value.
fn is_found(all: &Repository, name: &str, want: Plain) -> bool {
    match all.constant(ONE) {
        Some(constant) => word(&constant.kind) == name && is_plain(&constant.value, want),
        None => false,
    }
}

/// Whether a constant is found with its type and its value.
fn keeps<R: Abort>(rt: &R, alloc: Global, kind: IdlType, name: &str, want: Plain) -> bool {
    let mut all = Repository::new(alloc);
    puts(&mut all, constant(rt, alloc, ONE, kind, value_of(want))) && is_found(&all, name, want)
}

fn keeps_short_integers<R: Abort>(rt: &R, alloc: Global) -> bool {
    let most = Plain::Number(4_294_967_295);
    keeps(rt, alloc, IdlType::Octet, "octet", Plain::Number(255))
        && keeps(rt, alloc, IdlType::Short, "short", Plain::Number(-32_768))
        && keeps(
            rt,
            alloc,
            IdlType::UShort,
            "unsigned short",
            Plain::Number(65_535),
        )
        && keeps(rt, alloc, IdlType::Long, "long", Plain::Number(-1))
        && keeps(rt, alloc, IdlType::ULong, "unsigned long", most)
}

fn keeps_long_integers<R: Abort>(rt: &R, alloc: Global) -> bool {
    let least = Plain::Number(-9_223_372_036_854_775_808);
    let most = Plain::Number(18_446_744_073_709_551_615);
    keeps(rt, alloc, IdlType::LongLong, "long long", least)
        && keeps(rt, alloc, IdlType::ULongLong, "unsigned long long", most)
}

#[test]
fn constants_of_each_type_of_integer_are_found(rt: HostRuntime) {
    assert!(rt; keeps_short_integers(&rt, rt.alloc()));
    assert!(rt; keeps_long_integers(&rt, rt.alloc()));
}

fn keeps_others<R: Abort>(rt: &R, alloc: Global) -> bool {
    let kind = labels(rt, alloc, &[b"RED", b"BLUE"]);
    keeps(rt, alloc, kind, "enum", Plain::Label(1))
        && keeps(rt, alloc, IdlType::Boolean, "boolean", Plain::Boolean(true))
        && keeps(rt, alloc, IdlType::Char, "char", Plain::Char(33))
}

#[test]
fn a_boolean_a_char_and_an_enumerator_are_found(rt: HostRuntime) {
    assert!(rt; keeps_others(&rt, rt.alloc()));
}

/// `const string One = "hi";`
fn hi<R: Abort>(rt: &R, alloc: Global) -> Declaration {
    let words = text(rt, alloc, b"hi");
    constant(rt, alloc, ONE, IdlType::Words(0), IdlValue::Words(words))
}

/// Whether the constant that is found is a string of these bytes, and so no value of another kind.
fn has_letters(all: &Repository, letters: &[u8]) -> bool {
    match all.constant(ONE) {
        Some(constant) => match &constant.value {
            IdlValue::Words(words) => words.as_slice() == letters,
            _ => false,
        },
        None => false,
    }
}

fn keeps_string<R: Abort>(rt: &R, alloc: Global) -> bool {
    let mut all = Repository::new(alloc);
    puts(&mut all, hi(rt, alloc)) && has_letters(&all, b"hi")
}

#[test]
fn a_string_is_found(rt: HostRuntime) {
    assert!(rt; keeps_string(&rt, rt.alloc()));
}

/// Whether a thing is found by an id as a constant, a named type, an exception, an interface.
fn is_found_as(
    all: &Repository,
    id: &[u8],
    constant: bool,
    named: bool,
    exception: bool,
    interface: bool,
) -> bool {
    all.constant(id).is_some() == constant
        && all.named_type(id).is_some() == named
        && all.exception(id).is_some() == exception
        && all.interface(id).is_some() == interface
}

/// Ids that differ from that one in case or by one byte.
const OTHERS: &[&[u8]] = &[
    b"IDL:M/one:1.0",
    b"IDL:m/One:1.0",
    b"IDL:M/One:1.1",
    b"IDL:M/One:1.",
    b"IDL:M/One:1.00",
];

/// Whether nothing is found by them.
fn is_told_apart(all: &Repository) -> bool {
    for id in OTHERS {
        if all.find(id).is_some() || !is_found_as(all, id, false, false, false, false) {
            return false;
        }
    }
    true
}

/// Whether a repository of one thing has it as these sorts of things, and finds it by no other id.
fn is_found_alone(
    all: &Repository,
    constant: bool,
    named: bool,
    exception: bool,
    interface: bool,
) -> bool {
    is_found_as(all, ONE, constant, named, exception, interface) && is_told_apart(all)
}

fn finds_a_constant<R: Abort>(rt: &R, alloc: Global) -> bool {
    let one = constant(rt, alloc, ONE, IdlType::Long, IdlValue::Number(1));
    let mut all = Repository::new(alloc);
    puts(&mut all, one) && is_found_alone(&all, true, false, false, false)
}

fn finds_a_type<R: Abort>(rt: &R, alloc: Global) -> bool {
    let one = named(rt, alloc, ONE, IdlType::ULong);
    let mut all = Repository::new(alloc);
    puts(&mut all, one) && is_found_alone(&all, false, true, false, false)
}

#[test]
fn a_constant_and_a_type_are_found_by_their_id_alone(rt: HostRuntime) {
    assert!(rt; finds_a_constant(&rt, rt.alloc()));
    assert!(rt; finds_a_type(&rt, rt.alloc()));
}

fn finds_an_exception<R: Abort>(rt: &R, alloc: Global) -> bool {
    let one = exception(rt, alloc, ONE, pair(rt, alloc, b"why", IdlType::Char));
    let mut all = Repository::new(alloc);
    puts(&mut all, one) && is_found_alone(&all, false, false, true, false)
}

fn finds_an_interface<R: Abort>(rt: &R, alloc: Global) -> bool {
    let one = plain_interface(rt, alloc, ONE, &[], &[b"f"]);
    let mut all = Repository::new(alloc);
    puts(&mut all, one) && is_found_alone(&all, false, false, false, true)
}

#[test]
fn an_exception_and_an_interface_are_found_by_their_id_alone(rt: HostRuntime) {
    assert!(rt; finds_an_exception(&rt, rt.alloc()));
    assert!(rt; finds_an_interface(&rt, rt.alloc()));
}

fn has_both_places(all: &Repository) -> bool {
    all.len() == 2
        && !all.is_empty()
        && all.place_of(ONE) == Some(0)
        && all.place_of(b"IDL:B:1.0") == Some(1)
}

fn has_both_sorts(all: &Repository) -> bool {
    matches!(all.nth(0), Some(Declaration::Interface(_)))
        && matches!(all.nth(1), Some(Declaration::Named(_)))
        && all.nth(2).is_none()
}

fn tells_of_one(all: &Repository) -> bool {
    match all.find(ONE) {
        Some(found) => {
            found.id().as_slice() == ONE
                && found.operations().len() == 1
                && found.bases().is_empty()
        }
        None => false,
    }
}

/// `interface One { octet f(); }; typedef octet B;`, the second in no module.
fn puts_two_things<R: Abort>(rt: &R, alloc: Global, all: &mut Repository) -> bool {
    puts(all, plain_interface(rt, alloc, ONE, &[], &[b"f"]))
        && puts(all, named(rt, alloc, b"IDL:B:1.0", IdlType::Octet))
}

fn keeps_order<R: Abort>(rt: &R, alloc: Global) -> bool {
    let mut all = Repository::new(alloc);
    all.is_empty()
        && puts_two_things(rt, alloc, &mut all)
        && has_both_places(&all)
        && has_both_sorts(&all)
        && tells_of_one(&all)
}

#[test]
fn things_stand_in_order_of_declaration(rt: HostRuntime) {
    assert!(rt; keeps_order(&rt, rt.alloc()));
}
