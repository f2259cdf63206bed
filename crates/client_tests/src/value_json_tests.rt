//! JSON of values, written by hand from the table of types.
use cdr_values::{Case, IdlType, IdlValue, Member};
use orb_base::{List, Text};
use serde_json::Value;
use std::alloc::Global;
use std::test::*;
use value_json::*;

/// A type that holds no other one.
enum One {
    Boolean,
    Octet,
    Char,
    Short,
    UShort,
    Long,
    ULong,
    LongLong,
    ULongLong,
    /// A string of at most so many bytes.
    Words(u32),
    /// An enum of RED and GREEN.
    Colour,
}

/// A type.
enum Kind {
    One(One),
    /// A sequence of at most so many elements.
    Seq(One, u32),
    /// An array of so many elements.
    Array(One, u32),
    /// A struct of an octet x and a boolean b.
    Pair,
    /// A union of a boolean at 1 and a string at the labels.
    Union(One, &'static [i128]),
}

fn puts_label(alloc: Global, labels: &mut List<Text>, label: &[u8]) -> bool {
    match Text::new(alloc, label) {
        Ok(label) => labels.push(label).is_ok(),
        Err(_) => false,
    }
}

fn colour(alloc: Global) -> Option<IdlType> {
    let mut labels = List::new(alloc);
    if !puts_label(alloc, &mut labels, b"RED") || !puts_label(alloc, &mut labels, b"GREEN") {
        return None;
    }
    Some(IdlType::Enum(Text::new(alloc, b"Colour").ok()?, labels))
}

fn one_made(alloc: Global, of: &One) -> Option<IdlType> {
    match of {
        One::Boolean => Some(IdlType::Boolean),
        One::Octet => Some(IdlType::Octet),
        One::Char => Some(IdlType::Char),
        One::Short => Some(IdlType::Short),
        One::UShort => Some(IdlType::UShort),
        One::Long => Some(IdlType::Long),
        One::ULong => Some(IdlType::ULong),
        One::LongLong => Some(IdlType::LongLong),
        One::ULongLong => Some(IdlType::ULongLong),
        One::Words(bound) => Some(IdlType::Words(*bound)),
        One::Colour => colour(alloc),
    }
}

fn boxed(alloc: Global, of: &One) -> Option<Box<IdlType>> {
    Box::new(alloc, one_made(alloc, of)?).ok()
}

fn member(alloc: Global, name: &[u8], of: &One) -> Option<Member> {
    let name = Text::new(alloc, name).ok()?;
    Some(Member {
        name,
        kind: one_made(alloc, of)?,
    })
}

fn puts_member(alloc: Global, members: &mut Vec<Member>, name: &[u8], of: &One) -> bool {
    match member(alloc, name, of) {
        Some(member) => members.push(member).is_ok(),
        None => false,
    }
}

fn pair(alloc: Global) -> Option<IdlType> {
    let mut members = Vec::new(alloc);
    if !puts_member(alloc, &mut members, b"x", &One::Octet)
        || !puts_member(alloc, &mut members, b"b", &One::Boolean)
    {
        return None;
    }
    Some(IdlType::Struct(Text::new(alloc, b"Pair").ok()?, members))
}

fn case(alloc: Global, labels: &[i128], of: &One) -> Option<Case> {
    let labels = List::from_vec(Vec::from_slice(alloc, labels).ok()?);
    Some(Case {
        labels,
        is_default: false,
        member: member(alloc, b"m", of)?,
    })
}

fn puts_case(alloc: Global, cases: &mut Vec<Case>, labels: &[i128], of: &One) -> bool {
    match case(alloc, labels, of) {
        Some(case) => cases.push(case).is_ok(),
        None => false,
    }
}

fn union(alloc: Global, tag: &One, labels: &[i128]) -> Option<IdlType> {
    let mut cases = Vec::new(alloc);
    if !puts_case(alloc, &mut cases, &[1], &One::Boolean)
        || !puts_case(alloc, &mut cases, labels, &One::Words(0))
    {
        return None;
    }
    let name = Text::new(alloc, b"U").ok()?;
    Some(IdlType::Union(name, boxed(alloc, tag)?, cases))
}

fn kind_made(alloc: Global, of: &Kind) -> Option<IdlType> {
    match of {
        Kind::One(of) => one_made(alloc, of),
        Kind::Seq(of, bound) => Some(IdlType::Seq(boxed(alloc, of)?, *bound)),
        Kind::Array(of, len) => Some(IdlType::Array(boxed(alloc, of)?, *len)),
        Kind::Pair => pair(alloc),
        Kind::Union(tag, labels) => union(alloc, tag, labels),
    }
}

fn is_text(alloc: Global, json: &Value, want: &str) -> bool {
    match json.to_string(alloc) {
        Ok(text) => text.as_str() == want,
        Err(_) => false,
    }
}

fn is_printed(alloc: Global, kind: &IdlType, value: &IdlValue, want: &str) -> bool {
    match to_json(alloc, kind, value) {
        Ok(json) => is_text(alloc, &json, want),
        Err(_) => false,
    }
}

fn means(alloc: Global, kind: &IdlType, json: &Value, want: &str) -> bool {
    match from_json(alloc, kind, json) {
        Ok(value) => is_printed(alloc, kind, &value, want),
        Err(_) => false,
    }
}

/// Whether this is printed of the value that a text of a type means.
fn reads(alloc: Global, kind: &IdlType, text: &str, want: &str) -> bool {
    match Value::from_str(alloc, text) {
        Ok(json) => means(alloc, kind, &json, want),
        Err(_) => false,
    }
}

fn prints(alloc: Global, row: &Row) -> bool {
    let (of, text, want) = row;
    match kind_made(alloc, of) {
        Some(kind) => reads(alloc, &kind, text, want),
        None => false,
    }
}

fn all_print(alloc: Global, rows: &[Row]) -> bool {
    for row in rows {
        if !prints(alloc, row) {
            return false;
        }
    }
    true
}

/// A type, a text, and what is printed of its value.
type Row = (Kind, &'static str, &'static str);

const ENDS: &[Row] = &[
    (Kind::One(One::Boolean), "false", "false"),
    (Kind::One(One::Boolean), "true", "true"),
    (Kind::One(One::Octet), "0", "0"),
    (Kind::One(One::Octet), "255", "255"),
    (Kind::One(One::Short), "-32768", "-32768"),
    (Kind::One(One::Short), "32767", "32767"),
    (Kind::One(One::UShort), "0", "0"),
    (Kind::One(One::UShort), "65535", "65535"),
    (Kind::One(One::Long), "-2147483648", "-2147483648"),
    (Kind::One(One::Long), "2147483647", "2147483647"),
    (Kind::One(One::ULong), "0", "0"),
    (Kind::One(One::ULong), "4294967295", "4294967295"),
    (
        Kind::One(One::LongLong),
        "-9223372036854775808",
        "-9223372036854775808",
    ),
    (
        Kind::One(One::LongLong),
        "9223372036854775807",
        "9223372036854775807",
    ),
    (Kind::One(One::ULongLong), "0", "0"),
    (
        Kind::One(One::ULongLong),
        "18446744073709551615",
        "18446744073709551615",
    ),
];

#[test]
fn numbers_are_printed_at_both_ends(rt: HostRuntime) {
    assert!(rt; all_print(rt.alloc(), ENDS));
}

const TEXTS: &[Row] = &[
    (Kind::One(One::Char), "\"A\"", "\"A\""),
    (Kind::One(One::Char), "\"\\u0000\"", "\"\\u0000\""),
    (Kind::One(One::Char), "\"\\u00ff\"", "\"ÿ\""),
    (Kind::One(One::Words(0)), "\"Z\\u00fcrich\"", "\"Zürich\""),
    (Kind::One(One::Words(2)), "\"ÿÿ\"", "\"ÿÿ\""),
    (Kind::One(One::Colour), "\"GREEN\"", "\"GREEN\""),
];

#[test]
fn chars_strings_and_labels_are_printed(rt: HostRuntime) {
    assert!(rt; all_print(rt.alloc(), TEXTS));
}

const PARTS: &[Row] = &[
    (Kind::Seq(One::Octet, 2), "[]", "[]"),
    (Kind::Seq(One::Octet, 2), "[1, 2]", "[1,2]"),
    (Kind::Array(One::Colour, 1), "[\"RED\"]", "[\"RED\"]"),
    (Kind::Pair, "{\"x\":7,\"b\":true}", "{\"b\":true,\"x\":7}"),
    (
        Kind::Pair,
        "{\"x\":300,\"b\":true,\"x\":8}",
        "{\"b\":true,\"x\":8}",
    ),
    (
        Kind::Union(One::Long, &[-2]),
        "{\"value\":\"v\",\"case\":-2}",
        "{\"case\":-2,\"value\":\"v\"}",
    ),
    (
        Kind::Union(One::Long, &[-2]),
        "{\"case\":0}",
        "{\"case\":0}",
    ),
    (
        Kind::Union(One::Boolean, &[0]),
        "{\"case\":true,\"value\":false}",
        "{\"case\":true,\"value\":false}",
    ),
    (
        Kind::Union(One::Char, &[65]),
        "{\"case\":\"A\",\"value\":\"\"}",
        "{\"case\":\"A\",\"value\":\"\"}",
    ),
    (
        Kind::Union(One::Colour, &[0]),
        "{\"case\":\"GREEN\",\"value\":false}",
        "{\"case\":\"GREEN\",\"value\":false}",
    ),
];

#[test]
fn parts_are_printed(rt: HostRuntime) {
    assert!(rt; all_print(rt.alloc(), PARTS));
}

fn is_refused(alloc: Global, kind: &IdlType, json: &Value) -> bool {
    match from_json(alloc, kind, json) {
        Ok(_) => false,
        Err(e) => e == JsonError::NotOfType,
    }
}

fn is_no_value(alloc: Global, kind: &IdlType, text: &str) -> bool {
    match Value::from_str(alloc, text) {
        Ok(json) => is_refused(alloc, kind, &json),
        Err(_) => false,
    }
}

/// Whether a text means no value of a type.
fn refuses(alloc: Global, row: &(Kind, &'static str)) -> bool {
    let (of, text) = row;
    match kind_made(alloc, of) {
        Some(kind) => is_no_value(alloc, &kind, text),
        None => false,
    }
}

fn all_refuse(alloc: Global, rows: &[(Kind, &'static str)]) -> bool {
    for row in rows {
        if !refuses(alloc, row) {
            return false;
        }
    }
    true
}

const NO_NUMBERS: &[(Kind, &'static str)] = &[
    (Kind::One(One::Boolean), "1"),
    (Kind::One(One::Octet), "256"),
    (Kind::One(One::Octet), "-1"),
    (Kind::One(One::Octet), "-0"),
    (Kind::One(One::Octet), "1.0"),
    (Kind::One(One::Octet), "1e2"),
    (Kind::One(One::Octet), "\"1\""),
    (Kind::One(One::Short), "-32769"),
    (Kind::One(One::Short), "32768"),
    (Kind::One(One::UShort), "65536"),
    (Kind::One(One::UShort), "-1"),
    (Kind::One(One::Long), "-2147483649"),
    (Kind::One(One::Long), "2147483648"),
    (Kind::One(One::ULong), "4294967296"),
    (Kind::One(One::ULong), "-1"),
    (Kind::One(One::LongLong), "-9223372036854775809"),
    (Kind::One(One::LongLong), "9223372036854775808"),
    (Kind::One(One::ULongLong), "18446744073709551616"),
    (Kind::One(One::ULongLong), "-1"),
    (Kind::One(One::ULongLong), "1e2"),
    (Kind::One(One::LongLong), "-0"),
    (Kind::One(One::LongLong), "1.0"),
];

#[test]
fn numbers_past_the_ends_are_refused(rt: HostRuntime) {
    assert!(rt; all_refuse(rt.alloc(), NO_NUMBERS));
}

const NO_TEXTS: &[(Kind, &'static str)] = &[
    (Kind::One(One::Char), "\"\""),
    (Kind::One(One::Char), "\"AB\""),
    (Kind::One(One::Char), "\"\\u0100\""),
    (Kind::One(One::Char), "65"),
    (Kind::One(One::Words(0)), "\"a\\u0000\""),
    (Kind::One(One::Words(0)), "\"\\u0100\""),
    (Kind::One(One::Words(2)), "\"abc\""),
    (Kind::One(One::Colour), "\"green\""),
    (Kind::One(One::Colour), "1"),
];

#[test]
fn other_texts_are_refused(rt: HostRuntime) {
    assert!(rt; all_refuse(rt.alloc(), NO_TEXTS));
}

const NO_PARTS: &[(Kind, &'static str)] = &[
    (Kind::Seq(One::Octet, 2), "[1,2,3]"),
    (Kind::Seq(One::Octet, 0), "\"AQID\""),
    (Kind::Seq(One::Octet, 0), "[1,256]"),
    (Kind::Array(One::Octet, 2), "[1]"),
    (Kind::Array(One::Octet, 2), "[1,2,3]"),
    (Kind::Pair, "{\"x\":7}"),
    (Kind::Pair, "{\"x\":7,\"b\":true,\"c\":1}"),
    (Kind::Pair, "{\"x\":7,\"c\":true}"),
    (Kind::Pair, "{\"b\":true,\"x\":8,\"x\":300}"),
    (Kind::Pair, "[7,true]"),
    (Kind::Union(One::Long, &[-2]), "{\"case\":1}"),
    (Kind::Union(One::Long, &[-2]), "{\"case\":0,\"value\":true}"),
    (Kind::Union(One::Long, &[-2]), "{\"value\":true}"),
    (
        Kind::Union(One::Long, &[-2]),
        "{\"case\":1,\"value\":\"v\"}",
    ),
    (
        Kind::Union(One::Long, &[-2]),
        "{\"case\":1,\"value\":true,\"other\":1}",
    ),
];

#[test]
fn other_parts_are_refused(rt: HostRuntime) {
    assert!(rt; all_refuse(rt.alloc(), NO_PARTS));
}

/// Whether a row prints what it does with memory enough, or is out of memory at one of its calls.
fn prints_or_is_full(alloc: Global, row: &Row) -> bool {
    let (of, text, out) = row;
    let Some(kind) = kind_made(alloc, of) else {
        return true;
    };
    let Ok(json) = Value::from_str(alloc, text) else {
        return true;
    };
    let value = match from_json(alloc, &kind, &json) {
        Ok(value) => value,
        Err(e) => return e == JsonError::NoMemory,
    };
    let Ok(json) = to_json(alloc, &kind, &value) else {
        return true;
    };
    match json.to_string(alloc) {
        Ok(again) => again.as_str() == *out,
        Err(_) => true,
    }
}

/// Whether a text means no value of a type, or is out of memory.
fn refuses_or_is_full(alloc: Global, row: &(Kind, &'static str)) -> bool {
    let (of, text) = row;
    let Some(kind) = kind_made(alloc, of) else {
        return true;
    };
    match Value::from_str(alloc, text) {
        Ok(json) => from_json(alloc, &kind, &json).is_err(),
        Err(_) => true,
    }
}

fn all_print_or_are_full(alloc: Global, rows: &[Row]) -> bool {
    for row in rows {
        if !prints_or_is_full(alloc, row) {
            return false;
        }
    }
    true
}

fn all_refuse_or_are_full(alloc: Global, rows: &[(Kind, &'static str)]) -> bool {
    for row in rows {
        if !refuses_or_is_full(alloc, row) {
            return false;
        }
    }
    true
}

#[test]
fn out_of_memory_no_other_json_is_printed(rt: HostRuntime) {
    assert!(rt; all_print_or_are_full(rt.alloc(), TEXTS));
    assert!(rt; all_print_or_are_full(rt.alloc(), PARTS));
}

#[test]
fn out_of_memory_nothing_else_is_taken(rt: HostRuntime) {
    assert!(rt; all_refuse_or_are_full(rt.alloc(), NO_TEXTS));
    assert!(rt; all_refuse_or_are_full(rt.alloc(), NO_PARTS));
}

/// Puts a part so often; whether there was memory.
fn repeat(text: &mut String, part: &str, count: usize) -> bool {
    for _ in 0..count {
        if text.push_str(part).is_err() {
            return false;
        }
    }
    true
}

/// The text of a value in so many arrays.
fn within_arrays(alloc: Global, levels: usize, inside: &str) -> Option<String> {
    let mut text = String::new(alloc);
    if repeat(&mut text, "[", levels)
        && repeat(&mut text, inside, 1)
        && repeat(&mut text, "]", levels)
    {
        Some(text)
    } else {
        None
    }
}

/// A sequence of sequences, so many in all, of an octet.
fn deep_type(alloc: Global, sequences: usize) -> Option<IdlType> {
    let mut kind = IdlType::Octet;
    for _ in 0..sequences {
        kind = IdlType::Seq(Box::new(alloc, kind).ok()?, 0);
    }
    Some(kind)
}

/// Whether an octet in so many sequences is printed as it is read.
fn deep_is_printed(alloc: Global, sequences: usize) -> Option<bool> {
    let kind = deep_type(alloc, sequences)?;
    match within_arrays(alloc, sequences, "7") {
        Some(text) => Some(reads(alloc, &kind, text.as_str(), text.as_str())),
        None => None,
    }
}

#[test]
fn a_type_of_64_levels_is_printed(rt: HostRuntime) {
    assert!(rt; deep_is_printed(rt.alloc(), 63) == Some(true));
}

/// Whether arrays that nest so deep are JSON.
fn is_json(alloc: Global, levels: usize) -> Option<bool> {
    let text = within_arrays(alloc, levels, "")?;
    Some(Value::from_str(alloc, text.as_str()).is_ok())
}

#[test]
fn json_nests_127_levels_deep(rt: HostRuntime) {
    assert!(rt; is_json(rt.alloc(), 127) == Some(true));
    assert!(rt; is_json(rt.alloc(), 128) == Some(false));
}

/// The text of an array of so many octets.
fn octets_text(alloc: Global, count: usize) -> Option<String> {
    let mut text = String::new(alloc);
    if repeat(&mut text, "[7", 1)
        && repeat(&mut text, ",255", count.saturating_sub(1))
        && repeat(&mut text, "]", 1)
    {
        Some(text)
    } else {
        None
    }
}

fn array_of_octets(alloc: Global, len: u32) -> Option<IdlType> {
    match Box::new(alloc, IdlType::Octet) {
        Ok(octet) => Some(IdlType::Array(octet, len)),
        Err(_) => None,
    }
}

/// Whether an array of this length takes so many octets, and prints them as they are read.
fn octets_are_printed(alloc: Global, len: u32, count: usize) -> Option<bool> {
    let kind = array_of_octets(alloc, len)?;
    match octets_text(alloc, count) {
        Some(text) => Some(reads(alloc, &kind, text.as_str(), text.as_str())),
        None => None,
    }
}

#[test]
fn an_array_of_65536_octets_is_printed(rt: HostRuntime) {
    assert!(rt; octets_are_printed(rt.alloc(), 65536, 65536) == Some(true));
    assert!(rt; octets_are_printed(rt.alloc(), 65536, 65535) == Some(false));
    assert!(rt; octets_are_printed(rt.alloc(), 65536, 65537) == Some(false));
}
