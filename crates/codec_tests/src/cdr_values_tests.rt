//! Values laid out by hand by the rules of CORBA 3.0.3, section 15.3.
ghost use Rattle.std.specs.Prelude.{◌≤◌};

use cdr_core::{CdrCause, CdrFault, Writer};
use cdr_values::*;
use orb_base::{List, Octets, Order, Text};
use std::alloc::Global;
use std::test::*;

/// A type that holds no other one.
enum One {
    Boolean,
    Octet,
    Char,
    Short,
    UShort,
    Long,
    ULong,
    LongLong,
    ULongLong,
    /// A string of at most so many bytes.
    Words(u32),
    /// An enum of two labels.
    Colour(&'static [u8], &'static [u8]),
    /// A struct without members.
    Empty,
}

/// A type.
enum Kind {
    One(One),
    /// A sequence of at most so many elements.
    Seq(One, u32),
    /// An array of arrays of so many elements, and how many they are.
    Arrays(One, u32, u32),
    /// A sequence of arrays of so many elements.
    Rows(One, u32),
    /// A struct of an octet x and another member.
    Pair(&'static [u8], One),
    /// A union of a boolean at the first labels and a short at the second ones.
    Union(One, &'static [i128], &'static [i128]),
}

const COLOUR: One = One::Colour(b"red", b"green");

fn puts_label(alloc: Global, labels: &mut List<Text>, label: &[u8]) -> bool {
    match Text::new(alloc, label) {
        Ok(label) => labels.push(label).is_ok(),
        Err(_) => false,
    }
}

/// Two texts.
fn labels(alloc: Global, first: &[u8], second: &[u8]) -> Option<List<Text>> {
    let mut labels = List::new(alloc);
    if !puts_label(alloc, &mut labels, first) || !puts_label(alloc, &mut labels, second) {
        return None;
    }
    Some(labels)
}

fn colour(alloc: Global, first: &[u8], second: &[u8]) -> Option<IdlType> {
    let labels = labels(alloc, first, second)?;
    Some(IdlType::Enum(Text::new(alloc, b"Colour").ok()?, labels))
}

fn structure(alloc: Global, members: Vec<Member>) -> Option<IdlType> {
    Some(IdlType::Struct(Text::new(alloc, b"S").ok()?, members))
}

fn one_made(alloc: Global, of: &One) -> Option<IdlType> {
    match of {
        One::Boolean => Some(IdlType::Boolean),
        One::Octet => Some(IdlType::Octet),
        One::Char => Some(IdlType::Char),
        One::Short => Some(IdlType::Short),
        One::UShort => Some(IdlType::UShort),
        One::Long => Some(IdlType::Long),
        One::ULong => Some(IdlType::ULong),
        One::LongLong => Some(IdlType::LongLong),
        One::ULongLong => Some(IdlType::ULongLong),
        One::Words(bound) => Some(IdlType::Words(*bound)),
        One::Colour(first, second) => colour(alloc, first, second),
        One::Empty => structure(alloc, Vec::new(alloc)),
    }
}

fn boxed(alloc: Global, of: &One) -> Option<Box<IdlType>> {
    Box::new(alloc, one_made(alloc, of)?).ok()
}

fn boxed_array(alloc: Global, of: &One, len: u32) -> Option<Box<IdlType>> {
    Box::new(alloc, IdlType::Array(boxed(alloc, of)?, len)).ok()
}

fn member(alloc: Global, name: &[u8], of: &One) -> Option<Member> {
    let name = Text::new(alloc, name).ok()?;
    Some(Member {
        name,
        kind: one_made(alloc, of)?,
    })
}

fn puts_member(alloc: Global, members: &mut Vec<Member>, name: &[u8], of: &One) -> bool {
    match member(alloc, name, of) {
        Some(member) => members.push(member).is_ok(),
        None => false,
    }
}

fn pair(alloc: Global, second: &[u8], of: &One) -> Option<IdlType> {
    let mut members = Vec::new(alloc);
    if !puts_member(alloc, &mut members, b"x", &One::Octet)
        || !puts_member(alloc, &mut members, second, of)
    {
        return None;
    }
    structure(alloc, members)
}

/// A case that is chosen by these labels, or by none where there are none.
fn case(alloc: Global, labels: &[i128], of: &One) -> Option<Case> {
    let is_default = labels.is_empty();
    let labels = List::from_vec(Vec::from_slice(alloc, labels).ok()?);
    Some(Case {
        labels,
        is_default,
        member: member(alloc, b"m", of)?,
    })
}

fn puts_case(alloc: Global, cases: &mut Vec<Case>, labels: &[i128], of: &One) -> bool {
    match case(alloc, labels, of) {
        Some(case) => cases.push(case).is_ok(),
        None => false,
    }
}

fn cases(alloc: Global, first: &[i128], second: &[i128]) -> Option<Vec<Case>> {
    let mut cases = Vec::new(alloc);
    if !puts_case(alloc, &mut cases, first, &One::Boolean)
        || !puts_case(alloc, &mut cases, second, &One::Short)
    {
        return None;
    }
    Some(cases)
}

fn union(alloc: Global, tag: &One, first: &[i128], second: &[i128]) -> Option<IdlType> {
    let name = Text::new(alloc, b"U").ok()?;
    let tag = boxed(alloc, tag)?;
    Some(IdlType::Union(name, tag, cases(alloc, first, second)?))
}

fn kind_made(alloc: Global, of: &Kind) -> Option<IdlType> {
    match of {
        Kind::One(of) => one_made(alloc, of),
        Kind::Seq(of, bound) => Some(IdlType::Seq(boxed(alloc, of)?, *bound)),
        Kind::Arrays(of, len, outer) => Some(IdlType::Array(boxed_array(alloc, of, *len)?, *outer)),
        Kind::Rows(of, len) => Some(IdlType::Seq(boxed_array(alloc, of, *len)?, 0)),
        Kind::Pair(second, of) => pair(alloc, second, of),
        Kind::Union(tag, first, second) => union(alloc, tag, first, second),
    }
}

/// The spelling of a value that is one of the type.
fn spelled(
    alloc: Global,
    order: Order,
    at: usize,
    kind: &IdlType,
    value: &IdlValue,
) -> Option<Octets>
    requires { at ≤ 262144 }
{
    let mut out = Writer::new(alloc, order, at);
    if !fits(kind, value) || encode(kind, value, &mut out).is_err() {
        return None;
    }
    Some(out.finish())
}

/// Whether a value from a place on is spelled so.
fn spells(
    alloc: Global,
    order: Order,
    at: usize,
    kind: &IdlType,
    value: &IdlValue,
    bytes: &[u8],
) -> bool
    requires { at ≤ 262144 }
{
    match spelled(alloc, order, at, kind, value) {
        Some(out) => out.as_slice() == bytes,
        None => false,
    }
}

/// Whether a spelling is read whole, and its value is spelled so in the big order from place 8 on.
fn reads(
    alloc: Global,
    order: Order,
    at: usize,
    kind: &IdlType,
    spelling: &[u8],
    bytes: &[u8],
) -> bool
    requires { at ≤ 262144 }
{
    match decode(alloc, order, at, kind, spelling) {
        Ok((value, len)) => {
            len == spelling.len() && spells(alloc, Order::Big, 8, kind, &value, bytes)
        }
        Err(_) => false,
    }
}

/// Whether a value is spelled from a place on and read again.
fn goes_round(
    alloc: Global,
    order: Order,
    at: usize,
    kind: &IdlType,
    value: &IdlValue,
    bytes: &[u8],
) -> bool
    requires { at ≤ 262144 }
{
    match spelled(alloc, order, at, kind, value) {
        Some(out) => reads(alloc, order, at, kind, out.as_slice(), bytes),
        None => false,
    }
}

/// The same from each place on in each order.
fn goes_round_everywhere(alloc: Global, kind: &IdlType, value: &IdlValue, bytes: &[u8]) -> bool {
    for at in 0..8_usize {
        if !goes_round(alloc, Order::Big, at, kind, value, bytes)
            || !goes_round(alloc, Order::Little, at, kind, value, bytes)
        {
            return false;
        }
    }
    true
}

/// The same of a copy of the value.
fn copy_goes_round(alloc: Global, kind: &IdlType, value: &IdlValue, bytes: &[u8]) -> bool {
    match copy_value(alloc, value) {
        Ok(value) => goes_round_everywhere(alloc, kind, &value, bytes),
        Err(_) => false,
    }
}

/// The same by a copy of the type.
fn copies_go_round(alloc: Global, kind: &IdlType, value: &IdlValue, bytes: &[u8]) -> bool {
    match copy_type(alloc, kind) {
        Ok(kind) => copy_goes_round(alloc, &kind, value, bytes),
        Err(_) => false,
    }
}

/// These bytes and 9.
fn and_nine(alloc: Global, bytes: &[u8]) -> Option<Octets> {
    let mut more = List::from_vec(Vec::from_slice(alloc, bytes).ok()?);
    if more.push(9).is_err() {
        return None;
    }
    Some(more)
}

/// Whether the bytes in the big order from place 8 on are read where there are more, and the value goes round.
fn is_read(alloc: Global, kind: &IdlType, more: &[u8], bytes: &[u8]) -> bool {
    match decode(alloc, Order::Big, 8, kind, more) {
        Ok((value, len)) => len == bytes.len() && copies_go_round(alloc, kind, &value, bytes),
        Err(_) => false,
    }
}

/// Whether the bytes in the big order from place 8 on, and one byte after them, are read and spelled again; so is the
/// value from each place on in each order.
fn again(alloc: Global, kind: &IdlType, bytes: &[u8]) -> bool {
    match and_nine(alloc, bytes) {
        Some(more) => is_read(alloc, kind, more.as_slice(), bytes),
        None => false,
    }
}

/// A type, and a value's bytes.
type Spelling = (Kind, &'static [u8]);

fn is_again(alloc: Global, row: &Spelling) -> bool {
    match kind_made(alloc, &row.0) {
        Some(kind) => again(alloc, &kind, row.1),
        None => false,
    }
}

fn all_again(alloc: Global, rows: &[Spelling]) -> bool {
    for row in rows {
        if !is_again(alloc, row) {
            return false;
        }
    }
    true
}

fn are_texts(texts: &[Text]) -> bool {
    match texts {
        [first, second] => first.as_slice() == b"b".as_slice() && second.as_slice().is_empty(),
        _ => false,
    }
}

fn copies_are_texts(alloc: Global, texts: &[Text]) -> bool {
    match copy_texts(alloc, texts) {
        Ok(copies) => are_texts(copies.as_slice()),
        Err(_) => false,
    }
}

fn texts_are_copied(alloc: Global) -> bool {
    match labels(alloc, b"b", b"") {
        Some(texts) => copies_are_texts(alloc, texts.as_slice()),
        None => false,
    }
}

#[test]
fn texts_are_copied_in_order(rt: HostRuntime) {
    assert!(rt; texts_are_copied(rt.alloc()));
}

const NUMBERS: &[Spelling] = &[
    (Kind::One(One::Boolean), b"\x01"),
    (Kind::One(One::Octet), b"\xc8"),
    (Kind::One(One::Char), b"A"),
    (Kind::One(One::Short), b"\xff\xfe"),
    (Kind::One(One::UShort), b"\xff\xfe"),
    (Kind::One(One::Long), b"\x80\0\0\0"),
    (Kind::One(One::ULong), b"\x80\0\0\x01"),
    (
        Kind::One(One::LongLong),
        b"\xff\xff\xff\xff\xff\xff\xff\xfd",
    ),
    (
        Kind::One(One::ULongLong),
        b"\x01\x02\x03\x04\x05\x06\x07\x08",
    ),
    (Kind::One(COLOUR), b"\0\0\0\x01"),
];

#[test]
fn numbers_are_read_and_spelled_again(rt: HostRuntime) {
    assert!(rt; all_again(rt.alloc(), NUMBERS));
}

const TEXTS_AND_ROWS: &[Spelling] = &[
    (Kind::One(One::Words(0)), b"\0\0\0\x03hi\0"),
    (Kind::One(One::Words(2)), b"\0\0\0\x03hi\0"),
    (Kind::Seq(One::Octet, 0), b"\0\0\0\x03\x07\x08\x09"),
    (Kind::Seq(One::UShort, 2), b"\0\0\0\x02\0\x07\0\x08"),
    (Kind::Arrays(One::Short, 1, 2), b"\xff\xff\0\x01"),
    (
        Kind::Pair(b"y", One::LongLong),
        b"\x05\0\0\0\0\0\0\0\0\0\0\0\0\0\0\x09",
    ),
];

#[test]
fn texts_and_rows_are_read_and_spelled_again(rt: HostRuntime) {
    assert!(rt; all_again(rt.alloc(), TEXTS_AND_ROWS));
}

const UNIONS: &[Spelling] = &[
    (Kind::Union(One::Long, &[1, 2], &[5]), b"\0\0\0\x02\x01"),
    (Kind::Union(One::Long, &[1, 2], &[5]), b"\0\0\0\x05\0\x07"),
    (Kind::Union(One::Long, &[1, 2], &[5]), b"\0\0\0\x06"),
    (Kind::Union(One::Short, &[1], &[]), b"\xff\xff\0\x07"),
    (Kind::Union(One::Boolean, &[0], &[1]), b"\x01\0\0\x07"),
];

#[test]
fn unions_are_read_and_spelled_again(rt: HostRuntime) {
    assert!(rt; all_again(rt.alloc(), UNIONS));
}

const DISCRIMINATORS: &[Spelling] = &[
    (Kind::Union(One::Char, &[65], &[]), b"A\x01"),
    (Kind::Union(One::UShort, &[65535], &[]), b"\xff\xff\x01"),
    (Kind::Union(One::ULong, &[3], &[]), b"\0\0\0\x03\x01"),
    (
        Kind::Union(One::LongLong, &[-1], &[]),
        b"\xff\xff\xff\xff\xff\xff\xff\xff\x01",
    ),
    (
        Kind::Union(One::ULongLong, &[3], &[]),
        b"\0\0\0\0\0\0\0\x03\x01",
    ),
    (Kind::Union(COLOUR, &[1], &[]), b"\0\0\0\x01\x01"),
];

#[test]
fn each_type_of_numbers_discriminates(rt: HostRuntime) {
    assert!(rt; all_again(rt.alloc(), DISCRIMINATORS));
}

/// A type, and bytes from place 1 on that spell no value of it, for this cause at this place.
type Refusal = (Kind, &'static [u8], CdrCause, usize);

const FAULTS: &[Refusal] = &[
    (Kind::One(One::Long), b"\0\0\0\0\0\0", CdrCause::Short, 4),
    (Kind::One(One::Boolean), b"\x02", CdrCause::BadBool, 1),
    (
        Kind::One(One::Words(0)),
        b"\0\0\0\0\0\0\x02a",
        CdrCause::TooMany,
        4,
    ),
    (
        Kind::One(One::Words(0)),
        b"\0\0\0\0\0\0\x02ab",
        CdrCause::BadString,
        4,
    ),
    (
        Kind::One(One::Words(1)),
        b"\0\0\0\0\0\0\x03ab\0",
        CdrCause::OverBound,
        4,
    ),
    (
        Kind::Pair(b"y", One::Boolean),
        b"\x05\x02",
        CdrCause::BadBool,
        2,
    ),
    (
        Kind::Seq(One::Octet, 1),
        b"\0\0\0\0\0\0\x02ab",
        CdrCause::OverBound,
        4,
    ),
    (Kind::One(COLOUR), b"\0\0\0\0\0\0\x02", CdrCause::BadEnum, 4),
    (
        Kind::Union(One::Long, &[1], &[]),
        b"\0\0\0\0\0\0\x01\x02",
        CdrCause::BadBool,
        8,
    ),
];

fn is_refused(alloc: Global, kind: &IdlType, bytes: &[u8], fault: CdrFault) -> bool {
    match decode(alloc, Order::Big, 1, kind, bytes) {
        Ok(_) => false,
        Err(found) => found == DecodeFault::Cdr(fault),
    }
}

fn refuses(alloc: Global, row: &Refusal) -> bool {
    let (of, bytes, cause, place) = row;
    let fault = CdrFault {
        cause: *cause,
        place: *place,
    };
    match kind_made(alloc, of) {
        Some(kind) => is_refused(alloc, &kind, bytes, fault),
        None => false,
    }
}

fn all_are_refused(alloc: Global, rows: &[Refusal]) -> bool {
    for row in rows {
        if !refuses(alloc, row) {
            return false;
        }
    }
    true
}

#[test]
fn each_fault_is_told_at_its_place(rt: HostRuntime) {
    assert!(rt; all_are_refused(rt.alloc(), FAULTS));
}

fn puts_sevens(bytes: &mut Octets) -> bool {
    for _ in 0..65536 {
        if bytes.push(7).is_err() {
            return false;
        }
    }
    true
}

/// The spelling of 65536 octets.
fn long(alloc: Global) -> Option<Octets> {
    let mut bytes = List::from_vec(Vec::from_slice(alloc, &[0, 1, 0, 0]).ok()?);
    if !puts_sevens(&mut bytes) {
        return None;
    }
    Some(bytes)
}

fn is_long(alloc: Global, kind: &IdlType, bytes: &[u8]) -> bool {
    match decode(alloc, Order::Big, 0, kind, bytes) {
        Ok((value, len)) => len == 65540 && spells(alloc, Order::Big, 0, kind, &value, bytes),
        Err(_) => false,
    }
}

fn long_is_read(alloc: Global, bytes: &[u8]) -> bool {
    match kind_made(alloc, &Kind::Seq(One::Octet, 0)) {
        Some(kind) => is_long(alloc, &kind, bytes),
        None => false,
    }
}

fn reads_long(alloc: Global) -> bool {
    match long(alloc) {
        Some(bytes) => long_is_read(alloc, bytes.as_slice()),
        None => false,
    }
}

#[test]
fn a_long_sequence_is_read(rt: HostRuntime) {
    assert!(rt; reads_long(rt.alloc()));
}

/// An order, a place, a number and the spelling of the long there.
type Long = (Order, u8, i128, &'static [u8]);

/// The bodies of a request `twice` with 21 and of its reply, each a long at a multiple of 8, and one at another place.
const LONGS: &[Long] = &[
    (Order::Big, 72, 21, b"\0\0\0\x15"),
    (Order::Big, 24, 42, b"\0\0\0\x2a"),
    (Order::Little, 5, 21, b"\0\0\0\x15\0\0\0"),
];

fn is_spelled(alloc: Global, row: &Long) -> bool {
    let (order, at, number, bytes) = row;
    let value = IdlValue::Number(*number);
    spells(
        alloc,
        *order,
        usize::from(*at),
        &IdlType::Long,
        &value,
        bytes,
    )
}

fn all_are_spelled(alloc: Global, rows: &[Long]) -> bool {
    for row in rows {
        if !is_spelled(alloc, row) {
            return false;
        }
    }
    true
}

fn reads_42(alloc: Global) -> bool {
    match decode(alloc, Order::Big, 24, &IdlType::Long, b"\0\0\0\x2a") {
        Ok((value, _)) => matches!(value, IdlValue::Number(42)),
        Err(_) => false,
    }
}

#[test]
fn bodies_of_twice_are_spelled(rt: HostRuntime) {
    assert!(rt; all_are_spelled(rt.alloc(), LONGS));
    assert!(rt; reads_42(rt.alloc()));
}

/// A number, or one that chooses no member.
enum Given {
    Number(i128),
    Bare(i128),
}

fn value(given: &Given) -> IdlValue {
    match given {
        Given::Number(number) => IdlValue::Number(*number),
        Given::Bare(number) => IdlValue::Chosen(*number, None),
    }
}

/// Types, and values of others.
const OTHERS: &[(Kind, Given)] = &[
    (Kind::One(One::Octet), Given::Number(256)),
    (Kind::One(One::Short), Given::Number(0x8000)),
    (Kind::One(One::Char), Given::Number(65)),
    (Kind::Union(One::Long, &[1], &[5]), Given::Bare(1)),
    (Kind::Union(One::Long, &[1], &[]), Given::Bare(6)),
];

fn does_not_fit(alloc: Global, of: &Kind, given: &Given) -> bool {
    match kind_made(alloc, of) {
        Some(kind) => !fits(&kind, &value(given)),
        None => false,
    }
}

fn none_fits(alloc: Global, rows: &[(Kind, Given)]) -> bool {
    for (of, given) in rows {
        if !does_not_fit(alloc, of, given) {
            return false;
        }
    }
    true
}

#[test]
fn values_of_other_types_do_not_fit(rt: HostRuntime) {
    assert!(rt; none_fits(rt.alloc(), OTHERS));
}

/// Types, and whether they are lawful.
const LAWS: &[(Kind, bool)] = &[
    (Kind::One(One::Empty), false),
    (Kind::Rows(One::Octet, 0), false),
    (Kind::Pair(b"x", One::Octet), false),
    (Kind::Pair(b"y", One::Octet), true),
    (Kind::One(One::Colour(b"red", b"red")), false),
    (Kind::One(One::Colour(b"red", b"green")), true),
];

fn is_judged(alloc: Global, of: &Kind, want: bool) -> bool {
    match kind_made(alloc, of) {
        Some(kind) => is_lawful(&kind) == want,
        None => false,
    }
}

fn all_are_judged(alloc: Global, rows: &[(Kind, bool)]) -> bool {
    for (of, want) in rows {
        if !is_judged(alloc, of, *want) {
            return false;
        }
    }
    true
}

#[test]
fn unlawful_types_are_told(rt: HostRuntime) {
    assert!(rt; all_are_judged(rt.alloc(), LAWS));
}

/// Whether this is told of one member of a type.
fn member_is_judged(alloc: Global, of: &One, want: bool) -> bool {
    let mut members = Vec::new(alloc);
    puts_member(alloc, &mut members, b"x", of) && are_lawful(members.as_slice()) == want
}

fn members_are_judged(alloc: Global) -> bool {
    member_is_judged(alloc, &One::Empty, false) && member_is_judged(alloc, &One::Octet, true)
}

#[test]
fn members_are_lawful_where_each_type_is(rt: HostRuntime) {
    assert!(rt; members_are_judged(rt.alloc()));
}

const UNION_LAWS: &[(Kind, bool)] = &[
    (Kind::Union(One::Long, &[1, 2, 1], &[]), false),
    (Kind::Union(One::Long, &[1, 2], &[3, 2]), false),
    (Kind::Union(One::Long, &[], &[]), false),
    (Kind::Union(One::Octet, &[1], &[]), false),
    (Kind::Union(One::Words(0), &[1], &[]), false),
    (Kind::Union(One::Long, &[1, 2], &[]), true),
];

#[test]
fn unlawful_unions_are_told(rt: HostRuntime) {
    assert!(rt; all_are_judged(rt.alloc(), UNION_LAWS));
}

/// A type, a value's bytes in the big order from place 8 on, a place, and the place after that value where it begins there.
type End = (Kind, &'static [u8], usize, usize);

fn ends(kind: &IdlType, value: &IdlValue, place: usize, end: usize) -> bool {
    fits(kind, value) && spelled_end(place, kind, value) == end
}

fn value_ends(alloc: Global, kind: &IdlType, row: &End) -> bool {
    match decode(alloc, Order::Big, 8, kind, row.1) {
        Ok((value, _)) => ends(kind, &value, row.2, row.3),
        Err(_) => false,
    }
}

fn all_end(alloc: Global, rows: &[End]) -> bool {
    for row in rows {
        match kind_made(alloc, &row.0) {
            Some(kind) if value_ends(alloc, &kind, row) => (),
            _ => return false,
        }
    }
    true
}

const PLAIN_ENDS: &[End] = &[
    (Kind::One(One::Boolean), b"\x01", 3, 4),
    (Kind::One(One::Short), b"\xff\xfe", 3, 6),
    (Kind::One(One::Short), b"\xff\xfe", 4, 6),
    (Kind::One(COLOUR), b"\0\0\0\x01", 1, 8),
    (
        Kind::One(One::LongLong),
        b"\xff\xff\xff\xff\xff\xff\xff\xfd",
        9,
        24,
    ),
    (Kind::One(One::Words(0)), b"\0\0\0\x03hi\0", 1, 11),
    (Kind::One(One::Words(2)), b"\0\0\0\x01\0", 8, 13),
];

const NESTED_ENDS: &[End] = &[
    (Kind::Seq(One::UShort, 2), b"\0\0\0\x02\0\x07\0\x08", 2, 12),
    (Kind::Seq(One::LongLong, 0), b"\0\0\0\0", 8, 12),
    (Kind::Arrays(One::Short, 1, 2), b"\xff\xff\0\x01", 1, 6),
    (
        Kind::Pair(b"y", One::LongLong),
        b"\x05\0\0\0\0\0\0\0\0\0\0\0\0\0\0\x09",
        0,
        16,
    ),
    (
        Kind::Pair(b"y", One::LongLong),
        b"\x05\0\0\0\0\0\0\0\0\0\0\0\0\0\0\x09",
        7,
        16,
    ),
    (
        Kind::Union(One::Long, &[1, 2], &[5]),
        b"\0\0\0\x05\0\x07",
        2,
        10,
    ),
    (Kind::Union(One::Long, &[1, 2], &[5]), b"\0\0\0\x06", 2, 8),
];

#[test]
fn a_value_ends_after_its_pad_and_its_bytes(rt: HostRuntime) {
    assert!(rt; all_end(rt.alloc(), PLAIN_ENDS));
}

#[test]
fn values_end_where_their_last_part_does(rt: HostRuntime) {
    assert!(rt; all_end(rt.alloc(), NESTED_ENDS));
}

const GREAT_ENDS: &[End] = &[
    (
        Kind::One(One::Octet),
        b"\xc8",
        18446744073709551614,
        18446744073709551615,
    ),
    (
        Kind::One(One::Short),
        b"\xff\xfe",
        18446744073709551613,
        18446744073709551615,
    ),
    (
        Kind::One(One::Words(0)),
        b"\0\0\0\x03hi\0",
        18446744073709551615,
        18446744073709551615,
    ),
];

#[test]
fn an_end_that_is_too_great_is_the_greatest_place(rt: HostRuntime) {
    assert!(rt; all_end(rt.alloc(), GREAT_ENDS));
}
