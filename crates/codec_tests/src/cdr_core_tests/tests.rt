ghost use Rattle.std.specs.Prelude.{◌≡◌, ◌≤◌, ◌<◌, ◌^◌, length, IfSome};

use super::vectors::{ROWS, Row};
use cdr_core::*;
use orb_base::{Context, List, Order, Tagged, Text};
use std::alloc::Global;
use std::test::*;

fn fault(cause: CdrCause, place: usize) -> CdrFault {
    CdrFault { cause, place }
}

/// Whether the spelling is these bytes, and all was put.
fn is_spelled(out: Writer, put: bool, bytes: &[u8]) -> bool {
    out.finish().as_slice() == bytes && put
}

fn puts_numbers(out: &mut Writer) -> bool {
    out.put_u8(0x11).is_ok()
        && out.put_u16(0x2122).is_ok()
        && out.put_bool(true).is_ok()
        && out.put_u32(0x3132_3334).is_ok()
        && out.put_octets(&[0x41, 0x42, 0x43]).is_ok()
        && out.put_u64(0x5152_5354_5556_5758).is_ok()
}

fn puts_hi(alloc: Global, out: &mut Writer) -> bool {
    match Text::new(alloc, b"hi") {
        Ok(hi) => out.put_string(&hi).is_ok(),
        Err(_) => false,
    }
}

fn is_put(alloc: Global, order: Order, place: usize, bytes: &[u8]) -> bool
    requires { place ≤ 262144 }
{
    let mut out = Writer::new(alloc, order, place);
    let put = puts_numbers(&mut out) && puts_hi(alloc, &mut out);
    is_spelled(out, put, bytes)
}

/// Whether the values are spelled so at the row's place and 8 after it.
fn row_is_put(alloc: Global, row: &Row) -> bool {
    let (order, at, bytes) = *row;
    let at = usize::from(at);
    is_put(alloc, order, at, bytes) && is_put(alloc, order, at + 8, bytes)
}

fn all_are_put(alloc: Global, rows: &[Row]) -> bool {
    for row in rows {
        if !row_is_put(alloc, row) {
            return false;
        }
    }
    true
}

#[test]
fn values_are_spelled_at_every_place(rt: HostRuntime) {
    assert!(rt; all_are_put(rt.alloc(), ROWS));
}

fn takes_values(reader: &mut Reader<'_>) -> bool {
    reader.take_u8() == Ok(0x11)
        && reader.take_u16() == Ok(0x2122)
        && reader.take_bool() == Ok(true)
        && reader.take_u32() == Ok(0x3132_3334)
        && reader.take_octets() == Ok([0x41, 0x42, 0x43].as_slice())
        && reader.take_u64() == Ok(0x5152_5354_5556_5758)
        && reader.take_string() == Ok(b"hi".as_slice())
}

/// Whether a reader is at this place and has so many bytes left.
fn stands(reader: &Reader<'_>, place: usize, left: usize) -> bool {
    reader.place() == place && reader.left() == left
}

fn is_taken(order: Order, place: usize, bytes: &[u8]) -> bool
    requires { place ≤ 262144 }
{
    let mut reader = Reader::new(order, place, bytes);
    takes_values(&mut reader) && stands(&reader, place + bytes.len(), 0)
}

fn row_is_taken(row: &Row) -> bool {
    let (order, at, bytes) = *row;
    let at = usize::from(at);
    is_taken(order, at, bytes) && is_taken(order, at + 8, bytes)
}

fn all_are_taken(rows: &[Row]) -> bool {
    for row in rows {
        if !row_is_taken(row) {
            return false;
        }
    }
    true
}

#[test]
fn values_are_read_at_every_place(rt: HostRuntime) {
    assert!(rt; all_are_taken(ROWS));
}

fn passes_pads() -> bool {
    let mut reader = Reader::new(Order::Big, 5, &[7, 8, 9, 0, 0, 1, 0, 7, 1]);
    reader.take_u32() == Ok(256)
        && reader.place() == 12
        && reader.take_u8() == Ok(7)
        && reader.take_bool() == Ok(true)
}

#[test]
fn pads_of_any_content_are_read(rt: HostRuntime) {
    assert!(rt; passes_pads());
}

/// What is taken.
enum Take {
    U8,
    U16,
    U32,
    U64,
    Bool,
    Count,
    Octets,
    Text,
    Encap,
    Item,
}

/// The fault of a number's or a boolean's taking.
fn fault_of_number(reader: &mut Reader<'_>, take: &Take) -> Option<CdrFault> {
    match take {
        Take::U8 => reader.take_u8().err(),
        Take::U16 => reader.take_u16().err(),
        Take::U32 => reader.take_u32().err(),
        Take::U64 => reader.take_u64().err(),
        Take::Bool => reader.take_bool().err(),
        _ => None,
    }
}

/// The fault of taking this.
fn fault_of(reader: &mut Reader<'_>, take: &Take) -> Option<CdrFault> {
    match take {
        Take::Count => reader.take_count().err(),
        Take::Octets => reader.take_octets().err(),
        Take::Text => reader.take_string().err(),
        Take::Encap => reader.enter_encap().err(),
        Take::Item => reader.take_item().err(),
        number => fault_of_number(reader, number),
    }
}

/// Bytes from a place on of which this can't be taken, for this cause at this place.
type Refusal = (u8, &'static [u8], Take, CdrCause, usize);

/// Whether the fault is given, and the reader stays where it was.
fn refuses(order: Order, row: &Refusal) -> bool {
    let (at, bytes, take, cause, place) = row;
    let mut reader = Reader::new(order, usize::from(*at), bytes);
    fault_of(&mut reader, take) == Some(fault(*cause, *place))
        && stands(&reader, usize::from(*at), bytes.len())
}

fn refuses_each(order: Order, rows: &[Refusal]) -> bool {
    for row in rows {
        if !refuses(order, row) {
            return false;
        }
    }
    true
}

/// After a pad a number of the size lacks its last byte.
const SHORT: &[Refusal] = &[
    (7, &[], Take::U8, CdrCause::Short, 7),
    (7, &[], Take::Bool, CdrCause::Short, 7),
    (13, &[0, 1], Take::U16, CdrCause::Short, 14),
    (11, &[0, 1, 2, 3], Take::U32, CdrCause::Short, 12),
    (11, &[0, 1, 2, 3], Take::Count, CdrCause::Short, 12),
    (11, &[0, 1, 2, 3], Take::Octets, CdrCause::Short, 12),
    (11, &[0, 1, 2, 3], Take::Text, CdrCause::Short, 12),
    (11, &[0, 1, 2, 3], Take::Encap, CdrCause::Short, 12),
    (
        15,
        &[0, 1, 2, 3, 4, 5, 6, 7],
        Take::U64,
        CdrCause::Short,
        16,
    ),
    (9, &[], Take::U64, CdrCause::Short, 16),
];

#[test]
fn short_is_told_at_the_aligned_place(rt: HostRuntime) {
    assert!(rt; refuses_each(Order::Big, SHORT) && refuses_each(Order::Little, SHORT));
}

fn takes_booleans() -> bool {
    let mut reader = Reader::new(Order::Little, 3, &[0, 1, 2, 255]);
    reader.take_bool() == Ok(false)
        && reader.take_bool() == Ok(true)
        && reader.take_bool() == Err(fault(CdrCause::BadBool, 5))
        && reader.take_u8() == Ok(2)
        && reader.take_bool() == Err(fault(CdrCause::BadBool, 6))
}

#[test]
fn a_boolean_is_0_or_1(rt: HostRuntime) {
    assert!(rt; takes_booleans());
}

/// Each is at place 1, so that its count is at 4.
const STRINGS: &[(&[u8], &[u8])] = &[
    (&[0, 0, 0, 0, 0, 0, 1, 0], b""),
    (&[0, 0, 0, 0, 0, 0, 3, 104, 105, 0, 9], b"hi"),
];

fn is_string(row: &(&[u8], &[u8])) -> bool {
    Reader::new(Order::Big, 1, row.0).take_string() == Ok(row.1)
}

fn are_strings(rows: &[(&[u8], &[u8])]) -> bool {
    for row in rows {
        if !is_string(row) {
            return false;
        }
    }
    true
}

const NO_STRINGS: &[Refusal] = &[
    (
        1,
        &[0, 0, 0, 0, 0, 0, 0, 0],
        Take::Text,
        CdrCause::BadString,
        4,
    ),
    (
        1,
        &[0, 0, 0, 0, 0, 0, 2, 104, 105, 0],
        Take::Text,
        CdrCause::BadString,
        4,
    ),
    (
        1,
        &[0, 0, 0, 0, 0, 0, 3, 104, 0, 0],
        Take::Text,
        CdrCause::BadString,
        4,
    ),
    (
        1,
        &[0, 0, 0, 0, 0, 0, 4, 104, 105, 0],
        Take::Text,
        CdrCause::TooMany,
        4,
    ),
    (
        1,
        &[0, 0, 0, 0, 0, 0, 4, 104, 105, 106],
        Take::Text,
        CdrCause::TooMany,
        4,
    ),
    (1, &[0, 0, 0, 0, 0, 0], Take::Text, CdrCause::Short, 4),
];

#[test]
fn strings_end_in_their_only_nul(rt: HostRuntime) {
    assert!(rt; are_strings(STRINGS) && refuses_each(Order::Big, NO_STRINGS));
}

/// Counts above what is left.
const TOO_MANY: &[Refusal] = &[
    (
        2,
        &[0, 0, 3, 0, 0, 0, 7, 8],
        Take::Count,
        CdrCause::TooMany,
        4,
    ),
    (
        2,
        &[0, 0, 3, 0, 0, 0, 7, 8],
        Take::Octets,
        CdrCause::TooMany,
        4,
    ),
];

fn takes_count() -> bool {
    let mut reader = Reader::new(Order::Little, 2, &[0, 0, 2, 0, 0, 0, 7, 8]);
    reader.take_count() == Ok(2) && stands(&reader, 8, 2)
}

#[test]
fn a_count_is_at_most_what_is_left(rt: HostRuntime) {
    assert!(rt; refuses_each(Order::Little, TOO_MANY) && takes_count());
}

/// The content of a priority context for priority 100, in either order, as a sequence at a place whose remainder by 4
/// is 2: the short is at place 2 of its encapsulation.
const ENCAPSULATIONS: &[&[u8]] = &[
    &[9, 9, 0, 0, 0, 4, 0, 0, 0, 100, 5],
    &[9, 9, 0, 0, 0, 4, 1, 0, 100, 0, 5],
];

fn holds_hundred(inner: &mut Reader<'_>) -> bool {
    stands(inner, 1, 3)
        && inner.take_u16() == Ok(100)
        && inner.take_u8() == Err(fault(CdrCause::Short, 4))
}

fn enters_hundred(bytes: &[u8]) -> bool {
    let mut reader = Reader::new(Order::Big, 6, bytes);
    match reader.enter_encap() {
        Ok(mut inner) => {
            holds_hundred(&mut inner) && reader.place() == 16 && reader.take_u8() == Ok(5)
        }
        Err(_) => false,
    }
}

fn all_enter_hundred(rows: &[&[u8]]) -> bool {
    for bytes in rows {
        if !enters_hundred(bytes) {
            return false;
        }
    }
    true
}

#[test]
fn places_of_an_encapsulation_count_from_its_order_byte(rt: HostRuntime) {
    assert!(rt; all_enter_hundred(ENCAPSULATIONS));
}

/// The same content without a count before it.
const WHOLE_ENCAPSULATIONS: &[&[u8]] = &[&[0, 0, 0, 100, 5], &[1, 0, 100, 0, 5]];

fn is_hundred(inner: &mut Reader<'_>) -> bool {
    stands(inner, 1, 4)
        && inner.take_u16() == Ok(100)
        && inner.place() == 4
        && inner.take_u8() == Ok(5)
}

fn opens_hundred(bytes: &[u8]) -> bool {
    match Reader::encapsulated(bytes) {
        Ok(mut inner) => is_hundred(&mut inner),
        Err(_) => false,
    }
}

fn all_open_hundred(rows: &[&[u8]]) -> bool {
    for bytes in rows {
        if !opens_hundred(bytes) {
            return false;
        }
    }
    true
}

/// Whether bytes are no encapsulation, for this cause at place 0.
fn is_no_encapsulation(bytes: &[u8], cause: CdrCause) -> bool {
    Reader::encapsulated(bytes).err() == Some(fault(cause, 0))
}

#[test]
fn bytes_are_an_encapsulation_as_a_whole(rt: HostRuntime) {
    assert!(rt; all_open_hundred(WHOLE_ENCAPSULATIONS));
    assert!(rt;
        is_no_encapsulation(&[], CdrCause::Short) && is_no_encapsulation(&[2, 0], CdrCause::BadBool)
    );
}

fn puts_in_room(out: &mut Writer) -> bool {
    out.reserve(4).is_ok()
        && out.put_u16(7).is_ok()
        && out.reserve(0).is_ok()
        && out.put_u32(8).is_ok()
}

fn room_is_filled(alloc: Global) -> bool {
    let mut out = Writer::new(alloc, Order::Big, 2);
    let put = puts_in_room(&mut out);
    is_spelled(out, put, b"\0\x07\0\0\0\x08")
}

#[test]
fn room_is_taken_ahead(rt: HostRuntime) {
    assert!(rt; room_is_filled(rt.alloc()));
}

/// An order, its byte, and the octets of an encapsulation of 100.
type Wrapped = (Order, u8, &'static [u8]);

const WRAPPED: &[Wrapped] = &[
    (Order::Big, 0, &[0, 0, 0, 4, 0, 0, 0, 100]),
    (Order::Little, 1, &[0, 0, 0, 4, 1, 0, 100, 0]),
];

/// Whether four octets are spelled so.
fn wraps(alloc: Global, inner: &[u8], want: &[u8]) -> bool {
    let mut outer = Writer::new(alloc, Order::Big, 8);
    let put = inner.len() == 4 && outer.put_octets(inner).is_ok();
    is_spelled(outer, put, want)
}

fn is_wrapped(alloc: Global, row: &Wrapped) -> bool {
    let mut inner = Writer::new(alloc, row.0, 0);
    let put = inner.put_u8(row.1).is_ok() && inner.put_u16(100).is_ok();
    wraps(alloc, inner.finish().as_slice(), row.2) && put
}

fn all_are_wrapped(alloc: Global, rows: &[Wrapped]) -> bool {
    for row in rows {
        if !is_wrapped(alloc, row) {
            return false;
        }
    }
    true
}

#[test]
fn an_encapsulation_is_spelled_by_a_writer_of_its_own(rt: HostRuntime) {
    assert!(rt; all_are_wrapped(rt.alloc(), WRAPPED));
}

/// Octets at place 8 that are no encapsulation: without an order byte, with another one, and too few.
const NO_ORDERS: &[Refusal] = &[
    (8, &[0, 0, 0, 0], Take::Encap, CdrCause::Short, 0),
    (8, &[0, 0, 0, 1, 2], Take::Encap, CdrCause::BadBool, 0),
    (8, &[0, 0, 0, 2, 1], Take::Encap, CdrCause::TooMany, 8),
];

#[test]
fn an_encapsulation_begins_with_its_order(rt: HostRuntime) {
    assert!(rt; refuses_each(Order::Big, NO_ORDERS));
}

fn prints(alloc: Global, fault: CdrFault, want: &str) -> bool {
    match format!(in alloc; "{}", fault) {
        Ok(printed) => printed.as_str() == want,
        Err(_) => false,
    }
}

#[test]
fn a_fault_prints_its_place_and_cause(rt: HostRuntime) {
    assert!(rt; prints(rt.alloc(), fault(CdrCause::TooMany, 4), "4: TooMany"));
}

fn puts_runs(out: &mut Writer) -> bool {
    out.put_run(8, b"ab").is_ok() && out.put_run(1, b"c").is_ok() && out.put_run(4, b"").is_ok()
}

fn runs_are_put(alloc: Global) -> bool {
    let mut out = Writer::new(alloc, Order::Big, 5);
    let put = puts_runs(&mut out);
    is_spelled(out, put, b"\0\0\0abc\0")
}

#[test]
fn runs_are_padded_to_their_alignment(rt: HostRuntime) {
    assert!(rt; runs_are_put(rt.alloc()));
}

/// An order, and bytes.
type Spelt = (Order, &'static [u8]);

/// A tag of 4 bytes, the length 3, and three octets, after a byte that is at place 9.
const ITEMS: &[Spelt] = &[
    (
        Order::Big,
        &[0, 0, 0, 0x01, 0x02, 0x03, 0x04, 0, 0, 0, 3, 7, 8, 9],
    ),
    (
        Order::Little,
        &[0, 0, 0, 0x04, 0x03, 0x02, 0x01, 3, 0, 0, 0, 7, 8, 9],
    ),
];

fn is_item_put(alloc: Global, row: &Spelt) -> bool {
    let mut out = Writer::new(alloc, row.0, 9);
    let put = out.put_item(0x0102_0304, &[7, 8, 9]).is_ok();
    is_spelled(out, put, row.1)
}

fn is_item_taken(row: &Spelt) -> bool {
    let mut reader = Reader::new(row.0, 9, row.1);
    let copy = reader.copy();
    reader.take_item() == Ok((0x0102_0304, [7, 8, 9].as_slice()))
        && stands(&reader, 23, 0)
        && stands(&copy, 9, 14)
}

fn all_are_items(alloc: Global, rows: &[Spelt]) -> bool {
    for row in rows {
        if !is_item_put(alloc, row) || !is_item_taken(row) {
            return false;
        }
    }
    true
}

/// The same without their last byte.
const CUT: &[Refusal] = &[(
    9,
    &[0, 0, 0, 0x01, 0x02, 0x03, 0x04, 0, 0, 0, 3, 7, 8],
    Take::Item,
    CdrCause::TooMany,
    16,
)];

const LITTLE_CUT: &[Refusal] = &[(
    9,
    &[0, 0, 0, 0x04, 0x03, 0x02, 0x01, 3, 0, 0, 0, 7, 8],
    Take::Item,
    CdrCause::TooMany,
    16,
)];

#[test]
fn an_item_is_a_number_and_octets(rt: HostRuntime) {
    assert!(rt; all_are_items(rt.alloc(), ITEMS));
    assert!(rt; refuses_each(Order::Big, CUT) && refuses_each(Order::Little, LITTLE_CUT));
}

fn numbers_have_bytes() -> bool {
    bytes_of_u16(Order::Big, 0x0102) == [1, 2]
        && bytes_of_u16(Order::Little, 0x0102) == [2, 1]
        && bytes_of_u32(Order::Big, 0x0102_0304) == [1, 2, 3, 4]
        && bytes_of_u32(Order::Little, 0x0102_0304) == [4, 3, 2, 1]
        && u32_of(Order::Big, &[1, 2, 3, 4]) == 0x0102_0304
        && u32_of(Order::Little, &[1, 2, 3, 4]) == 0x0403_0201
}

#[test]
fn numbers_have_bytes_in_either_order(rt: HostRuntime) {
    assert!(rt; numbers_have_bytes());
}

/// A list of an item of tag 5 with the octet 9, and of one of tag 6 without octets.
const LIST: [u8; 24] = [
    0, 0, 0, 2, 0, 0, 0, 5, 0, 0, 0, 1, 9, 0, 0, 0, 0, 0, 0, 6, 0, 0, 0, 0,
];

fn nine(alloc: Global) -> Option<Tagged>
    ensures { IfSome result (λ t. length t.bytes ≡ 1) }
{
    let bytes = Vec::from_slice(alloc, &[9]).ok()?;
    Some(Tagged {
        tag: 5,
        bytes: List::from_vec(bytes),
    })
}

fn empty(alloc: Global) -> Tagged
    ensures { length result.bytes ≡ 0 }
{
    Tagged {
        tag: 6,
        bytes: List::new(alloc),
    }
}

fn puts_list(out: &mut Writer, first: Tagged, second: Tagged) -> bool
    requires first { length first.bytes < 2 ^ 32 }
    requires second { length second.bytes < 2 ^ 32 }
{
    put_list(out, &[first, second]).is_ok()
}

fn list_is_put(alloc: Global) -> bool {
    let mut out = Writer::new(alloc, Order::Big, 0);
    let put = match nine(alloc) {
        Some(first) => puts_list(&mut out, first, empty(alloc)),
        None => false,
    };
    is_spelled(out, put, &LIST)
}

fn are_parts(list: &[Context]) -> bool {
    match list {
        [first, second] => {
            first.id == 5
                && first.bytes.as_slice() == [9].as_slice()
                && second.id == 6
                && second.bytes.as_slice() == [].as_slice()
        }
        _ => false,
    }
}

fn list_is_taken(alloc: Global) -> bool {
    let mut reader = Reader::new(Order::Big, 0, &LIST);
    let read: Result<List<Context>, CdrError> = take_list(alloc, &mut reader);
    match read {
        Ok(list) => are_parts(list.as_slice()) && reader.left() == 0,
        Err(_) => false,
    }
}

fn cut_list_is_refused(alloc: Global) -> bool {
    let mut cut = Reader::new(Order::Big, 0, &LIST[..21]);
    let refused: Result<List<Tagged>, CdrError> = take_list(alloc, &mut cut);
    refused.err() == Some(CdrError::Refused(fault(CdrCause::Short, 20))) && cut.place() == 0
}

#[test]
fn lists_are_put_and_taken(rt: HostRuntime) {
    assert!(rt; list_is_put(rt.alloc()) && list_is_taken(rt.alloc()));
    assert!(rt; cut_list_is_refused(rt.alloc()));
}

/// A list at place 0 in the big order, what a call that passes over it answers, and the place after that.
type Passed = (&'static [u8], Result<(), CdrFault>, usize);

const SHORT_ITEM: CdrFault = CdrFault {
    cause: CdrCause::Short,
    place: 20,
};

const MANY_ITEMS: CdrFault = CdrFault {
    cause: CdrCause::TooMany,
    place: 0,
};

const MANY_OCTETS: CdrFault = CdrFault {
    cause: CdrCause::TooMany,
    place: 8,
};

/// No item; two; two of which the last is cut short; more than bytes follow; an item of more octets than follow.
const PASSED: &[Passed] = &[
    (&[0, 0, 0, 0, 7], Ok(()), 4),
    (&LIST, Ok(()), 24),
    (
        &[
            0, 0, 0, 2, 0, 0, 0, 5, 0, 0, 0, 1, 9, 0, 0, 0, 0, 0, 0, 6, 0,
        ],
        Err(SHORT_ITEM),
        0,
    ),
    (&[0, 0, 0, 2, 1], Err(MANY_ITEMS), 0),
    (
        &[0, 0, 0, 1, 0, 0, 0, 5, 0, 0, 0, 2, 9],
        Err(MANY_OCTETS),
        0,
    ),
];

fn is_passed(bytes: &[u8], answer: Result<(), CdrFault>, place: usize) -> bool {
    let mut reader = Reader::new(Order::Big, 0, bytes);
    pass_list(&mut reader) == answer && reader.place() == place
}

fn are_passed(rows: &[Passed]) -> bool {
    for (bytes, answer, place) in rows {
        if !is_passed(bytes, *answer, *place) {
            return false;
        }
    }
    true
}

#[test]
fn lists_are_passed_over(rt: HostRuntime) {
    assert!(rt; are_passed(PASSED));
}
