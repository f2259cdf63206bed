//! Streams, fed in any pieces, as they were laid out by hand by the rules of CORBA 3.0.3, section 15.4.
ghost use Rattle.std.specs.Prelude.{◌≡◌, ◌≤◌, ◌<◌, ◌^◌, length, IfSome};
ghost use Rattle.giop_frames.specs.Feeds.{joined_feeds};

use giop_frames::*;
use orb_base::{List, NoMemory, Octets, Order};
use std::alloc::Global;
use std::test::*;

/// Two pings, of ids 1 and 2. That of id 1 comes in three fragments, at 0, 72 and 104, and the other one at 24 between
/// them: laid out by hand by the rules of section 15.4.
const INTERLEAVED: [u8; 128] = [
    0x47, 0x49, 0x4f, 0x50, 1, 2, 2, 0, 0, 0, 0, 0x0c, 0, 0, 0, 1, 3, 0, 0, 0, 0, 0, 0, 0, 0x47,
    0x49, 0x4f, 0x50, 1, 2, 0, 0, 0, 0, 0, 0x24, 0, 0, 0, 2, 3, 0, 0, 0, 0, 0, 0, 0, 0, 0, 0, 4,
    0x70, 0x69, 0x6e, 0x67, 0, 0, 0, 8, 0x63, 0x75, 0x72, 0x72, 0x65, 0x6e, 0x74, 0, 0, 0, 0, 0,
    0x47, 0x49, 0x4f, 0x50, 1, 2, 2, 7, 0, 0, 0, 0x14, 0, 0, 0, 1, 0, 0, 0, 4, 0x70, 0x69, 0x6e,
    0x67, 0, 0, 0, 8, 0x63, 0x75, 0x72, 0x72, 0x47, 0x49, 0x4f, 0x50, 1, 2, 0, 7, 0, 0, 0, 0x0c, 0,
    0, 0, 1, 0x65, 0x6e, 0x74, 0, 0, 0, 0, 0,
];

/// The ping of id 1 in one piece.
pub(crate) const PING: [u8; 48] = [
    0x47, 0x49, 0x4f, 0x50, 1, 2, 0, 0, 0, 0, 0, 0x24, 0, 0, 0, 1, 3, 0, 0, 0, 0, 0, 0, 0, 0, 0, 0,
    4, 0x70, 0x69, 0x6e, 0x67, 0, 0, 0, 8, 0x63, 0x75, 0x72, 0x72, 0x65, 0x6e, 0x74, 0, 0, 0, 0, 0,
];

/// A first piece of id 1, of 24 bytes.
pub(crate) const FIRST: [u8; 24] = [
    0x47, 0x49, 0x4f, 0x50, 1, 2, 2, 0, 0, 0, 0, 0x0c, 0, 0, 0, 1, 3, 0, 0, 0, 0, 0, 0, 0,
];

type Answer = (Result<(), FeedFault>, Option<u64>);

/// Feeds the bytes in pieces of at most `n`, up to the first fault: the last answer, and the rest.
pub(crate) fn fed_by(
    alloc: Global,
    limit: usize,
    bytes: &[u8],
    n: usize,
    whole: &mut List<Whole>,
) -> Result<Answer, NoMemory>
    requires least { 16 ≤ limit }
    requires most { limit ≤ 262144 }
    requires some { 0 < n }
{
    let mut framer = Framer::new(alloc, limit)?;
    let mut left = bytes;
    while !left.is_empty() {
        let (front, back) = left.split_at(n.min(left.len()));
        if let Err(fault) = framer.feed(front, whole) {
            return Ok((Err(fault), framer.rest()));
        }
        left = back;
    }
    Ok((Ok(()), framer.rest()))
}

fn fault(cause: FrameCause, offset: u64) -> FeedFault {
    FeedFault::Frame(FrameFault { cause, offset })
}

/// Whether this is the ping of an id, which the piece at this offset completed.
fn is_ping(message: &Whole, at: u64, id: u8) -> bool {
    let bytes = message.bytes.as_slice();
    (message.at, message.kind, message.order) == (at, 0, Order::Big)
        && bytes.len() == 48
        && bytes[..15] == PING[..15]
        && bytes[15] == id
        && bytes[16..] == PING[16..]
}

fn are_pings(whole: &[Whole]) -> bool {
    match whole {
        [one, other] => is_ping(one, 24, 2) && is_ping(other, 104, 1),
        _ => false,
    }
}

/// Whether the two pings are joined where they are fed in pieces of so many bytes.
fn joins_pings_by(alloc: Global, n: usize) -> bool
    requires { 0 < n }
{
    let mut whole = List::new(alloc);
    match fed_by(alloc, 262_144, &INTERLEAVED, n, &mut whole) {
        Ok(answer) => answer == (Ok(()), None) && are_pings(whole.as_slice()),
        Err(_) => false,
    }
}

fn joins_pings_by_any(alloc: Global) -> bool {
    for n in 1..129 {
        if !joins_pings_by(alloc, n) {
            return false;
        }
    }
    true
}

#[test]
fn interleaved_messages_are_joined_however_they_are_cut(rt: HostRuntime) {
    assert!(rt; joins_pings_by_any(rt.alloc()));
}

/// Whether the two pings are joined where so many bytes are fed, and then the others.
fn joins_pings_of(alloc: Global, n: usize) -> bool
    requires { n ≤ 128 }
{
    let rest = if n == 0 || n == 128 { None } else { Some(0) };
    let mut whole = List::new(alloc);
    match Framer::new(alloc, 262_144) {
        Ok(mut framer) => {
            framer.feed(&INTERLEAVED[..n], &mut whole) == Ok(())
                && framer.rest() == rest
                && framer.feed(&INTERLEAVED[n..], &mut whole) == Ok(())
                && framer.rest().is_none()
                && are_pings(whole.as_slice())
        }
        Err(_) => false,
    }
}

fn joins_pings_of_any(alloc: Global) -> bool {
    for n in 0..129 {
        if !joins_pings_of(alloc, n) {
            return false;
        }
    }
    true
}

#[test]
fn two_feeds_say_what_one_says(rt: HostRuntime) {
    assert!(rt; joins_pings_of_any(rt.alloc()));
}

/// What follows a first piece of id 1, the limit, and the cause, at offset 24.
const FAULTS: &[(&[u8], usize, FrameCause)] = &[
    (
        &[0x47, 0x49, 0x4f, 0x51, 1, 2, 0, 0, 0, 0, 0, 0],
        64,
        FrameCause::BadMagic,
    ),
    (
        &[0x47, 0x49, 0x4f, 0x50, 1, 1, 0, 0, 0, 0, 0, 0],
        64,
        FrameCause::BadVersion,
    ),
    (
        &[0x47, 0x49, 0x4f, 0x50, 1, 2, 0, 8, 0, 0, 0, 0],
        64,
        FrameCause::BadType,
    ),
    (
        &[0x47, 0x49, 0x4f, 0x50, 1, 2, 0, 0, 0, 3, 0xff, 0xf5],
        262_144,
        FrameCause::TooLong,
    ),
    (
        &[0x47, 0x49, 0x4f, 0x50, 1, 2, 2, 2, 0, 0, 0, 4, 0, 0, 0, 2],
        64,
        FrameCause::BadPiece,
    ),
    (
        &[
            0x47, 0x49, 0x4f, 0x50, 1, 2, 2, 0, 0, 0, 0, 8, 0, 0, 0, 2, 0, 0, 0, 0,
        ],
        64,
        FrameCause::BadPiece,
    ),
    (
        &[0x47, 0x49, 0x4f, 0x50, 1, 2, 0, 7, 0, 0, 0, 0],
        64,
        FrameCause::BadPiece,
    ),
    (
        &[0x47, 0x49, 0x4f, 0x50, 1, 2, 0, 7, 0, 0, 0, 4, 0, 0, 0, 2],
        64,
        FrameCause::BadPiece,
    ),
    (
        &[0x47, 0x49, 0x4f, 0x50, 1, 2, 1, 7, 4, 0, 0, 0, 1, 0, 0, 0],
        64,
        FrameCause::BadPiece,
    ),
    (&FIRST, 64, FrameCause::BadPiece),
    (
        &[
            0x47, 0x49, 0x4f, 0x50, 1, 2, 0, 7, 0, 0, 0, 24, 0, 0, 0, 1, 0, 0, 0, 0, 0, 0, 0, 0, 0,
            0, 0, 0, 0, 0, 0, 0, 0, 0, 0, 0,
        ],
        40,
        FrameCause::TooLong,
    ),
];

/// Whether the last byte that makes a fault tells it, and every later feed again.
fn is_told(alloc: Global, bytes: &[u8], limit: usize, cause: FrameCause) -> bool {
    if limit < 16 || limit > 262_144 || bytes.is_empty() || bytes.len() > 99 {
        return false;
    }
    let told = fault(cause, 24);
    let (front, last) = bytes.split_at(bytes.len() - 1);
    let mut whole = List::new(alloc);
    match Framer::new(alloc, limit) {
        Ok(mut framer) => {
            framer.feed(&FIRST, &mut whole) == Ok(())
                && framer.kept() == 24
                && framer.feed(front, &mut whole) == Ok(())
                && framer.feed(last, &mut whole) == Err(told)
                && framer.feed(&PING, &mut whole) == Err(told)
                && framer.rest() == Some(0)
                && framer.kept() == 0
                && whole.is_empty()
        }
        Err(_) => false,
    }
}

fn are_told(alloc: Global, rows: &[(&[u8], usize, FrameCause)]) -> bool {
    for (bytes, limit, cause) in rows {
        if !is_told(alloc, bytes, *limit, *cause) {
            return false;
        }
    }
    true
}

#[test]
fn each_cause_is_told_at_its_offset(rt: HostRuntime) {
    assert!(rt; are_told(rt.alloc(), FAULTS));
}

/// Puts first pieces of 17 messages. False where memory is wanting.
fn put_firsts(bytes: &mut Vec<u8>) -> bool {
    for id in 0..17u8 {
        let mut first = FIRST;
        first[15] = id;
        if bytes.extend_from_slice(&first).is_err() {
            return false;
        }
    }
    true
}

/// Whether the 17th of them is one too many where they are fed in pieces of so many bytes.
fn are_too_many(alloc: Global, bytes: &[u8], n: usize) -> bool
    requires { 0 < n }
{
    let mut whole = List::new(alloc);
    match fed_by(alloc, 64, bytes, n, &mut whole) {
        Ok(answer) => {
            answer == (Err(fault(FrameCause::TooManyPartials, 384)), Some(0)) && whole.is_empty()
        }
        Err(_) => false,
    }
}

fn opens_sixteen(alloc: Global) -> bool {
    let mut bytes = Vec::new(alloc);
    put_firsts(&mut bytes)
        && are_too_many(alloc, bytes.as_slice(), 1)
        && are_too_many(alloc, bytes.as_slice(), 7)
        && are_too_many(alloc, bytes.as_slice(), 24)
        && are_too_many(alloc, bytes.as_slice(), 408)
}

#[test]
fn sixteen_messages_may_be_open(rt: HostRuntime) {
    assert!(rt; opens_sixteen(rt.alloc()));
}

/// The numbers of section 15.4.1.
const KINDS: &[(u8, Kind)] = &[
    (0, Kind::Request),
    (1, Kind::Reply),
    (2, Kind::CancelRequest),
    (3, Kind::LocateRequest),
    (4, Kind::LocateReply),
    (5, Kind::CloseConnection),
    (6, Kind::MessageError),
    (7, Kind::Fragment),
];

fn have_numbers(rows: &[(u8, Kind)]) -> bool {
    for (number, kind) in rows {
        if Kind::of_number(*number) != Some(*kind) || kind.number() != *number {
            return false;
        }
    }
    true
}

#[test]
fn kinds_have_numbers(rt: HostRuntime) {
    assert!(rt; have_numbers(KINDS) && Kind::of_number(8).is_none());
}

/// A CancelRequest of id 1, and the last fragment of id 1, which then has no message.
const CANCELLED: [u8; 32] = [
    0x47, 0x49, 0x4f, 0x50, 1, 2, 0, 2, 0, 0, 0, 4, 0, 0, 0, 1, 0x47, 0x49, 0x4f, 0x50, 1, 2, 0, 7,
    0, 0, 0, 4, 0, 0, 0, 1,
];

fn drops_the_open_message(alloc: Global) -> bool {
    let mut whole = List::new(alloc);
    match Framer::new(alloc, 64) {
        Ok(mut framer) => {
            framer.feed(&FIRST, &mut whole) == Ok(())
                && framer.rest() == Some(0)
                && framer.feed(&CANCELLED[..16], &mut whole) == Ok(())
                && (framer.rest(), whole.len()) == (None, 1)
                && framer.feed(&CANCELLED[16..], &mut whole) == Err(fault(FrameCause::BadPiece, 40))
                && (framer.rest(), whole.len()) == (None, 1)
        }
        Err(_) => false,
    }
}

#[test]
fn a_cancel_request_drops_the_open_message(rt: HostRuntime) {
    assert!(rt; drops_the_open_message(rt.alloc()));
}

/// The header of a Request of 262,144 bytes.
const LONG_HEADER: [u8; 12] = [0x47, 0x49, 0x4f, 0x50, 1, 2, 0, 0, 0, 3, 0xff, 0xf4];

/// Puts so many zeros. False where memory is wanting.
pub(crate) fn put_zeros(bytes: &mut Vec<u8>, n: u32) -> bool {
    for _ in 0..n {
        if bytes.push(0).is_err() {
            return false;
        }
    }
    true
}

/// Puts a Request of exactly 262,144 bytes.
pub(crate) fn put_long_message(bytes: &mut Vec<u8>) -> bool {
    bytes.extend_from_slice(&LONG_HEADER).is_ok() && put_zeros(bytes, 262_132)
}

/// Whether the bytes, fed in pieces of so many bytes, are one message of the greatest length.
fn is_one_by(alloc: Global, bytes: &[u8], n: usize) -> bool
    requires { 0 < n }
{
    let mut whole = List::new(alloc);
    match fed_by(alloc, 262_144, bytes, n, &mut whole) {
        Ok(answer) => answer == (Ok(()), None) && whole.len() == 1,
        Err(_) => false,
    }
}

fn takes_the_longest(alloc: Global) -> bool {
    let mut bytes = Vec::new(alloc);
    put_long_message(&mut bytes)
        && is_one_by(alloc, bytes.as_slice(), 1)
        && is_one_by(alloc, bytes.as_slice(), 4_096)
        && is_one_by(alloc, bytes.as_slice(), 262_144)
}

#[test]
fn a_message_may_be_as_long_as_the_limit(rt: HostRuntime) {
    assert!(rt; takes_the_longest(rt.alloc()));
}

fn keeps_a_header(alloc: Global) -> bool {
    let mut whole = List::new(alloc);
    match Framer::new(alloc, 262_144) {
        Ok(mut framer) => {
            framer.feed(&LONG_HEADER, &mut whole) == Ok(())
                && (framer.kept(), framer.rest(), whole.len()) == (12, Some(0), 0)
        }
        Err(_) => false,
    }
}

#[test]
fn a_header_alone_keeps_its_12_bytes(rt: HostRuntime) {
    assert!(rt; keeps_a_header(rt.alloc()));
}

/// Whether so many bytes at most are kept after each feed of at most `n` bytes, and `at_last` after the last.
fn keeps_at_most(alloc: Global, bytes: &[u8], n: usize, most: u64, at_last: u64) -> bool
    requires { 0 < n }
{
    let mut whole = List::new(alloc);
    let mut framer = match Framer::new(alloc, 262_144) {
        Ok(framer) => framer,
        Err(_) => return false,
    };
    let mut left = bytes;
    while !left.is_empty() {
        let (front, back) = left.split_at(n.min(left.len()));
        if framer.feed(front, &mut whole) != Ok(()) || framer.kept() > most {
            return false;
        }
        left = back;
    }
    framer.kept() == at_last
}

/// What is kept after the first bytes of the two pings: of the open message 24 bytes, and 40 once it goes on; with them
/// the bytes of the piece that comes.
const KEPT: &[(usize, u64)] = &[
    (0, 0),
    (11, 11),
    (24, 24),
    (71, 71),
    (72, 24),
    (103, 55),
    (104, 40),
    (127, 63),
    (128, 0),
];

fn keeps(alloc: Global, n: usize, kept: u64) -> bool
    requires { n ≤ 128 }
{
    let mut whole = List::new(alloc);
    match Framer::new(alloc, 262_144) {
        Ok(mut framer) => {
            framer.feed(&INTERLEAVED[..n], &mut whole) == Ok(()) && framer.kept() == kept
        }
        Err(_) => false,
    }
}

fn all_keep(alloc: Global, rows: &[(usize, u64)]) -> bool {
    for (n, kept) in rows {
        if *n > 128 || !keeps(alloc, *n, *kept) {
            return false;
        }
    }
    true
}

#[test]
fn what_is_unfinished_is_kept_and_no_more(rt: HostRuntime) {
    assert!(rt; all_keep(rt.alloc(), KEPT));
    assert!(rt; keeps_at_most(rt.alloc(), &INTERLEAVED, 1, 72, 0));
    assert!(rt;
        keeps_at_most(rt.alloc(), &INTERLEAVED, 5, 72, 0)
            && keeps_at_most(rt.alloc(), &INTERLEAVED, 128, 0, 0)
    );
}

/// The first bytes of a Fragment of 200,000 bytes, whose id isn't open.
const STRAY: [u8; 16] = [
    0x47, 0x49, 0x4f, 0x50, 1, 2, 0, 7, 0, 3, 0x0d, 0x34, 0, 0, 0, 9,
];

/// Whether the stray Fragment, but for its last byte, costs 16 bytes, however it comes, and is refused at its last byte.
fn counts_a_stray(alloc: Global, bytes: &mut Vec<u8>) -> bool {
    let mut whole = List::new(alloc);
    bytes.extend_from_slice(&STRAY).is_ok()
        && put_zeros(bytes, 199_983)
        && keeps_at_most(alloc, bytes.as_slice(), 1, 16, 16)
        && keeps_at_most(alloc, bytes.as_slice(), 4_096, 16, 16)
        && put_zeros(bytes, 1)
        && match fed_by(alloc, 262_144, bytes.as_slice(), 4_096, &mut whole) {
            Ok(answer) => answer == (Err(fault(FrameCause::BadPiece, 0)), None),
            Err(_) => false,
        }
}

#[test]
fn a_fragment_that_no_message_waits_for_is_counted_and_not_kept(rt: HostRuntime) {
    assert!(rt; counts_a_stray(rt.alloc(), &mut Vec::new(rt.alloc())));
}

fn octets(alloc: Global, bytes: &[u8]) -> Option<Octets>
    ensures { IfSome result (λ o. o.items ≡ bytes.now) }
{
    let vec = Vec::from_slice(alloc, bytes).ok()?;
    Some(List::from_vec(vec))
}

/// The stream of the two pings in two feeds.
fn two_feeds(alloc: Global) -> Option<List<Octets>>
    ensures { IfSome result (λ l. length (joined_feeds l.items) < 2 ^ 64) }
{
    let head = octets(alloc, &INTERLEAVED[..50])?;
    let tail = octets(alloc, &INTERLEAVED[50..])?;
    let mut feeds = List::new(alloc);
    feeds.push(head).ok()?;
    feeds.push(tail).ok()?;
    Some(feeds)
}

/// Whether the feeds are read as the two pings.
fn reads_pings(alloc: Global, feeds: &[Octets]) -> bool
    requires { length (joined_feeds feeds.now) < 2 ^ 64 }
{
    let mut whole = List::new(alloc);
    match read_stream(alloc, 262_144, feeds, &mut whole) {
        Ok(rest) => rest.is_none() && are_pings(whole.as_slice()),
        Err(_) => false,
    }
}

fn reads_two_feeds(alloc: Global) -> bool {
    match two_feeds(alloc) {
        Some(feeds) => reads_pings(alloc, feeds.as_slice()),
        None => false,
    }
}

#[test]
fn a_list_of_feeds_is_read_as_one_stream(rt: HostRuntime) {
    assert!(rt; reads_two_feeds(rt.alloc()));
}
