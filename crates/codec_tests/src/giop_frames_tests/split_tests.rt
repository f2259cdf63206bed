//! Whole messages, cut into pieces, and the pieces joined again.

use super::tests::{FIRST, PING, fed_by, put_long_message};
use giop_frames::*;
use orb_base::{List, Octets, Order};
use std::alloc::Global;
use std::test::*;

/// A request of 68 bytes, with one service context and an argument, laid out by hand by the rules of section 15.4.2.
const REQUEST: [u8; 68] = [
    0x47, 0x49, 0x4f, 0x50, 1, 2, 0, 0, 0, 0, 0, 0x38, 0, 0, 0, 1, 3, 0, 0, 0, 0, 0, 0, 0, 0, 0, 0,
    4, 0x70, 0x69, 0x6e, 0x67, 0, 0, 0, 8, 0x63, 0x75, 0x72, 0x72, 0x65, 0x6e, 0x74, 0, 0, 0, 0, 1,
    0, 0, 0, 0x0a, 0, 0, 0, 4, 0, 0, 0, 5, 0, 0, 0, 0, 0, 0, 0, 0x15,
];

/// Its pieces under a limit of 32 bytes, by the rules of section 15.4.9.
const PIECES: &[&[u8]] = &[
    &[
        0x47, 0x49, 0x4f, 0x50, 1, 2, 2, 0, 0, 0, 0, 0x14, 0, 0, 0, 1, 3, 0, 0, 0, 0, 0, 0, 0, 0,
        0, 0, 4, 0x70, 0x69, 0x6e, 0x67,
    ],
    &[
        0x47, 0x49, 0x4f, 0x50, 1, 2, 2, 7, 0, 0, 0, 0x14, 0, 0, 0, 1, 0, 0, 0, 8, 0x63, 0x75,
        0x72, 0x72, 0x65, 0x6e, 0x74, 0, 0, 0, 0, 1,
    ],
    &[
        0x47, 0x49, 0x4f, 0x50, 1, 2, 2, 7, 0, 0, 0, 0x14, 0, 0, 0, 1, 0, 0, 0, 0x0a, 0, 0, 0, 4,
        0, 0, 0, 5, 0, 0, 0, 0,
    ],
    &[
        0x47, 0x49, 0x4f, 0x50, 1, 2, 0, 7, 0, 0, 0, 8, 0, 0, 0, 1, 0, 0, 0, 0x15,
    ],
];

/// The same request in the little-endian order.
const LITTLE: [u8; 68] = [
    0x47, 0x49, 0x4f, 0x50, 1, 2, 1, 0, 0x38, 0, 0, 0, 1, 0, 0, 0, 3, 0, 0, 0, 0, 0, 0, 0, 4, 0, 0,
    0, 0x70, 0x69, 0x6e, 0x67, 8, 0, 0, 0, 0x63, 0x75, 0x72, 0x72, 0x65, 0x6e, 0x74, 0, 1, 0, 0, 0,
    0x0a, 0, 0, 0, 4, 0, 0, 0, 1, 0, 5, 0, 0, 0, 0, 0, 0x15, 0, 0, 0,
];

const LITTLE_PIECES: &[&[u8]] = &[
    &[
        0x47, 0x49, 0x4f, 0x50, 1, 2, 3, 0, 0x14, 0, 0, 0, 1, 0, 0, 0, 3, 0, 0, 0, 0, 0, 0, 0, 4,
        0, 0, 0, 0x70, 0x69, 0x6e, 0x67,
    ],
    &[
        0x47, 0x49, 0x4f, 0x50, 1, 2, 3, 7, 0x14, 0, 0, 0, 1, 0, 0, 0, 8, 0, 0, 0, 0x63, 0x75,
        0x72, 0x72, 0x65, 0x6e, 0x74, 0, 1, 0, 0, 0,
    ],
    &[
        0x47, 0x49, 0x4f, 0x50, 1, 2, 3, 7, 0x14, 0, 0, 0, 1, 0, 0, 0, 0x0a, 0, 0, 0, 4, 0, 0, 0,
        1, 0, 5, 0, 0, 0, 0, 0,
    ],
    &[
        0x47, 0x49, 0x4f, 0x50, 1, 2, 1, 7, 8, 0, 0, 0, 1, 0, 0, 0, 0x15, 0, 0, 0,
    ],
];

fn are_pieces(pieces: &[Octets], expected: &[&[u8]]) -> bool {
    if pieces.len() != expected.len() {
        return false;
    }
    for (piece, bytes) in pieces.iter().zip(expected) {
        if piece.as_slice() != *bytes {
            return false;
        }
    }
    true
}

/// Whether a message that may be cut has these pieces under a limit.
fn has_pieces(alloc: Global, message: &[u8], limit: usize, expected: &[&[u8]]) -> bool {
    if !can_split(message) || limit % 8 != 0 || limit < 24 {
        return false;
    }
    match split(alloc, message, limit) {
        Ok(pieces) => are_pieces(pieces.as_slice(), expected),
        Err(_) => false,
    }
}

#[test]
fn a_message_is_cut_into_pieces_of_the_limit_in_its_order(rt: HostRuntime) {
    assert!(rt; has_pieces(rt.alloc(), &REQUEST, 32, PIECES));
    assert!(rt; has_pieces(rt.alloc(), &LITTLE, 32, LITTLE_PIECES));
}

/// A message that is as long as the limit, or shorter, is one piece.
#[test]
fn a_message_within_the_limit_is_one_piece(rt: HostRuntime) {
    assert!(rt; has_pieces(rt.alloc(), &REQUEST, 72, &[&REQUEST]));
    assert!(rt; has_pieces(rt.alloc(), &PING, 48, &[&PING]));
}

/// Puts pieces one after the other. False where memory is wanting.
fn put_pieces(bytes: &mut Vec<u8>, pieces: &[Octets]) -> bool {
    for piece in pieces {
        if bytes.extend_from_slice(piece.as_slice()).is_err() {
            return false;
        }
    }
    true
}

/// Cuts a message under a limit, puts its pieces one after the other, and tells whether they are so many.
fn cuts(alloc: Global, message: &[u8], limit: usize, count: usize, bytes: &mut Vec<u8>) -> bool {
    if !can_split(message) || limit % 8 != 0 || limit < 24 {
        return false;
    }
    match split(alloc, message, limit) {
        Ok(pieces) => pieces.len() == count && put_pieces(bytes, pieces.as_slice()),
        Err(_) => false,
    }
}

/// The offset of the piece that completes a message, its order and its bytes.
type Joined<'a> = (u64, Order, &'a [u8]);

fn is_joined(whole: &[Whole], (at, order, message): Joined<'_>) -> bool {
    match whole {
        [one] => {
            (one.at, one.kind, one.order) == (at, 0, order) && one.bytes.as_slice() == message
        }
        _ => false,
    }
}

/// Whether the bytes are the message where they are fed in pieces of so many bytes, under this limit.
fn joins(alloc: Global, limit: usize, bytes: &[u8], n: usize, joined: Joined<'_>) -> bool {
    if limit < 16 || limit > 262_144 || n == 0 {
        return false;
    }
    let mut whole = List::new(alloc);
    match fed_by(alloc, limit, bytes, n, &mut whole) {
        Ok(answer) => answer == (Ok(()), None) && is_joined(whole.as_slice(), joined),
        Err(_) => false,
    }
}

fn joins_each(alloc: Global, limit: usize, bytes: &[u8], by: &[usize], joined: Joined<'_>) -> bool {
    for n in by {
        if !joins(alloc, limit, bytes, *n, joined) {
            return false;
        }
    }
    true
}

fn joins_request(alloc: Global) -> bool {
    let joined = (96, Order::Big, &REQUEST[..]);
    let mut bytes = Vec::new(alloc);
    cuts(alloc, &REQUEST, 32, 4, &mut bytes)
        && bytes.len() == 116
        && joins_each(alloc, 68, bytes.as_slice(), &[1, 7, 32, 116], joined)
}

fn joins_little(alloc: Global) -> bool {
    let joined = (144, Order::Little, &LITTLE[..]);
    let mut bytes = Vec::new(alloc);
    cuts(alloc, &LITTLE, 24, 7, &mut bytes)
        && bytes.len() == 164
        && joins_each(alloc, 262_144, bytes.as_slice(), &[1, 7, 24, 164], joined)
}

#[test]
fn the_pieces_fed_are_the_message(rt: HostRuntime) {
    assert!(rt; joins_request(rt.alloc()));
    assert!(rt; joins_little(rt.alloc()));
}

/// Whether this message of the greatest length is cut into 24 bytes and then 8 in each piece.
fn joins_small_pieces(alloc: Global, message: &[u8]) -> bool {
    let joined = (786_360, Order::Big, message);
    let mut bytes = Vec::new(alloc);
    cuts(alloc, message, 24, 32_766, &mut bytes)
        && joins(alloc, 262_144, bytes.as_slice(), 4_096, joined)
}

fn joins_longest(alloc: Global) -> bool {
    let mut message = Vec::new(alloc);
    put_long_message(&mut message) && joins_small_pieces(alloc, message.as_slice())
}

#[test]
fn the_longest_message_is_cut_small(rt: HostRuntime) {
    assert!(rt; joins_longest(rt.alloc()));
}

/// A first piece, a Fragment, a CancelRequest, a message of another size, one without an id, another magic and version.
const UNCUT: &[&[u8]] = &[
    &FIRST,
    &[0x47, 0x49, 0x4f, 0x50, 1, 2, 0, 7, 0, 0, 0, 4, 0, 0, 0, 1],
    &[0x47, 0x49, 0x4f, 0x50, 1, 2, 0, 2, 0, 0, 0, 4, 0, 0, 0, 1],
    &[0x47, 0x49, 0x4f, 0x50, 1, 2, 0, 0, 0, 0, 0, 5, 0, 0, 0, 1],
    &[0x47, 0x49, 0x4f, 0x50, 1, 2, 0, 0, 0, 0, 0, 0],
    &[0x47, 0x49, 0x4f, 0x51, 1, 2, 0, 0, 0, 0, 0, 4, 0, 0, 0, 1],
    &[0x47, 0x49, 0x4f, 0x50, 1, 1, 0, 0, 0, 0, 0, 4, 0, 0, 0, 1],
];

fn are_uncut(rows: &[&[u8]]) -> bool {
    for bytes in rows {
        if can_split(bytes) {
            return false;
        }
    }
    true
}

fn may_be_cut(kind: u8) -> bool {
    can_split(&[
        0x47, 0x49, 0x4f, 0x50, 1, 2, 1, kind, 4, 0, 0, 0, 0, 0, 0, 1,
    ])
}

#[test]
fn what_can_be_cut_is_told(rt: HostRuntime) {
    assert!(rt; are_uncut(UNCUT));
    assert!(rt; may_be_cut(0) && may_be_cut(1) && may_be_cut(3) && may_be_cut(4));
}
