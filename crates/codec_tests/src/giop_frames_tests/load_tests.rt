//! A message in very many pieces.
ghost use Rattle.std.specs.Prelude.{◌<◌};

use super::tests::{fed_by, put_zeros};
use giop_frames::*;
use orb_base::{List, Order};
use std::alloc::Global;
use std::test::*;

/// A Fragment of id 0 that adds nothing, and that others follow.
const EMPTY: [u8; 16] = [0x47, 0x49, 0x4f, 0x50, 1, 2, 2, 7, 0, 0, 0, 4, 0, 0, 0, 0];

/// The last Fragment of id 0, with 16 bytes.
const LAST: [u8; 32] = [
    0x47, 0x49, 0x4f, 0x50, 1, 2, 0, 7, 0, 0, 0, 20, 0, 0, 0, 0, 1, 2, 3, 4, 5, 6, 7, 8, 9, 10, 11,
    12, 13, 14, 15, 16,
];

/// The header of the joined message.
const JOINED: [u8; 12] = [0x47, 0x49, 0x4f, 0x50, 1, 2, 0, 0, 0, 3, 0xff, 0xf4];

/// The header of the first piece, of 262,128 bytes.
const FIRST_OF_ALL: [u8; 12] = [0x47, 0x49, 0x4f, 0x50, 1, 2, 2, 0, 0, 3, 0xff, 0xe4];

fn put_empty_fragments(bytes: &mut Vec<u8>, n: u32) -> bool {
    for _ in 0..n {
        if bytes.extend_from_slice(&EMPTY).is_err() {
            return false;
        }
    }
    true
}

/// Puts the first piece, so many empty Fragments, and the last one, which makes a message of 262,144 bytes.
fn put_all(bytes: &mut Vec<u8>, n: u32) -> bool {
    bytes.extend_from_slice(&FIRST_OF_ALL).is_ok()
        && put_zeros(bytes, 262_116)
        && put_empty_fragments(bytes, n)
        && bytes.extend_from_slice(&LAST).is_ok()
}

fn is_joined(whole: &[Whole]) -> bool {
    match whole {
        [one] => {
            let joined = one.bytes.as_slice();
            (one.at, one.kind, one.order) == (3_462_128, 0, Order::Big)
                && joined.len() == 262_144
                && joined[..12] == JOINED[..12]
                && joined[262_128..] == LAST[16..]
        }
        _ => false,
    }
}

/// Whether the bytes are the one message where they are fed in pieces of so many bytes.
fn joins_by(alloc: Global, bytes: &[u8], n: usize) -> bool
    requires { 0 < n }
{
    let mut whole = List::new(alloc);
    match fed_by(alloc, 262_144, bytes, n, &mut whole) {
        Ok(answer) => answer == (Ok(()), None) && is_joined(whole.as_slice()),
        Err(_) => false,
    }
}

fn joins_all(alloc: Global) -> bool {
    let mut bytes = Vec::new(alloc);
    put_all(&mut bytes, 200_000)
        && joins_by(alloc, bytes.as_slice(), 1)
        && joins_by(alloc, bytes.as_slice(), 16)
        && joins_by(alloc, bytes.as_slice(), 65_536)
}

/// Were each Fragment to cost as much as the message is long, this would be 50,000,000,000 steps.
#[test]
fn an_empty_fragment_costs_a_constant(rt: HostRuntime) {
    assert!(rt; joins_all(rt.alloc()));
}
