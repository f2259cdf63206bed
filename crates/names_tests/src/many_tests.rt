//! Runs with as many keys as a map holds, and with many calls at once. Keys and targets are numbers of four digits,
//! around which requests and replies are put together: CORBA 3.0.3, sections 15.4.2 and 15.4.3.

use crate::messages::{BIND, REBIND, RESOLVE, SIZE, UNBIND};
use crate::run_tests::{comes_out, put};
use orb_base::Octets;
use std::alloc::Global;
use std::sync::Wait;
use std::test::*;
use std::thread::Threads;

/// Headers of requests up to their ids: without a body, with a text of four digits, and with two of them.
const ASKS_NOTHING: &[u8] = b"GIOP\x01\x02\0\0\0\0\0\x2c";

const ASKS_FOUR: &[u8] = b"GIOP\x01\x02\0\0\0\0\0\x35";

const ASKS_TWICE_FOUR: &[u8] = b"GIOP\x01\x02\0\0\0\0\0\x41";

/// Replies without a body, and with a text of four digits.
const GIVES_NOTHING: &[u8] = b"GIOP\x01\x02\0\x01\0\0\0\x0c";

const GIVES_FOUR: &[u8] = b"GIOP\x01\x02\0\x01\0\0\0\x15";

/// What follows the id of a reply without an exception: its status and the count of its contexts.
const WELL: &[u8] = b"\0\0\0\0\0\0\0\0";

/// The replies to the last three requests to a full map: NoRoom, nothing, and the number 1,024.
const NO_ROOM_1024: &[u8] =
    b"GIOP\x01\x02\0\x01\0\0\0\x23\0\0\x04\0\0\0\0\x01\0\0\0\0\0\0\0\x13IDL:Orb/NoRoom:1.0\0";

const BARE_1025: &[u8] = b"GIOP\x01\x02\0\x01\0\0\0\x0c\0\0\x04\x01\0\0\0\0\0\0\0\0";

const SIZE_1026: &[u8] = b"GIOP\x01\x02\0\x01\0\0\0\x10\0\0\x04\x02\0\0\0\0\0\0\0\0\0\0\x04\0";

/// The last digit of a number.
fn digit(n: u32) -> u8 {
    b'0' + (n % 10) as u8
}

/// The last four digits of a number.
fn digits(n: u32) -> [u8; 4] {
    [digit(n / 1000), digit(n / 100), digit(n / 10), digit(n)]
}

/// A request that binds a key to the text of its own digits.
fn put_binding(bytes: &mut Octets, id: u32, operation: &[u8], key: u32) -> Option<()> {
    let id = id.to_be_bytes();
    let text = digits(key);
    put(bytes, &[ASKS_TWICE_FOUR, id.as_slice(), operation])?;
    put(bytes, &[b"\0\0\0\x05".as_slice(), text.as_slice()])?;
    put(
        bytes,
        &[
            b"\0\0\0\0\0\0\0\x05".as_slice(),
            text.as_slice(),
            b"\0".as_slice(),
        ],
    )
}

/// A request with a key alone.
fn put_key(bytes: &mut Octets, id: u32, operation: &[u8], key: u32) -> Option<()> {
    let id = id.to_be_bytes();
    let text = digits(key);
    put(bytes, &[ASKS_FOUR, id.as_slice(), operation])?;
    put(
        bytes,
        &[b"\0\0\0\x05".as_slice(), text.as_slice(), b"\0".as_slice()],
    )
}

/// A reply that returns nothing.
fn put_bare(bytes: &mut Octets, id: u32) -> Option<()> {
    let id = id.to_be_bytes();
    put(bytes, &[GIVES_NOTHING, id.as_slice(), WELL])
}

/// A reply that returns the text of a number's digits.
fn put_text(bytes: &mut Octets, id: u32, key: u32) -> Option<()> {
    let id = id.to_be_bytes();
    let text = digits(key);
    put(bytes, &[GIVES_FOUR, id.as_slice(), WELL])?;
    put(
        bytes,
        &[b"\0\0\0\x05".as_slice(), text.as_slice(), b"\0".as_slice()],
    )
}

/// 1,025 binds of different keys, a rebind of the first one, and a request for the size.
fn filling(alloc: Global) -> Option<Octets> {
    let mut bytes = Octets::new(alloc);
    for n in 0..1025u32 {
        put_binding(&mut bytes, n, BIND, n)?;
    }
    put_binding(&mut bytes, 1025, REBIND, 0)?;
    put(
        &mut bytes,
        &[ASKS_NOTHING, b"\0\0\x04\x02".as_slice(), SIZE],
    )?;
    Some(bytes)
}

/// The replies to them: the last of the binds finds no room.
fn filled(alloc: Global) -> Option<Octets> {
    let mut bytes = Octets::new(alloc);
    for n in 0..1024u32 {
        put_bare(&mut bytes, n)?;
    }
    put(&mut bytes, &[NO_ROOM_1024, BARE_1025, SIZE_1026])?;
    Some(bytes)
}

/// 500 keys from a number on, of which each is bound, resolved and taken out.
fn passing(alloc: Global, first: u16) -> Option<Octets> {
    let mut bytes = Octets::new(alloc);
    for n in 0..500u32 {
        let key = first as u32 + n;
        put_binding(&mut bytes, 3 * n, BIND, key)?;
        put_key(&mut bytes, 3 * n + 1, RESOLVE, key)?;
        put_key(&mut bytes, 3 * n + 2, UNBIND, key)?;
    }
    Some(bytes)
}

/// The replies to them: all are done, and each key gives its own text.
fn passed(alloc: Global, first: u16) -> Option<Octets> {
    let mut bytes = Octets::new(alloc);
    for n in 0..500u32 {
        put_bare(&mut bytes, 3 * n)?;
        put_text(&mut bytes, 3 * n + 1, first as u32 + n)?;
        put_bare(&mut bytes, 3 * n + 2)?;
    }
    Some(bytes)
}

/// Whether one connection fills the map, and then finds no room. Each of its 1,027 requests is a call of the history.
fn fills_up<R: Wait + Threads + Sync>(rt: &R, alloc: Global) -> bool {
    let Some(input) = filling(alloc) else {
        return false;
    };
    let Some(output) = filled(alloc) else {
        return false;
    };
    let nothing = Octets::new(alloc);
    comes_out(
        rt,
        alloc,
        &[
            &[input.as_slice()],
            &[nothing.as_slice()],
            &[nothing.as_slice()],
            &[nothing.as_slice()],
        ],
        &[
            &[output.as_slice()],
            &[nothing.as_slice()],
            &[nothing.as_slice()],
            &[nothing.as_slice()],
        ],
        b"names 1024 calls 1027 connections 4\n".as_slice(),
    )
}

/// What the four slots are sent or write, of keys from 0, 1,000, 2,000 and 3,000 on.
#[derive(Drop)]
struct Four {
    first: Octets,
    second: Octets,
    third: Octets,
    last: Octets,
}

fn all_passing(alloc: Global) -> Option<Four> {
    Some(Four {
        first: passing(alloc, 0)?,
        second: passing(alloc, 1000)?,
        third: passing(alloc, 2000)?,
        last: passing(alloc, 3000)?,
    })
}

fn all_passed(alloc: Global) -> Option<Four> {
    Some(Four {
        first: passed(alloc, 0)?,
        second: passed(alloc, 1000)?,
        third: passed(alloc, 2000)?,
        last: passed(alloc, 3000)?,
    })
}

/// Whether four slots, each with keys of its own, are answered as if each were alone. The history has 1,500 calls of
/// each slot, and no key is left.
fn go_on_apart<R: Wait + Threads + Sync>(rt: &R, alloc: Global) -> bool {
    let Some(inputs) = all_passing(alloc) else {
        return false;
    };
    let Some(outputs) = all_passed(alloc) else {
        return false;
    };
    comes_out(
        rt,
        alloc,
        &[
            &[inputs.first.as_slice()],
            &[inputs.second.as_slice()],
            &[inputs.third.as_slice()],
            &[inputs.last.as_slice()],
        ],
        &[
            &[outputs.first.as_slice()],
            &[outputs.second.as_slice()],
            &[outputs.third.as_slice()],
            &[outputs.last.as_slice()],
        ],
        b"names 0 calls 6000 connections 4\n".as_slice(),
    )
}

#[test]
fn a_full_map_has_no_room(rt: HostRuntime) {
    assert!(rt; fills_up(&rt, rt.alloc()));
}

#[test]
fn four_slots_call_at_once(rt: HostRuntime) {
    assert!(rt; go_on_apart(&rt, rt.alloc()));
}
