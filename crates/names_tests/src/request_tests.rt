//! Requests of a name service, laid out by hand: CORBA 3.0.3, sections 15.3 and 15.4.2.2.

use crate::bodies::{Told, is_told};
use name_calls::*;
use name_map::NamesCall;
use orb_base::Order;
use std::alloc::Global;
use std::test::*;

/// What a request means.
#[derive(Clone, Copy)]
enum Want {
    Bind(&'static [u8], &'static [u8]),
    Rebind(&'static [u8], &'static [u8]),
    Resolve(&'static [u8]),
    Unbind(&'static [u8]),
    Next(&'static [u8]),
    Size,
    Tells(Told),
}

fn asks(call: &NamesCall, want: Want) -> bool {
    match (call, want) {
        (NamesCall::Bind { key, target }, Want::Bind(k, t)) => key.get().as_slice() == k
            && target.get().as_slice() == t,
        (NamesCall::Rebind { key, target }, Want::Rebind(k, t)) => key.get().as_slice() == k
            && target.get().as_slice() == t,
        (NamesCall::Resolve { key }, Want::Resolve(k)) => key.get().as_slice() == k,
        (NamesCall::Unbind { key }, Want::Unbind(k)) => key.get().as_slice() == k,
        (NamesCall::Next { after }, Want::Next(k)) => after.get().as_slice() == k,
        (NamesCall::Size, Want::Size) => true,
        _ => false,
    }
}

fn is_meant(alloc: Global, order: Order, name: &[u8], body: &[u8], want: Want) -> bool {
    match meaning_of(alloc, order, name, body) {
        Ok(Meaning::Asks(call)) => asks(&call, want),
        Ok(Meaning::Tells(outcome)) => match want {
            Want::Tells(told) => is_told(&outcome, told),
            _ => false,
        },
        Err(_) => false,
    }
}

/// An operation's name and a body, with what they mean.
type Row = (&'static [u8], &'static [u8], Want);

fn are_meant(alloc: Global, order: Order, rows: &[Row]) -> bool {
    for (name, body, want) in rows {
        if !is_meant(alloc, order, name, body, *want) {
            return false;
        }
    }
    true
}

const TRUTH: Want = Want::Tells(Told::Returned(b"\x01"));

const FALSEHOOD: Want = Want::Tells(Told::Returned(b"\x00"));

const MARSHAL: Want = Want::Tells(Told::Marshal);

const BAD: Want = Want::Tells(Told::BadOperation);

const LIMITED: Want = Want::Tells(Told::Limited);

// The key's text ends at place 30 of its body, and the target's length is aligned on 4.
const BIG: &[Row] = &[
    (
        b"bind",
        b"\x00\x00\x00\x02a\x00\x00\x00\x00\x00\x00\x02x\x00",
        Want::Bind(b"a", b"x"),
    ),
    (
        b"rebind",
        b"\x00\x00\x00\x02a\x00\xaa\xbb\x00\x00\x00\x01\x00",
        Want::Rebind(b"a", b""),
    ),
    (
        b"bind",
        b"\x00\x00\x00\x04a\x80\xff\x00\x00\x00\x00\x02x\x00",
        Want::Bind(b"a\x80\xff", b"x"),
    ),
    (b"resolve", b"\x00\x00\x00\x02a\x00", Want::Resolve(b"a")),
    (b"unbind", b"\x00\x00\x00\x01\x00", Want::Unbind(b"")),
    (b"next", b"\x00\x00\x00\x01\x00", Want::Next(b"")),
    (b"size", b"", Want::Size),
    (b"_is_a", b"\x00\x00\x00\x12IDL:Orb/Names:1.0\x00", TRUTH),
    (
        b"_is_a",
        b"\x00\x00\x00\x1dIDL:omg.org/CORBA/Object:1.0\x00",
        TRUTH,
    ),
    (b"_is_a", b"\x00\x00\x00\x11IDL:Orb/Ping:1.0\x00", FALSEHOOD),
    (
        b"_is_a",
        b"\x00\x00\x00\x28IDL:omg.org/CosNaming/NamingContext:1.0\x00",
        FALSEHOOD,
    ),
    (b"_is_a", b"\x00\x00\x00\x01\x00", FALSEHOOD),
    (b"_non_existent", b"", FALSEHOOD),
];

const LITTLE: &[Row] = &[
    (
        b"bind",
        b"\x02\x00\x00\x00a\x00\x00\x00\x02\x00\x00\x00x\x00",
        Want::Bind(b"a", b"x"),
    ),
    (b"resolve", b"\x02\x00\x00\x00a\x00", Want::Resolve(b"a")),
    (b"resolve", b"\x00\x00\x00\x02a\x00", MARSHAL),
    (b"_is_a", b"\x12\x00\x00\x00IDL:Orb/Names:1.0\x00", TRUTH),
    (b"size", b"", Want::Size),
];

#[test]
fn parameters_are_read_in_the_order_of_the_request(rt: HostRuntime) {
    assert!(rt; are_meant(rt.alloc(), Order::Big, BIG));
    assert!(rt; are_meant(rt.alloc(), Order::Little, LITTLE));
}

const UNREAD: &[Row] = &[
    // No NUL; a NUL too early; length 0; longer than the body; no bytes.
    (b"resolve", b"\x00\x00\x00\x02ab", MARSHAL),
    (b"resolve", b"\x00\x00\x00\x03\x00b\x00", MARSHAL),
    (b"unbind", b"\x00\x00\x00\x00", MARSHAL),
    (b"next", b"\x00\x00\x00\x03a\x00", MARSHAL),
    (b"resolve", b"", MARSHAL),
    (b"_is_a", b"", MARSHAL),
    (b"bind", b"\x00\x00\x00\x02a\x00", MARSHAL),
    (
        b"rebind",
        b"\x00\x00\x00\x02a\x00\x00\x00\x00\x00\x00\x03x\x00",
        MARSHAL,
    ),
    (
        b"bind",
        b"\x00\x00\x00\x02a\x00\x00\x00\x00\x00\x00\x00",
        MARSHAL,
    ),
    // A key of no bytes is too short only where both texts are read.
    (
        b"bind",
        b"\x00\x00\x00\x01\x00\x00\x00\x00\x00\x00\x00\x02xy",
        MARSHAL,
    ),
    (
        b"bind",
        b"\x00\x00\x00\x01\x00\x00\x00\x00\x00\x00\x00\x02x\x00",
        LIMITED,
    ),
    (
        b"rebind",
        b"\x00\x00\x00\x01\x00\x00\x00\x00\x00\x00\x00\x02x\x00",
        LIMITED,
    ),
    // More bytes mean nothing.
    (b"resolve", b"\x00\x00\x00\x02a\x00zz", Want::Resolve(b"a")),
    (
        b"bind",
        b"\x00\x00\x00\x02a\x00\x00\x00\x00\x00\x00\x02x\x00\x00\x00\x01",
        Want::Bind(b"a", b"x"),
    ),
    (b"size", b"zz", Want::Size),
    (b"_non_existent", b"z", FALSEHOOD),
    // Names of others.
    (b"bind_new_context", b"\x00\x00\x00\x02a\x00", BAD),
    (b"resolve_str", b"\x00\x00\x00\x02a\x00", BAD),
    (b"Bind", b"", BAD),
    (b"", b"", BAD),
    (b"siz", b"", BAD),
    (b"_interface", b"", BAD),
];

#[test]
fn what_has_no_reading_is_refused(rt: HostRuntime) {
    assert!(rt; are_meant(rt.alloc(), Order::Big, UNREAD));
}

/// Whether each beginning of the body but the whole is refused, in this order.
fn is_refused_cut(alloc: Global, order: Order, name: &[u8], body: &[u8]) -> bool {
    for len in 0..body.len() {
        if !is_meant(alloc, order, name, &body[..len], MARSHAL) {
            return false;
        }
    }
    true
}

#[test]
fn a_body_that_is_cut_is_refused(rt: HostRuntime) {
    let big = b"\x00\x00\x00\x02a\x00\x00\x00\x00\x00\x00\x02x\x00".as_slice();
    let little = b"\x02\x00\x00\x00a\x00\x00\x00\x02\x00\x00\x00x\x00".as_slice();
    assert!(rt; is_refused_cut(rt.alloc(), Order::Big, b"bind", big));
    assert!(rt; is_refused_cut(rt.alloc(), Order::Little, b"rebind", little));
}

/// How a request that binds is taken.
#[derive(Clone, Copy, PartialEq, Eq)]
enum Taken {
    Asked,
    Limited,
    Other,
}

/// Puts a string of so many bytes, each 255, big endian, at a multiple of 4.
fn put_text(body: &mut Vec<u8>, len: u16) -> Option<()> {
    let count = u32::from(len) + 1;
    body.extend_from_slice(&count.to_be_bytes()).ok()?;
    for _ in 0..len {
        body.push(255).ok()?;
    }
    body.push(0).ok()?;
    for _ in 0..(4 - body.len() % 4) % 4 {
        body.push(0).ok()?;
    }
    Some(())
}

/// How a key and a target of so many bytes are taken.
fn how_taken(alloc: Global, name: &[u8], key: u16, target: u16) -> Option<Taken> {
    let mut body = Vec::new(alloc);
    put_text(&mut body, key)?;
    put_text(&mut body, target)?;
    match meaning_of(alloc, Order::Big, name, body.as_slice()) {
        Ok(Meaning::Asks(_)) => Some(Taken::Asked),
        Ok(Meaning::Tells(outcome)) => if is_told(&outcome, Told::Limited) {
            Some(Taken::Limited)
        } else {
            Some(Taken::Other)
        },
        Err(_) => None,
    }
}

const LENGTHS: &[(&[u8], u16, u16, Taken)] = &[
    (b"bind", 0, 1, Taken::Limited),
    (b"bind", 1, 0, Taken::Asked),
    (b"bind", 256, 4_096, Taken::Asked),
    (b"bind", 257, 4_096, Taken::Limited),
    (b"bind", 256, 4_097, Taken::Limited),
    (b"rebind", 0, 1, Taken::Limited),
    (b"rebind", 256, 4_096, Taken::Asked),
    (b"rebind", 257, 1, Taken::Limited),
    (b"rebind", 1, 4_097, Taken::Limited),
    (b"resolve", 0, 0, Taken::Asked),
    (b"resolve", 300, 0, Taken::Asked),
    (b"unbind", 300, 0, Taken::Asked),
    (b"next", 5_000, 0, Taken::Asked),
];

fn are_taken(alloc: Global, rows: &[(&[u8], u16, u16, Taken)]) -> bool {
    for (name, key, target, want) in rows {
        if how_taken(alloc, name, *key, *target) != Some(*want) {
            return false;
        }
    }
    true
}

#[test]
fn only_what_binds_has_limits(rt: HostRuntime) {
    assert!(rt; are_taken(rt.alloc(), LENGTHS));
}
