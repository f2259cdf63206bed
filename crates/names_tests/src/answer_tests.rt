//! Bodies of answers, laid out by hand: CORBA 3.0.3, sections 15.3 and 15.4.3.2.

use crate::bodies::{Told, is_told};
use name_calls::*;
use name_map::NamesReply;
use orb_base::{Arc, Order, Text};
use std::alloc::Global;
use std::test::*;

/// A reply of plain values.
#[derive(Clone, Copy)]
enum Reply {
    Stored,
    Target(&'static [u8]),
    Key(&'static [u8]),
    Count(u32),
    AlreadyBound,
    NoRoom,
    NotFound,
}

fn shared(alloc: Global, bytes: &[u8]) -> Option<Arc<Text>> {
    let text = Text::new(alloc, bytes).ok()?;
    Arc::new(alloc, text).ok()
}

fn reply_of(alloc: Global, reply: Reply) -> Option<NamesReply> {
    match reply {
        Reply::Stored => Some(NamesReply::Stored),
        Reply::Target(bytes) => Some(NamesReply::Target(shared(alloc, bytes)?)),
        Reply::Key(bytes) => Some(NamesReply::Key(shared(alloc, bytes)?)),
        Reply::Count(n) => Some(NamesReply::Count(n)),
        Reply::AlreadyBound => Some(NamesReply::AlreadyBound),
        Reply::NoRoom => Some(NamesReply::NoRoom),
        Reply::NotFound => Some(NamesReply::NotFound),
    }
}

fn is_answered(alloc: Global, order: Order, reply: Reply, told: Told) -> bool {
    let Some(reply) = reply_of(alloc, reply) else {
        return false;
    };
    match answer_of(alloc, order, &reply) {
        Ok(outcome) => is_told(&outcome, told),
        Err(_) => false,
    }
}

/// A reply, with its answer.
type Row = (Reply, Told);

fn are_answered(alloc: Global, order: Order, rows: &[Row]) -> bool {
    for (reply, told) in rows {
        if !is_answered(alloc, order, *reply, *told) {
            return false;
        }
    }
    true
}

const BIG: &[Row] = &[
    (Reply::Stored, Told::Returned(b"")),
    (
        Reply::Target(b"x"),
        Told::Returned(b"\x00\x00\x00\x02x\x00"),
    ),
    (Reply::Target(b""), Told::Returned(b"\x00\x00\x00\x01\x00")),
    (
        Reply::Key(b"a\xff"),
        Told::Returned(b"\x00\x00\x00\x03a\xff\x00"),
    ),
    (Reply::Count(1_024), Told::Returned(b"\x00\x00\x04\x00")),
    (Reply::Count(0), Told::Returned(b"\x00\x00\x00\x00")),
    (
        Reply::AlreadyBound,
        Told::User(b"\x00\x00\x00\x19IDL:Orb/AlreadyBound:1.0\x00"),
    ),
    (
        Reply::NoRoom,
        Told::User(b"\x00\x00\x00\x13IDL:Orb/NoRoom:1.0\x00"),
    ),
    (
        Reply::NotFound,
        Told::User(b"\x00\x00\x00\x15IDL:Orb/NotFound:1.0\x00"),
    ),
];

const LITTLE: &[Row] = &[
    (Reply::Stored, Told::Returned(b"")),
    (
        Reply::Target(b"x"),
        Told::Returned(b"\x02\x00\x00\x00x\x00"),
    ),
    (
        Reply::Key(b"a\xff"),
        Told::Returned(b"\x03\x00\x00\x00a\xff\x00"),
    ),
    (Reply::Count(1_024), Told::Returned(b"\x00\x04\x00\x00")),
    (
        Reply::AlreadyBound,
        Told::User(b"\x19\x00\x00\x00IDL:Orb/AlreadyBound:1.0\x00"),
    ),
    (
        Reply::NoRoom,
        Told::User(b"\x13\x00\x00\x00IDL:Orb/NoRoom:1.0\x00"),
    ),
    (
        Reply::NotFound,
        Told::User(b"\x15\x00\x00\x00IDL:Orb/NotFound:1.0\x00"),
    ),
];

#[test]
fn replies_are_answered_in_the_order_of_the_request(rt: HostRuntime) {
    assert!(rt; are_answered(rt.alloc(), Order::Big, BIG));
    assert!(rt; are_answered(rt.alloc(), Order::Little, LITTLE));
}

/// Whether a text of so many bytes is answered so.
fn long_text(alloc: Global, len: usize, told: Told) -> Option<bool> {
    let bytes = Vec::from_elem(alloc, 120u8, len).ok()?;
    let reply = NamesReply::Target(shared(alloc, bytes.as_slice())?);
    let outcome = answer_of(alloc, Order::Big, &reply).ok()?;
    Some(is_told(&outcome, told))
}

#[test]
fn a_text_that_a_reply_has_no_room_for_is_a_limit(rt: HostRuntime) {
    assert!(rt; long_text(rt.alloc(), 262_115, Told::Limited) == Some(false));
    assert!(rt; long_text(rt.alloc(), 262_116, Told::Limited) == Some(true));
}
