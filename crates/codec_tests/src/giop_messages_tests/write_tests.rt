//! Messages, as they are written.
ghost use Rattle.std.specs.Prelude.{IfSome};
ghost use Rattle.giop_messages.specs.Message as Spec;
ghost use Rattle.giop_messages.specs.Views.{message_of};

use super::rows::*;
use cdr_core::Writer;
use giop_messages::*;
use orb_base::limits::MAX_MESSAGE;
use orb_base::{Due, List, Octets, Order, Text};
use std::alloc::Global;
use std::test::*;

/// Whether the message has this length and is written so.
pub(crate) fn spells(alloc: Global, order: Order, message: &Message, bytes: &[u8]) -> bool
    requires { Spec.HasStatus (message_of message.now) }
{
    let len = message_len(message);
    if len != bytes.len() || len > MAX_MESSAGE {
        return false;
    }
    let mut writer = Writer::new(alloc, order, 0);
    match write_message(order, message, &mut writer) {
        Ok(()) => writer.finish().as_slice() == bytes,
        Err(_) => false,
    }
}

fn octets(alloc: Global, bytes: &[u8]) -> Option<Octets> {
    let vec = Vec::from_slice(alloc, bytes).ok()?;
    Some(List::from_vec(vec))
}

fn text(alloc: Global, bytes: &[u8]) -> Option<Text> {
    Text::new(alloc, bytes).ok()
}

/// The list of one context, or of none.
fn contexts(alloc: Global, context: Option<(u32, &[u8])>) -> Option<List<Context>> {
    let mut list = List::new(alloc);
    if let Some((id, bytes)) = context {
        let bytes = octets(alloc, bytes)?;
        list.push(Context { id, bytes }).ok()?;
    }
    Some(list)
}

/// Puts a profile after those that are there. False where memory is wanting.
fn put(alloc: Global, profiles: &mut List<Tagged>, tag: u32, bytes: &[u8]) -> bool {
    match octets(alloc, bytes) {
        Some(bytes) => profiles.push(Tagged { tag, bytes }).is_ok(),
        None => false,
    }
}

fn put_all(alloc: Global, profiles: &mut List<Tagged>, items: &[Item]) -> bool {
    for (tag, bytes) in items {
        if !put(alloc, profiles, *tag, bytes) {
            return false;
        }
    }
    true
}

fn addressing(alloc: Global, reference: &Reference) -> Option<Target> {
    let mut profiles = List::new(alloc);
    if !put_all(alloc, &mut profiles, reference.profiles) {
        return None;
    }
    let type_id = text(alloc, reference.type_id)?;
    Some(Target::Addressing {
        index: reference.index,
        type_id,
        profiles,
    })
}

fn target(alloc: Global, aim: &Aim) -> Option<Target> {
    match aim {
        Aim::Key(key) => Some(Target::Key(octets(alloc, key)?)),
        Aim::Profile((tag, bytes)) => {
            let bytes = octets(alloc, bytes)?;
            Some(Target::Profile(Tagged { tag: *tag, bytes }))
        }
        Aim::Reference(reference) => addressing(alloc, reference),
    }
}

fn request(alloc: Global, asked: &Asked) -> Option<Message>
    ensures { IfSome result (λ m. Spec.HasStatus (message_of m)) }
{
    let key = octets(alloc, asked.key)?;
    let operation = text(alloc, asked.operation)?;
    let contexts = contexts(alloc, asked.context)?;
    let body = octets(alloc, asked.body)?;
    Some(Message::Request(Request {
        id: asked.id,
        flags: 3,
        target: Target::Key(key),
        operation,
        contexts,
        body,
    }))
}

/// A reply; None where its status is above 5 too.
fn reply(alloc: Global, replied: &Replied) -> Option<Message>
    ensures { IfSome result (λ m. Spec.HasStatus (message_of m)) }
{
    if replied.status > 5 {
        return None;
    }
    let contexts = contexts(alloc, replied.context)?;
    let body = octets(alloc, replied.body)?;
    Some(Message::Reply(Reply {
        id: replied.id,
        status: replied.status,
        contexts,
        body,
    }))
}

/// The message of these parts.
fn message(alloc: Global, said: &Said) -> Option<Message>
    ensures { IfSome result (λ m. Spec.HasStatus (message_of m)) }
{
    match said {
        Said::Request(asked) => request(alloc, asked),
        Said::Reply(replied) => reply(alloc, replied),
        Said::Cancel(id) => Some(Message::Cancel(*id)),
        Said::Locate(id, aim) => {
            let target = target(alloc, aim)?;
            Some(Message::Locate(Locate { id: *id, target }))
        }
        Said::Located(located) => Some(Message::Located(*located)),
        Said::Close => Some(Message::Close),
        Said::Error => Some(Message::Error),
    }
}

/// Whether a message of these parts has this length and is written so.
fn is_written(alloc: Global, row: &Row) -> bool {
    match message(alloc, &row.said) {
        Some(message) => spells(alloc, row.order, &message, row.bytes),
        None => false,
    }
}

fn all_written(alloc: Global, rows: &[Row]) -> bool {
    for row in rows {
        if !is_written(alloc, row) {
            return false;
        }
    }
    true
}

#[test]
fn writes_requests(rt: HostRuntime) {
    assert!(rt; all_written(rt.alloc(), REQUESTS));
}

#[test]
fn writes_replies(rt: HostRuntime) {
    assert!(rt; all_written(rt.alloc(), REPLIES));
}

#[test]
fn writes_each_form_of_target(rt: HostRuntime) {
    assert!(rt; all_written(rt.alloc(), TARGETS));
}

#[test]
fn writes_short_kinds(rt: HostRuntime) {
    assert!(rt; all_written(rt.alloc(), SHORT));
}

/// Response flags, and when a reply is due by them.
const FLAGS: &[(u8, Due)] = &[
    (0, Due::Nothing),
    (1, Due::Early),
    (2, Due::Nothing),
    (3, Due::Late),
    (5, Due::Late),
    (255, Due::Late),
];

fn all_due(rows: &[(u8, Due)]) -> bool {
    for (flags, due) in rows {
        if due_of(*flags) != *due {
            return false;
        }
    }
    true
}

#[test]
fn reads_response_flags(rt: HostRuntime) {
    assert!(rt; all_due(FLAGS));
}

/// Whether a reply of these parts has this length and is written so.
fn spells_reply(
    alloc: Global,
    order: Order,
    replied: &Replied,
    contexts: &[Context],
    bytes: &[u8],
) -> bool {
    let len = reply_len(contexts, replied.body.len());
    if len != bytes.len() || len > MAX_MESSAGE || replied.status > 5 {
        return false;
    }
    let (id, status) = (replied.id, replied.status);
    let mut writer = Writer::new(alloc, order, 0);
    match write_reply(order, id, status, contexts, replied.body, &mut writer) {
        Ok(()) => writer.finish().as_slice() == bytes,
        Err(_) => false,
    }
}

/// Whether a reply of these parts, which are borrowed, is written so.
fn is_lent(alloc: Global, row: &Row) -> bool {
    match &row.said {
        Said::Reply(replied) => match contexts(alloc, replied.context) {
            Some(list) => spells_reply(alloc, row.order, replied, list.as_slice(), row.bytes),
            None => false,
        },
        _ => false,
    }
}

fn all_lent(alloc: Global, rows: &[Row]) -> bool {
    for row in rows {
        if !is_lent(alloc, row) {
            return false;
        }
    }
    true
}

/// With a context, and without a body.
const LENT: &[Row] = &[
    Row {
        order: Order::Little,
        bytes: b"GIOP\x01\x02\x01\x01\x1f\0\0\0\x04\x03\x02\x01\x02\0\0\0\x01\0\0\0\x0a\0\0\0\x04\0\0\0\0\0\0d\0\0\0\0abc",
        said: Said::Reply(Replied {
            id: 0x0102_0304,
            status: 2,
            context: Some((10, &[0, 0, 0, 100])),
            body: b"abc",
        }),
    },
    Row {
        order: Order::Big,
        bytes: b"GIOP\x01\x02\0\x01\0\0\0\x0c\0\0\0\x05\0\0\0\x01\0\0\0\0",
        said: Said::Reply(Replied {
            id: 5,
            status: 1,
            context: None,
            body: b"",
        }),
    },
];

#[test]
fn writes_replies_of_borrowed_parts(rt: HostRuntime) {
    assert!(rt; all_lent(rt.alloc(), REPLIES) && all_lent(rt.alloc(), LENT));
}

#[test]
fn starts_a_header(rt: HostRuntime) {
    assert!(rt; header_start(Order::Big, 0) == *b"GIOP\x01\x02\0\0");
    assert!(rt; header_start(Order::Little, 7) == *b"GIOP\x01\x02\x01\x07");
}

/// An operation of `ping`, how many octets the data of its contexts have, how many its body has, and its request's length.
type Sizes = (&'static [u8], &'static [usize], usize, usize);

const SIZES: &[Sizes] = &[
    (b"current", &[], 0, 48),
    (b"current", &[], 8, 56),
    (b"current", &[4], 0, 60),
    (b"current", &[4], 1, 65),
    (b"_bind_priority_band", &[6], 0, 74),
    (b"_bind_priority_band", &[6], 1, 81),
    (b"current", &[5, 4], 0, 76),
    (b"current", &[], 262_096, 262_144),
    (b"current", &[], 18446744073709551615, 18446744073709551615),
];

fn all_are_that_long(rows: &[Sizes]) -> bool {
    for (operation, contexts, body, want) in rows {
        if request_len(b"ping", operation, contexts, *body) != *want {
            return false;
        }
    }
    true
}

#[test]
fn a_requests_length_follows_from_the_lengths_of_its_parts(rt: HostRuntime) {
    assert!(rt; all_are_that_long(SIZES));
}
