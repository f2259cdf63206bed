//! Messages, as they are read from what a framer gives.
ghost use Rattle.std.specs.Prelude.{IfOk};
ghost use Rattle.std.specs.List.{All};
ghost use Rattle.giop_messages.specs.Message as Spec;
ghost use Rattle.giop_messages.specs.MessageReading.{IsMessage};
ghost use Rattle.giop_messages.specs.Views.{message_of};

use super::rows::*;
use super::vectors::*;
use super::write_tests::spells;
use cdr_core::Reader;
use giop_frames::{Framer, Whole};
use giop_messages::*;
use orb_base::limits::MAX_MESSAGE;
use orb_base::{List, Order};
use std::alloc::Global;
use std::test::*;

/// The messages of a stream.
fn framed(alloc: Global, bytes: &[u8]) -> Result<List<Whole>, MessageFault>
    ensures { IfOk result (λ l. All IsMessage l.items) }
{
    let mut whole = List::new(alloc);
    let mut framer = match Framer::new(alloc, MAX_MESSAGE) {
        Ok(framer) => framer,
        Err(_) => return Err(MessageFault::NoMemory),
    };
    match framer.feed(bytes, &mut whole) {
        Ok(()) => Ok(whole),
        Err(_) => Err(MessageFault::NoMemory),
    }
}

/// The first message of a stream.
#[tactic(auto, using(giop_messages::proofs::CallerLemmas::read_has_status))]
pub(crate) fn read(alloc: Global, bytes: &[u8]) -> Result<Message, MessageFault>
    ensures { IfOk result (λ m. Spec.HasStatus (message_of m)) }
{
    let whole = framed(alloc, bytes)?;
    match whole.get(0) {
        Some(first) => read_message(alloc, first),
        None => Err(MessageFault::NoMemory),
    }
}

/// The first context, if there is one.
fn context_told(contexts: &List<Context>) -> Option<(u32, &[u8])> {
    match contexts.get(0) {
        Some(context) => Some((context.id, context.bytes.as_slice())),
        None => None,
    }
}

fn is_request(request: &Request, asked: &Asked) -> bool {
    let has_key = match &request.target {
        Target::Key(key) => key.as_slice() == asked.key,
        _ => false,
    };
    has_key
        && (request.id, request.flags) == (asked.id, 3)
        && request.operation.as_slice() == asked.operation
        && context_told(&request.contexts) == asked.context
        && request.body.as_slice() == asked.body
}

fn is_reply(reply: &Reply, replied: &Replied) -> bool {
    (reply.id, reply.status) == (replied.id, replied.status)
        && context_told(&reply.contexts) == replied.context
        && reply.body.as_slice() == replied.body
}

fn are_profiles(profiles: &List<Tagged>, items: &[Item]) -> bool {
    if profiles.len() != items.len() {
        return false;
    }
    for (i, item) in items.iter().enumerate() {
        match profiles.get(i) {
            Some(profile) => {
                if (profile.tag, profile.bytes.as_slice()) != *item {
                    return false;
                }
            }
            None => return false,
        }
    }
    true
}

fn is_target(target: &Target, aim: &Aim) -> bool {
    match (target, aim) {
        (Target::Key(key), Aim::Key(bytes)) => key.as_slice() == *bytes,
        (Target::Profile(tagged), Aim::Profile(item)) => {
            (tagged.tag, tagged.bytes.as_slice()) == *item
        }
        (
            Target::Addressing {
                index,
                type_id,
                profiles,
            },
            Aim::Reference(reference),
        ) => {
            *index == reference.index
                && type_id.as_slice() == reference.type_id
                && are_profiles(profiles, reference.profiles)
        }
        _ => false,
    }
}

/// Whether the message has these parts.
fn has_parts(message: &Message, said: &Said) -> bool {
    match said {
        Said::Request(asked) => {
            matches!(message, Message::Request(request) if is_request(request, asked))
        }
        Said::Reply(replied) =>
            matches!(message, Message::Reply(reply) if is_reply(reply, replied)),
        Said::Cancel(id) => matches!(message, Message::Cancel(cancelled) if cancelled == id),
        Said::Locate(id, aim) => {
            matches!(message, Message::Locate(locate) if locate.id == *id && is_target(&locate.target, aim))
        }
        Said::Located(answer) => matches!(message, Message::Located(located) if located == answer),
        Said::Close => matches!(message, Message::Close),
        Said::Error => matches!(message, Message::Error),
    }
}

/// Whether the bytes are read as a message of these parts.
fn is_read(alloc: Global, row: &Row) -> bool {
    match read(alloc, row.bytes) {
        Ok(message) => has_parts(&message, &row.said),
        Err(_) => false,
    }
}

fn all_read(alloc: Global, rows: &[Row]) -> bool {
    for row in rows {
        if !is_read(alloc, row) {
            return false;
        }
    }
    true
}

#[test]
fn reads_requests_with_priorities_in_either_order(rt: HostRuntime) {
    assert!(rt; all_read(rt.alloc(), REQUESTS));
}

#[test]
fn reads_replies(rt: HostRuntime) {
    assert!(rt; all_read(rt.alloc(), REPLIES));
}

#[test]
fn reads_each_form_of_target_and_the_profiles_of_a_reference(rt: HostRuntime) {
    assert!(rt; all_read(rt.alloc(), TARGETS));
}

#[test]
fn reads_short_kinds(rt: HostRuntime) {
    assert!(rt; all_read(rt.alloc(), SHORT));
}

/// Reserved flag bits, reserved octets and a pad; two bytes of a pad after the contexts, and no body; the pad, and a
/// body of one byte.
const ANY_PADS: &[Row] = &[
    Row {
        order: Order::Big,
        bytes: RESERVED_PLACES,
        said: Said::Request(Asked {
            id: 1,
            key: b"ping",
            operation: b"current",
            context: None,
            body: b"",
        }),
    },
    Row {
        order: Order::Big,
        bytes: PAD_ALONE,
        said: Said::Request(Asked {
            id: 1,
            key: b"hello",
            operation: b"current",
            context: None,
            body: b"",
        }),
    },
    Row {
        order: Order::Big,
        bytes: PAD_AND_BODY,
        said: Said::Request(Asked {
            id: 1,
            key: b"hello",
            operation: b"current",
            context: None,
            body: b"\x09",
        }),
    },
];

#[test]
fn reads_requests_whatever_stands_in_pads_and_reserved_places(rt: HostRuntime) {
    assert!(rt; all_read(rt.alloc(), ANY_PADS));
}

/// OBJECT_NOT_EXIST and TRANSIENT.
const EXCEPTIONS: &[Row] = &[
    Row {
        order: Order::Big,
        bytes: OBJECT_NOT_EXIST_REPLY,
        said: Said::Reply(Replied {
            id: 1,
            status: 2,
            context: None,
            body: b"\0\0\0\x27IDL:omg.org/CORBA/OBJECT_NOT_EXIST:1.0\0\0\0\0\0\x01\0\0\0\x01",
        }),
    },
    Row {
        order: Order::Big,
        bytes: TRANSIENT_REPLY,
        said: Said::Reply(Replied {
            id: 3,
            status: 2,
            context: None,
            body: b"\0\0\0\x20IDL:omg.org/CORBA/TRANSIENT:1.0\0\0\0\0\x01\0\0\0\x01",
        }),
    },
];

#[test]
fn reads_replies_of_exceptions(rt: HostRuntime) {
    assert!(rt; all_read(rt.alloc(), EXCEPTIONS));
}

/// An answer of any status and a CancelRequest, each with bytes after it.
const BEHIND: &[Row] = &[
    Row {
        order: Order::Big,
        bytes: b"GIOP\x01\x02\0\x04\0\0\0\x09\0\0\0\x05\0\0\0\x09\x01",
        said: Said::Located(Located { id: 5, status: 9 }),
    },
    Row {
        order: Order::Little,
        bytes: b"GIOP\x01\x02\x01\x02\x05\0\0\0\x07\0\0\0\x01",
        said: Said::Cancel(7),
    },
];

#[test]
fn ignores_what_stands_behind_short_kinds(rt: HostRuntime) {
    assert!(rt; all_read(rt.alloc(), BEHIND));
}

/// Whether a message is a request of this number.
fn is_request_of(alloc: Global, whole: &Whole, id: u32) -> bool
    requires { IsMessage whole.now }
{
    match read_message(alloc, whole) {
        Ok(message) => matches!(&message, Message::Request(request) if request.id == id),
        Err(_) => false,
    }
}

/// Whether the stream has two requests, of these numbers.
fn has_requests(alloc: Global, bytes: &[u8], first: u32, second: u32) -> bool {
    match framed(alloc, bytes) {
        Ok(whole) => match whole.as_slice() {
            [one, other] => {
                is_request_of(alloc, one, first) && is_request_of(alloc, other, second)
            }
            _ => false,
        },
        Err(_) => false,
    }
}

#[test]
fn reads_what_was_joined_from_fragments(rt: HostRuntime) {
    assert!(rt; has_requests(rt.alloc(), INTERLEAVED_FRAGMENTS, 2, 1));
}

/// Messages with their order.
const WRITTEN_BACK: &[(Order, &[u8])] = &[
    (Order::Little, LITTLE_ENDIAN_PING),
    (Order::Big, NO_LANE_REPLY),
    (Order::Big, TWICE_REQUEST),
    (Order::Big, LOCATE_BY_REFERENCE),
    (Order::Little, LITTLE_ENDIAN_LOCATE),
];

/// Whether the bytes are read as a message that is written as these bytes.
fn is_written_back(alloc: Global, order: Order, bytes: &[u8]) -> bool {
    match read(alloc, bytes) {
        Ok(message) => spells(alloc, order, &message, bytes),
        Err(_) => false,
    }
}

fn all_written_back(alloc: Global, rows: &[(Order, &[u8])]) -> bool {
    for (order, bytes) in rows {
        if !is_written_back(alloc, *order, bytes) {
            return false;
        }
    }
    true
}

#[test]
fn writes_back_what_was_read(rt: HostRuntime) {
    assert!(rt; all_written_back(rt.alloc(), WRITTEN_BACK));
}

/// The first item of the list that a reader is at, if there is one.
fn first_item<'a>(list: &Reader<'a>) -> Option<(u32, &'a [u8])> {
    let mut reader = list.copy();
    let count = reader.take_count().ok()?;
    if count == 0 {
        return None;
    }
    reader.take_item().ok()
}

/// Whether a reader is at a list of these items.
fn are_listed(list: &Reader<'_>, items: &[Item]) -> bool {
    let mut reader = list.copy();
    match reader.take_count() {
        Ok(count) => {
            if count as usize != items.len() {
                return false;
            }
        }
        Err(_) => return false,
    }
    for item in items {
        match reader.take_item() {
            Ok(read) => {
                if read != *item {
                    return false;
                }
            }
            Err(_) => return false,
        }
    }
    true
}

fn has_key(target: &PartTarget<'_>, wanted: &[u8]) -> bool {
    match target {
        PartTarget::Key(key) => *key == wanted,
        _ => false,
    }
}

fn is_aimed_at(target: &PartTarget<'_>, aim: &Aim) -> bool {
    match (target, aim) {
        (PartTarget::Key(key), Aim::Key(bytes)) => *key == *bytes,
        (PartTarget::Profile { tag, bytes }, Aim::Profile(item)) => (*tag, *bytes) == *item,
        (
            PartTarget::Addressing {
                index,
                type_id,
                profiles,
            },
            Aim::Reference(reference),
        ) => {
            *index == reference.index
                && *type_id == reference.type_id
                && are_listed(profiles, reference.profiles)
        }
        _ => false,
    }
}

/// Whether the parts are these.
fn are_said(parts: &Parts<'_>, said: &Said) -> bool {
    match (parts, said) {
        (
            Parts::Request {
                id,
                flags,
                target,
                operation,
                contexts,
                body,
            },
            Said::Request(asked),
        ) => {
            has_key(target, asked.key)
                && (*id, *flags) == (asked.id, 3)
                && *operation == asked.operation
                && first_item(contexts) == asked.context
                && *body == asked.body
        }
        (
            Parts::Reply {
                id,
                status,
                contexts,
                body,
            },
            Said::Reply(replied),
        ) => {
            (*id, *status) == (replied.id, replied.status)
                && first_item(contexts) == replied.context
                && *body == replied.body
        }
        (Parts::Cancel(id), Said::Cancel(cancelled)) => id == cancelled,
        (Parts::Locate { id, target }, Said::Locate(asked, aim)) => {
            id == asked && is_aimed_at(target, aim)
        }
        (Parts::Located { id, status }, Said::Located(answer)) => {
            (*id, *status) == (answer.id, answer.status)
        }
        (Parts::Close, Said::Close) => true,
        (Parts::Error, Said::Error) => true,
        _ => false,
    }
}

/// Whether a message is read in these parts.
fn is_in_parts(whole: &Whole, said: &Said) -> bool
    requires { IsMessage whole.now }
{
    match read_parts(whole) {
        Ok(parts) => are_said(&parts, said),
        Err(_) => false,
    }
}

/// Whether the bytes are one message of these parts.
fn is_read_in_parts(alloc: Global, row: &Row) -> bool {
    match framed(alloc, row.bytes) {
        Ok(whole) => match whole.as_slice() {
            [first] => is_in_parts(first, &row.said),
            _ => false,
        },
        Err(_) => false,
    }
}

fn all_read_in_parts(alloc: Global, rows: &[Row]) -> bool {
    for row in rows {
        if !is_read_in_parts(alloc, row) {
            return false;
        }
    }
    true
}

#[test]
fn reads_parts_where_they_lie(rt: HostRuntime) {
    assert!(rt; all_read_in_parts(rt.alloc(), REQUESTS) && all_read_in_parts(rt.alloc(), REPLIES));
    assert!(rt; all_read_in_parts(rt.alloc(), TARGETS) && all_read_in_parts(rt.alloc(), SHORT));
    assert!(rt; all_read_in_parts(rt.alloc(), ANY_PADS) && all_read_in_parts(rt.alloc(), BEHIND));
}
