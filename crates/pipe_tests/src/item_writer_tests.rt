//! The messages of items, byte by byte: CORBA 3.0.3, section 15.4.

ghost use Rattle.std.specs.Prelude.{IsTrue};
ghost use Rattle.pipe_laws.specs.Said.{HandsShort};

use lane_driver::write_said;
use lane_machine::LaneReply;
use orb_base::limits::MAX_BODY;
use orb_base::{
    Answer, Arc, Completed, ConnId, Due, Item, Job, List, MemSink, Notice, Order, Outcome,
    Priority, SharedOctets, Sys, SysName, Text, What,
};
use std::alloc::Global;
use text_streams::WriteAll;

const CONN: ConnId = ConnId { slot: 0, nth: 0 };

/// What a connection is owed for its request of id 7, or what ends it.
#[derive(Clone, Copy)]
enum Owed {
    Returned(Order, &'static [u8]),
    User(Order, &'static [u8]),
    System(Order, Sys),
    Early(Order),
    Transient(Order),
    Noticed(Order, What),
    Close,
    Error,
    Done,
}

/// The request.
fn job(alloc: Global, order: Order) -> Option<Arc<Job>> {
    let priority = Priority::new(1)?;
    let operation = Text::new(alloc, b"f").ok()?;
    let job = Job {
        conn: CONN,
        serial: 0,
        id: 7,
        order,
        due: Due::Late,
        priority,
        lane: 0,
        size: 48,
        target: 0,
        operation,
        body: List::new(alloc),
    };
    match Arc::new(alloc, job) {
        Ok(job) => Some(job),
        Err(_) => None,
    }
}

fn answered(alloc: Global, order: Order, outcome: Outcome) -> Option<LaneReply> {
    match job(alloc, order) {
        Some(job) => Some(LaneReply::Handed(Item::Answered(Answer { job, outcome }))),
        None => None,
    }
}

fn shared(alloc: Global, bytes: Vec<u8>) -> Option<SharedOctets> {
    match SharedOctets::new(alloc, List::from_vec(bytes)) {
        Ok(body) => Some(body),
        Err(_) => None,
    }
}

fn octets(alloc: Global, bytes: &[u8]) -> Option<SharedOctets> {
    match Vec::from_slice(alloc, bytes) {
        Ok(bytes) => shared(alloc, bytes),
        Err(_) => None,
    }
}

fn returned(alloc: Global, order: Order, body: SharedOctets) -> Option<LaneReply> {
    answered(alloc, order, Outcome::Returned(body))
}

fn handed(item: Item) -> LaneReply {
    LaneReply::Handed(item)
}

fn noticed(order: Order, what: What) -> LaneReply {
    handed(Item::Noticed(Notice {
        conn: CONN,
        order,
        id: 7,
        what,
    }))
}

/// The answer of Collect.
fn reply_of(alloc: Global, owed: Owed) -> Option<LaneReply> {
    match owed {
        Owed::Returned(order, body) => returned(alloc, order, octets(alloc, body)?),
        Owed::User(order, body) => answered(alloc, order, Outcome::User(octets(alloc, body)?)),
        Owed::System(order, sys) => answered(alloc, order, Outcome::System(sys)),
        Owed::Early(order) => Some(handed(Item::Early(job(alloc, order)?))),
        Owed::Transient(order) => Some(handed(Item::Transient(job(alloc, order)?))),
        Owed::Noticed(order, what) => Some(noticed(order, what)),
        Owed::Close => Some(LaneReply::Close),
        Owed::Error => Some(LaneReply::Error),
        Owed::Done => Some(LaneReply::Done),
    }
}

/// Whether the body is no longer than an answer's may be.
fn is_short(reply: &LaneReply) -> bool
    ensures { IsTrue result → HandsShort reply.now }
{
    match reply {
        LaneReply::Handed(Item::Answered(answer)) => match &answer.outcome {
            Outcome::Returned(body) => body.as_slice().len() <= MAX_BODY,
            Outcome::User(body) => body.as_slice().len() <= MAX_BODY,
            Outcome::System(_) => true,
        },
        _ => true,
    }
}

/// Whether an answer of Collect is written whole, or else isn't.
fn comes_out(sink: &mut MemSink, reply: &LaneReply, whole: bool) -> bool {
    is_short(reply) && (write_said(sink, reply) == WriteAll::Whole) == whole
}

/// A sink whose write of this number fails.
fn failing_at(alloc: Global, number: u64) -> Option<MemSink> {
    let mut failing = List::new(alloc);
    match failing.push(number) {
        Ok(()) => Some(MemSink::new(alloc, List::new(alloc), failing)),
        Err(_) => None,
    }
}

/// Whether these bytes are written for an answer of Collect.
fn writes(sink: MemSink, reply: &LaneReply, want: &[u8]) -> bool {
    let mut sink = sink;
    comes_out(&mut sink, reply, true) && sink.held() == want
}

fn holds(alloc: Global, owed: Owed, want: &[u8]) -> bool {
    match reply_of(alloc, owed) {
        Some(reply) => {
            let sink = MemSink::new(alloc, List::new(alloc), List::new(alloc));
            writes(sink, &reply, want)
        }
        None => false,
    }
}

/// Whether these bytes are written for what is owed.
fn all_hold(alloc: Global, rows: &[(Owed, &[u8])]) -> bool {
    for (owed, want) in rows {
        if !holds(alloc, *owed, *want) {
            return false;
        }
    }
    true
}

const BAD: Sys = Sys {
    name: SysName::BadOperation,
    minor: 1,
    completed: Completed::No,
};

/// The messages of a finished request: its result, a user exception and a system exception.
const OUTCOMES: &[(Owed, &[u8])] = &[
    (
        Owed::Returned(Order::Big, &[0, 100]),
        b"GIOP\x01\x02\0\x01\0\0\0\x0e\0\0\0\x07\0\0\0\0\0\0\0\0\0\x64",
    ),
    (
        Owed::User(Order::Little, b"x"),
        b"GIOP\x01\x02\x01\x01\x0d\0\0\0\x07\0\0\0\x01\0\0\0\0\0\0\0x",
    ),
    (
        Owed::System(Order::Big, BAD),
        b"GIOP\x01\x02\0\x01\0\0\0\x3c\0\0\0\x07\0\0\0\x02\0\0\0\0\0\0\0\x24IDL:omg.org/CORBA/BAD_OPERATION:1.0\0\0\0\0\x01\0\0\0\x01",
    ),
];

#[test]
fn outcomes_are_replies(rt: HostRuntime) {
    assert!(rt; all_hold(rt.alloc(), OUTCOMES));
}

/// What else is handed over, and what ends a connection.
const OTHERS: &[(Owed, &[u8])] = &[
    (
        Owed::Early(Order::Little),
        b"GIOP\x01\x02\x01\x01\x0c\0\0\0\x07\0\0\0\0\0\0\0\0\0\0\0",
    ),
    (
        Owed::Transient(Order::Big),
        b"GIOP\x01\x02\0\x01\0\0\0\x38\0\0\0\x07\0\0\0\x02\0\0\0\0\0\0\0\x20IDL:omg.org/CORBA/TRANSIENT:1.0\0\0\0\0\x01\0\0\0\x01",
    ),
    (
        Owed::Noticed(Order::Big, What::Bound),
        b"GIOP\x01\x02\0\x01\0\0\0\x0c\0\0\0\x07\0\0\0\0\0\0\0\0",
    ),
    (
        Owed::Noticed(Order::Big, What::Located(true)),
        b"GIOP\x01\x02\0\x04\0\0\0\x08\0\0\0\x07\0\0\0\x01",
    ),
    (
        Owed::Noticed(Order::Big, What::Located(false)),
        b"GIOP\x01\x02\0\x04\0\0\0\x08\0\0\0\x07\0\0\0\0",
    ),
    (
        Owed::Noticed(Order::Big, What::Addressing),
        b"GIOP\x01\x02\0\x01\0\0\0\x0e\0\0\0\x07\0\0\0\x05\0\0\0\0\0\0",
    ),
    (Owed::Close, b"GIOP\x01\x02\0\x05\0\0\0\0"),
    (Owed::Error, b"GIOP\x01\x02\0\x06\0\0\0\0"),
];

/// Whether nothing is written where nothing is owed: the first write fails, and isn't made.
fn done_writes_nothing(alloc: Global) -> bool {
    match failing_at(alloc, 0) {
        Some(sink) => writes(sink, &LaneReply::Done, b""),
        None => false,
    }
}

#[test]
fn other_answers_are_their_messages(rt: HostRuntime) {
    assert!(rt; all_hold(rt.alloc(), OTHERS));
    assert!(rt; done_writes_nothing(rt.alloc()));
}

/// The bytes of a body, whether its reply is whole where the second write fails, and the bytes that are written then: 4,096 are
/// the head of 24 bytes and 4,072 of the body.
const WRITES: [(usize, bool, usize); 5] = [
    (0, true, 24),
    (104, true, 128),
    (105, true, 129),
    (4072, true, 4096),
    (4073, false, 4096),
];

/// A reply with a body of so many bytes.
fn long(alloc: Global, len: usize) -> Option<LaneReply> {
    match vec![in alloc; 7u8; len] {
        Ok(body) => returned(alloc, Order::Big, shared(alloc, body)?),
        Err(_) => None,
    }
}

/// Whether the reply is written whole, or else isn't, and so many bytes of it are.
fn takes(alloc: Global, reply: &LaneReply, whole: bool, bytes: usize) -> bool {
    match failing_at(alloc, 1) {
        Some(mut sink) => comes_out(&mut sink, reply, whole) && sink.held().len() == bytes,
        None => false,
    }
}

fn is_written(alloc: Global, len: usize, whole: bool, bytes: usize) -> bool {
    match long(alloc, len) {
        Some(reply) => takes(alloc, &reply, whole, bytes),
        None => false,
    }
}

fn all_are_written(alloc: Global) -> bool {
    for (len, whole, bytes) in WRITES {
        if !is_written(alloc, len, whole, bytes) {
            return false;
        }
    }
    true
}

/// A reply of up to 4,096 bytes is one write: the second one fails, and isn't made. Of a longer one the rest is a second write.
#[test]
fn a_short_reply_is_one_write(rt: HostRuntime) {
    assert!(rt; all_are_written(rt.alloc()));
}
