//! Links in memory over which several callers run.

use crate::calls::calls_of;
use crate::devices::{After, Telling, Waiting};
use client_mux::Why;
use giop_frames::FrameCause;
use giop_messages::Fault;
use mux_runs::{MuxRun, mux_run};
use mux_sides::{CallEnd, WriterEnd};
use orb_base::{List, MemSink};
use std::alloc::Global;
use std::sync::Wait;
use std::sync::atomic::AtomicU64;
use std::thread::Threads;

/// The replies of id 0 to 3 and of id 9, each with the octet of its id as its body, of 25 bytes: CORBA 3.0.3, section 15.4.3.
const REPLY_0: &[u8] = b"GIOP\x01\x02\0\x01\0\0\0\x0d\0\0\0\0\0\0\0\0\0\0\0\0\0";

const REPLY_1: &[u8] = b"GIOP\x01\x02\0\x01\0\0\0\x0d\0\0\0\x01\0\0\0\0\0\0\0\0\x01";

const REPLY_2: &[u8] = b"GIOP\x01\x02\0\x01\0\0\0\x0d\0\0\0\x02\0\0\0\0\0\0\0\0\x02";

const REPLY_3: &[u8] = b"GIOP\x01\x02\0\x01\0\0\0\x0d\0\0\0\x03\0\0\0\0\0\0\0\0\x03";

const REPLY_9: &[u8] = b"GIOP\x01\x02\0\x01\0\0\0\x0d\0\0\0\x09\0\0\0\0\0\0\0\0\x09";

/// The reply of id 1 in two pieces.
const FRONT_1: &[u8] = b"GIOP\x01\x02\0\x01\0\0\0\x0d\0\0";

const REST_1: &[u8] = b"\0\x01\0\0\0\0\0\0\0\0\x01";

/// CloseConnection: CORBA 3.0.3, section 15.4.7.
const CLOSE: &[u8] = b"GIOP\x01\x02\0\x05\0\0\0\0";

/// 24 bytes of noise.
const NOISE: &[u8] = b"abcdefghijklmnopqrstuvwx";

/// A link: how many callers there are and whether they await replies; what is read once so many messages were written, and after it;
/// which writes fail; and how all come out: how many callers get a reply, why the others get none, how the writer and the reader come
/// out, and how many bytes the sink holds, where that is known.
struct Row {
    callers: usize,
    due: bool,
    least: u64,
    pieces: &'static [&'static [u8]],
    after: After,
    failing: &'static [u64],
    replies: usize,
    gone: Option<Why>,
    write: WriterEnd,
    why: Why,
    held: Option<usize>,
}

/// The next count.
fn next(count: usize) -> usize {
    count.saturating_add(1)
}

/// Whether a count is the one that is known, if one is.
fn is_known(known: Option<usize>, count: usize) -> bool {
    match known {
        Some(bytes) => bytes == count,
        None => true,
    }
}

/// How many callers got a reply, each with the octet of its id as its body, and why the others got none; None where two causes differ or
/// a reply is another one's.
fn told(ends: &[CallEnd]) -> Option<(usize, Option<Why>)> {
    let mut replies = 0;
    let mut gone = None;
    let mut ids: u64 = 0;
    for end in ends {
        match end {
            CallEnd::Reply(reply) => {
                let reply = &reply.get().reply;
                let body = reply.body.as_slice();
                if body.len() != 1 || u32::from(body[0]) != reply.id || reply.id > 9 {
                    return None;
                }
                let mark = 1u64 << reply.id;
                if ids & mark != 0 {
                    return None;
                }
                ids |= mark;
                replies = next(replies);
            }
            CallEnd::Gone(why) => match gone {
                None => gone = Some(*why),
                Some(other) => {
                    if other != *why {
                        return None;
                    }
                }
            },
            CallEnd::NoneDue => {}
        }
    }
    Some((replies, gone))
}

/// Whether a run came out as its row says.
fn comes_out(run: &MuxRun<Waiting<'_>, Telling<'_>>, row: &Row) -> bool {
    let held = run.sink.held.held().len();
    told(run.ends.as_slice()) == Some((row.replies, row.gone))
        && run.ends.len() == row.callers
        && run.write == row.write
        && run.why == row.why
        && run.sink.held.closes == 1
        && is_known(row.held, held)
}

/// Runs the callers of a row over its link.
fn runs<R: Wait + Threads + Sync>(rt: &R, alloc: Global, row: &Row) -> bool {
    let Some(calls) = calls_of(alloc, row.callers, row.due) else {
        return false;
    };
    if calls.is_empty() || calls.len() > 16 {
        return false;
    }
    let Ok(failing) = Vec::from_slice(alloc, row.failing) else {
        return false;
    };
    let written = AtomicU64::new(0);
    let closed = AtomicU64::new(0);
    let source = Waiting {
        pieces: row.pieces,
        given: 0,
        written: &written,
        least: row.least,
        closed: &closed,
        after: row.after,
        faults: 0,
        ends: 0,
    };
    let sink = Telling {
        held: MemSink::new(alloc, List::new(alloc), List::from_vec(failing)),
        written: &written,
        closed: &closed,
    };
    match mux_run(rt, alloc, source, sink, calls) {
        Ok(run) => comes_out(&run, row),
        Err(_) => false,
    }
}

/// Three requests of 48 bytes; a body that works the callers off one after another never writes the second.
const OUT_OF_ORDER: Row = Row {
    callers: 3,
    due: true,
    least: 3,
    pieces: &[REPLY_3, REPLY_2, REPLY_1],
    after: After::End,
    failing: &[],
    replies: 3,
    gone: None,
    write: WriterEnd::Finished,
    why: Why::Closed,
    held: Some(144),
};

const ENDS_AT_ONCE: Row = Row {
    callers: 3,
    due: true,
    least: 0,
    pieces: &[],
    after: After::End,
    failing: &[],
    replies: 0,
    gone: Some(Why::Closed),
    write: WriterEnd::Finished,
    why: Why::Closed,
    held: None,
};

const SECOND_WRITE_FAILS: Row = Row {
    callers: 3,
    due: true,
    least: 0,
    pieces: &[],
    after: After::EndOnceClosed,
    failing: &[1],
    replies: 0,
    gone: Some(Why::WriteFault),
    write: WriterEnd::WriteFault,
    why: Why::Closed,
    held: Some(48),
};

const READ_FAILS: Row = Row {
    callers: 2,
    due: true,
    least: 2,
    pieces: &[REPLY_1],
    after: After::Fails,
    failing: &[],
    replies: 1,
    gone: Some(Why::ReadFault),
    write: WriterEnd::Finished,
    why: Why::ReadFault,
    held: Some(96),
};

const STRAY: Row = Row {
    callers: 2,
    due: true,
    least: 2,
    pieces: &[REPLY_0, REPLY_9, REPLY_1, REPLY_1, REPLY_2],
    after: After::End,
    failing: &[],
    replies: 2,
    gone: None,
    write: WriterEnd::Finished,
    why: Why::Closed,
    held: Some(96),
};

const IN_PIECES: Row = Row {
    callers: 2,
    due: true,
    least: 2,
    pieces: &[FRONT_1, REST_1, REPLY_2],
    after: After::End,
    failing: &[],
    replies: 2,
    gone: None,
    write: WriterEnd::Finished,
    why: Why::Closed,
    held: Some(96),
};

const ALL_NOISE: Row = Row {
    callers: 2,
    due: true,
    least: 2,
    pieces: &[NOISE],
    after: After::End,
    failing: &[],
    replies: 0,
    gone: Some(Why::Refused {
        offset: 0,
        fault: Fault::Frame(FrameCause::BadMagic),
    }),
    write: WriterEnd::Finished,
    why: Why::Refused {
        offset: 0,
        fault: Fault::Frame(FrameCause::BadMagic),
    },
    held: Some(96),
};

const CLOSED_BETWEEN: Row = Row {
    callers: 2,
    due: true,
    least: 2,
    pieces: &[REPLY_1, CLOSE, REPLY_2],
    after: After::End,
    failing: &[],
    replies: 1,
    gone: Some(Why::Closed),
    write: WriterEnd::Finished,
    why: Why::Closed,
    held: Some(96),
};

const CUT: Row = Row {
    callers: 1,
    due: true,
    least: 1,
    pieces: &[FRONT_1],
    after: After::End,
    failing: &[],
    replies: 0,
    gone: Some(Why::Closed),
    write: WriterEnd::Finished,
    why: Why::Closed,
    held: Some(48),
};

const ONEWAY: Row = Row {
    callers: 2,
    due: false,
    least: 0,
    pieces: &[],
    after: After::EndOnceClosed,
    failing: &[],
    replies: 0,
    gone: None,
    write: WriterEnd::Finished,
    why: Why::Closed,
    held: Some(96),
};

#[test]
fn callers_get_their_own_replies(rt: HostRuntime) {
    let alloc = rt.alloc();
    assert!(rt; runs(&rt, alloc, &OUT_OF_ORDER));
    assert!(rt; runs(&rt, alloc, &STRAY));
    assert!(rt; runs(&rt, alloc, &IN_PIECES));
    assert!(rt; runs(&rt, alloc, &ONEWAY));
}

#[test]
fn callers_are_answered_why_the_link_is_lost(rt: HostRuntime) {
    let alloc = rt.alloc();
    assert!(rt; runs(&rt, alloc, &ENDS_AT_ONCE));
    assert!(rt; runs(&rt, alloc, &SECOND_WRITE_FAILS));
    assert!(rt; runs(&rt, alloc, &READ_FAILS));
    assert!(rt; runs(&rt, alloc, &ALL_NOISE));
    assert!(rt; runs(&rt, alloc, &CLOSED_BETWEEN));
    assert!(rt; runs(&rt, alloc, &CUT));
}
