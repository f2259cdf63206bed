//! Streams in memory, in pieces of every length: what is written, and how the run comes out.

use crate::samples::{Quick, is_joined, join, numbers};
use adapter_policies::{Setup, read_setup};
use conn_engine::*;
use giop_frames::FrameCause;
use giop_messages::Fault;
use heard_calls::Ending;
use lane_driver::Log;
use lane_machine::LaneCall;
use orb_base::{ConnId, Got, List, MemSink, MemSource, Octets, Source};
use std::alloc::Global;
use std::test::Fail;

/// One thread with a buffer of three requests, and `ping` under CLIENT_PROPAGATED.
const PLAIN: &[u8] =
    b"pool = { static = 1, dynamic = 0, default_priority = 10, buffering = true, max_buffered_requests = 3, max_request_buffer_size = 200 }\nadapter = [{ name = \"prop\", model = \"CLIENT_PROPAGATED\", priority = 10 }]\nobject = [{ key = \"ping\", adapter = \"prop\", interface = \"i\" }]\n";

/// The same in a run that hears one call.
const ONE_CALL: &[u8] =
    b"server = { max_calls = 1 }\npool = { static = 1, dynamic = 0, default_priority = 10 }\nadapter = [{ name = \"prop\", model = \"CLIENT_PROPAGATED\", priority = 10 }]\nobject = [{ key = \"ping\", adapter = \"prop\", interface = \"i\" }]\n";

/// The first piece of a request of id 1, of 24 bytes: CORBA 3.0.3, section 15.4.9.
const FIRST: &[u8] = b"GIOP\x01\x02\x02\0\0\0\0\x0c\0\0\0\x01\x03\0\0\0\0\0\0\0";

/// A request of id 2 for `current` of `ping`, of 48 bytes.
const BETWEEN: &[u8] =
    b"GIOP\x01\x02\0\0\0\0\0\x24\0\0\0\x02\x03\0\0\0\0\0\0\0\0\0\0\x04ping\0\0\0\x08current\0\0\0\0\0";

/// Two fragments of the request of id 1, for `current` of `ping`, of 32 and 24 bytes.
const SECOND: &[u8] = b"GIOP\x01\x02\x02\x07\0\0\0\x14\0\0\0\x01\0\0\0\x04ping\0\0\0\x08curr";

const LAST: &[u8] = b"GIOP\x01\x02\0\x07\0\0\0\x0c\0\0\0\x01ent\0\0\0\0\0";

/// Their replies: NO_EXCEPTION, without contexts and body.
const REPLY_1: &[u8] = b"GIOP\x01\x02\0\x01\0\0\0\x0c\0\0\0\x01\0\0\0\0\0\0\0\0";

const REPLY_2: &[u8] = b"GIOP\x01\x02\0\x01\0\0\0\x0c\0\0\0\x02\0\0\0\0\0\0\0\0";

/// A header with another magic.
const BROKEN: &[u8] = b"GIOX\x01\x02\0\0\0\0\0\0";

const CLOSE: &[u8] = b"GIOP\x01\x02\0\x05\0\0\0\0";

const ERROR: &[u8] = b"GIOP\x01\x02\0\x06\0\0\0\0";

/// A request of id 1 in three pieces, of which the others are around a request of id 2: 128 bytes. The second request is whole with
/// 72 of them.
const FRAGMENTED: &[&[u8]] = &[FIRST, BETWEEN, SECOND, LAST];

/// How the reads of a source are cut and fail, and which writes fail.
#[derive(Clone, Copy)]
struct Outside<'a> {
    /// Bytes of each read.
    cut: usize,
    reads: &'a [u64],
    writes: &'a [u64],
}

/// What comes of a stream: how the run comes out, what is written, and, where it is looked at, the number of the calls in the history, and
/// what one read more answers.
#[derive(Clone, Copy)]
struct Comes<'a> {
    end: StreamEnd,
    written: &'a [&'a [u8]],
    calls: Option<usize>,
    next: Option<Got>,
}

/// A source of bytes, of which each read gives so many, up to the last of them.
fn source_of(alloc: Global, bytes: &[u8], outside: &Outside<'_>) -> Option<MemSource> {
    let failing = numbers(alloc, outside.reads)?;
    let cuts = vec![in alloc; outside.cut; bytes.len()].ok()?;
    match Vec::from_slice(alloc, bytes) {
        Ok(bytes) => Some(MemSource::new(List::from_vec(bytes), List::from_vec(cuts), failing)),
        Err(_) => None,
    }
}

fn sink_of(alloc: Global, outside: &Outside<'_>) -> Option<MemSink> {
    match numbers(alloc, outside.writes) {
        Some(failing) => Some(MemSink::new(alloc, List::new(alloc), failing)),
        None => None,
    }
}

fn has_kept(log: Log, calls: usize) -> bool {
    match log.into_entries() {
        Some(history) => history.len() == calls,
        None => false,
    }
}

fn kept_so(log: Log, calls: Option<usize>) -> bool {
    match calls {
        Some(calls) => has_kept(log, calls),
        None => true,
    }
}

fn reads_so(source: &mut MemSource, next: Option<Got>) -> bool {
    let mut one = [0u8];
    match next {
        Some(got) => source.read(&mut one) == got,
        None => true,
    }
}

/// Whether this comes of a stream over a setup, in groups of two.
fn comes_out(
    alloc: Global,
    setup: &Setup,
    source: &mut MemSource,
    sink: &mut MemSink,
    want: &Comes<'_>,
) -> bool {
    let quick = Quick { alloc };
    let mut log = Log::kept(alloc);
    run_stream(alloc, setup, &quick, 2, &mut log, source, sink) == Ok(want.end)
        && is_joined(sink.held(), want.written)
        && reads_so(source, want.next)
        && kept_so(log, want.calls)
}

fn writes(
    alloc: Global,
    setup: &Setup,
    source: MemSource,
    outside: &Outside<'_>,
    want: &Comes<'_>,
) -> bool {
    let mut source = source;
    match sink_of(alloc, outside) {
        Some(mut sink) => comes_out(alloc, setup, &mut source, &mut sink, want),
        None => false,
    }
}

/// Whether this comes of these bytes.
fn runs(
    alloc: Global,
    setup: &Setup,
    bytes: &[u8],
    outside: &Outside<'_>,
    want: &Comes<'_>,
) -> bool {
    match source_of(alloc, bytes, outside) {
        Some(source) => writes(alloc, setup, source, outside, want),
        None => false,
    }
}

/// A setup of four slots of 32 connections each.
fn is_setup(setup: &Setup) -> bool {
    setup.slots() == 4 && setup.per_slot() == 32
}

/// What the first `n` bytes of the fragmented stream are answered with.
fn answers(n: usize) -> &'static [&'static [u8]] {
    match n {
        0..72 => &[],
        72..128 => &[REPLY_2],
        _ => &[REPLY_2, REPLY_1],
    }
}

/// The bytes of a read.
const CUTS: [usize; 3] = [1, 7, READ_LEN];

fn front_is_run(alloc: Global, setup: &Setup, front: &[u8]) -> bool {
    let n = front.len();
    let ending = if n == 0 || n == 128 {
        Ending::Ended
    } else {
        Ending::Cut(0)
    };
    let want = Comes {
        end: StreamEnd::Ended(ReadEnd::Ended(ending)),
        written: answers(n),
        calls: None,
        next: Some(Got::End),
    };
    for cut in CUTS {
        let outside = Outside {
            cut,
            reads: &[],
            writes: &[],
        };
        if !runs(alloc, setup, front, &outside, &want) {
            return false;
        }
    }
    true
}

fn each_front_is_run(alloc: Global, setup: &Setup, bytes: &[u8]) -> bool {
    if bytes.len() != 128 {
        return false;
    }
    for n in 0..129 {
        if !front_is_run(alloc, setup, &bytes[..n]) {
            return false;
        }
    }
    true
}

/// Whether what the first `n` bytes mean is made where the read after them fails.
fn fault_is_met(alloc: Global, setup: &Setup, bytes: &[u8], n: usize) -> bool {
    let reads = [n as u64];
    let outside = Outside {
        cut: 1,
        reads: &reads,
        writes: &[],
    };
    let want = Comes {
        end: StreamEnd::Ended(ReadEnd::ReadFault),
        written: answers(n),
        calls: None,
        next: None,
    };
    runs(alloc, setup, bytes, &outside, &want)
}

fn each_fault_is_met(alloc: Global, setup: &Setup, bytes: &[u8]) -> bool {
    if bytes.len() != 128 {
        return false;
    }
    for n in 0..129 {
        if !fault_is_met(alloc, setup, bytes, n) {
            return false;
        }
    }
    true
}

fn all_are_run(alloc: Global, setup: &Setup) -> bool {
    let mut bytes = Octets::new(alloc);
    join(&mut bytes, FRAGMENTED) && each_front_is_run(alloc, setup, bytes.as_slice())
}

fn all_faults_are_met(alloc: Global, setup: &Setup) -> bool {
    let mut bytes = Octets::new(alloc);
    join(&mut bytes, FRAGMENTED) && each_fault_is_met(alloc, setup, bytes.as_slice())
}

fn fronts_over(alloc: Global, config: &[u8]) -> bool {
    match read_setup(alloc, config) {
        Ok(setup) => is_setup(&setup) && all_are_run(alloc, &setup),
        Err(_) => false,
    }
}

#[test]
fn each_front_of_a_fragmented_stream_is_run(rt: HostRuntime) {
    assert!(rt; fronts_over(rt.alloc(), PLAIN));
}

fn faults_over(alloc: Global, config: &[u8]) -> bool {
    match read_setup(alloc, config) {
        Ok(setup) => is_setup(&setup) && all_faults_are_met(alloc, &setup),
        Err(_) => false,
    }
}

#[test]
fn what_was_read_before_a_failed_read_is_run(rt: HostRuntime) {
    assert!(rt; faults_over(rt.alloc(), PLAIN));
}

/// A stream over a configuration, how it is read and written, and what comes of it.
struct Row {
    config: &'static [u8],
    parts: &'static [&'static [u8]],
    outside: Outside<'static>,
    want: Comes<'static>,
}

fn comes_of(alloc: Global, setup: &Setup, row: &Row) -> bool {
    let mut bytes = Octets::new(alloc);
    join(&mut bytes, row.parts) && runs(alloc, setup, bytes.as_slice(), &row.outside, &row.want)
}

fn holds(alloc: Global, row: &Row) -> bool {
    match read_setup(alloc, row.config) {
        Ok(setup) => is_setup(&setup) && comes_of(alloc, &setup, row),
        Err(_) => false,
    }
}

fn all_hold(alloc: Global, rows: &[Row]) -> bool {
    for row in rows {
        if !holds(alloc, row) {
            return false;
        }
    }
    true
}

/// Four requests and a broken header after them.
const FOUR: &[&[u8]] = &[BETWEEN, BETWEEN, BETWEEN, BETWEEN, BROKEN];

/// Of two requests a group has two offers, four calls of their turns and two collects.
const WRITES_FAIL: &[Row] = &[
    Row {
        config: PLAIN,
        parts: FOUR,
        outside: Outside {
            cut: 48,
            reads: &[],
            writes: &[0],
        },
        want: Comes {
            end: StreamEnd::WriteFault,
            written: &[],
            calls: Some(7),
            next: Some(Got::Bytes(1)),
        },
    },
    Row {
        config: PLAIN,
        parts: FOUR,
        outside: Outside {
            cut: 48,
            reads: &[],
            writes: &[1],
        },
        want: Comes {
            end: StreamEnd::WriteFault,
            written: &[REPLY_2],
            calls: Some(8),
            next: Some(Got::Bytes(1)),
        },
    },
    Row {
        config: PLAIN,
        parts: FOUR,
        outside: Outside {
            cut: 48,
            reads: &[],
            writes: &[2],
        },
        want: Comes {
            end: StreamEnd::WriteFault,
            written: &[REPLY_2, REPLY_2],
            calls: Some(15),
            next: Some(Got::Bytes(1)),
        },
    },
    Row {
        config: PLAIN,
        parts: FOUR,
        outside: Outside {
            cut: 48,
            reads: &[],
            writes: &[3],
        },
        want: Comes {
            end: StreamEnd::WriteFault,
            written: &[REPLY_2, REPLY_2, REPLY_2],
            calls: Some(16),
            next: Some(Got::Bytes(1)),
        },
    },
    Row {
        config: PLAIN,
        parts: FOUR,
        outside: Outside {
            cut: 48,
            reads: &[],
            writes: &[4],
        },
        want: Comes {
            end: StreamEnd::WriteFault,
            written: &[REPLY_2, REPLY_2, REPLY_2, REPLY_2],
            calls: Some(18),
            next: Some(Got::End),
        },
    },
];

#[test]
fn nothing_is_read_behind_a_failed_write(rt: HostRuntime) {
    assert!(rt; all_hold(rt.alloc(), WRITES_FAIL));
}

/// Reads of one byte.
const ONES: Outside<'static> = Outside {
    cut: 1,
    reads: &[],
    writes: &[],
};

/// All bytes that fit come in one read.
const AT_ONCE: Outside<'static> = Outside {
    cut: READ_LEN,
    reads: &[],
    writes: &[],
};

const ENDED: StreamEnd = StreamEnd::Ended(ReadEnd::Ended(Ending::Ended));

/// The second header is broken.
const BROKEN_AT_48: StreamEnd = StreamEnd::Ended(ReadEnd::Ended(Ending::Broken {
    offset: 48,
    fault: Fault::Frame(FrameCause::BadMagic),
}));

const ENDING: &[Row] = &[
    Row {
        config: PLAIN,
        parts: &[BETWEEN, CLOSE, BROKEN],
        outside: ONES,
        want: Comes {
            end: ENDED,
            written: &[REPLY_2],
            calls: None,
            next: Some(Got::Bytes(1)),
        },
    },
    Row {
        config: PLAIN,
        parts: &[BETWEEN, CLOSE, BROKEN],
        outside: AT_ONCE,
        want: Comes {
            end: ENDED,
            written: &[REPLY_2],
            calls: None,
            next: Some(Got::End),
        },
    },
    Row {
        config: PLAIN,
        parts: &[BETWEEN, BROKEN, CLOSE],
        outside: ONES,
        want: Comes {
            end: BROKEN_AT_48,
            written: &[REPLY_2, ERROR],
            calls: None,
            next: Some(Got::Bytes(1)),
        },
    },
    Row {
        config: PLAIN,
        parts: &[BETWEEN, BROKEN, CLOSE],
        outside: AT_ONCE,
        want: Comes {
            end: BROKEN_AT_48,
            written: &[REPLY_2, ERROR],
            calls: None,
            next: Some(Got::End),
        },
    },
    Row {
        config: ONE_CALL,
        parts: &[BETWEEN, BETWEEN, BROKEN],
        outside: ONES,
        want: Comes {
            end: StreamEnd::Closed,
            written: &[REPLY_2, CLOSE],
            calls: None,
            next: Some(Got::Bytes(1)),
        },
    },
    Row {
        config: ONE_CALL,
        parts: &[BETWEEN, BETWEEN, BROKEN],
        outside: AT_ONCE,
        want: Comes {
            end: StreamEnd::Closed,
            written: &[REPLY_2, CLOSE],
            calls: None,
            next: Some(Got::End),
        },
    },
];

#[test]
fn the_reading_stops_where_it_ends(rt: HostRuntime) {
    assert!(rt; all_hold(rt.alloc(), ENDING));
}

fn joined(alloc: Global, parts: &[&[u8]]) -> Result<Vec<u8>, Fail> {
    let mut bytes = Vec::new(alloc);
    for part in parts {
        bytes.extend_from_slice(part)?;
    }
    Ok(bytes)
}

/// Whether the one call is the request of id 2, the first of its connection.
fn is_one_request(calls: &[LaneCall], conn: ConnId) -> bool {
    match calls {
        [LaneCall::Offer(job)] => {
            let job = job.get();
            job.conn == conn && job.serial == 0 && job.id == 2
        }
        _ => false,
    }
}

#[test]
fn a_piece_is_heard(rt: HostRuntime) -> Result<(), Fail> {
    let alloc = rt.alloc();
    let setup = read_setup(alloc, PLAIN).ok().ok_or("a setup")?;
    let conn = ConnId { slot: 3, nth: 5 };
    let mut hearing = Hearing::new(alloc, &setup, conn)?;
    let bytes = joined(alloc, &[BETWEEN, FIRST])?;
    assert_eq!(rt; bytes.len(), 72);
    let heard = hearing.feed(alloc, bytes.as_slice())?;
    let None = heard.ending else {
        panic!(rt; "it goes on")
    };
    assert_eq!(rt; hearing.at_end(), Ending::Cut(48));
    assert!(rt; is_one_request(heard.calls.as_slice(), conn));
    Ok(())
}
