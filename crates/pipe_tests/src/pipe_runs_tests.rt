//! Streams over setups in memory: what is written, and how the run comes out.

use crate::samples::{Quick, is_joined, join, numbers};
use adapter_policies::{Setup, read_setup};
use conn_engine::{READ_LEN, ReadEnd, StreamEnd};
use giop_frames::FrameCause;
use giop_messages::Fault;
use heard_calls::Ending;
use orb_base::{List, MemSink, MemSource, Octets};
use pipe_runs::*;
use std::alloc::Global;

/// Lanes 10 and 20 of one static thread each, with borrowing, a buffer of three requests, and `ping` under CLIENT_PROPAGATED at 10.
const LANES: &[u8] =
    b"pool = { borrowing = true, buffering = true, max_buffered_requests = 3, max_request_buffer_size = 120, lanes = [{ priority = 10, static = 1, dynamic = 0 }, { priority = 20, static = 1, dynamic = 0 }] }\nadapter = [{ name = \"prop\", model = \"CLIENT_PROPAGATED\", priority = 10 }]\nobject = [{ key = \"ping\", adapter = \"prop\", interface = \"i\" }]\n";

/// One thread, a run that hears one call, and the same object.
const ONE_CALL: &[u8] =
    b"server = { max_calls = 1 }\npool = { static = 1, dynamic = 0, default_priority = 10 }\nadapter = [{ name = \"prop\", model = \"CLIENT_PROPAGATED\", priority = 10 }]\nobject = [{ key = \"ping\", adapter = \"prop\", interface = \"i\" }]\n";

/// Requests for `current` of `ping` at priority 20, of ids 1, 2 and 3: 60 bytes each.
const ASKS_1: &[u8] =
    b"GIOP\x01\x02\0\0\0\0\0\x30\0\0\0\x01\x03\0\0\0\0\0\0\0\0\0\0\x04ping\0\0\0\x08current\0\0\0\0\x01\0\0\0\x0a\0\0\0\x04\0\0\0\x14";

const ASKS_2: &[u8] =
    b"GIOP\x01\x02\0\0\0\0\0\x30\0\0\0\x02\x03\0\0\0\0\0\0\0\0\0\0\x04ping\0\0\0\x08current\0\0\0\0\x01\0\0\0\x0a\0\0\0\x04\0\0\0\x14";

const ASKS_3: &[u8] =
    b"GIOP\x01\x02\0\0\0\0\0\x30\0\0\0\x03\x03\0\0\0\0\0\0\0\0\0\0\x04ping\0\0\0\x08current\0\0\0\0\x01\0\0\0\x0a\0\0\0\x04\0\0\0\x14";

/// Their replies: NO_EXCEPTION, without contexts and body.
const REPLY_1: &[u8] = b"GIOP\x01\x02\0\x01\0\0\0\x0c\0\0\0\x01\0\0\0\0\0\0\0\0";

const REPLY_2: &[u8] = b"GIOP\x01\x02\0\x01\0\0\0\x0c\0\0\0\x02\0\0\0\0\0\0\0\0";

const REPLY_3: &[u8] = b"GIOP\x01\x02\0\x01\0\0\0\x0c\0\0\0\x03\0\0\0\0\0\0\0\0";

/// A header with another magic.
const BROKEN: &[u8] = b"GIOX\x01\x02\0\0\0\0\0\0";

/// A header whose body isn't there.
const BROKEN_OFF: &[u8] = b"GIOP\x01\x02\0\0\0\0\0\x30";

const CLOSE: &[u8] = b"GIOP\x01\x02\0\x05\0\0\0\0";

const ERROR: &[u8] = b"GIOP\x01\x02\0\x06\0\0\0\0";

/// What the pipe shows, in groups of so many, and how its reads and writes are cut and fail, by their numbers.
#[derive(Clone, Copy)]
struct Piping<'a> {
    batch: u16,
    shown: Shown,
    /// Bytes of each read, and of each write.
    cut: usize,
    reads: &'a [u64],
    writes: &'a [u64],
}

/// Bytes in groups of one; nothing fails, and all bytes that fit go in one read or write.
const STEADY: Piping<'static> = Piping {
    batch: 1,
    shown: Shown::Bytes,
    cut: READ_LEN,
    reads: &[],
    writes: &[],
};

/// How the pipe comes out, what was written, and, where it is looked at, the number of the calls in the history.
#[derive(Clone, Copy)]
struct Comes<'a> {
    end: StreamEnd,
    written: &'a [&'a [u8]],
    calls: Option<usize>,
}

/// The input ended as it may.
const ENDED: StreamEnd = StreamEnd::Ended(ReadEnd::Ended(Ending::Ended));

fn cuts_of(alloc: Global, cut: usize) -> Option<List<usize>> {
    match vec![in alloc; cut; 1024] {
        Ok(cuts) => Some(List::from_vec(cuts)),
        Err(_) => None,
    }
}

fn source_of(alloc: Global, bytes: &[u8], piping: &Piping<'_>) -> Option<MemSource> {
    let failing = numbers(alloc, piping.reads)?;
    let cuts = cuts_of(alloc, piping.cut)?;
    match Vec::from_slice(alloc, bytes) {
        Ok(bytes) => Some(MemSource::new(List::from_vec(bytes), cuts, failing)),
        Err(_) => None,
    }
}

fn sink_of(alloc: Global, piping: &Piping<'_>) -> Option<MemSink> {
    let failing = numbers(alloc, piping.writes)?;
    match cuts_of(alloc, piping.cut) {
        Some(cuts) => Some(MemSink::new(alloc, cuts, failing)),
        None => None,
    }
}

fn counted_so(calls: usize, want: Option<usize>) -> bool {
    match want {
        Some(want) => calls == want,
        None => true,
    }
}

fn comes_out(
    alloc: Global,
    setup: &Setup,
    piping: &Piping<'_>,
    source: &mut MemSource,
    sink: &mut MemSink,
    want: &Comes<'_>,
) -> bool {
    let Some(batch) = Batch::new(piping.batch) else {
        return false;
    };
    let quick = Quick { alloc };
    match pipe_run(alloc, setup, &quick, batch, piping.shown, source, sink) {
        Ok(ran) => {
            ran.end == want.end
                && counted_so(ran.history.len(), want.calls)
                && is_joined(sink.held(), want.written)
        }
        Err(_) => false,
    }
}

fn writes(
    alloc: Global,
    setup: &Setup,
    piping: &Piping<'_>,
    source: MemSource,
    want: &Comes<'_>,
) -> bool {
    let mut source = source;
    match sink_of(alloc, piping) {
        Some(mut sink) => comes_out(alloc, setup, piping, &mut source, &mut sink, want),
        None => false,
    }
}

/// Whether this comes of an input.
fn runs(alloc: Global, setup: &Setup, piping: &Piping<'_>, input: &[u8], want: &Comes<'_>) -> bool {
    match source_of(alloc, input, piping) {
        Some(source) => writes(alloc, setup, piping, source, want),
        None => false,
    }
}

/// The pipe of a configuration, the parts of its input, one after the other, and what comes of them.
struct Row {
    config: &'static [u8],
    piping: Piping<'static>,
    parts: &'static [&'static [u8]],
    want: Comes<'static>,
}

fn runs_over(alloc: Global, setup: &Setup, row: &Row) -> bool {
    let mut input = Octets::new(alloc);
    join(&mut input, row.parts) && runs(alloc, setup, &row.piping, input.as_slice(), &row.want)
}

fn holds(alloc: Global, row: &Row) -> bool {
    match read_setup(alloc, row.config) {
        Ok(setup) => runs_over(alloc, &setup, row),
        Err(_) => false,
    }
}

fn all_hold(alloc: Global, rows: &[Row]) -> bool {
    for row in rows {
        if !holds(alloc, row) {
            return false;
        }
    }
    true
}

/// The history of the three requests: the second is lent the thread of the lower lane, the third waits, and overtakes the first.
const HISTORY: &[u8] =
    b"offer c0.0 #1 p20 l1 run t1\noffer c0.0 #2 p20 l1 lent t0\noffer c0.0 #3 p20 l1 kept\ntake t0 #2\nfinish t0 #2 returned\ntake t0 #3\nfinish t0 #3 returned\ntake t1 #1\nfinish t1 #1 returned\ncollect c0.0 #2\ncollect c0.0 #3\ncollect c0.0 #1\nend c0.0 quiet\ncollect c0.0 done\n";

/// The pool of `LANES` in a trace, with the slots of a setup that names none, 4 of 32 connections, and the lines of its lanes.
const HEAD: &[u8] = b"pool 1 1 1 3 120 65536 67108864 4 32\nlane 10 1 0\nlane 20 1 0\n";

/// The trace of the three requests, which are numbered from 0 in the order of their offers.
const TRACE: &[u8] =
    b"0 offer 0.0 0 1 2 20 1 60 run 1\n0 offer 0.0 1 2 2 20 1 60 lent 0\n0 offer 0.0 2 3 2 20 1 60 kept\n0 take 0 1\n0 finish 0 1 0\n0 take 0 2\n0 finish 0 2 0\n0 take 1 0\n0 finish 1 0 0\n0 collect 0.0 answered 1\n0 collect 0.0 answered 2\n0 collect 0.0 answered 0\n0 end 0.0 quiet\n0 collect 0.0 done\nentries 14\n";

const ASKS: &[&[u8]] = &[ASKS_1, ASKS_2, ASKS_3];

const SHOWN: &[Row] = &[
    Row {
        config: LANES,
        piping: Piping { batch: 3, ..STEADY },
        parts: ASKS,
        want: Comes {
            end: ENDED,
            written: &[REPLY_2, REPLY_3, REPLY_1],
            calls: Some(14),
        },
    },
    Row {
        config: LANES,
        piping: STEADY,
        parts: ASKS,
        want: Comes {
            end: ENDED,
            written: &[REPLY_1, REPLY_2, REPLY_3],
            calls: Some(14),
        },
    },
    Row {
        config: LANES,
        piping: Piping {
            batch: 3,
            shown: Shown::Text,
            ..STEADY
        },
        parts: ASKS,
        want: Comes {
            end: ENDED,
            written: &[HISTORY],
            calls: Some(14),
        },
    },
    Row {
        config: LANES,
        piping: Piping {
            batch: 3,
            shown: Shown::Trace,
            ..STEADY
        },
        parts: ASKS,
        want: Comes {
            end: ENDED,
            written: &[HEAD, TRACE],
            calls: Some(14),
        },
    },
];

fn batches_are_1_to_64() -> bool {
    match Batch::new(64) {
        Some(most) => {
            most.calls() == 64
                && Batch::new(0).is_none()
                && Batch::new(65).is_none()
                && Batch::new(1) == Some(Batch::one())
        }
        None => false,
    }
}

#[test]
fn the_pipe_shows_bytes_or_the_lines_of_its_history(rt: HostRuntime) {
    assert!(rt; batches_are_1_to_64());
    assert!(rt; all_hold(rt.alloc(), SHOWN));
}

const ENDING: &[Row] = &[
    Row {
        config: LANES,
        piping: STEADY,
        parts: &[ASKS_1, BROKEN, ASKS_2],
        want: Comes {
            end: StreamEnd::Ended(ReadEnd::Ended(Ending::Broken {
                offset: 60,
                fault: Fault::Frame(FrameCause::BadMagic),
            })),
            written: &[REPLY_1, ERROR],
            calls: None,
        },
    },
    Row {
        config: LANES,
        piping: STEADY,
        parts: &[ASKS_1, CLOSE, BROKEN],
        want: Comes {
            end: ENDED,
            written: &[REPLY_1],
            calls: None,
        },
    },
    Row {
        config: LANES,
        piping: STEADY,
        parts: &[ASKS_1, BROKEN_OFF],
        want: Comes {
            end: StreamEnd::Ended(ReadEnd::Ended(Ending::Cut(60))),
            written: &[REPLY_1],
            calls: None,
        },
    },
    Row {
        config: ONE_CALL,
        piping: STEADY,
        parts: &[ASKS_1, ASKS_2, BROKEN],
        want: Comes {
            end: StreamEnd::Closed,
            written: &[REPLY_1, CLOSE],
            calls: None,
        },
    },
];

#[test]
fn a_stream_may_break_a_rule_or_meet_a_limit(rt: HostRuntime) {
    assert!(rt; all_hold(rt.alloc(), ENDING));
}

/// The histories of no request, of one, and of two, in groups of one.
const NONE_RAN: &[u8] = b"end c0.0 quiet\ncollect c0.0 done\n";

const ONE_RAN: &[u8] =
    b"offer c0.0 #1 p20 l1 run t1\ntake t1 #1\nfinish t1 #1 returned\ncollect c0.0 #1\nend c0.0 quiet\ncollect c0.0 done\n";

const TWO_RAN: &[u8] =
    b"offer c0.0 #1 p20 l1 run t1\ntake t1 #1\nfinish t1 #1 returned\ncollect c0.0 #1\noffer c0.0 #2 p20 l1 run t1\ntake t1 #2\nfinish t1 #2 returned\ncollect c0.0 #2\nend c0.0 quiet\ncollect c0.0 done\n";

/// Their traces, after the head.
const NONE_TRACED: &[u8] = b"0 end 0.0 quiet\n0 collect 0.0 done\nentries 2\n";

const ONE_TRACED: &[u8] =
    b"0 offer 0.0 0 1 2 20 1 60 run 1\n0 take 1 0\n0 finish 1 0 0\n0 collect 0.0 answered 0\n0 end 0.0 quiet\n0 collect 0.0 done\nentries 6\n";

const TWO_TRACED: &[u8] =
    b"0 offer 0.0 0 1 2 20 1 60 run 1\n0 take 1 0\n0 finish 1 0 0\n0 collect 0.0 answered 0\n0 offer 0.0 1 2 2 20 1 60 run 1\n0 take 1 1\n0 finish 1 1 0\n0 collect 0.0 answered 1\n0 end 0.0 quiet\n0 collect 0.0 done\nentries 10\n";

/// The input of two requests.
const TWO: &[&[u8]] = &[ASKS_1, ASKS_2];

/// What the pipe writes where `n` bytes of them were read, and the number of the calls.
fn wanted_of(shown: Shown, n: usize) -> (&'static [&'static [u8]], usize) {
    match shown {
        Shown::Bytes => match n {
            0..60 => (&[], 2),
            60..120 => (&[REPLY_1], 6),
            _ => (&[REPLY_1, REPLY_2], 10),
        },
        Shown::Text => match n {
            0..60 => (&[NONE_RAN], 2),
            60..120 => (&[ONE_RAN], 6),
            _ => (&[TWO_RAN], 10),
        },
        Shown::Trace => match n {
            0..60 => (&[HEAD, NONE_TRACED], 2),
            60..120 => (&[HEAD, ONE_TRACED], 6),
            _ => (&[HEAD, TWO_TRACED], 10),
        },
    }
}

/// Whether what the first `n` bytes mean is shown where the read after them fails.
fn fault_is_met(alloc: Global, setup: &Setup, input: &[u8], shown: Shown, n: usize) -> bool {
    let reads = [n as u64];
    let piping = Piping {
        batch: 1,
        shown,
        cut: 1,
        reads: &reads,
        writes: &[],
    };
    let (written, calls) = wanted_of(shown, n);
    let want = Comes {
        end: StreamEnd::Ended(ReadEnd::ReadFault),
        written,
        calls: Some(calls),
    };
    runs(alloc, setup, &piping, input, &want)
}

fn each_fault_is_met(alloc: Global, setup: &Setup, input: &[u8]) -> bool {
    if input.len() != 120 {
        return false;
    }
    for n in 0..121 {
        let is_met = fault_is_met(alloc, setup, input, Shown::Bytes, n)
            && fault_is_met(alloc, setup, input, Shown::Text, n)
            && fault_is_met(alloc, setup, input, Shown::Trace, n);
        if !is_met {
            return false;
        }
    }
    true
}

fn faults_are_met(alloc: Global, setup: &Setup) -> bool {
    let mut input = Octets::new(alloc);
    join(&mut input, TWO) && each_fault_is_met(alloc, setup, input.as_slice())
}

fn faults_over(alloc: Global, config: &[u8]) -> bool {
    match read_setup(alloc, config) {
        Ok(setup) => faults_are_met(alloc, &setup),
        Err(_) => false,
    }
}

#[test]
fn what_was_read_before_a_failed_read_is_shown(rt: HostRuntime) {
    assert!(rt; faults_over(rt.alloc(), LANES));
}

/// The calls after `n` bytes that were written. The reply to the first request is handed over by the fourth call, that to the second by
/// the eighth.
fn calls_behind(shown: Shown, n: usize) -> usize {
    match shown {
        Shown::Bytes if n < 24 => 4,
        Shown::Bytes => 8,
        Shown::Text | Shown::Trace => 10,
    }
}

/// Whether this front is written where the write after it fails.
fn front_stands(alloc: Global, setup: &Setup, input: &[u8], shown: Shown, front: &[u8]) -> bool {
    let n = front.len();
    let writes = [n as u64];
    let piping = Piping {
        batch: 1,
        shown,
        cut: 1,
        reads: &[],
        writes: &writes,
    };
    let written = [front];
    let want = Comes {
        end: StreamEnd::WriteFault,
        written: &written,
        calls: Some(calls_behind(shown, n)),
    };
    runs(alloc, setup, &piping, input, &want)
}

fn each_front_stands(
    alloc: Global,
    setup: &Setup,
    input: &[u8],
    shown: Shown,
    whole: &[u8],
) -> bool {
    for n in 0..whole.len() {
        if !front_stands(alloc, setup, input, shown, &whole[..n]) {
            return false;
        }
    }
    true
}

fn fronts_of(alloc: Global, setup: &Setup, shown: Shown, parts: &[&[u8]], input: &[u8]) -> bool {
    let mut whole = Octets::new(alloc);
    join(&mut whole, parts) && each_front_stands(alloc, setup, input, shown, whole.as_slice())
}

fn fronts_stand(alloc: Global, setup: &Setup) -> bool {
    let mut input = Octets::new(alloc);
    join(&mut input, TWO)
        && fronts_of(
            alloc,
            setup,
            Shown::Bytes,
            &[REPLY_1, REPLY_2],
            input.as_slice(),
        )
        && fronts_of(alloc, setup, Shown::Text, &[TWO_RAN], input.as_slice())
        && fronts_of(
            alloc,
            setup,
            Shown::Trace,
            &[HEAD, TWO_TRACED],
            input.as_slice(),
        )
}

fn fronts_over(alloc: Global, config: &[u8]) -> bool {
    match read_setup(alloc, config) {
        Ok(setup) => fronts_stand(alloc, &setup),
        Err(_) => false,
    }
}

#[test]
fn a_front_stands_behind_a_failed_write(rt: HostRuntime) {
    assert!(rt; fronts_over(rt.alloc(), LANES));
}

const BOTH_FAIL: &[Row] = &[
    Row {
        config: LANES,
        piping: Piping {
            shown: Shown::Text,
            reads: &[1],
            writes: &[0],
            ..STEADY
        },
        parts: &[ASKS_1],
        want: Comes {
            end: StreamEnd::WriteFault,
            written: &[],
            calls: Some(6),
        },
    },
    Row {
        config: LANES,
        piping: Piping {
            shown: Shown::Trace,
            reads: &[1],
            writes: &[0],
            ..STEADY
        },
        parts: &[ASKS_1],
        want: Comes {
            end: StreamEnd::WriteFault,
            written: &[],
            calls: Some(6),
        },
    },
];

#[test]
fn a_failed_write_of_lines_goes_before_a_failed_read(rt: HostRuntime) {
    assert!(rt; all_hold(rt.alloc(), BOTH_FAIL));
}

/// Puts the same bytes after the others 20,000 times; whether there was memory.
fn repeat(bytes: &mut Octets, part: &[u8]) -> bool {
    for _ in 0..20_000 {
        if bytes.append(part).is_err() {
            return false;
        }
    }
    true
}

fn long_is_run(alloc: Global, setup: &Setup, input: &[u8]) -> bool {
    let mut replies = Octets::new(alloc);
    if !repeat(&mut replies, REPLY_1) {
        return false;
    }
    let written = [replies.as_slice()];
    let want = Comes {
        end: ENDED,
        written: &written,
        calls: Some(80_002),
    };
    runs(alloc, setup, &STEADY, input, &want)
}

fn long_over(alloc: Global, setup: &Setup) -> bool {
    let mut input = Octets::new(alloc);
    repeat(&mut input, ASKS_1) && long_is_run(alloc, setup, input.as_slice())
}

fn runs_long(alloc: Global, config: &[u8]) -> bool {
    match read_setup(alloc, config) {
        Ok(setup) => long_over(alloc, &setup),
        Err(_) => false,
    }
}

#[test]
fn a_long_stream_is_run(rt: HostRuntime) {
    assert!(rt; runs_long(rt.alloc(), LANES));
}
