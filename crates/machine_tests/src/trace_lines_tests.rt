//! Traces by hand.

use crate::calls::{Asked, Call, Fate, Reply, Row, history_of};
use lane_machine::{How, LaneCall, LaneReply, Lanes};
use orb_base::{ConnId, Due, LaneSpec, List, MemSink, Octets, PoolSpec, Priority};
use std::alloc::Global;
use text_streams::WriteAll;
use trace_lines::*;
use turn_cell::Entry;

/// A pool: whether it has lanes, lends and buffers, its limits of what may wait, and its lanes.
#[derive(Clone, Copy)]
struct Pool {
    laned: bool,
    borrowing: bool,
    buffering: bool,
    max_requests: u32,
    max_bytes: u32,
    lanes: &'static [(i16, u8, u8)],
}

fn pool_of(alloc: Global, pool: Pool) -> Option<PoolSpec> {
    let mut lanes = Vec::new(alloc);
    for (priority, statics, dynamics) in pool.lanes {
        let priority = Priority::new(*priority)?;
        let lane = LaneSpec {
            priority,
            statics: *statics,
            dynamics: *dynamics,
        };
        if lanes.push(lane).is_err() {
            return None;
        }
    }
    Some(PoolSpec {
        laned: pool.laned,
        lanes: List::from_vec(lanes),
        borrowing: pool.borrowing,
        buffering: pool.buffering,
        max_requests: pool.max_requests,
        max_bytes: pool.max_bytes,
        run_calls: 65_536,
        run_bytes: 67_108_864,
    })
}

/// Whether the trace of a history is this text.
fn has_trace(
    alloc: Global,
    pool: &PoolSpec,
    slots: (u8, u8),
    history: &[Entry<Lanes>],
    want: &str,
) -> bool {
    let mut sink = MemSink::new(alloc, List::new(alloc), List::new(alloc));
    let written = write_trace(alloc, &mut sink, pool, slots.0, slots.1, history);
    written == Ok(WriteAll::Whole) && sink.held() == want.as_bytes()
}

/// Whether the trace of these calls with their replies, over a pool with so many slots and connections of each, is this text.
fn traces(alloc: Global, pool: Pool, slots: (u8, u8), rows: &[Row], want: &str) -> bool {
    let Some(history) = history_of(alloc, rows) else {
        return false;
    };
    match pool_of(alloc, pool) {
        Some(pool) => has_trace(alloc, &pool, slots, history.as_slice(), want),
        None => false,
    }
}

const FIRST: ConnId = ConnId { slot: 0, nth: 0 };

const PING: Asked = Asked {
    conn: FIRST,
    serial: 0,
    id: 1,
    due: Due::Late,
    priority: 100,
    lane: 0,
    size: 48,
};

const ONE_THREAD: Pool = Pool {
    laned: false,
    borrowing: false,
    buffering: false,
    max_requests: 0,
    max_bytes: 0,
    lanes: &[(100, 1, 0)],
};

const PING_RUN: &[Row] = &[
    Row {
        caller: 0,
        call: Call::Offer(PING),
        reply: Reply::Run(0, false),
    },
    Row {
        caller: 0,
        call: Call::Take(0),
        reply: Reply::Given(PING),
    },
    Row {
        caller: 0,
        call: Call::Finish(0, PING, Fate::Returned(2)),
        reply: Reply::Finished,
    },
    Row {
        caller: 0,
        call: Call::Collect(FIRST),
        reply: Reply::Answered(PING, Fate::Returned(2)),
    },
    Row {
        caller: 0,
        call: Call::End(FIRST, How::Quiet),
        reply: Reply::Noted,
    },
    Row {
        caller: 0,
        call: Call::Collect(FIRST),
        reply: Reply::Done,
    },
];

const PING_TRACE: &str =
    "pool 0 0 0 0 0 65536 67108864 1 128\nlane 100 1 0\n0 offer 0.0 0 1 2 100 0 48 run 0\n0 take 0 0\n\
    0 finish 0 0 2\n0 collect 0.0 answered 0\n0 end 0.0 quiet\n0 collect 0.0 done\nentries 6\n";

#[test]
fn a_ping_is_traced(rt: HostRuntime) {
    assert!(rt; traces(rt.alloc(), ONE_THREAD, (1, 128), PING_RUN, PING_TRACE));
}

const LAST: ConnId = ConnId { slot: 15, nth: 7 };

const OTHER: ConnId = ConnId { slot: 1, nth: 0 };

const LATE: Asked = Asked {
    conn: FIRST,
    serial: 0,
    id: 1,
    due: Due::Late,
    priority: 20,
    lane: 1,
    size: 48,
};

const EARLY: Asked = Asked {
    conn: FIRST,
    serial: 1,
    id: 2,
    due: Due::Early,
    priority: 20,
    lane: 1,
    size: 68,
};

const ONEWAY: Asked = Asked {
    conn: LAST,
    serial: 0,
    id: 1,
    due: Due::Nothing,
    priority: 10,
    lane: 0,
    size: u32::MAX,
};

const REFUSED: Asked = Asked {
    conn: LAST,
    serial: 1,
    id: u32::MAX,
    due: Due::Late,
    priority: 10,
    lane: 0,
    size: 20,
};

const UNHEARD: Asked = Asked {
    conn: LAST,
    serial: 2,
    id: 3,
    due: Due::Late,
    priority: 32767,
    lane: 15,
    size: 0,
};

const LANES: Pool = Pool {
    laned: true,
    borrowing: true,
    buffering: true,
    max_requests: 4096,
    max_bytes: 1_048_576,
    lanes: &[(0, 1, 2), (32767, 0, 255)],
};

const EVERY_KIND: &[Row] = &[
    Row {
        caller: 1,
        call: Call::Offer(LATE),
        reply: Reply::Run(1, false),
    },
    Row {
        caller: 1,
        call: Call::Offer(EARLY),
        reply: Reply::Run(0, true),
    },
    Row {
        caller: 16,
        call: Call::Offer(ONEWAY),
        reply: Reply::Kept,
    },
    Row {
        caller: 16,
        call: Call::Offer(REFUSED),
        reply: Reply::Full,
    },
    Row {
        caller: 16,
        call: Call::Post(LAST, 9),
        reply: Reply::Posted,
    },
    Row {
        caller: 16,
        call: Call::Cancel(LAST, 1),
        reply: Reply::Removed,
    },
    Row {
        caller: 16,
        call: Call::Cancel(LAST, 5),
        reply: Reply::Nothing,
    },
    Row {
        caller: 17,
        call: Call::Take(0),
        reply: Reply::Given(EARLY),
    },
    Row {
        caller: 18,
        call: Call::Take(1),
        reply: Reply::Given(LATE),
    },
    Row {
        caller: 17,
        call: Call::Finish(0, EARLY, Fate::Returned(0)),
        reply: Reply::Finished,
    },
    Row {
        caller: 18,
        call: Call::Finish(1, LATE, Fate::Returned(3)),
        reply: Reply::Finished,
    },
    Row {
        caller: 81,
        call: Call::Collect(FIRST),
        reply: Reply::Early(EARLY),
    },
    Row {
        caller: 81,
        call: Call::Collect(FIRST),
        reply: Reply::Answered(LATE, Fate::Returned(3)),
    },
    Row {
        caller: 2008,
        call: Call::Collect(LAST),
        reply: Reply::Transient(REFUSED),
    },
    Row {
        caller: 2008,
        call: Call::Collect(LAST),
        reply: Reply::Noticed(LAST, 9),
    },
    Row {
        caller: 16,
        call: Call::Offer(UNHEARD),
        reply: Reply::Closing,
    },
    Row {
        caller: 16,
        call: Call::Post(LAST, 10),
        reply: Reply::Closing,
    },
    Row {
        caller: 16,
        call: Call::Cancel(LAST, 10),
        reply: Reply::Closing,
    },
    Row {
        caller: 1,
        call: Call::End(FIRST, How::Quiet),
        reply: Reply::Noted,
    },
    Row {
        caller: 16,
        call: Call::End(LAST, How::Shut),
        reply: Reply::Noted,
    },
    Row {
        caller: 2,
        call: Call::End(OTHER, How::Bad),
        reply: Reply::Noted,
    },
    Row {
        caller: 81,
        call: Call::Collect(FIRST),
        reply: Reply::Done,
    },
    Row {
        caller: 2008,
        call: Call::Collect(LAST),
        reply: Reply::Close,
    },
    Row {
        caller: 209,
        call: Call::Collect(OTHER),
        reply: Reply::Error,
    },
    Row {
        caller: 1,
        call: Call::Leave(0),
        reply: Reply::Noted,
    },
    Row {
        caller: 17,
        call: Call::Take(0),
        reply: Reply::Ended,
    },
];

const EVERY_KIND_TRACE: &str =
    "pool 1 1 1 4096 1048576 65536 67108864 16 8\nlane 0 1 2\nlane 32767 0 255\n\
    1 offer 0.0 0 1 2 20 1 48 run 1\n1 offer 0.0 1 2 1 20 1 68 lent 0\n\
    16 offer 15.7 0 1 0 10 0 4294967295 kept\n16 offer 15.7 1 4294967295 2 10 0 20 full\n\
    16 post 15.7 9 posted\n16 cancel 15.7 1 removed\n16 cancel 15.7 5 nothing\n17 take 0 1\n18 take 1 0\n\
    17 finish 0 1 0\n18 finish 1 0 3\n81 collect 0.0 early 1\n81 collect 0.0 answered 0\n\
    2008 collect 15.7 transient 3\n2008 collect 15.7 posted 9\n16 offer 15.7 2 3 2 32767 15 0 closing\n\
    16 post 15.7 10 closing\n16 cancel 15.7 10 closing\n1 end 0.0 quiet\n16 end 15.7 shut\n2 end 1.0 bad\n\
    81 collect 0.0 done\n2008 collect 15.7 close\n209 collect 1.0 error\n1 leave 0\n17 take 0 ended\n\
    entries 26\n";

#[test]
fn every_kind_of_line_and_reply_is_traced(rt: HostRuntime) {
    assert!(rt; traces(rt.alloc(), LANES, (16, 8), EVERY_KIND, EVERY_KIND_TRACE));
}

const TWICE: &[Row] = &[
    Row {
        caller: 0,
        call: Call::Offer(PING),
        reply: Reply::Full,
    },
    Row {
        caller: 0,
        call: Call::Offer(LATE),
        reply: Reply::Full,
    },
    Row {
        caller: 0,
        call: Call::Offer(EARLY),
        reply: Reply::Kept,
    },
    Row {
        caller: 0,
        call: Call::Take(0),
        reply: Reply::Given(LATE),
    },
    Row {
        caller: 0,
        call: Call::Take(0),
        reply: Reply::Given(EARLY),
    },
    Row {
        caller: 0,
        call: Call::Take(0),
        reply: Reply::Given(REFUSED),
    },
];

const TWICE_TRACE: &str =
    "pool 0 0 0 0 0 65536 67108864 1 128\nlane 100 1 0\n0 offer 0.0 0 1 2 100 0 48 full\n\
    0 offer 0.0 0 1 2 20 1 48 full\n0 offer 0.0 1 2 1 20 1 68 kept\n0 take 0 0\n0 take 0 2\n0 take 0 3\nentries 6\n";

#[test]
fn the_first_offer_of_a_name_counts(rt: HostRuntime) {
    assert!(rt; traces(rt.alloc(), ONE_THREAD, (1, 128), TWICE, TWICE_TRACE));
}

/// One lane of one thread, where at most three requests of a thousand bytes together may wait, or none.
const fn three_may_wait(buffering: bool) -> Pool {
    Pool {
        laned: false,
        borrowing: false,
        buffering,
        max_requests: 3,
        max_bytes: 1000,
        lanes: &[(0, 1, 0)],
    }
}

const WITH_BUFFER: &str = "pool 0 0 1 3 1000 65536 67108864 2 64\nlane 0 1 0\nentries 0\n";

const WITHOUT_BUFFER: &str = "pool 0 0 0 0 0 65536 67108864 2 64\nlane 0 1 0\nentries 0\n";

#[test]
fn limits_are_0_without_a_buffer(rt: HostRuntime) {
    assert!(rt; traces(rt.alloc(), three_may_wait(true), (2, 64), &[], WITH_BUFFER));
    assert!(rt;
        traces(
            rt.alloc(),
            three_may_wait(false),
            (2, 64),
            &[],
            WITHOUT_BUFFER
        )
    );
}

/// A history of a slot that leaves so often.
fn leaves(alloc: Global, count: usize) -> Option<Vec<Entry<Lanes>>> {
    let mut history = Vec::new(alloc);
    for _ in 0..count {
        let entry = Entry {
            caller: 1,
            call: LaneCall::Leave { slot: 0 },
            reply: LaneReply::Noted,
        };
        if history.push(entry).is_err() {
            return None;
        }
    }
    Some(history)
}

/// Puts a line so often; whether there was memory.
fn repeat(text: &mut Octets, line: &[u8], count: usize) -> bool {
    for _ in 0..count {
        if text.append(line).is_err() {
            return false;
        }
    }
    true
}

/// Puts the trace of that.
fn put_trace(text: &mut Octets, count: usize) -> bool {
    repeat(
        text,
        b"pool 0 0 0 0 0 65536 67108864 1 128\nlane 100 1 0\n",
        1,
    ) && repeat(text, b"1 leave 0\n", count)
        && repeat(text, b"entries 1000\n", 1)
}

/// How a sink is written to: the bytes of its first write, the write that fails, and how much of a trace it then holds, or the whole.
struct Writing {
    cuts: &'static [usize],
    failing: &'static [u64],
    held: Option<usize>,
}

/// Whether a sink holds so much of a trace, whose writing came to this.
fn is_held(written: WriteAll, held: &[u8], trace: &[u8], want: Option<usize>) -> bool {
    match want {
        Some(len) => { written == WriteAll::Failed && trace.starts_with(held) && held.len() == len }
        None => written == WriteAll::Whole && held == trace,
    }
}

/// Whether a trace is written so to a sink.
fn is_written(
    alloc: Global,
    sink: &mut MemSink,
    pool: &PoolSpec,
    history: &[Entry<Lanes>],
    trace: &[u8],
    want: Option<usize>,
) -> bool {
    match write_trace(alloc, sink, pool, 1, 128, history) {
        Ok(written) => is_held(written, sink.held(), trace, want),
        Err(_) => false,
    }
}

fn sink_of(alloc: Global, cuts: &[usize], failing: &[u64]) -> Option<MemSink> {
    let cuts = Vec::from_slice(alloc, cuts).ok()?;
    match Vec::from_slice(alloc, failing) {
        Ok(failing) => Some(MemSink::new(alloc, List::from_vec(cuts), List::from_vec(failing))),
        Err(_) => None,
    }
}

fn leaves_are_written(
    alloc: Global,
    sink: &mut MemSink,
    pool: &PoolSpec,
    trace: &[u8],
    want: Option<usize>,
) -> bool {
    match leaves(alloc, 1000) {
        Some(history) => is_written(alloc, sink, pool, history.as_slice(), trace, want),
        None => false,
    }
}

fn one_thread_is_written(
    alloc: Global,
    sink: &mut MemSink,
    trace: &[u8],
    want: Option<usize>,
) -> bool {
    match pool_of(alloc, ONE_THREAD) {
        Some(pool) => leaves_are_written(alloc, sink, &pool, trace, want),
        None => false,
    }
}

/// Whether the trace of a thousand entries is written so.
fn holds(alloc: Global, trace: &[u8], writing: &Writing) -> bool {
    match sink_of(alloc, writing.cuts, writing.failing) {
        Some(mut sink) => one_thread_is_written(alloc, &mut sink, trace, writing.held),
        None => false,
    }
}

fn each_holds(alloc: Global, trace: &[u8], rows: &[Writing]) -> bool {
    for row in rows {
        if !holds(alloc, trace, row) {
            return false;
        }
    }
    true
}

fn all_hold(alloc: Global, rows: &[Writing]) -> bool {
    let mut text = Octets::new(alloc);
    put_trace(&mut text, 1000) && each_holds(alloc, text.as_slice(), rows)
}

/// The first write has the lines of the pool and its lane, and as many of ten bytes as pass 4095.
const PREFIXES: &[Writing] = &[
    Writing {
        cuts: &[],
        failing: &[0],
        held: Some(0),
    },
    Writing {
        cuts: &[],
        failing: &[1],
        held: Some(4099),
    },
];

#[test]
fn a_prefix_is_written_before_a_failed_write(rt: HostRuntime) {
    assert!(rt; all_hold(rt.alloc(), PREFIXES));
}

/// The first write takes a hundred bytes.
const WHOLE: &[Writing] = &[Writing {
    cuts: &[100],
    failing: &[],
    held: None,
}];

#[test]
fn a_long_trace_is_written_whole(rt: HostRuntime) {
    assert!(rt; all_hold(rt.alloc(), WHOLE));
}
