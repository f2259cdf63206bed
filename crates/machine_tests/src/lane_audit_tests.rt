//! How many entries of a run are legal: by lines written by hand.

use lane_audit::count_legal;
use lane_machine::How;
use orb_base::{ConnId, Due, LaneSpec, List, PoolSpec, Priority};
use std::alloc::Global;
use trace_lines::*;

/// A request: its connection, serial number, id, when a reply is due, priority, lane and size.
#[derive(Clone, Copy)]
struct Asked {
    conn: ConnId,
    serial: u32,
    id: u32,
    due: Due,
    priority: i16,
    lane: u8,
    size: u32,
}

/// A line: a call with its reply; requests by their numbers, an answer by the length of its body.
#[derive(Clone, Copy)]
enum Row {
    Offer(Asked, OfferReply),
    Post(ConnId, u32, PostReply),
    Cancel(ConnId, u32, CancelReply),
    Take(u8, Option<usize>),
    Finish(u8, usize, usize),
    Collect(ConnId, CollectReply),
    End(ConnId, How),
    Leave(u8),
}

/// A pool: whether it has lanes, lends and buffers, how many requests may wait, how many calls its run hears, and its lanes with
/// their static threads.
#[derive(Clone, Copy)]
struct Pool {
    laned: bool,
    borrowing: bool,
    buffering: bool,
    max_requests: u32,
    run_calls: u32,
    lanes: &'static [(i16, u8)],
}

/// The request as a trace says it.
fn request_of(asked: Asked) -> Option<OfferedRequest> {
    Some(OfferedRequest {
        conn: asked.conn,
        serial: asked.serial,
        id: asked.id,
        due: asked.due,
        priority: Priority::new(asked.priority)?,
        lane: asked.lane,
        size: asked.size,
    })
}

/// The call as a trace says it.
fn action_of(row: Row) -> Option<Action> {
    Some(match row {
        Row::Offer(asked, reply) => Action::Offer {
            request: request_of(asked)?,
            reply,
        },
        Row::Post(conn, id, reply) => Action::Post { conn, id, reply },
        Row::Cancel(conn, id, reply) => Action::Cancel { conn, id, reply },
        Row::Take(thread, task) => Action::Take { thread, task },
        Row::Finish(thread, request, body_len) => Action::Finish {
            thread,
            request,
            body_len,
        },
        Row::Collect(conn, reply) => Action::Collect { conn, reply },
        Row::End(conn, how) => Action::End { conn, how },
        Row::Leave(slot) => Action::Leave { slot },
    })
}

/// The lines of a trace, of which the one at a place is another.
fn lines_of(alloc: Global, rows: &[Row], at: usize, other: Row) -> Option<Vec<TraceLine>> {
    let mut lines = Vec::new(alloc);
    for (i, row) in rows.iter().enumerate() {
        let row = if i == at { other } else { *row };
        let line = TraceLine {
            caller: 0,
            action: action_of(row)?,
        };
        lines.push(line).ok()?;
    }
    Some(lines)
}

/// The lanes of a pool.
fn lanes_of(alloc: Global, lanes: &[(i16, u8)]) -> Option<Vec<LaneSpec>> {
    let mut specs = Vec::new(alloc);
    for (priority, statics) in lanes {
        let spec = LaneSpec {
            priority: Priority::new(*priority)?,
            statics: *statics,
            dynamics: 0,
        };
        specs.push(spec).ok()?;
    }
    Some(specs)
}

/// The pool, of which requests of 100 bytes together may wait.
fn pool_of(alloc: Global, pool: Pool) -> Option<PoolSpec> {
    Some(PoolSpec {
        laned: pool.laned,
        lanes: List::from_vec(lanes_of(alloc, pool.lanes)?),
        borrowing: pool.borrowing,
        buffering: pool.buffering,
        max_requests: pool.max_requests,
        max_bytes: 100,
        run_calls: pool.run_calls,
        run_bytes: 67_108_864,
    })
}

/// How many entries of a trace over two slots are legal, where the line at a place is another.
fn count(alloc: Global, pool: Pool, rows: &[Row], at: usize, other: Row) -> Option<usize> {
    let lines = lines_of(alloc, rows, at, other)?;
    let pool = pool_of(alloc, pool)?;
    if !pool.well_formed() {
        return None;
    }
    count_legal(alloc, &pool, 2, 8, lines.as_slice()).ok()
}

/// Whether each of these changes of a trace has its count.
fn all_counted(alloc: Global, pool: Pool, rows: &[Row], changes: &[(usize, Row, usize)]) -> bool {
    changes.iter().all(|(at, other, legal)| count(alloc, pool, rows, *at, *other) == Some(*legal))
}

const FIRST: ConnId = ConnId { slot: 0, nth: 0 };

const OTHER: ConnId = ConnId { slot: 1, nth: 0 };

const ONE_THREAD: Pool = Pool {
    laned: false,
    borrowing: false,
    buffering: false,
    max_requests: 1,
    run_calls: 65_536,
    lanes: &[(100, 1)],
};

const PING: Asked = Asked {
    conn: FIRST,
    serial: 0,
    id: 1,
    due: Due::Late,
    priority: 100,
    lane: 0,
    size: 48,
};

const PING_RUN: &[Row] = &[
    Row::Offer(PING, OfferReply::Run(0)),
    Row::Take(0, Some(0)),
    Row::Finish(0, 0, 2),
    Row::Collect(FIRST, CollectReply::Answered(0)),
    Row::End(FIRST, How::Quiet),
    Row::Collect(FIRST, CollectReply::Done),
];

/// A line of the ping's trace, another in its place, and how many entries are legal then.
const PING_CHANGES: &[(usize, Row, usize)] = &[
    (0, Row::Offer(PING, OfferReply::Run(0)), 6),
    // The thread is of the request's lane, without a task, and there is no other.
    (0, Row::Offer(PING, OfferReply::Lent(0)), 0),
    (0, Row::Offer(PING, OfferReply::Run(1)), 0),
    (0, Row::Offer(PING, OfferReply::Kept), 0),
    (0, Row::Offer(PING, OfferReply::Full), 0),
    (0, Row::Offer(PING, OfferReply::Closing), 0),
    // A pool of one lane has no second.
    (
        0,
        Row::Offer(Asked { lane: 1, ..PING }, OfferReply::Run(0)),
        0,
    ),
    // It takes every priority.
    (
        0,
        Row::Offer(
            Asked {
                priority: 5,
                ..PING
            },
            OfferReply::Run(0),
        ),
        6,
    ),
    // Nothing is owed for a request without a reply.
    (
        0,
        Row::Offer(
            Asked {
                due: Due::Nothing,
                ..PING
            },
            OfferReply::Run(0),
        ),
        3,
    ),
    (1, Row::Take(0, None), 1),
    (1, Row::Take(0, Some(1)), 1),
    (1, Row::Take(1, Some(0)), 1),
    (2, Row::Finish(1, 0, 2), 2),
    (2, Row::Finish(0, 1, 2), 2),
    // The longest body, and one that is longer.
    (2, Row::Finish(0, 0, 262_120), 6),
    (2, Row::Finish(0, 0, 262_121), 2),
    (3, Row::Collect(FIRST, CollectReply::Answered(1)), 3),
    (3, Row::Collect(FIRST, CollectReply::Early(0)), 3),
    (3, Row::Collect(FIRST, CollectReply::Transient(0)), 3),
    (3, Row::Collect(FIRST, CollectReply::Posted(1)), 3),
    (3, Row::Collect(FIRST, CollectReply::Done), 3),
    (3, Row::Collect(OTHER, CollectReply::Answered(0)), 3),
    // Another end is told otherwise; another connection's end leaves this one open, to which nothing is told then.
    (4, Row::End(FIRST, How::Bad), 5),
    (4, Row::End(FIRST, How::Shut), 5),
    (4, Row::End(OTHER, How::Quiet), 5),
    (5, Row::Collect(FIRST, CollectReply::Close), 5),
    (5, Row::Collect(FIRST, CollectReply::Error), 5),
    (5, Row::Collect(FIRST, CollectReply::Answered(0)), 5),
    // A connection ends once, and a thread ends only where every slot left.
    (5, Row::End(FIRST, How::Quiet), 5),
    (5, Row::Take(0, None), 5),
    (5, Row::Leave(0), 6),
];

#[test]
fn each_line_of_a_ping_counts(rt: HostRuntime) {
    assert!(rt; all_counted(rt.alloc(), ONE_THREAD, PING_RUN, PING_CHANGES));
}

const TWO_LANES: Pool = Pool {
    laned: true,
    borrowing: true,
    buffering: true,
    max_requests: 1,
    run_calls: 65_536,
    lanes: &[(100, 1), (200, 1)],
};

/// An urgent request of the higher lane.
const URGENT: Asked = Asked {
    conn: FIRST,
    serial: 0,
    id: 1,
    due: Due::Late,
    priority: 200,
    lane: 1,
    size: 48,
};

const SECOND: Asked = Asked {
    serial: 1,
    id: 2,
    ..URGENT
};

const THIRD: Asked = Asked {
    serial: 2,
    id: 3,
    ..URGENT
};

/// The lower lane lends its thread to the second request, and the third waits.
const LENDING: &[Row] = &[
    Row::Offer(URGENT, OfferReply::Run(1)),
    Row::Offer(SECOND, OfferReply::Lent(0)),
    Row::Offer(THIRD, OfferReply::Kept),
    Row::Take(0, Some(1)),
    Row::Take(1, Some(0)),
    Row::Finish(1, 0, 4),
    Row::Take(1, Some(2)),
    Row::Finish(1, 2, 4),
    Row::Finish(0, 1, 4),
    Row::Collect(FIRST, CollectReply::Answered(0)),
    Row::Collect(FIRST, CollectReply::Answered(2)),
    Row::Collect(FIRST, CollectReply::Answered(1)),
    Row::End(FIRST, How::Quiet),
    Row::Collect(FIRST, CollectReply::Done),
];

/// A line of the lending's trace, another in its place, and how many entries are legal then.
const LENDING_CHANGES: &[(usize, Row, usize)] = &[
    (0, Row::Offer(URGENT, OfferReply::Run(1)), 14),
    (0, Row::Offer(URGENT, OfferReply::Lent(0)), 0),
    // With lanes a request has its lane's priority, and its lane is there.
    (
        0,
        Row::Offer(
            Asked {
                priority: 100,
                ..URGENT
            },
            OfferReply::Run(1),
        ),
        0,
    ),
    (
        0,
        Row::Offer(Asked { lane: 2, ..URGENT }, OfferReply::Run(1)),
        0,
    ),
    (1, Row::Offer(SECOND, OfferReply::Kept), 1),
    (1, Row::Offer(SECOND, OfferReply::Run(0)), 1),
    (1, Row::Offer(SECOND, OfferReply::Lent(1)), 1),
    // One request may wait, of at most 100 bytes.
    (2, Row::Offer(THIRD, OfferReply::Full), 2),
    (
        2,
        Row::Offer(Asked { size: 100, ..THIRD }, OfferReply::Kept),
        14,
    ),
    (
        2,
        Row::Offer(Asked { size: 101, ..THIRD }, OfferReply::Kept),
        2,
    ),
    // Two requests that are alike in all are one.
    (2, Row::Offer(SECOND, OfferReply::Kept), 14),
    // A request that was refused is not run: the thread has no task, and waits for one.
    (
        2,
        Row::Offer(Asked { size: 101, ..THIRD }, OfferReply::Full),
        6,
    ),
    (3, Row::Take(0, Some(0)), 3),
    (4, Row::Take(1, Some(1)), 4),
    // The second thread may finish what it took, in whatever order.
    (5, Row::Finish(0, 1, 4), 6),
    (5, Row::Finish(1, 1, 4), 5),
    // One that waits is withdrawn, so that no thread goes on with it; none that runs, nor of another connection or id.
    (3, Row::Cancel(FIRST, 3, CancelReply::Removed), 6),
    (3, Row::Cancel(FIRST, 2, CancelReply::Removed), 3),
    (3, Row::Cancel(FIRST, 3, CancelReply::Nothing), 3),
    (3, Row::Cancel(OTHER, 3, CancelReply::Removed), 3),
    (3, Row::Cancel(OTHER, 3, CancelReply::Closing), 3),
    // Answers are handed out in the order in which they were made.
    (10, Row::Collect(FIRST, CollectReply::Answered(1)), 10),
    (13, Row::Post(FIRST, 9, PostReply::Posted), 14),
    (13, Row::Post(FIRST, 9, PostReply::Closing), 13),
];

#[test]
fn each_line_of_a_lending_counts(rt: HostRuntime) {
    assert!(rt; all_counted(rt.alloc(), TWO_LANES, LENDING, LENDING_CHANGES));
}

/// A pool of one thread, for which two requests may wait.
const WAITING: Pool = Pool {
    buffering: true,
    max_requests: 2,
    ..ONE_THREAD
};

const LATER: Asked = Asked {
    serial: 1,
    id: 2,
    ..PING
};

const MORE_URGENT: Asked = Asked {
    serial: 2,
    id: 3,
    priority: 101,
    ..PING
};

/// Two requests wait, and the more urgent one goes first.
const URGENCY: &[Row] = &[
    Row::Offer(PING, OfferReply::Run(0)),
    Row::Offer(LATER, OfferReply::Kept),
    Row::Offer(MORE_URGENT, OfferReply::Kept),
    Row::Take(0, Some(0)),
    Row::Finish(0, 0, 0),
    Row::Take(0, Some(2)),
    Row::Finish(0, 2, 0),
    Row::Take(0, Some(1)),
];

/// A line of that trace, another in its place, and how many entries are legal then.
const URGENCY_CHANGES: &[(usize, Row, usize)] = &[
    (0, Row::Offer(PING, OfferReply::Run(0)), 8),
    (2, Row::Offer(MORE_URGENT, OfferReply::Full), 2),
    // 100 bytes may wait, and 101 may not.
    (
        2,
        Row::Offer(
            Asked {
                size: 52,
                ..MORE_URGENT
            },
            OfferReply::Kept,
        ),
        8,
    ),
    (
        2,
        Row::Offer(
            Asked {
                size: 53,
                ..MORE_URGENT
            },
            OfferReply::Kept,
        ),
        2,
    ),
    // Of two of one priority the earlier goes first.
    (
        2,
        Row::Offer(
            Asked {
                priority: 100,
                ..MORE_URGENT
            },
            OfferReply::Kept,
        ),
        5,
    ),
    // The thread takes what it was given, and finishes what it took.
    (5, Row::Take(0, Some(1)), 5),
    (5, Row::Take(0, None), 5),
    (5, Row::Finish(0, 2, 0), 5),
    (5, Row::Collect(FIRST, CollectReply::Answered(0)), 6),
    // One that was given to a thread can't be withdrawn.
    (5, Row::Cancel(FIRST, 3, CancelReply::Nothing), 6),
    (5, Row::Cancel(FIRST, 3, CancelReply::Removed), 5),
    (5, Row::Cancel(FIRST, 2, CancelReply::Removed), 6),
];

#[test]
fn each_line_of_an_urgent_request_counts(rt: HostRuntime) {
    assert!(rt; all_counted(rt.alloc(), WAITING, URGENCY, URGENCY_CHANGES));
}

/// A run that hears two calls.
const SHORT: Pool = Pool {
    run_calls: 2,
    ..ONE_THREAD
};

/// An answer of the reading side, a reply at once, and what comes once the limit is met.
const CLOSING: &[Row] = &[
    Row::Post(OTHER, 7, PostReply::Posted),
    Row::Offer(
        Asked {
            due: Due::Early,
            ..PING
        },
        OfferReply::Run(0),
    ),
    Row::Offer(
        Asked {
            conn: OTHER,
            ..PING
        },
        OfferReply::Closing,
    ),
    Row::Collect(FIRST, CollectReply::Early(0)),
    Row::Collect(OTHER, CollectReply::Posted(7)),
    Row::Collect(OTHER, CollectReply::Close),
    Row::Collect(OTHER, CollectReply::Done),
    Row::Take(0, Some(0)),
    Row::Finish(0, 0, 0),
    Row::Leave(0),
    Row::Leave(1),
    Row::Take(0, None),
];

/// A line of that trace, another in its place, and how many entries are legal then.
const CLOSING_CHANGES: &[(usize, Row, usize)] = &[
    (0, Row::Post(OTHER, 7, PostReply::Posted), 12),
    (0, Row::Post(OTHER, 7, PostReply::Closing), 0),
    (
        2,
        Row::Offer(
            Asked {
                conn: OTHER,
                ..PING
            },
            OfferReply::Full,
        ),
        2,
    ),
    (2, Row::Cancel(OTHER, 7, CancelReply::Closing), 12),
    (2, Row::Cancel(OTHER, 7, CancelReply::Nothing), 2),
    // The request runs, so that nothing is told to its connection yet.
    (4, Row::Collect(FIRST, CollectReply::Close), 4),
    (5, Row::Collect(OTHER, CollectReply::Done), 5),
    (6, Row::Collect(OTHER, CollectReply::Close), 6),
    // A thread waits until every slot left.
    (10, Row::Take(0, None), 10),
    (10, Row::Leave(0), 10),
    (11, Row::Leave(1), 11),
];

#[test]
fn each_line_of_a_closing_counts(rt: HostRuntime) {
    assert!(rt; all_counted(rt.alloc(), SHORT, CLOSING, CLOSING_CHANGES));
}
