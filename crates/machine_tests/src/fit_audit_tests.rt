//! What an audit says of legal runs besides that they are: by lines written by hand.

use fit_audit::*;
use lane_machine::How;
use orb_base::{ConnId, Due, Priority};
use std::alloc::Global;
use trace_lines::*;

/// A call with its reply: connections as slot and number, an Offer's serial number and reply, whether a Post or a Cancel was
/// answered Closing, a thread with the number of its request, what a writing side was handed or told.
#[derive(Clone, Copy)]
enum Call {
    Offer(u8, u8, u32, OfferReply),
    Post(u8, u8, bool),
    Cancel(u8, u8, bool),
    Take(u8, Option<usize>),
    Finish(u8, usize),
    Collect(u8, u8, CollectReply),
    End(u8, u8),
    Leave(u8),
}

/// The request of an Offer, of the one lane of its run.
fn request_of(conn: ConnId, serial: u32) -> Option<OfferedRequest> {
    Some(OfferedRequest {
        conn,
        serial,
        id: serial,
        due: Due::Late,
        priority: Priority::new(100)?,
        lane: 0,
        size: 12,
    })
}

/// The call as a trace says it.
fn action_of(call: Call) -> Option<Action> {
    Some(match call {
        Call::Offer(slot, nth, serial, reply) => Action::Offer {
            request: request_of(ConnId { slot, nth }, serial)?,
            reply,
        },
        Call::Post(slot, nth, closing) => Action::Post {
            conn: ConnId { slot, nth },
            id: 0,
            reply: if closing {
                PostReply::Closing
            } else {
                PostReply::Posted
            },
        },
        Call::Cancel(slot, nth, closing) => Action::Cancel {
            conn: ConnId { slot, nth },
            id: 7,
            reply: if closing {
                CancelReply::Closing
            } else {
                CancelReply::Nothing
            },
        },
        Call::Take(thread, task) => Action::Take { thread, task },
        Call::Finish(thread, request) => Action::Finish {
            thread,
            request,
            body_len: 0,
        },
        Call::Collect(slot, nth, reply) => Action::Collect {
            conn: ConnId { slot, nth },
            reply,
        },
        Call::End(slot, nth) => Action::End {
            conn: ConnId { slot, nth },
            how: How::Quiet,
        },
        Call::Leave(slot) => Action::Leave { slot },
    })
}

/// The lines of these calls, each with its caller.
fn lines_of(alloc: Global, calls: &[(u32, Call)]) -> Option<Vec<TraceLine>> {
    let mut lines = Vec::new(alloc);
    for (caller, call) in calls {
        let line = TraceLine {
            caller: *caller,
            action: action_of(*call)?,
        };
        lines.push(line).ok()?;
    }
    Some(lines)
}

/// Calls of a legal run with two slots, two connections per slot and two threads, and whether each was its caller's to make. The
/// slots' callers are 1 and 2, the workers 3 and 4, the writing sides of slot 0 are 81 and 82.
#[derive(Clone, Copy)]
struct Row {
    calls: &'static [(u32, Call)],
    fit: bool,
}

const ROWS: &[Row] = &[
    // Nothing was called.
    Row {
        calls: &[],
        fit: true,
    },
    // A request is served, and everyone leaves.
    Row {
        calls: &[
            (1, Call::Offer(0, 0, 0, OfferReply::Run(0))),
            (3, Call::Take(0, Some(0))),
            (3, Call::Finish(0, 0)),
            (81, Call::Collect(0, 0, CollectReply::Answered(0))),
            (1, Call::End(0, 0)),
            (81, Call::Collect(0, 0, CollectReply::Done)),
            (1, Call::Leave(0)),
            (2, Call::Leave(1)),
            (3, Call::Take(0, None)),
            (4, Call::Take(1, None)),
        ],
        fit: true,
    },
    // One caller for all, as in the pipe.
    Row {
        calls: &[
            (0, Call::Offer(0, 0, 0, OfferReply::Run(0))),
            (0, Call::Take(0, Some(0))),
            (0, Call::Finish(0, 0)),
        ],
        fit: false,
    },
    // Another slot's caller offers it.
    Row {
        calls: &[(2, Call::Offer(0, 0, 0, OfferReply::Run(0)))],
        fit: false,
    },
    // Another worker finishes it.
    Row {
        calls: &[
            (1, Call::Offer(0, 0, 0, OfferReply::Run(0))),
            (3, Call::Take(0, Some(0))),
            (4, Call::Finish(0, 0)),
        ],
        fit: false,
    },
    // Another connection's writing side asks.
    Row {
        calls: &[
            (1, Call::End(0, 0)),
            (82, Call::Collect(0, 0, CollectReply::Done)),
        ],
        fit: false,
    },
    // The first call of its connection has the serial number 1.
    Row {
        calls: &[(1, Call::Offer(0, 0, 1, OfferReply::Run(0)))],
        fit: false,
    },
    // A Post and a Cancel count as well.
    Row {
        calls: &[
            (1, Call::Post(0, 0, false)),
            (1, Call::Cancel(0, 0, false)),
            (1, Call::Offer(0, 0, 2, OfferReply::Run(0))),
        ],
        fit: true,
    },
    Row {
        calls: &[
            (1, Call::Cancel(0, 0, false)),
            (1, Call::Offer(0, 0, 0, OfferReply::Run(0))),
        ],
        fit: false,
    },
    // The next connection begins before the first has ended.
    Row {
        calls: &[(1, Call::Offer(0, 1, 0, OfferReply::Run(0)))],
        fit: false,
    },
    // It counts from 0 again.
    Row {
        calls: &[
            (1, Call::Post(0, 0, false)),
            (1, Call::End(0, 0)),
            (1, Call::Offer(0, 1, 0, OfferReply::Run(0))),
        ],
        fit: true,
    },
    // A connection that has ended goes on.
    Row {
        calls: &[(1, Call::End(0, 0)), (1, Call::Post(0, 0, false))],
        fit: false,
    },
    // A third connection of a slot that has two.
    Row {
        calls: &[
            (1, Call::End(0, 0)),
            (1, Call::End(0, 1)),
            (1, Call::End(0, 2)),
        ],
        fit: false,
    },
    // After Closing only the End may come, and then the next connection.
    Row {
        calls: &[
            (1, Call::Offer(0, 0, 0, OfferReply::Closing)),
            (1, Call::End(0, 0)),
            (1, Call::Post(0, 1, true)),
            (1, Call::End(0, 1)),
            (1, Call::Leave(0)),
        ],
        fit: true,
    },
    Row {
        calls: &[
            (1, Call::Offer(0, 0, 0, OfferReply::Closing)),
            (1, Call::Offer(0, 0, 1, OfferReply::Closing)),
        ],
        fit: false,
    },
    Row {
        calls: &[(1, Call::Cancel(0, 0, true)), (1, Call::Cancel(0, 0, true))],
        fit: false,
    },
    // Nothing comes after a slot's Leave, and it doesn't leave while a connection with a call lacks its End.
    Row {
        calls: &[(1, Call::Leave(0)), (1, Call::End(0, 0))],
        fit: false,
    },
    Row {
        calls: &[(1, Call::Post(0, 0, false)), (1, Call::Leave(0))],
        fit: false,
    },
    // A slot that the run doesn't have, by the number of a worker.
    Row {
        calls: &[(3, Call::Leave(2))],
        fit: false,
    },
    // A worker goes on after it was told that all has ended.
    Row {
        calls: &[
            (1, Call::Leave(0)),
            (2, Call::Leave(1)),
            (3, Call::Take(0, None)),
            (3, Call::Take(0, None)),
        ],
        fit: false,
    },
    // A writing side goes on after it was told that nothing comes any more.
    Row {
        calls: &[
            (1, Call::End(0, 0)),
            (81, Call::Collect(0, 0, CollectReply::Done)),
            (81, Call::Collect(0, 0, CollectReply::Done)),
        ],
        fit: false,
    },
    // A call that was no caller's is not made good by those after it.
    Row {
        calls: &[
            (2, Call::Post(0, 0, false)),
            (1, Call::End(0, 0)),
            (1, Call::Leave(0)),
        ],
        fit: false,
    },
];

/// Whether the answer for a row is the one by hand.
fn is_answered(alloc: Global, row: Row) -> Option<bool> {
    let lines = lines_of(alloc, row.calls)?;
    let fit = are_fit(alloc, 2, 2, lines.as_slice()).ok()?;
    Some(fit == row.fit)
}

/// Whether the answers for these rows are those by hand.
fn all_answered(alloc: Global, rows: &[Row]) -> bool {
    rows.iter()
        .all(|row| is_answered(alloc, *row) == Some(true))
}

#[test]
fn calls_are_those_of_their_callers(rt: HostRuntime) {
    assert!(rt; all_answered(rt.alloc(), ROWS));
}

/// Calls, how many of them lent a thread, and the longest wait.
#[derive(Clone, Copy)]
struct Counted {
    calls: &'static [(u32, Call)],
    lent: usize,
    longest: usize,
}

const COUNTS: &[Counted] = &[
    Counted {
        calls: &[],
        lent: 0,
        longest: 0,
    },
    // A request that is run at once doesn't wait, whenever it is taken.
    Counted {
        calls: &[
            (1, Call::Offer(0, 0, 0, OfferReply::Run(0))),
            (1, Call::Post(0, 0, false)),
            (3, Call::Take(0, Some(0))),
        ],
        lent: 0,
        longest: 0,
    },
    // A thread is lent, and the third request is taken three entries after it was kept.
    Counted {
        calls: &[
            (1, Call::Offer(0, 0, 0, OfferReply::Run(1))),
            (1, Call::Offer(0, 0, 1, OfferReply::Lent(0))),
            (1, Call::Offer(0, 0, 2, OfferReply::Kept)),
            (4, Call::Take(1, Some(0))),
            (4, Call::Finish(1, 0)),
            (4, Call::Take(1, Some(2))),
            (3, Call::Take(0, Some(1))),
        ],
        lent: 1,
        longest: 3,
    },
    // The longest of two counts, and a request that is never taken doesn't.
    Counted {
        calls: &[
            (1, Call::Offer(0, 0, 0, OfferReply::Kept)),
            (1, Call::Offer(0, 0, 1, OfferReply::Kept)),
            (1, Call::Offer(0, 0, 2, OfferReply::Kept)),
            (3, Call::Take(0, Some(1))),
            (4, Call::Take(1, Some(0))),
            (1, Call::End(0, 0)),
        ],
        lent: 0,
        longest: 4,
    },
    // A refused request has its number too.
    Counted {
        calls: &[
            (1, Call::Offer(0, 0, 0, OfferReply::Full)),
            (1, Call::Offer(0, 0, 1, OfferReply::Kept)),
            (3, Call::Take(0, Some(1))),
        ],
        lent: 0,
        longest: 1,
    },
    // A request that is offered later, and one that never is, haven't waited.
    Counted {
        calls: &[
            (3, Call::Take(0, Some(0))),
            (1, Call::Offer(0, 0, 0, OfferReply::Kept)),
            (3, Call::Take(0, Some(5))),
            (3, Call::Take(0, None)),
        ],
        lent: 0,
        longest: 0,
    },
    // Two threads are lent.
    Counted {
        calls: &[
            (1, Call::Offer(0, 0, 0, OfferReply::Lent(0))),
            (2, Call::Offer(1, 0, 0, OfferReply::Lent(1))),
            (2, Call::Offer(1, 0, 1, OfferReply::Closing)),
        ],
        lent: 2,
        longest: 0,
    },
];

/// Whether both counts of a row are those by hand.
fn is_counted(alloc: Global, row: Counted) -> Option<bool> {
    let lines = lines_of(alloc, row.calls)?;
    let longest = longest_wait(alloc, lines.as_slice()).ok()?;
    Some(count_lent(lines.as_slice()) == row.lent && longest == row.longest)
}

/// Whether the counts of these rows are those by hand.
fn all_counted(alloc: Global, rows: &[Counted]) -> bool {
    rows.iter().all(|row| is_counted(alloc, *row) == Some(true))
}

#[test]
fn lent_threads_and_waits_are_counted(rt: HostRuntime) {
    assert!(rt; all_counted(rt.alloc(), COUNTS));
}
