//! Lines by hand.

use crate::calls::{Asked, Call, Fate, Reply, Row, entry_of, history_of};
use history_lines::*;
use lane_machine::{How, Lanes};
use orb_base::{ConnId, Due};
use std::alloc::Global;
use turn_cell::Entry;

/// A request of connection 3 of slot 2, at priority 20 in lane 1, of the greatest id; and those of the ids 2, 3 and 4.
const GREATEST: Asked = Asked {
    conn: ConnId { slot: 2, nth: 3 },
    serial: 0,
    id: 4294967295,
    due: Due::Late,
    priority: 20,
    lane: 1,
    size: 48,
};

const SECOND: Asked = Asked { id: 2, ..GREATEST };

const THIRD: Asked = Asked { id: 3, ..GREATEST };

const FOURTH: Asked = Asked { id: 4, ..GREATEST };

const CONN: ConnId = ConnId { slot: 0, nth: 127 };

/// Whether an entry's line is this text.
fn has_line(alloc: Global, entry: &Entry<Lanes>, line: &str) -> bool {
    let mut text = String::new(alloc);
    put_line(&mut text, entry).is_ok() && text.as_str() == line
}

/// The row of a call and its reply.
fn said_by_7(call: Call, reply: Reply) -> Row {
    Row {
        caller: 7,
        call,
        reply,
    }
}

/// Whether the line of each call and its reply is its text.
fn all_say(alloc: Global, rows: &[(Call, Reply, &str)]) -> bool {
    for (call, reply, line) in rows {
        match entry_of(alloc, said_by_7(*call, *reply)) {
            Some(entry) if has_line(alloc, &entry, line) => {}
            _ => return false,
        }
    }
    true
}

const OFFERS: &[(Call, Reply, &str)] = &[
    (
        Call::Offer(GREATEST),
        Reply::Run(1, false),
        "offer c2.3 #4294967295 p20 l1 run t1\n",
    ),
    (
        Call::Offer(GREATEST),
        Reply::Run(0, true),
        "offer c2.3 #4294967295 p20 l1 lent t0\n",
    ),
];

#[test]
fn offers(rt: HostRuntime) {
    assert!(rt; all_say(rt.alloc(), OFFERS));
}

const WITHOUT_A_THREAD: &[(Call, Reply, &str)] = &[
    (
        Call::Offer(GREATEST),
        Reply::Kept,
        "offer c2.3 #4294967295 p20 l1 kept\n",
    ),
    (
        Call::Offer(GREATEST),
        Reply::Full,
        "offer c2.3 #4294967295 p20 l1 full\n",
    ),
    (
        Call::Offer(GREATEST),
        Reply::Closing,
        "offer c2.3 #4294967295 p20 l1 closing\n",
    ),
];

#[test]
fn offers_without_a_thread(rt: HostRuntime) {
    assert!(rt; all_say(rt.alloc(), WITHOUT_A_THREAD));
}

const POSTS: &[(Call, Reply, &str)] = &[
    (
        Call::Post(CONN, 9),
        Reply::Posted,
        "post c0.127 #9 posted\n",
    ),
    (
        Call::Cancel(CONN, 9),
        Reply::Removed,
        "cancel c0.127 #9 removed\n",
    ),
    (
        Call::Cancel(CONN, 9),
        Reply::Nothing,
        "cancel c0.127 #9 nothing\n",
    ),
];

#[test]
fn posts_and_cancels(rt: HostRuntime) {
    assert!(rt; all_say(rt.alloc(), POSTS));
}

const TAKES: &[(Call, Reply, &str)] = &[
    (Call::Take(63), Reply::Given(SECOND), "take t63 #2\n"),
    (Call::Take(0), Reply::Ended, "take t0 ended\n"),
];

#[test]
fn takes(rt: HostRuntime) {
    assert!(rt; all_say(rt.alloc(), TAKES));
}

const FINISHES: &[(Call, Reply, &str)] = &[
    (
        Call::Finish(5, SECOND, Fate::Returned(0)),
        Reply::Finished,
        "finish t5 #2 returned\n",
    ),
    (
        Call::Finish(5, SECOND, Fate::User),
        Reply::Finished,
        "finish t5 #2 user\n",
    ),
    (
        Call::Finish(5, SECOND, Fate::System),
        Reply::Finished,
        "finish t5 #2 system\n",
    ),
];

#[test]
fn finishes(rt: HostRuntime) {
    assert!(rt; all_say(rt.alloc(), FINISHES));
}

const COLLECTS: &[(Call, Reply, &str)] = &[
    (
        Call::Collect(CONN),
        Reply::Early(THIRD),
        "collect c0.127 #3\n",
    ),
    (
        Call::Collect(CONN),
        Reply::Transient(FOURTH),
        "collect c0.127 #4\n",
    ),
    (Call::Collect(CONN), Reply::Close, "collect c0.127 close\n"),
    (Call::Collect(CONN), Reply::Error, "collect c0.127 error\n"),
    (Call::Collect(CONN), Reply::Done, "collect c0.127 done\n"),
];

#[test]
fn collects(rt: HostRuntime) {
    assert!(rt; all_say(rt.alloc(), COLLECTS));
}

const ENDS: &[(Call, Reply, &str)] = &[
    (
        Call::End(CONN, How::Quiet),
        Reply::Noted,
        "end c0.127 quiet\n",
    ),
    (Call::End(CONN, How::Bad), Reply::Noted, "end c0.127 bad\n"),
    (
        Call::End(CONN, How::Shut),
        Reply::Noted,
        "end c0.127 shut\n",
    ),
    (Call::Leave(15), Reply::Noted, "leave s15\n"),
];

#[test]
fn ends(rt: HostRuntime) {
    assert!(rt; all_say(rt.alloc(), ENDS));
}

/// Whether the text of a history is this.
fn has_text(alloc: Global, history: &[Entry<Lanes>], want: &str) -> bool {
    match history_text(alloc, history) {
        Ok(text) => text.as_str() == want,
        Err(_) => false,
    }
}

/// Whether the text of a history of these calls with their replies is this.
fn tells(alloc: Global, rows: &[Row], want: &str) -> bool {
    match history_of(alloc, rows) {
        Some(history) => has_text(alloc, history.as_slice(), want),
        None => false,
    }
}

const HISTORY: &[Row] = &[
    Row {
        caller: 7,
        call: Call::Take(0),
        reply: Reply::Ended,
    },
    Row {
        caller: 7,
        call: Call::Leave(1),
        reply: Reply::Noted,
    },
];

#[test]
fn a_history_is_its_lines(rt: HostRuntime) {
    assert!(rt; tells(rt.alloc(), HISTORY, "take t0 ended\nleave s1\n"));
    assert!(rt; has_text(rt.alloc(), &[], ""));
}
