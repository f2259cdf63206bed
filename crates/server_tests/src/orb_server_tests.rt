//! Runs over links in memory.
mod devices;

use self::devices::{Asking, Held, Once, Quick, Telling};
use adapter_policies::{Setup, read_setup};
use conn_engine::ReadEnd;
use conn_sides::{LastCollect, ReadSideEnd, WriteEnd};
use heard_calls::Ending;
use lane_machine::{LaneCall, Lanes};
use orb_base::{ConnId, List, MemAcceptor, MemLink, MemSink, MemSource, Octets};
use orb_server::*;
use server_laws::each_request_has_its_mandated_priority;
use std::alloc::Global;
use std::collections::LinkedList;
use std::sync::Wait;
use std::sync::atomic::{AtomicU64, Ordering};
use std::thread::Threads;
use turn_cell::Entry;

/// One slot of one connection, one thread, and room for three requests.
const QUEUE: &[u8] =
    b"server = { slots = 1, per_slot = 1 }\npool = { static = 1, dynamic = 0, default_priority = 10, buffering = true, max_buffered_requests = 3, max_request_buffer_size = 200 }\nadapter = [{ name = \"prop\", model = \"CLIENT_PROPAGATED\", priority = 10 }]\nobject = [{ key = \"ping\", adapter = \"prop\", interface = \"i\" }]\n";

/// The cancel of request 2: CORBA 3.0.3, section 15.4.4.
const CANCEL_2: &[u8] = b"GIOP\x01\x02\0\x02\0\0\0\x04\0\0\0\x02";

/// Two slots of one connection each, two threads, and `ping` under CLIENT_PROPAGATED.
const PAIR: &[u8] =
    b"server = { slots = 2, per_slot = 1 }\npool = { static = 2, dynamic = 0, default_priority = 10, buffering = true, max_buffered_requests = 3, max_request_buffer_size = 200 }\nadapter = [{ name = \"prop\", model = \"CLIENT_PROPAGATED\", priority = 10 }]\nobject = [{ key = \"ping\", adapter = \"prop\", interface = \"i\" }]\n";

/// One slot of two connections, one thread, and a run that hears one call.
const ONE_CALL: &[u8] =
    b"server = { slots = 1, per_slot = 2, max_calls = 1 }\npool = { static = 1, dynamic = 0, default_priority = 10 }\nadapter = [{ name = \"prop\", model = \"CLIENT_PROPAGATED\", priority = 10 }]\nobject = [{ key = \"ping\", adapter = \"prop\", interface = \"i\" }]\n";

/// Four slots of three connections each over two lanes, with an object in each lane.
const LANES: &[u8] =
    b"server = { slots = 4, per_slot = 3 }\npool = { borrowing = true, buffering = true, max_buffered_requests = 100, max_request_buffer_size = 10000, lanes = [{ priority = 10, static = 1, dynamic = 1 }, { priority = 20, static = 1, dynamic = 0 }] }\nadapter = [{ name = \"low\", model = \"SERVER_DECLARED\", priority = 10 }, { name = \"high\", model = \"SERVER_DECLARED\", priority = 20 }]\nobject = [{ key = \"slow\", adapter = \"low\", interface = \"i\" }, { key = \"fast\", adapter = \"high\", interface = \"i\" }]\n";

/// CloseConnection: CORBA 3.0.3, section 15.4.7.
const CLOSE: &[u8] = b"GIOP\x01\x02\0\x05\0\0\0\0";

/// Eight slots of sixteen connections each over three lanes, with an object in each lane.
const MANY: &[u8] =
    b"server = { slots = 8, per_slot = 16 }\npool = { borrowing = true, buffering = true, max_buffered_requests = 500, max_request_buffer_size = 1000000, lanes = [{ priority = 10, static = 1, dynamic = 0 }, { priority = 20, static = 1, dynamic = 0 }, { priority = 30, static = 1, dynamic = 0 }] }\nadapter = [{ name = \"low\", model = \"SERVER_DECLARED\", priority = 10 }, { name = \"high\", model = \"SERVER_DECLARED\", priority = 20 }, { name = \"top\", model = \"SERVER_DECLARED\", priority = 30 }]\nobject = [{ key = \"slow\", adapter = \"low\", interface = \"i\" }, { key = \"fast\", adapter = \"high\", interface = \"i\" }, { key = \"best\", adapter = \"top\", interface = \"i\" }]\n";

/// The request of id 2 for `current` of `ping`: CORBA 3.0.3, section 15.4.2.
const PING_2: &[u8] =
    b"GIOP\x01\x02\0\0\0\0\0\x24\0\0\0\x02\x03\0\0\0\0\0\0\0\0\0\0\x04ping\0\0\0\x08current\0\0\0\0\0";

/// The replies of id 1, 2, 3 and 7, without contexts and body, of 24 bytes: CORBA 3.0.3, section 15.4.3.
const REPLY_1: &[u8] = b"GIOP\x01\x02\0\x01\0\0\0\x0c\0\0\0\x01\0\0\0\0\0\0\0\0";

const REPLY_2: &[u8] = b"GIOP\x01\x02\0\x01\0\0\0\x0c\0\0\0\x02\0\0\0\0\0\0\0\0";

const REPLY_3: &[u8] = b"GIOP\x01\x02\0\x01\0\0\0\x0c\0\0\0\x03\0\0\0\0\0\0\0\0";

const REPLY_7: &[u8] = b"GIOP\x01\x02\0\x01\0\0\0\x0c\0\0\0\x07\0\0\0\0\0\0\0\0";

/// A request for `current`: its id, and the key of its object, of 4 bytes.
type Asked = (u8, &'static [u8]);

/// Puts a request of 48 bytes after the bytes; whether there was memory.
fn put_request(bytes: &mut Octets, id: u8, key: &[u8]) -> bool {
    bytes.append(b"GIOP\x01\x02\0\0\0\0\0\x24\0\0\0").is_ok()
        && bytes.push(id).is_ok()
        && bytes.append(b"\x03\0\0\0\0\0\0\0\0\0\0\x04").is_ok()
        && bytes.append(key).is_ok()
        && bytes.append(b"\0\0\0\x08current\0\0\0\0\0").is_ok()
}

fn put_requests(bytes: &mut Octets, requests: &[Asked]) -> bool {
    for (id, key) in requests {
        if !put_request(bytes, *id, key) {
            return false;
        }
    }
    true
}

/// The end of an input that was read to its end.
const ENDED: ReadSideEnd = ReadSideEnd::Read(ReadEnd::Ended(Ending::Ended));

/// How many requests were finished.
fn count_finished(history: &[Entry<Lanes>]) -> u32 {
    let mut count = 0u32;
    for entry in history {
        if let LaneCall::Finish { .. } = entry.call {
            count = count.wrapping_add(1);
        }
    }
    count
}

/// A link: the requests that come by it, and the writes to it that fail.
#[derive(Clone, Copy)]
struct Comes {
    requests: &'static [Asked],
    failing: &'static [u64],
}

/// A slot: the links that come, how many of them it is given at most, and the accepts that fail.
#[derive(Clone, Copy)]
struct Slot {
    links: &'static [Comes],
    most: u32,
    failing: &'static [u64],
}

/// What a connection is answered with: these bytes, or so many.
#[derive(Clone, Copy)]
enum Output {
    Bytes(&'static [&'static [u8]]),
    Len(usize),
}

/// How the two sides of a connection come out, and what it is answered with.
type Left = (ReadSideEnd, WriteEnd, Output);

/// A run over a configuration: its slots, the number that the gate waits for, what each connection leaves, how many requests are finished,
/// and how the slots come out.
struct Row {
    config: &'static [u8],
    slots: &'static [Slot],
    until: u64,
    conns: &'static [Left],
    finished: u32,
    ends: &'static [SlotEnd],
}

fn numbers(alloc: Global, all: &[u64]) -> Option<List<u64>> {
    match Vec::from_slice(alloc, all) {
        Ok(all) => Some(List::from_vec(all)),
        Err(_) => None,
    }
}

/// A link that gives these bytes, and whose writes of these numbers fail.
fn link(alloc: Global, bytes: Octets, failing: List<u64>) -> MemLink {
    MemLink::new(
        MemSource::new(bytes, List::new(alloc), List::new(alloc)),
        MemSink::new(alloc, List::new(alloc), failing),
    )
}

fn requests(alloc: Global, all: &[Asked]) -> Option<Octets> {
    let mut bytes = Octets::new(alloc);
    if put_requests(&mut bytes, all) {
        Some(bytes)
    } else {
        None
    }
}

fn link_of(alloc: Global, comes: &Comes) -> Option<MemLink> {
    let failing = numbers(alloc, comes.failing)?;
    match requests(alloc, comes.requests) {
        Some(bytes) => Some(link(alloc, bytes, failing)),
        None => None,
    }
}

fn add_link(alloc: Global, links: &mut LinkedList<MemLink>, comes: &Comes) -> bool {
    match link_of(alloc, comes) {
        Some(link) => links.push_back(link).is_ok(),
        None => false,
    }
}

fn add_links(alloc: Global, links: &mut LinkedList<MemLink>, all: &[Comes]) -> bool {
    for comes in all {
        if !add_link(alloc, links, comes) {
            return false;
        }
    }
    true
}

fn links_of(alloc: Global, all: &[Comes]) -> Option<LinkedList<MemLink>> {
    let mut links = LinkedList::new(alloc);
    if add_links(alloc, &mut links, all) {
        Some(links)
    } else {
        None
    }
}

fn acceptor_of(alloc: Global, slot: &Slot) -> Option<MemAcceptor> {
    let failing = numbers(alloc, slot.failing)?;
    match links_of(alloc, slot.links) {
        Some(links) => Some(MemAcceptor::new(links, slot.most, failing)),
        None => None,
    }
}

fn add_slot(alloc: Global, slots: &mut List<MemAcceptor>, slot: &Slot) -> bool {
    match acceptor_of(alloc, slot) {
        Some(acceptor) => slots.push(acceptor).is_ok(),
        None => false,
    }
}

fn add_slots(alloc: Global, slots: &mut List<MemAcceptor>, all: &[Slot]) -> bool {
    for slot in all {
        if !add_slot(alloc, slots, slot) {
            return false;
        }
    }
    true
}

fn is_output(bytes: &[u8], want: Output) -> bool {
    match want {
        Output::Bytes(parts) => is_joined(bytes, parts),
        Output::Len(len) => bytes.len() == len,
    }
}

/// Whether a connection leaves this, and its sink was closed once.
fn has_left(log: &ConnLog<MemSource, MemSink>, want: Left) -> bool {
    let (read, write, output) = want;
    log.read == read
        && log.write == write
        && log.sink.closes == 1
        && is_output(log.sink.held(), output)
}

/// Whether the connections leave this, in order.
fn have_left(conns: &[ConnLog<MemSource, MemSink>], want: &[Left]) -> bool {
    let mut left = want;
    for log in conns {
        match left.split_first() {
            Some((first, rest)) if has_left(log, *first) => left = rest,
            _ => return false,
        }
    }
    left.is_empty()
}

/// Whether the first connection is that of the first slot.
fn begins(conns: &[ConnLog<MemSource, MemSink>]) -> bool {
    match conns.first() {
        Some(log) => log.id.is_same(ConnId { slot: 0, nth: 0 }),
        None => false,
    }
}

fn comes_out(run: &Run<MemSource, MemSink>, row: &Row) -> bool {
    begins(run.conns.as_slice())
        && have_left(run.conns.as_slice(), row.conns)
        && count_finished(run.history.as_slice()) == row.finished
        && run.slots.as_slice() == row.ends
}

fn serves<R: Wait + Threads + Sync>(
    rt: &R,
    alloc: Global,
    setup: &Setup,
    slots: &mut List<MemAcceptor>,
    gate: &Held<'_>,
    quick: &Quick<'_>,
    row: &Row,
) -> bool {
    if slots.len() != usize::from(setup.slots()) {
        return false;
    }
    match serve_run(rt, alloc, setup, quick, slots, gate) {
        Ok(run) => comes_out(&run, row),
        Err(_) => false,
    }
}

/// Whether a number was counted to.
fn counted(number: &AtomicU64, want: u32) -> bool {
    number.load(Ordering::SeqCst) == u64::from(want)
}

/// Whether a run comes out so, the gate held nobody too long, and the gate was entered and left and the servant invoked once for each
/// request that was finished.
fn serves_held<R: Wait + Threads + Sync>(
    rt: &R,
    alloc: Global,
    setup: &Setup,
    slots: &mut List<MemAcceptor>,
    row: &Row,
) -> bool {
    let until = AtomicU64::new(row.until);
    let missed = AtomicU64::new(0);
    let entered = AtomicU64::new(0);
    let left = AtomicU64::new(0);
    let invoked = AtomicU64::new(0);
    let gate = Held {
        until: &until,
        missed: &missed,
        entered: &entered,
        left: &left,
    };
    let quick = Quick {
        alloc,
        invoked: &invoked,
    };
    serves(rt, alloc, setup, slots, &gate, &quick, row)
        && counted(&missed, 0)
        && counted(&entered, row.finished)
        && counted(&left, row.finished)
        && counted(&invoked, row.finished)
}

fn runs<R: Wait + Threads + Sync>(rt: &R, alloc: Global, setup: &Setup, row: &Row) -> bool {
    let mut slots = List::new(alloc);
    add_slots(alloc, &mut slots, row.slots) && serves_held(rt, alloc, setup, &mut slots, row)
}

fn holds<R: Wait + Threads + Sync>(rt: &R, alloc: Global, row: &Row) -> bool {
    match read_setup(alloc, row.config) {
        Ok(setup) => runs(rt, alloc, &setup, row),
        Err(_) => false,
    }
}

const AT_ONCE: Row = Row {
    config: PAIR,
    slots: &[
        Slot {
            links: &[Comes {
                requests: &[(1, b"ping")],
                failing: &[],
            }],
            most: 9,
            failing: &[],
        },
        Slot {
            links: &[Comes {
                requests: &[(2, b"ping")],
                failing: &[],
            }],
            most: 9,
            failing: &[],
        },
    ],
    until: 0,
    conns: &[
        (ENDED, WriteEnd::Done, Output::Bytes(&[REPLY_1])),
        (ENDED, WriteEnd::Done, Output::Bytes(&[REPLY_2])),
    ],
    finished: 2,
    ends: &[SlotEnd::Served, SlotEnd::Served],
};

#[test]
fn two_requests_are_carried_out_at_once(rt: HostRuntime) {
    assert!(&rt; holds(&rt, rt.alloc(), &AT_ONCE));
}

const WRITE_FAILS: Row = Row {
    config: PAIR,
    slots: &[
        Slot {
            links: &[Comes {
                requests: &[(1, b"ping"), (2, b"ping")],
                failing: &[1],
            }],
            most: 9,
            failing: &[],
        },
        Slot {
            links: &[Comes {
                requests: &[(3, b"ping"), (4, b"ping")],
                failing: &[],
            }],
            most: 9,
            failing: &[],
        },
    ],
    until: 1,
    conns: &[
        (
            ENDED,
            WriteEnd::WriteFault(LastCollect::Done),
            Output::Len(24),
        ),
        (ENDED, WriteEnd::Done, Output::Len(48)),
    ],
    finished: 4,
    ends: &[SlotEnd::Served, SlotEnd::Served],
};

#[test]
fn a_failed_write_touches_its_own_connection_alone(rt: HostRuntime) {
    assert!(&rt; holds(&rt, rt.alloc(), &WRITE_FAILS));
}

/// Two slots, to each of which the links of three runs come, one after another.
const IN_TURN_SLOTS: &[Slot] = &[
    Slot {
        links: &[
            Comes {
                requests: &[(1, b"ping")],
                failing: &[],
            },
            Comes {
                requests: &[(1, b"ping")],
                failing: &[],
            },
            Comes {
                requests: &[(1, b"ping"), (2, b"ping")],
                failing: &[1],
            },
        ],
        most: 9,
        failing: &[],
    },
    Slot {
        links: &[
            Comes {
                requests: &[(2, b"ping")],
                failing: &[],
            },
            Comes {
                requests: &[(2, b"ping")],
                failing: &[],
            },
            Comes {
                requests: &[(3, b"ping"), (4, b"ping")],
                failing: &[],
            },
        ],
        most: 9,
        failing: &[],
    },
];

/// Runs over these slots, in turn: one whose gate holds nobody, one whose gate holds a request until the other was answered, and one
/// in which a write fails after its connection's first reply.
const IN_TURN: &[Row] = &[
    Row {
        slots: IN_TURN_SLOTS,
        until: 1,
        ..AT_ONCE
    },
    Row {
        slots: IN_TURN_SLOTS,
        ..AT_ONCE
    },
    Row {
        slots: IN_TURN_SLOTS,
        ..WRITE_FAILS
    },
];

/// Whether runs over the same acceptors come out so, one after another.
fn serve_in_turn<R: Wait + Threads + Sync>(
    rt: &R,
    alloc: Global,
    setup: &Setup,
    slots: &mut List<MemAcceptor>,
    rows: &[Row],
) -> bool {
    for row in rows {
        if !serves_held(rt, alloc, setup, slots, row) {
            return false;
        }
    }
    true
}

fn run_in_turn<R: Wait + Threads + Sync>(rt: &R, alloc: Global, rows: &[Row]) -> bool {
    let mut slots = List::new(alloc);
    match read_setup(alloc, PAIR) {
        Ok(setup) => {
            add_slots(alloc, &mut slots, IN_TURN_SLOTS)
                && serve_in_turn(rt, alloc, &setup, &mut slots, rows)
        }
        Err(_) => false,
    }
}

#[test]
fn a_later_run_over_the_same_acceptors_is_as_the_first(rt: HostRuntime) {
    assert!(&rt; run_in_turn(&rt, rt.alloc(), IN_TURN));
}

const AT_LIMIT: Row = Row {
    config: ONE_CALL,
    slots: &[Slot {
        links: &[
            Comes {
                requests: &[(1, b"ping"), (2, b"ping")],
                failing: &[],
            },
            Comes {
                requests: &[(3, b"ping")],
                failing: &[],
            },
        ],
        most: 9,
        failing: &[],
    }],
    until: 1,
    conns: &[(
        ReadSideEnd::RunClosed,
        WriteEnd::Closed,
        Output::Bytes(&[REPLY_1, CLOSE]),
    )],
    finished: 1,
    ends: &[SlotEnd::Closed],
};

#[test]
fn a_run_at_its_limit_closes_its_connections(rt: HostRuntime) {
    assert!(&rt; holds(&rt, rt.alloc(), &AT_LIMIT));
}

/// Two requests for each lane.
const BUSY: Comes = Comes {
    requests: &[(1, b"slow"), (2, b"fast"), (3, b"slow"), (4, b"fast")],
    failing: &[],
};

const THREE: Slot = Slot {
    links: &[BUSY; 3],
    most: 3,
    failing: &[],
};

/// The third slot serves one connection.
const OVER_LANES: Row = Row {
    config: LANES,
    slots: &[
        THREE,
        THREE,
        Slot {
            links: &[BUSY; 3],
            most: 3,
            failing: &[1],
        },
        THREE,
    ],
    until: 1,
    conns: &[(ENDED, WriteEnd::Done, Output::Len(96)); 10],
    finished: 40,
    ends: &[
        SlotEnd::Served,
        SlotEnd::Served,
        SlotEnd::AcceptFault,
        SlotEnd::Served,
    ],
};

#[test]
fn slots_serve_their_connections_over_lanes(rt: HostRuntime) {
    assert!(&rt; holds(&rt, rt.alloc(), &OVER_LANES));
}

const NO_LINK: Row = Row {
    config: PAIR,
    slots: &[
        Slot {
            links: &[Comes {
                requests: &[(7, b"ping")],
                failing: &[],
            }],
            most: 9,
            failing: &[],
        },
        Slot {
            links: &[],
            most: 1,
            failing: &[],
        },
    ],
    until: 1,
    conns: &[(ENDED, WriteEnd::Done, Output::Bytes(&[REPLY_7]))],
    finished: 1,
    ends: &[SlotEnd::Served, SlotEnd::Done],
};

#[test]
fn a_slot_is_done_where_no_link_is_left(rt: HostRuntime) {
    a_run_ends_at_rest();
    each_reply_is_handed_once::<MemAcceptor>();
    each_request_has_its_mandated_priority::<MemAcceptor>();
    assert!(&rt; holds(&rt, rt.alloc(), &NO_LINK));
}

/// Ten requests over the three lanes.
const TEN: Comes = Comes {
    requests: &[
        (1, b"fast"),
        (2, b"best"),
        (3, b"slow"),
        (4, b"fast"),
        (5, b"best"),
        (6, b"slow"),
        (7, b"fast"),
        (8, b"best"),
        (9, b"slow"),
        (10, b"fast"),
    ],
    failing: &[],
};

const SIXTEEN: Slot = Slot {
    links: &[TEN; 16],
    most: 16,
    failing: &[],
};

const OVER_THREE_LANES: Row = Row {
    config: MANY,
    slots: &[SIXTEEN; 8],
    until: 1,
    conns: &[(ENDED, WriteEnd::Done, Output::Len(240)); 128],
    finished: 1_280,
    ends: &[SlotEnd::Served; 8],
};

#[test]
fn many_connections_are_served_over_three_lanes(rt: HostRuntime) {
    assert!(&rt; holds(&rt, rt.alloc(), &OVER_THREE_LANES));
}

/// One connection: the requests that it begins with, and the piece after them, which comes once so many bytes were written; the number that
/// the gate waits for, which is 1 at the latest when the input has met its end; and its replies.
struct Talk {
    first: &'static [Asked],
    second: &'static [u8],
    least: u64,
    until: u64,
    replies: &'static [&'static [u8]],
}

/// Whether the first connection holds these replies, and two requests were finished.
fn has_replied(run: &Run<Asking<'_>, Telling<'_>>, replies: &[&[u8]]) -> bool {
    match run.conns.get(0) {
        Some(log) => {
            is_joined(log.sink.held.held(), replies) && count_finished(run.history.as_slice()) == 2
        }
        None => false,
    }
}

fn replies<'a, R: Wait + Threads + Sync>(
    rt: &R,
    alloc: Global,
    setup: &Setup,
    gate: &Held<'_>,
    quick: &Quick<'_>,
    once: Once<'a>,
    talk: &Talk,
) -> bool {
    let mut slots = List::new(alloc);
    if slots.push(once).is_err() || slots.len() != usize::from(setup.slots()) {
        return false;
    }
    match serve_run(rt, alloc, setup, quick, &mut slots, gate) {
        Ok(run) => has_replied(&run, talk.replies),
        Err(_) => false,
    }
}

fn talks_over<R: Wait + Threads + Sync>(rt: &R, alloc: Global, setup: &Setup, talk: &Talk) -> bool {
    let mut first = Octets::new(alloc);
    let Ok(second) = Vec::from_slice(alloc, talk.second) else {
        return false;
    };
    if !put_requests(&mut first, talk.first) {
        return false;
    }
    let written = AtomicU64::new(0);
    let met = AtomicU64::new(talk.until);
    let missed = AtomicU64::new(0);
    let entered = AtomicU64::new(0);
    let left = AtomicU64::new(0);
    let invoked = AtomicU64::new(0);
    let gate = Held {
        until: &met,
        missed: &missed,
        entered: &entered,
        left: &left,
    };
    let quick = Quick {
        alloc,
        invoked: &invoked,
    };
    let once = Once {
        alloc,
        first: first.as_slice(),
        second: second.as_slice(),
        written: &written,
        least: talk.least,
        met: &met,
        left: true,
        ends: 0,
    };
    replies(rt, alloc, setup, &gate, &quick, once, talk) && counted(&invoked, 2)
}

fn talks<R: Wait + Threads + Sync>(rt: &R, alloc: Global, talk: &Talk) -> bool {
    match read_setup(alloc, QUEUE) {
        Ok(setup) => talks_over(rt, alloc, &setup, talk),
        Err(_) => false,
    }
}

const BY_TURNS: Talk = Talk {
    first: &[(1, b"ping")],
    second: PING_2,
    least: 24,
    until: 1,
    replies: &[REPLY_1, REPLY_2],
};

#[test]
fn a_reply_comes_before_the_next_request_is_sent(rt: HostRuntime) {
    assert!(&rt; talks(&rt, rt.alloc(), &BY_TURNS));
}

const CANCELLED: Talk = Talk {
    first: &[(1, b"ping"), (2, b"ping"), (3, b"ping")],
    second: CANCEL_2,
    least: 0,
    until: 0,
    replies: &[REPLY_1, REPLY_3],
};

#[test]
fn a_cancelled_request_never_runs(rt: HostRuntime) {
    assert!(&rt; talks(&rt, rt.alloc(), &CANCELLED));
}

/// Whether the bytes are these parts, one after the other.
fn is_joined(bytes: &[u8], parts: &[&[u8]]) -> bool {
    let mut rest = bytes;
    for part in parts {
        match rest.strip_prefix(*part) {
            Some(after) => rest = after,
            None => return false,
        }
    }
    rest.is_empty()
}
