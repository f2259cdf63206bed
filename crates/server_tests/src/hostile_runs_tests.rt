//! Runs whose reads, writes and accepts fail, whose clients lie or break off, that meet a limit, or that many clients storm: what each
//! connection leaves, what was called for it, that the others are whole, and that an audit says of each run that it is legal and fit.
ghost use Rattle.orb_base.specs.declared.outcome.Outcome.TheVariants.{Returned};
ghost use Rattle.std.specs.Prelude.{◌≡◌, ◌∷◌, [], IfOk};

use adapter_policies::{Setup, read_setup};
use cdr_core::CdrCause;
use conn_engine::ReadEnd;
use conn_sides::{LastCollect, ReadSideEnd, WriteEnd};
use giop_frames::FrameCause;
use giop_messages::Fault;
use heard_calls::Ending;
use lane_machine::{LaneCall, LaneReply, Lanes};
use orb_base::{
    Completed, ConnId, Gate, Job, List, MemAcceptor, MemLink, MemSink, MemSource, NoMemory, Octets,
    Outcome, Serving, SharedOctets, Sys, SysName, Text,
};
use orb_server::*;
use server_runs::summary_of;
use std::alloc::Global;
use std::collections::LinkedList;
use std::sync::Wait;
use std::thread::Threads;
use text_streams::WriteAll;
use trace_audit::audit;
use trace_lines::write_trace;
use turn_cell::Entry;

/// Answers each request with a body of two bytes, so that a reply has 26.
#[derive(Drop)]
struct Short {
    alloc: Global,
}

impl Short {
    fn body(&self) -> Result<SharedOctets, NoMemory>
        ensures { IfOk result (λ b. b ≡ 0 ∷ 7 ∷ []) }
    {
        let bytes = Vec::from_slice(self.alloc, &[0, 7])?;
        SharedOctets::new(self.alloc, List::from_vec(bytes))
    }
}

impl Serving for Short {
    ghost outcome = { λ _ _ _. Returned (0 ∷ 7 ∷ []) };

    fn invoke(&self, _interface: &Text, _job: &Job) -> Outcome {
        match self.body() {
            Ok(body) => Outcome::Returned(body),
            Err(NoMemory) => Outcome::System(Sys {
                name: SysName::NoMemory,
                minor: 1,
                completed: Completed::Maybe,
            }),
        }
    }
}

/// Lets every worker through.
#[derive(Drop)]
struct Open;

impl Gate for Open {
    fn enter(&self, _job: &Job) {}

    fn leave(&self, _job: &Job) {}
}

/// Two slots of one connection each over three lanes, and `ping` under CLIENT_PROPAGATED.
const DAY_PAIR: &[u8] =
    b"server = { slots = 2, per_slot = 1 }\npool = { borrowing = true, buffering = true, max_buffered_requests = 500, max_request_buffer_size = 1000000, lanes = [{ priority = 10, static = 1, dynamic = 0 }, { priority = 20, static = 1, dynamic = 0 }, { priority = 30, static = 1, dynamic = 0 }] }\nadapter = [{ name = \"prop\", model = \"CLIENT_PROPAGATED\", priority = 10 }]\nobject = [{ key = \"ping\", adapter = \"prop\", interface = \"i\" }]\n";

/// Two slots of two connections each over the same.
const DAY_TWICE: &[u8] =
    b"server = { slots = 2, per_slot = 2 }\npool = { borrowing = true, buffering = true, max_buffered_requests = 500, max_request_buffer_size = 1000000, lanes = [{ priority = 10, static = 1, dynamic = 0 }, { priority = 20, static = 1, dynamic = 0 }, { priority = 30, static = 1, dynamic = 0 }] }\nadapter = [{ name = \"prop\", model = \"CLIENT_PROPAGATED\", priority = 10 }]\nobject = [{ key = \"ping\", adapter = \"prop\", interface = \"i\" }]\n";

/// Eight slots of sixteen connections each over the same, with room for 4,096 requests.
const DAY_STORM: &[u8] =
    b"server = { slots = 8, per_slot = 16 }\npool = { borrowing = true, buffering = true, max_buffered_requests = 4096, max_request_buffer_size = 1000000, lanes = [{ priority = 10, static = 1, dynamic = 0 }, { priority = 20, static = 1, dynamic = 0 }, { priority = 30, static = 1, dynamic = 0 }] }\nadapter = [{ name = \"prop\", model = \"CLIENT_PROPAGATED\", priority = 10 }]\nobject = [{ key = \"ping\", adapter = \"prop\", interface = \"i\" }]\n";

/// Two slots of one connection each, one thread, room for two requests, and a run that hears three calls.
const THREE_CALLS: &[u8] =
    b"server = { slots = 2, per_slot = 1, max_calls = 3 }\npool = { static = 1, dynamic = 0, default_priority = 100, buffering = true, max_buffered_requests = 2, max_request_buffer_size = 1024 }\nadapter = [{ name = \"prop\", model = \"CLIENT_PROPAGATED\", priority = 100 }]\nobject = [{ key = \"ping\", adapter = \"prop\", interface = \"i\" }]\n";

/// The replies of id 1 and 2, of 26 bytes each: CORBA 3.0.3, section 15.4.3.
const REPLY_1: &[u8] = b"GIOP\x01\x02\0\x01\0\0\0\x0e\0\0\0\x01\0\0\0\0\0\0\0\0\0\x07";

const REPLY_2: &[u8] = b"GIOP\x01\x02\0\x01\0\0\0\x0e\0\0\0\x02\0\0\0\0\0\0\0\0\0\x07";

/// MARSHAL, minor 2, completed NO, to the request of id 2.
const MARSHAL_2: &[u8] =
    b"GIOP\x01\x02\0\x01\0\0\0\x38\0\0\0\x02\0\0\0\x02\0\0\0\0\0\0\0\x1eIDL:omg.org/CORBA/MARSHAL:1.0\0\0\0\0\0\0\x02\0\0\0\x01";

/// MessageError: CORBA 3.0.3, section 15.4.8.
const ERROR: &[u8] = b"GIOP\x01\x02\0\x06\0\0\0\0";

/// CloseConnection: CORBA 3.0.3, section 15.4.7.
const CLOSE: &[u8] = b"GIOP\x01\x02\0\x05\0\0\0\0";

/// A request for `current` of `ping`: its id, and the priority of its context.
type Asked = (u8, u8);

/// A link: the requests that come by it, and the bytes after them, how many bytes its first reads give at most, and the reads and writes
/// that fail.
#[derive(Clone, Copy)]
struct Comes<'a> {
    requests: &'a [Asked],
    after: &'a [u8],
    cuts: &'a [usize],
    reads: &'a [u64],
    writes: &'a [u64],
}

/// A slot: the links that come, and the accepts that fail.
#[derive(Clone, Copy)]
struct Slot<'a> {
    links: &'a [Comes<'a>],
    failing: &'a [u64],
}

/// What a connection leaves: how its two sides come out, how many of its offers were not answered Closing, and what it is answered
/// with.
#[derive(Clone, Copy)]
struct Left<'a> {
    read: ReadSideEnd,
    write: WriteEnd,
    heard: u32,
    output: &'a [&'a [u8]],
}

/// What a run leaves: each connection in order, how many requests are finished, and how the slots come out.
#[derive(Clone, Copy)]
struct Came<'a> {
    conns: &'a [Left<'a>],
    finished: u32,
    ends: &'a [SlotEnd],
}

/// A run over a configuration: its slots, and what may come of it, by which connection is first.
struct Row<'a> {
    config: &'a [u8],
    slots: &'a [Slot<'a>],
    came: &'a [Came<'a>],
}

/// The end of an input that was read to its end.
const ENDED: ReadSideEnd = ReadSideEnd::Read(ReadEnd::Ended(Ending::Ended));

/// Puts a request of 60 bytes after the bytes; whether there was memory.
fn put_request(bytes: &mut Octets, id: u8, priority: u8) -> bool {
    bytes.append(b"GIOP\x01\x02\0\0\0\0\0\x30\0\0\0").is_ok()
        && bytes.push(id).is_ok()
        && bytes
            .append(
                b"\x03\0\0\0\0\0\0\0\0\0\0\x04ping\0\0\0\x08current\0\0\0\0\x01\0\0\0\x0a\0\0\0\x04\0\0\0",
            )
            .is_ok()
        && bytes.push(priority).is_ok()
}

fn put_requests(bytes: &mut Octets, requests: &[Asked]) -> bool {
    for (id, priority) in requests {
        if !put_request(bytes, *id, *priority) {
            return false;
        }
    }
    true
}

fn numbers(alloc: Global, all: &[u64]) -> Option<List<u64>> {
    match Vec::from_slice(alloc, all) {
        Ok(all) => Some(List::from_vec(all)),
        Err(_) => None,
    }
}

fn sizes(alloc: Global, all: &[usize]) -> Option<List<usize>> {
    match Vec::from_slice(alloc, all) {
        Ok(all) => Some(List::from_vec(all)),
        Err(_) => None,
    }
}

/// A link that gives these bytes, whose reads are cut so, and whose reads and writes of these numbers fail.
fn link(
    alloc: Global,
    bytes: Octets,
    cuts: List<usize>,
    reads: List<u64>,
    writes: List<u64>,
) -> MemLink {
    MemLink::new(
        MemSource::new(bytes, cuts, reads),
        MemSink::new(alloc, List::new(alloc), writes),
    )
}

fn requests(alloc: Global, all: &[Asked], after: &[u8]) -> Option<Octets> {
    let mut bytes = Octets::new(alloc);
    if put_requests(&mut bytes, all) && bytes.append(after).is_ok() {
        Some(bytes)
    } else {
        None
    }
}

fn link_of(alloc: Global, comes: &Comes<'_>) -> Option<MemLink> {
    let cuts = sizes(alloc, comes.cuts)?;
    let reads = numbers(alloc, comes.reads)?;
    let writes = numbers(alloc, comes.writes)?;
    match requests(alloc, comes.requests, comes.after) {
        Some(bytes) => Some(link(alloc, bytes, cuts, reads, writes)),
        None => None,
    }
}

fn add_link(alloc: Global, links: &mut LinkedList<MemLink>, comes: &Comes<'_>) -> bool {
    match link_of(alloc, comes) {
        Some(link) => links.push_back(link).is_ok(),
        None => false,
    }
}

fn add_links(alloc: Global, links: &mut LinkedList<MemLink>, all: &[Comes<'_>]) -> bool {
    for comes in all {
        if !add_link(alloc, links, comes) {
            return false;
        }
    }
    true
}

fn links_of(alloc: Global, all: &[Comes<'_>]) -> Option<LinkedList<MemLink>> {
    let mut links = LinkedList::new(alloc);
    if add_links(alloc, &mut links, all) {
        Some(links)
    } else {
        None
    }
}

fn acceptor_of(alloc: Global, slot: &Slot<'_>) -> Option<MemAcceptor> {
    let failing = numbers(alloc, slot.failing)?;
    match links_of(alloc, slot.links) {
        Some(links) => Some(MemAcceptor::new(links, 99, failing)),
        None => None,
    }
}

fn add_slot(alloc: Global, slots: &mut List<MemAcceptor>, slot: &Slot<'_>) -> bool {
    match acceptor_of(alloc, slot) {
        Some(acceptor) => slots.push(acceptor).is_ok(),
        None => false,
    }
}

fn add_slots(alloc: Global, slots: &mut List<MemAcceptor>, all: &[Slot<'_>]) -> bool {
    for slot in all {
        if !add_slot(alloc, slots, slot) {
            return false;
        }
    }
    true
}

/// Whether an offer of this connection was answered otherwise than Closing.
fn is_heard(entry: &Entry<Lanes>, conn: ConnId) -> bool {
    let heard = match entry.reply {
        LaneReply::Closing => false,
        _ => true,
    };
    match &entry.call {
        LaneCall::Offer(job) => heard && job.get().conn.is_same(conn),
        _ => false,
    }
}

fn count_heard(history: &[Entry<Lanes>], conn: ConnId) -> u32 {
    let mut count = 0u32;
    for entry in history {
        if is_heard(entry, conn) {
            count = count.wrapping_add(1);
        }
    }
    count
}

/// How many requests were finished, and how many slots left.
fn count_ends(history: &[Entry<Lanes>]) -> (u32, usize) {
    let mut finished = 0u32;
    let mut left = 0usize;
    for entry in history {
        match entry.call {
            LaneCall::Finish { .. } => finished = finished.wrapping_add(1),
            LaneCall::Leave { .. } => left = left.wrapping_add(1),
            _ => {}
        }
    }
    (finished, left)
}

/// Whether the bytes are these parts, one after the other.
fn is_joined(bytes: &[u8], parts: &[&[u8]]) -> bool {
    let mut rest = bytes;
    for part in parts {
        match rest.strip_prefix(*part) {
            Some(after) => rest = after,
            None => return false,
        }
    }
    rest.is_empty()
}

/// Whether a connection leaves this, and its sink was closed once. A sink that is closed takes nothing more, so that a writing side which
/// never closes it, closes it again after a failed write, or closes it before the last message is refused.
fn has_left(log: &ConnLog<MemSource, MemSink>, history: &[Entry<Lanes>], want: &Left<'_>) -> bool {
    log.read == want.read
        && log.write == want.write
        && log.sink.closes == 1
        && count_heard(history, log.id) == want.heard
        && is_joined(log.sink.held(), want.output)
}

/// Whether the connections leave this, in order.
fn have_left(
    conns: &[ConnLog<MemSource, MemSink>],
    history: &[Entry<Lanes>],
    want: &[Left<'_>],
) -> bool {
    for (nth, log) in conns.iter().enumerate() {
        if nth >= want.len() || !has_left(log, history, &want[nth]) {
            return false;
        }
    }
    conns.len() == want.len()
}

/// Whether a run leaves this, and each of its slots left.
fn has_come(run: &Run<MemSource, MemSink>, came: &Came<'_>) -> bool {
    let history = run.history.as_slice();
    have_left(run.conns.as_slice(), history, came.conns)
        && count_ends(history) == (came.finished, came.ends.len())
        && run.slots.as_slice() == came.ends
}

fn has_come_so(run: &Run<MemSource, MemSink>, all: &[Came<'_>]) -> bool {
    for came in all {
        if has_come(run, came) {
            return true;
        }
    }
    false
}

/// What is looked for in a run.
#[derive(Clone, Copy)]
enum Wanted<'a> {
    /// One of these.
    OneOf(&'a [Came<'a>]),
    /// The counts of the storm.
    Storm,
}

/// Whether each request has the lane and the priority that it asked for by its id, is answered otherwise than Full, and was run, lent a
/// thread or kept.
fn has_stormed(run: &Run<MemSource, MemSink>) -> bool {
    let history = run.history.as_slice();
    let counted = summary_of(history);
    let given = counted
        .run
        .wrapping_add(counted.lent)
        .wrapping_add(counted.kept);
    counted.calls == 1_280
        && counted.full == 0
        && counted.connections == 128
        && given == 1_280
        && count_ends(history) == (1_280, 8)
        && run.slots.as_slice() == [SlotEnd::Served; 8].as_slice()
        && all_in_lanes(history)
        && all_answered(run.conns.as_slice())
}

/// Whether a request's priority is 10, 20 or 30 by its id, and its lane the one of that priority.
fn is_in_lane(job: &Job) -> bool {
    let lane = job.id % 3;
    let priority = match lane {
        0 => 10,
        1 => 20,
        _ => 30,
    };
    u32::from(job.lane) == lane && job.priority.get() == priority
}

fn is_placed(entry: &Entry<Lanes>) -> bool {
    match &entry.call {
        LaneCall::Offer(job) => is_in_lane(job.get()),
        _ => true,
    }
}

fn all_in_lanes(history: &[Entry<Lanes>]) -> bool {
    for entry in history {
        if !is_placed(entry) {
            return false;
        }
    }
    true
}

/// Whether a connection is whole, with ten replies of 26 bytes, and its sink was closed once.
fn is_answered(log: &ConnLog<MemSource, MemSink>) -> bool {
    log.read == ENDED
        && log.write == WriteEnd::Done
        && log.sink.held().len() == 260
        && log.sink.closes == 1
}

/// Whether each of 128 connections is.
fn all_answered(conns: &[ConnLog<MemSource, MemSink>]) -> bool {
    conns.len() == 128 && conns.iter().all(is_answered)
}

fn is_wanted(run: &Run<MemSource, MemSink>, wanted: Wanted<'_>) -> bool {
    match wanted {
        Wanted::OneOf(all) => has_come_so(run, all),
        Wanted::Storm => has_stormed(run),
    }
}

/// Whether an audit of the trace of a history says that it is legal and fit.
fn is_fit(alloc: Global, setup: &Setup, history: &[Entry<Lanes>]) -> bool {
    let mut text = MemSink::new(alloc, List::new(alloc), List::new(alloc));
    let pool = setup.pool();
    let (slots, per_slot) = (setup.slots(), setup.per_slot());
    let wrote = write_trace(alloc, &mut text, pool, slots, per_slot, history);
    let mut bytes = Octets::new(alloc);
    if wrote != Ok(WriteAll::Whole) || bytes.append(text.held()).is_err() {
        return false;
    }
    let mut source = MemSource::new(bytes, List::new(alloc), List::new(alloc));
    match audit(alloc, &mut source) {
        Ok(verdicts) => match verdicts.as_slice() {
            [verdict] => verdict.first_wrong.is_none() && verdict.fit,
            _ => false,
        },
        Err(_) => false,
    }
}

/// The one call of the server.
fn serves<R: Wait + Threads + Sync>(
    rt: &R,
    alloc: Global,
    setup: &Setup,
    slots: &mut List<MemAcceptor>,
    wanted: Wanted<'_>,
) -> bool {
    let short = Short { alloc };
    if slots.len() != usize::from(setup.slots()) {
        return false;
    }
    match serve_run(rt, alloc, setup, &short, slots, &Open) {
        Ok(run) => is_wanted(&run, wanted) && is_fit(alloc, setup, run.history.as_slice()),
        Err(_) => false,
    }
}

fn runs<R: Wait + Threads + Sync>(
    rt: &R,
    alloc: Global,
    setup: &Setup,
    all: &[Slot<'_>],
    wanted: Wanted<'_>,
) -> bool {
    let mut slots = List::new(alloc);
    add_slots(alloc, &mut slots, all) && serves(rt, alloc, setup, &mut slots, wanted)
}

/// Whether a run by a configuration leaves what is wanted.
fn leaves<R: Wait + Threads + Sync>(
    rt: &R,
    alloc: Global,
    config: &[u8],
    slots: &[Slot<'_>],
    wanted: Wanted<'_>,
) -> bool {
    match read_setup(alloc, config) {
        Ok(setup) => runs(rt, alloc, &setup, slots, wanted),
        Err(_) => false,
    }
}

fn all_hold<R: Wait + Threads + Sync>(rt: &R, alloc: Global, rows: &[Row<'_>]) -> bool {
    for row in rows {
        if !leaves(rt, alloc, row.config, row.slots, Wanted::OneOf(row.came)) {
            return false;
        }
    }
    true
}

/// Two requests of 120 bytes together, read at once, and by 16 bytes.
const TWO: Comes<'static> = Comes {
    requests: &[(1, 10), (2, 10)],
    after: b"",
    cuts: &[],
    reads: &[],
    writes: &[],
};

const TWO_CUT: Comes<'static> = Comes {
    cuts: &[16; 8],
    ..TWO
};

/// What a connection of two requests leaves that is whole.
const WHOLE: Left<'static> = Left {
    read: ENDED,
    write: WriteEnd::Done,
    heard: 2,
    output: &[REPLY_1, REPLY_2],
};

/// What a connection leaves of which a read failed before the end of its first request, of its second, and after that.
const NONE_READ: Left<'static> = Left {
    read: ReadSideEnd::Read(ReadEnd::ReadFault),
    heard: 0,
    output: &[],
    ..WHOLE
};

const ONE_READ: Left<'static> = Left {
    heard: 1,
    output: &[REPLY_1],
    ..NONE_READ
};

const BOTH_READ: Left<'static> = Left {
    heard: 2,
    output: &[REPLY_1, REPLY_2],
    ..NONE_READ
};

const BOTH_SERVED: &[SlotEnd] = &[SlotEnd::Served, SlotEnd::Served];

/// What a run leaves of whose first connection no request was read, one or both, and whose second is whole.
const NONE_CAME: &[Came<'static>] = &[Came {
    conns: &[NONE_READ, WHOLE],
    finished: 2,
    ends: BOTH_SERVED,
}];

const ONE_CAME: &[Came<'static>] = &[Came {
    conns: &[ONE_READ, WHOLE],
    finished: 3,
    ends: BOTH_SERVED,
}];

const BOTH_CAME: &[Came<'static>] = &[Came {
    conns: &[BOTH_READ, WHOLE],
    finished: 4,
    ends: BOTH_SERVED,
}];

/// The slot of the second connection.
const SECOND: Slot<'static> = Slot {
    links: &[TWO_CUT],
    failing: &[],
};

/// Each read of the first connection fails in turn. The first request ends in the fourth read, at 60 bytes, and the second in the eighth,
/// at 120; the ninth would be the end.
const FAILED_READS: &[Row<'static>] = &[
    Row {
        config: DAY_PAIR,
        slots: &[
            Slot {
                links: &[Comes {
                    reads: &[0],
                    ..TWO_CUT
                }],
                failing: &[],
            },
            SECOND,
        ],
        came: NONE_CAME,
    },
    Row {
        config: DAY_PAIR,
        slots: &[
            Slot {
                links: &[Comes {
                    reads: &[1],
                    ..TWO_CUT
                }],
                failing: &[],
            },
            SECOND,
        ],
        came: NONE_CAME,
    },
    Row {
        config: DAY_PAIR,
        slots: &[
            Slot {
                links: &[Comes {
                    reads: &[2],
                    ..TWO_CUT
                }],
                failing: &[],
            },
            SECOND,
        ],
        came: NONE_CAME,
    },
    Row {
        config: DAY_PAIR,
        slots: &[
            Slot {
                links: &[Comes {
                    reads: &[3],
                    ..TWO_CUT
                }],
                failing: &[],
            },
            SECOND,
        ],
        came: NONE_CAME,
    },
    Row {
        config: DAY_PAIR,
        slots: &[
            Slot {
                links: &[Comes {
                    reads: &[4],
                    ..TWO_CUT
                }],
                failing: &[],
            },
            SECOND,
        ],
        came: ONE_CAME,
    },
    Row {
        config: DAY_PAIR,
        slots: &[
            Slot {
                links: &[Comes {
                    reads: &[5],
                    ..TWO_CUT
                }],
                failing: &[],
            },
            SECOND,
        ],
        came: ONE_CAME,
    },
    Row {
        config: DAY_PAIR,
        slots: &[
            Slot {
                links: &[Comes {
                    reads: &[6],
                    ..TWO_CUT
                }],
                failing: &[],
            },
            SECOND,
        ],
        came: ONE_CAME,
    },
    Row {
        config: DAY_PAIR,
        slots: &[
            Slot {
                links: &[Comes {
                    reads: &[7],
                    ..TWO_CUT
                }],
                failing: &[],
            },
            SECOND,
        ],
        came: ONE_CAME,
    },
    Row {
        config: DAY_PAIR,
        slots: &[
            Slot {
                links: &[Comes {
                    reads: &[8],
                    ..TWO_CUT
                }],
                failing: &[],
            },
            SECOND,
        ],
        came: BOTH_CAME,
    },
];

#[test]
fn a_failed_read_ends_its_own_connection_alone(rt: HostRuntime) {
    assert!(&rt; all_hold(&rt, rt.alloc(), FAILED_READS));
}

/// A slot to which this link comes.
const PLAIN: Slot<'static> = Slot {
    links: &[TWO],
    failing: &[],
};

/// A first accept that fails; a sink that fails after its first reply; and three calls for two connections of two requests each, of which
/// either may have its second answered Closing.
const ROWS: &[Row<'static>] = &[
    Row {
        config: DAY_PAIR,
        slots: &[
            Slot {
                links: &[TWO],
                failing: &[0],
            },
            PLAIN,
        ],
        came: &[Came {
            conns: &[WHOLE],
            finished: 2,
            ends: &[SlotEnd::AcceptFault, SlotEnd::Served],
        }],
    },
    Row {
        config: DAY_PAIR,
        slots: &[
            Slot {
                links: &[Comes {
                    writes: &[1],
                    ..TWO
                }],
                failing: &[],
            },
            PLAIN,
        ],
        came: &[Came {
            conns: &[
                Left {
                    write: WriteEnd::WriteFault(LastCollect::Done),
                    output: &[REPLY_1],
                    ..WHOLE
                },
                WHOLE,
            ],
            finished: 4,
            ends: &[SlotEnd::Served, SlotEnd::Served],
        }],
    },
    Row {
        config: THREE_CALLS,
        slots: &[PLAIN, PLAIN],
        came: &[
            Came {
                conns: &[WHOLE, CLOSED],
                finished: 3,
                ends: &[SlotEnd::Served, SlotEnd::Closed],
            },
            Came {
                conns: &[CLOSED, WHOLE],
                finished: 3,
                ends: &[SlotEnd::Closed, SlotEnd::Served],
            },
        ],
    },
];

/// What a connection leaves whose second request was answered Closing.
const CLOSED: Left<'static> = Left {
    read: ReadSideEnd::RunClosed,
    write: WriteEnd::Closed,
    heard: 1,
    output: &[REPLY_1, CLOSE],
};

#[test]
fn what_fails_or_is_closed_leaves_the_others_whole(rt: HostRuntime) {
    assert!(&rt; all_hold(&rt, rt.alloc(), ROWS));
}

/// One request of 60 bytes, after which a link lies or breaks off, and none before that.
const ONE: Comes<'static> = Comes {
    requests: &[(1, 10)],
    ..TWO
};

const NONE: Comes<'static> = Comes {
    requests: &[],
    ..TWO
};

/// What a connection leaves that is whole after one request, and that is broken after it.
const ONE_WHOLE: Left<'static> = Left {
    heard: 1,
    output: &[REPLY_1],
    ..WHOLE
};

const BROKEN: Left<'static> = Left {
    write: WriteEnd::Error,
    output: &[REPLY_1, ERROR],
    ..ONE_WHOLE
};

/// A slot of two links that are whole, of which one is read by 16 bytes.
const SECOND_TWICE: Slot<'static> = Slot {
    links: &[TWO_CUT, TWO],
    failing: &[],
};

/// What lies or breaks off after its first request, or before it; the next link of the same slot, and those of the other slot, are whole.
/// CORBA 3.0.3, section 15.4; what ends a connection in silence is own profile.
const LIES: &[Row<'static>] = &[
    // A header of no GIOP.
    Row {
        config: DAY_TWICE,
        slots: &[
            Slot {
                links: &[
                    Comes {
                        after: b"GIOX\x01\x02\0\0\0\0\0\0",
                        ..ONE
                    },
                    TWO,
                ],
                failing: &[],
            },
            SECOND_TWICE,
        ],
        came: &[Came {
            conns: &[
                Left {
                    read: ReadSideEnd::Read(ReadEnd::Ended(Ending::Broken {
                        offset: 60,
                        fault: Fault::Frame(FrameCause::BadMagic),
                    })),
                    ..BROKEN
                },
                WHOLE,
                WHOLE,
                WHOLE,
            ],
            finished: 7,
            ends: BOTH_SERVED,
        }],
    },
    // A Fragment of no unfinished message.
    Row {
        config: DAY_TWICE,
        slots: &[
            Slot {
                links: &[
                    Comes {
                        after: b"GIOP\x01\x02\0\x07\0\0\0\x04\0\0\0\x01",
                        ..ONE
                    },
                    TWO,
                ],
                failing: &[],
            },
            SECOND_TWICE,
        ],
        came: &[Came {
            conns: &[
                Left {
                    read: ReadSideEnd::Read(ReadEnd::Ended(Ending::Broken {
                        offset: 60,
                        fault: Fault::Frame(FrameCause::BadPiece),
                    })),
                    ..BROKEN
                },
                WHOLE,
                WHOLE,
                WHOLE,
            ],
            finished: 7,
            ends: BOTH_SERVED,
        }],
    },
    // A LocateRequest for a key of 2^32 - 1 bytes.
    Row {
        config: DAY_TWICE,
        slots: &[
            Slot {
                links: &[
                    Comes {
                        after: b"GIOP\x01\x02\0\x03\0\0\0\x0c\0\0\0\x02\0\0\0\0\xff\xff\xff\xff",
                        ..ONE
                    },
                    TWO,
                ],
                failing: &[],
            },
            SECOND_TWICE,
        ],
        came: &[Came {
            conns: &[
                Left {
                    read: ReadSideEnd::Read(ReadEnd::Ended(Ending::Broken {
                        offset: 60,
                        fault: Fault::Message(CdrCause::TooMany),
                    })),
                    ..BROKEN
                },
                WHOLE,
                WHOLE,
                WHOLE,
            ],
            finished: 7,
            ends: BOTH_SERVED,
        }],
    },
    // A LocateReply, which a server alone sends.
    Row {
        config: DAY_TWICE,
        slots: &[
            Slot {
                links: &[
                    Comes {
                        after: b"GIOP\x01\x02\0\x04\0\0\0\x08\0\0\0\x01\0\0\0\x01",
                        ..ONE
                    },
                    TWO,
                ],
                failing: &[],
            },
            SECOND_TWICE,
        ],
        came: &[Came {
            conns: &[
                Left {
                    read: ReadSideEnd::Read(ReadEnd::Ended(Ending::Broken {
                        offset: 60,
                        fault: Fault::WrongWay,
                    })),
                    ..BROKEN
                },
                WHOLE,
                WHOLE,
                WHOLE,
            ],
            finished: 7,
            ends: BOTH_SERVED,
        }],
    },
    // An end after a first piece.
    Row {
        config: DAY_TWICE,
        slots: &[
            Slot {
                links: &[
                    Comes {
                        after: b"GIOP\x01\x02\x02\0\0\0\0\x0c\0\0\0\x02\x03\0\0\0\0\0\0\0",
                        ..ONE
                    },
                    TWO,
                ],
                failing: &[],
            },
            SECOND_TWICE,
        ],
        came: &[Came {
            conns: &[
                Left {
                    read: ReadSideEnd::Read(ReadEnd::Ended(Ending::Cut(60))),
                    ..ONE_WHOLE
                },
                WHOLE,
                WHOLE,
                WHOLE,
            ],
            finished: 7,
            ends: BOTH_SERVED,
        }],
    },
    // A CloseConnection, after which nothing is looked at.
    Row {
        config: DAY_TWICE,
        slots: &[
            Slot {
                links: &[
                    Comes {
                        after: b"GIOP\x01\x02\0\x05\0\0\0\0rubbish that is no GIOP",
                        ..ONE
                    },
                    TWO,
                ],
                failing: &[],
            },
            SECOND_TWICE,
        ],
        came: &[Came {
            conns: &[ONE_WHOLE, WHOLE, WHOLE, WHOLE],
            finished: 7,
            ends: BOTH_SERVED,
        }],
    },
    // An end within the first header: nothing is heard, and nothing said.
    Row {
        config: DAY_TWICE,
        slots: &[
            Slot {
                links: &[
                    Comes {
                        after: b"GIOP\x01\x02\0",
                        ..NONE
                    },
                    TWO,
                ],
                failing: &[],
            },
            SECOND_TWICE,
        ],
        came: &[Came {
            conns: &[
                Left {
                    read: ReadSideEnd::Read(ReadEnd::Ended(Ending::Cut(0))),
                    heard: 0,
                    output: &[],
                    ..WHOLE
                },
                WHOLE,
                WHOLE,
                WHOLE,
            ],
            finished: 6,
            ends: BOTH_SERVED,
        }],
    },
    // A priority without a reading costs its request alone, which isn't offered.
    Row {
        config: DAY_TWICE,
        slots: &[
            Slot {
                links: &[
                    Comes {
                        after: b"GIOP\x01\x02\0\0\0\0\0\x2c\0\0\0\x02\x03\0\0\0\0\0\0\0\0\0\0\x04ping\0\0\0\x08current\0\0\0\0\x01\0\0\0\x0a\0\0\0\0",
                        ..NONE
                    },
                    TWO,
                ],
                failing: &[],
            },
            SECOND_TWICE,
        ],
        came: &[Came {
            conns: &[
                Left {
                    heard: 0,
                    output: &[MARSHAL_2],
                    ..WHOLE
                },
                WHOLE,
                WHOLE,
                WHOLE,
            ],
            finished: 6,
            ends: BOTH_SERVED,
        }],
    },
];

#[test]
fn a_lie_ends_its_own_connection_alone(rt: HostRuntime) {
    assert!(&rt; all_hold(&rt, rt.alloc(), LIES));
}

/// A second accept that fails, after a connection that is whole; and a connection of which both a read and the first write fail, by which
/// both requests are carried out and nothing is written.
const LATER_FAULTS: &[Row<'static>] = &[
    Row {
        config: DAY_TWICE,
        slots: &[
            Slot {
                links: &[TWO, TWO],
                failing: &[1],
            },
            SECOND_TWICE,
        ],
        came: &[Came {
            conns: &[WHOLE, WHOLE, WHOLE],
            finished: 6,
            ends: &[SlotEnd::AcceptFault, SlotEnd::Served],
        }],
    },
    Row {
        config: DAY_TWICE,
        slots: &[
            Slot {
                links: &[
                    Comes {
                        reads: &[8],
                        writes: &[0],
                        ..TWO_CUT
                    },
                    TWO,
                ],
                failing: &[],
            },
            SECOND_TWICE,
        ],
        came: &[Came {
            conns: &[
                Left {
                    write: WriteEnd::WriteFault(LastCollect::Done),
                    output: &[],
                    ..BOTH_READ
                },
                WHOLE,
                WHOLE,
                WHOLE,
            ],
            finished: 8,
            ends: BOTH_SERVED,
        }],
    },
];

#[test]
fn a_slot_goes_on_after_a_fault_of_a_connection_and_not_of_an_accept(rt: HostRuntime) {
    assert!(&rt; all_hold(&rt, rt.alloc(), LATER_FAULTS));
}

/// Ten requests over the three lanes, the priority by the id.
const TEN: Comes<'static> = Comes {
    requests: &[
        (1, 20),
        (2, 30),
        (3, 10),
        (4, 20),
        (5, 30),
        (6, 10),
        (7, 20),
        (8, 30),
        (9, 10),
        (10, 20),
    ],
    ..TWO
};

const SIXTEEN: Slot<'static> = Slot {
    links: &[TEN; 16],
    failing: &[],
};

const STORM: &[Slot<'static>] = &[SIXTEEN; 8];

#[test]
fn a_storm_is_answered_whole(rt: HostRuntime) {
    assert!(&rt; leaves(&rt, rt.alloc(), DAY_STORM, STORM, Wanted::Storm));
}
