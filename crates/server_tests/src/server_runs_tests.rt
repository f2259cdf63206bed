//! A run over a net in memory, and the numbers of a history.
ghost use Rattle.orb_base.specs.declared.outcome.Outcome.TheVariants.{Returned};
ghost use Rattle.std.specs.Prelude.{[]};

use adapter_policies::{Setup, read_setup};
use lane_machine::{How, LaneCall, LaneReply, Lanes};
use object_lines::{Address, read_address};
use orb_base::{
    Completed, ConnId, Job, List, MemAcceptor, MemLink, MemSink, MemSource, NoMemory, Outcome,
    Serving, SharedOctets, Sys, SysName, Text,
};
use orb_nets::{MemNet, MemSlot};
use orb_server::{ConnLog, Run, SlotEnd};
use server_runs::*;
use std::alloc::Global;
use std::collections::LinkedList;
use std::sync::Wait;
use std::thread::Threads;
use turn_cell::Entry;

/// Answers each request with an empty body.
#[derive(Drop)]
struct Quick {
    alloc: Global,
}

impl Serving for Quick {
    ghost outcome = { λ _ _ _. Returned [] };

    fn invoke(&self, _interface: &Text, _job: &Job) -> Outcome {
        match SharedOctets::new(self.alloc, List::new(self.alloc)) {
            Ok(body) => Outcome::Returned(body),
            Err(NoMemory) => Outcome::System(Sys {
                name: SysName::NoMemory,
                minor: 1,
                completed: Completed::Maybe,
            }),
        }
    }
}

/// One slot of one connection, one thread, and room for two requests.
const ONE: &[u8] =
    b"server = { slots = 1, per_slot = 1 }\npool = { static = 1, dynamic = 0, default_priority = 100, buffering = true, max_buffered_requests = 2, max_request_buffer_size = 1024 }\nadapter = [{ name = \"main\", model = \"CLIENT_PROPAGATED\", priority = 100 }]\nobject = [{ key = \"ping\", adapter = \"main\", interface = \"i\" }]\n";

/// One slot of two connections, one thread, and runs that hear one call.
const ONE_CALL: &[u8] =
    b"server = { slots = 1, per_slot = 2, max_calls = 1 }\npool = { static = 1, dynamic = 0, default_priority = 100 }\nadapter = [{ name = \"main\", model = \"CLIENT_PROPAGATED\", priority = 100 }]\nobject = [{ key = \"ping\", adapter = \"main\", interface = \"i\" }]\n";

/// The request of id 1 for `current` of `ping`, its reply without a body, and CloseConnection: CORBA 3.0.3, sections 15.4.2, 15.4.3 and
/// 15.4.7.
const PING: &[u8] =
    b"GIOP\x01\x02\0\0\0\0\0\x24\0\0\0\x01\x03\0\0\0\0\0\0\0\0\0\0\x04ping\0\0\0\x08current\0\0\0\0\0";

const REPLY: &[u8] = b"GIOP\x01\x02\0\x01\0\0\0\x0c\0\0\0\x01\0\0\0\0\0\0\0\0";

const CLOSE: &[u8] = b"GIOP\x01\x02\0\x05\0\0\0\0";

const LINE: &str = "calls 1 run 1 lent 0 kept 0 full 0 removed 0 connections 1\n";

const TWICE: &str =
    "calls 1 run 1 lent 0 kept 0 full 0 removed 0 connections 1\ncalls 1 run 1 lent 0 kept 0 full 0 removed 0 connections 1\n";

/// The lines of a run that serves, and of one to which no link comes.
const ALONE: &str =
    "calls 1 run 1 lent 0 kept 0 full 0 removed 0 connections 1\ncalls 0 run 0 lent 0 kept 0 full 0 removed 0 connections 0\n";

/// The lines of a run that meets its limit at its second connection, and of one that serves the next.
const LIMITS: &str =
    "calls 1 run 1 lent 0 kept 0 full 0 removed 0 connections 2\ncalls 1 run 1 lent 0 kept 0 full 0 removed 0 connections 1\n";

/// The trace of a run to which no link comes: the slot leaves, and then the worker learns that nothing comes any more.
const TRACE: &str =
    "pool 0 0 1 2 1024 65536 67108864 1 1\nlane 100 1 0\n1 leave 0\n2 take 0 ended\nentries 2\n";

const TRACED: &str =
    "pool 0 0 1 2 1024 65536 67108864 1 1\nlane 100 1 0\n1 leave 0\n2 take 0 ended\nentries 2\ncalls 0 run 0 lent 0 kept 0 full 0 removed 0 connections 0\n";

/// A run that ended: what each of its connections was sent, in order, and how its slot came out.
type Made = (&'static [&'static [u8]], SlotEnd);

/// A server of one slot, to which so many links come, by a plan of so many runs, over a net whose calls of these numbers fail, and with
/// lines whose writes of these numbers fail: how it comes out, what is written, the runs that ended, and how many acceptors the net gives.
#[derive(Clone, Copy)]
struct Row {
    links: usize,
    runs: u16,
    trace: bool,
    failing: &'static [u64],
    writes: &'static [u64],
    end: ServeEnd,
    lines: &'static str,
    made: &'static [Made],
    acceptors: usize,
}

fn numbers(alloc: Global, all: &[u64]) -> Option<List<u64>> {
    match Vec::from_slice(alloc, all) {
        Ok(all) => Some(List::from_vec(all)),
        Err(_) => None,
    }
}

/// The link by which the request comes.
fn link(alloc: Global) -> Option<MemLink> {
    match Vec::from_slice(alloc, PING) {
        Ok(bytes) => Some(MemLink::new(
            MemSource::new(List::from_vec(bytes), List::new(alloc), List::new(alloc)),
            MemSink::new(alloc, List::new(alloc), List::new(alloc)),
        )),
        Err(_) => None,
    }
}

fn add_link(alloc: Global, links: &mut LinkedList<MemLink>) -> bool {
    match link(alloc) {
        Some(link) => links.push_back(link).is_ok(),
        None => false,
    }
}

fn add_links(alloc: Global, links: &mut LinkedList<MemLink>, count: usize) -> bool {
    for _ in 0..count {
        if !add_link(alloc, links) {
            return false;
        }
    }
    true
}

/// A slot with so many of these links.
fn slot(alloc: Global, count: usize) -> Option<MemSlot> {
    let mut links = LinkedList::new(alloc);
    if add_links(alloc, &mut links, count) {
        Some(MemSlot {
            links,
            failing: List::new(alloc),
        })
    } else {
        None
    }
}

fn add_slot(alloc: Global, slots: &mut LinkedList<MemSlot>, links: usize) -> bool {
    match slot(alloc, links) {
        Some(slot) => slots.push_back(slot).is_ok(),
        None => false,
    }
}

fn slots(alloc: Global, links: usize) -> Option<LinkedList<MemSlot>> {
    let mut slots = LinkedList::new(alloc);
    if add_slot(alloc, &mut slots, links) {
        Some(slots)
    } else {
        None
    }
}

/// A net with that slot, and whose calls of these numbers fail.
fn net(alloc: Global, links: usize, failing: &[u64]) -> Option<MemNet> {
    let failing = numbers(alloc, failing)?;
    match slots(alloc, links) {
        Some(slots) => Some(MemNet::new(alloc, slots, LinkedList::new(alloc), failing)),
        None => None,
    }
}

fn same(held: &[u8], want: &[u8]) -> bool {
    held == want
}

/// Whether this is the connection of this number of the first slot, this was sent to it, and its sink was closed once.
fn is_sent(log: &ConnLog<MemSource, MemSink>, nth: usize, want: &[u8]) -> bool {
    log.id.slot == 0
        && usize::from(log.id.nth) == nth
        && log.sink.closes == 1
        && same(log.sink.held(), want)
}

fn are_sent(logs: &[ConnLog<MemSource, MemSink>], want: &[&[u8]]) -> bool {
    for (nth, log) in logs.iter().enumerate() {
        if nth >= want.len() || !is_sent(log, nth, want[nth]) {
            return false;
        }
    }
    logs.len() == want.len()
}

fn is_made(run: &Run<MemSource, MemSink>, made: Made) -> bool {
    let (sent, end) = made;
    are_sent(run.conns.as_slice(), sent) && run.slots.as_slice() == [end].as_slice()
}

fn are_made(runs: &[Run<MemSource, MemSink>], made: &[Made]) -> bool {
    for (nth, run) in runs.iter().enumerate() {
        if nth >= made.len() || !is_made(run, made[nth]) {
            return false;
        }
    }
    runs.len() == made.len()
}

fn comes_out(served: &Served<MemAcceptor, MemSource, MemSink>, row: &Row) -> bool {
    are_made(served.runs.as_slice(), row.made)
        && served.end == row.end
        && served.acceptors.len() == row.acceptors
}

/// What a server is given beside its net and its output.
#[derive(Drop)]
struct Given<'a> {
    setup: &'a Setup,
    at: &'a Address,
    plan: RunPlan,
}

fn serves<R: Wait + Threads + Sync>(
    rt: &R,
    alloc: Global,
    given: &Given<'_>,
    net: &mut MemNet,
    out: &mut MemSink,
    row: &Row,
) -> bool {
    let quick = Quick { alloc };
    let served = serve_at(
        rt,
        alloc,
        net,
        given.setup,
        &quick,
        given.at,
        &given.plan,
        out,
    );
    comes_out(&served, row) && same(out.held(), row.lines.as_bytes())
}

fn serves_net<R: Wait + Threads + Sync>(
    rt: &R,
    alloc: Global,
    given: &Given<'_>,
    net: &mut MemNet,
    row: &Row,
) -> bool {
    match numbers(alloc, row.writes) {
        Some(failing) => {
            let mut out = MemSink::new(alloc, List::new(alloc), failing);
            serves(rt, alloc, given, net, &mut out, row)
        }
        None => false,
    }
}

fn serves_by<R: Wait + Threads + Sync>(
    rt: &R,
    alloc: Global,
    given: &Given<'_>,
    row: &Row,
) -> bool {
    match net(alloc, row.links, row.failing) {
        Some(mut net) => serves_net(rt, alloc, given, &mut net, row),
        None => false,
    }
}

fn serves_at<R: Wait + Threads + Sync>(
    rt: &R,
    alloc: Global,
    setup: &Setup,
    at: &Address,
    row: &Row,
) -> bool {
    match RunCount::new(row.runs) {
        Some(runs) => {
            let plan = RunPlan {
                runs,
                trace: row.trace,
            };
            let given = Given { setup, at, plan };
            serves_by(rt, alloc, &given, row)
        }
        None => false,
    }
}

fn each_holds<R: Wait + Threads + Sync>(
    rt: &R,
    alloc: Global,
    setup: &Setup,
    at: &Address,
    rows: &[Row],
) -> bool {
    for row in rows {
        if !serves_at(rt, alloc, setup, at, row) {
            return false;
        }
    }
    true
}

fn hold_over<R: Wait + Threads + Sync>(rt: &R, alloc: Global, setup: &Setup, rows: &[Row]) -> bool {
    match read_address(alloc, b"h:7") {
        Ok(Some(at)) => each_holds(rt, alloc, setup, &at, rows),
        _ => false,
    }
}

fn all_hold<R: Wait + Threads + Sync>(rt: &R, alloc: Global, config: &[u8], rows: &[Row]) -> bool {
    match read_setup(alloc, config) {
        Ok(setup) => hold_over(rt, alloc, &setup, rows),
        Err(_) => false,
    }
}

const SERVED: Made = (&[REPLY], SlotEnd::Served);

const PLAIN: Row = Row {
    links: 1,
    runs: 1,
    trace: false,
    failing: &[],
    writes: &[],
    end: ServeEnd::Done,
    lines: LINE,
    made: &[SERVED],
    acceptors: 1,
};

const RUNS: &[Row] = &[
    PLAIN,
    // One link for each of two runs, and one more than that.
    Row {
        links: 2,
        runs: 2,
        lines: TWICE,
        made: &[SERVED, SERVED],
        ..PLAIN
    },
    Row {
        links: 3,
        runs: 2,
        lines: TWICE,
        made: &[SERVED, SERVED],
        ..PLAIN
    },
    // A run to which no link comes isn't followed by another.
    Row {
        runs: 2,
        lines: ALONE,
        made: &[SERVED, (&[], SlotEnd::Done)],
        ..PLAIN
    },
    Row {
        runs: 3,
        lines: ALONE,
        made: &[SERVED, (&[], SlotEnd::Done)],
        ..PLAIN
    },
    Row {
        links: 0,
        runs: 16,
        trace: true,
        lines: TRACED,
        made: &[(&[], SlotEnd::Done)],
        ..PLAIN
    },
];

#[test]
fn runs_follow_each_other_and_are_counted(rt: HostRuntime) {
    runs_without_fault_are_complete::<MemAcceptor>();
    runs_follow_each_other::<MemAcceptor>();
    assert!(&rt; all_hold(&rt, rt.alloc(), ONE, RUNS));
}

const LIMITED: &[Row] = &[Row {
    links: 3,
    runs: 3,
    lines: LIMITS,
    made: &[
        (&[REPLY, CLOSE], SlotEnd::Closed),
        (&[REPLY], SlotEnd::Done),
    ],
    ..PLAIN
}];

#[test]
fn a_client_that_was_sent_away_is_served_by_the_next_run(rt: HostRuntime) {
    assert!(&rt; all_hold(&rt, rt.alloc(), ONE_CALL, LIMITED));
}

const FAULTS: &[Row] = &[
    Row {
        runs: 2,
        failing: &[0],
        end: ServeEnd::NetFault,
        lines: "",
        made: &[],
        acceptors: 0,
        ..PLAIN
    },
    // A summary can't be written: no run follows, and those that ended stay.
    Row {
        links: 2,
        runs: 2,
        failing: &[1],
        writes: &[0],
        end: ServeEnd::WriteFault,
        lines: "",
        ..PLAIN
    },
    Row {
        links: 3,
        runs: 3,
        writes: &[1],
        end: ServeEnd::WriteFault,
        made: &[SERVED, SERVED],
        ..PLAIN
    },
    // A trace can't be written, and what follows a trace.
    Row {
        trace: true,
        writes: &[0],
        end: ServeEnd::WriteFault,
        lines: "",
        ..PLAIN
    },
    Row {
        links: 0,
        trace: true,
        writes: &[1],
        end: ServeEnd::WriteFault,
        lines: TRACE,
        made: &[(&[], SlotEnd::Done)],
        ..PLAIN
    },
];

#[test]
fn what_fails_ends_the_server(rt: HostRuntime) {
    assert!(&rt; all_hold(&rt, rt.alloc(), ONE, FAULTS));
}

fn is_count(runs: u16) -> bool {
    match RunCount::new(runs) {
        Some(count) => u16::from(count.count()) == runs,
        None => false,
    }
}

#[test]
fn a_server_makes_1_to_16_runs(rt: HostRuntime) {
    assert!(rt; is_count(1) && is_count(16) && RunCount::one().count() == 1);
    assert!(rt; RunCount::new(0).is_none() && RunCount::new(17).is_none());
}

const CONN: ConnId = ConnId { slot: 0, nth: 0 };

/// An entry: a cancel, a leave that is answered so, or the end of a connection.
#[derive(Clone, Copy)]
enum Kind {
    Removed,
    Nothing,
    Closing,
    Run(u8, bool),
    Kept,
    Full,
    End(How),
}

fn call_of(kind: Kind) -> LaneCall {
    match kind {
        Kind::Removed | Kind::Nothing | Kind::Closing => LaneCall::Cancel { conn: CONN, id: 1 },
        Kind::End(how) => LaneCall::End { conn: CONN, how },
        _ => LaneCall::Leave { slot: 0 },
    }
}

fn reply_of(kind: Kind) -> LaneReply {
    match kind {
        Kind::Removed => LaneReply::Removed,
        Kind::Nothing => LaneReply::Nothing,
        Kind::Closing => LaneReply::Closing,
        Kind::Run(thread, lent) => LaneReply::Run { thread, lent },
        Kind::Kept => LaneReply::Kept,
        Kind::Full => LaneReply::Full,
        Kind::End(_) => LaneReply::Noted,
    }
}

const HISTORY: [Kind; 10] = [
    Kind::Removed,
    Kind::Nothing,
    Kind::Closing,
    Kind::Run(0, false),
    Kind::Run(1, true),
    Kind::Run(2, true),
    Kind::Kept,
    Kind::Full,
    Kind::End(How::Quiet),
    Kind::End(How::Bad),
];

fn add(history: &mut List<Entry<Lanes>>, kind: Kind) -> bool {
    history
        .push(Entry {
            caller: 1,
            call: call_of(kind),
            reply: reply_of(kind),
        })
        .is_ok()
}

fn add_each(history: &mut List<Entry<Lanes>>) -> bool {
    for kind in HISTORY {
        if !add(history, kind) {
            return false;
        }
    }
    true
}

fn reads(alloc: Global, history: &[Entry<Lanes>], want: &str) -> bool {
    match summary_of(history).to_string(alloc) {
        Ok(text) => text.as_str() == want,
        Err(_) => false,
    }
}

fn counts_each(alloc: Global) -> bool {
    let mut history = List::new(alloc);
    add_each(&mut history)
        && reads(
            alloc,
            history.as_slice(),
            "calls 2 run 1 lent 2 kept 1 full 1 removed 1 connections 2\n",
        )
}

#[test]
fn each_kind_of_entry_is_counted(rt: HostRuntime) {
    assert!(rt; counts_each(rt.alloc()));
}
