//! Runs over setups in memory: who ran what, and what was written.
ghost use Rattle.std.specs.Prelude.{IfSome};
ghost use Rattle.pipe_laws.specs.Setup.{pipe_conn};
ghost use Rattle.pipe_laws.specs.Legality.{IsHeardCall, AreHeardCalls};

use crate::samples::{Quick, is_joined, numbers};
use adapter_policies::{Setup, read_setup};
use lane_driver::*;
use lane_machine::{How, LaneCall, LaneReply};
use orb_base::{Arc, Due, Job, List, MemSink, Notice, Order, Outcome, Priority, Text, What};
use std::alloc::Global;

/// One static thread without lanes, a buffer for nine requests, one adapter and its object.
const FLAT: &[u8] =
    b"[pool]\nstatic = 1\ndynamic = 0\ndefault_priority = 0\nbuffering = true\nmax_buffered_requests = 9\nmax_request_buffer_size = 900\n[[adapter]]\nname = \"a\"\nmodel = \"CLIENT_PROPAGATED\"\npriority = 0\n[[object]]\nkey = \"k\"\nadapter = \"a\"\ninterface = \"IDL:I:1.0\"\n";

/// A lane of priority 0 and one of priority 1, each of one static thread, with borrowing, and the same adapter and object.
const LANED: &[u8] =
    b"[pool]\nborrowing = true\nlanes = [{ priority = 0, static = 1, dynamic = 0 }, { priority = 1, static = 1, dynamic = 0 }]\n[[adapter]]\nname = \"a\"\nmodel = \"CLIENT_PROPAGATED\"\npriority = 0\n[[object]]\nkey = \"k\"\nadapter = \"a\"\ninterface = \"IDL:I:1.0\"\n";

/// The run hears one call.
const ONE_CALL: &[u8] =
    b"[server]\nmax_calls = 1\n[pool]\nstatic = 1\ndynamic = 0\ndefault_priority = 0\n[[adapter]]\nname = \"a\"\nmodel = \"CLIENT_PROPAGATED\"\npriority = 0\n[[object]]\nkey = \"k\"\nadapter = \"a\"\ninterface = \"IDL:I:1.0\"\n";

/// The replies of the ids 0, 1 and 2: NO_EXCEPTION, without contexts and body.
const REPLY_0: &[u8] = b"GIOP\x01\x02\0\x01\0\0\0\x0c\0\0\0\0\0\0\0\0\0\0\0\0";

const REPLY_1: &[u8] = b"GIOP\x01\x02\0\x01\0\0\0\x0c\0\0\0\x01\0\0\0\0\0\0\0\0";

const REPLY_2: &[u8] = b"GIOP\x01\x02\0\x01\0\0\0\x0c\0\0\0\x02\0\0\0\0\0\0\0\0";

/// The refusal of the id 2: TRANSIENT, minor 1, completed NO, which is 1.
const REFUSED_2: &[u8] =
    b"GIOP\x01\x02\0\x01\0\0\0\x38\0\0\0\x02\0\0\0\x02\0\0\0\0\0\0\0\x20IDL:omg.org/CORBA/TRANSIENT:1.0\0\0\0\0\x01\0\0\0\x01";

/// A LocateReply to the id 9: the object is here.
const HERE_9: &[u8] = b"GIOP\x01\x02\0\x04\0\0\0\x08\0\0\0\x09\0\0\0\x01";

/// NEEDS_ADDRESSING_MODE to the id 9, by the short 0.
const ADDRESSING_9: &[u8] = b"GIOP\x01\x02\0\x01\0\0\0\x0e\0\0\0\x09\0\0\0\x05\0\0\0\0\0\0";

const CLOSE: &[u8] = b"GIOP\x01\x02\0\x05\0\0\0\0";

const ERROR: &[u8] = b"GIOP\x01\x02\0\x06\0\0\0\0";

/// A request of this serial, which is its id, in a lane and of a priority.
fn offer(alloc: Global, setup: &Setup, serial: u32, lane: u8, level: i16) -> Option<LaneCall>
    ensures { IfSome result (λ call. IsHeardCall setup.now.pool pipe_conn call) }
{
    let pool = setup.pool();
    let priority = Priority::new(level)?;
    let spec = pool.lanes.get(usize::from(lane))?;
    let is_level = !pool.laned || spec.priority == priority;
    if !is_level {
        return None;
    }
    let job = Job {
        conn: PIPE_CONN,
        serial,
        id: serial,
        order: Order::Big,
        due: Due::Late,
        priority,
        lane,
        size: 48,
        target: 0,
        operation: Text::new(alloc, b"op").ok()?,
        body: List::new(alloc),
    };
    Some(LaneCall::Offer(Arc::new(alloc, job).ok()?))
}

/// An answer of the reading side to the id 9.
fn post(setup: &Setup, what: What) -> LaneCall
    ensures { IsHeardCall setup.now.pool pipe_conn result }
{
    LaneCall::Post(Notice {
        conn: PIPE_CONN,
        order: Order::Big,
        id: 9,
        what,
    })
}

/// How far a run came, which thread ran which serial, in order, and what was written.
struct Comes {
    course: Course,
    ran: &'static [(u8, u32)],
    written: &'static [&'static [u8]],
}

/// Which thread ran which serial, in order.
fn ran(alloc: Global, history: &[Noted]) -> Option<Vec<(u8, u32)>> {
    let mut all = Vec::new(alloc);
    for noted in history {
        match (&noted.call, &noted.reply) {
            (LaneCall::Take { thread }, LaneReply::Given(job)) => {
                all.push((*thread, job.get().serial)).ok()?
            }
            _ => {}
        }
    }
    Some(all)
}

fn has_ran(alloc: Global, history: &[Noted], want: &[(u8, u32)]) -> bool {
    match ran(alloc, history) {
        Some(ran) => ran.as_slice() == want,
        None => false,
    }
}

fn has_noted(alloc: Global, log: Log, want: &[(u8, u32)]) -> bool {
    match log.into_entries() {
        Some(history) => has_ran(alloc, history.as_slice(), want),
        None => false,
    }
}

/// Whether this comes of the calls in groups of so many.
fn comes_out(
    alloc: Global,
    setup: &Setup,
    batch: u8,
    calls: &[LaneCall],
    how: How,
    sink: &mut MemSink,
    want: &Comes,
) -> bool
    requires { AreHeardCalls setup.now.pool pipe_conn calls.now }
{
    if batch < 1 {
        return false;
    }
    let Ok(mut lanes) = open(alloc, setup) else {
        return false;
    };
    let quick = Quick { alloc };
    let mut log = Log::kept(alloc);
    run_calls(
        alloc, &mut lanes, &mut log, sink, setup, &quick, batch, calls, how,
    ) == Ok(want.course)
        && is_joined(sink.held(), want.written)
        && has_noted(alloc, log, want.ran)
}

/// The same where the writes of these numbers fail.
fn runs(
    alloc: Global,
    setup: &Setup,
    batch: u8,
    failing: &[u64],
    calls: &[LaneCall],
    how: How,
    want: &Comes,
) -> bool
    requires { AreHeardCalls setup.now.pool pipe_conn calls.now }
{
    match numbers(alloc, failing) {
        Some(failing) => {
            let mut sink = MemSink::new(alloc, List::new(alloc), failing);
            comes_out(alloc, setup, batch, calls, how, &mut sink, want)
        }
        None => false,
    }
}

fn returns_nothing(alloc: Global, setup: &Setup, job: &Job) -> bool {
    match invoke(alloc, setup, &Quick { alloc }, job) {
        Outcome::Returned(body) => body.as_slice().is_empty(),
        _ => false,
    }
}

fn is_invoked(alloc: Global, setup: &Setup, call: &LaneCall) -> bool {
    match call {
        LaneCall::Offer(job) => returns_nothing(alloc, setup, job.get()),
        _ => false,
    }
}

/// The third request is the most urgent, in one group and in groups of one.
const IN_ITS_GROUP: Comes = Comes {
    course: Course::Whole,
    ran: &[(0, 0), (0, 2), (0, 1)],
    written: &[REPLY_0, REPLY_2, REPLY_1],
};

const IN_TURN: Comes = Comes {
    course: Course::Whole,
    ran: &[(0, 0), (0, 1), (0, 2)],
    written: &[REPLY_0, REPLY_1, REPLY_2, ERROR],
};

fn overtakes(alloc: Global, setup: &Setup) -> Option<bool> {
    let calls = [
        offer(alloc, setup, 0, 0, 1)?,
        offer(alloc, setup, 1, 0, 1)?,
        offer(alloc, setup, 2, 0, 9)?,
    ];
    Some(
        runs(alloc, setup, 3, &[], &calls, How::Quiet, &IN_ITS_GROUP)
            && runs(alloc, setup, 1, &[], &calls, How::Bad, &IN_TURN)
            && is_invoked(alloc, setup, &calls[0]),
    )
}

const LENT: Comes = Comes {
    course: Course::Whole,
    ran: &[(0, 1), (1, 0)],
    written: &[REFUSED_2, REPLY_1, REPLY_0],
};

fn lends(alloc: Global, setup: &Setup) -> Option<bool> {
    let calls = [
        offer(alloc, setup, 0, 1, 1)?,
        offer(alloc, setup, 1, 1, 1)?,
        offer(alloc, setup, 2, 0, 0)?,
    ];
    Some(runs(alloc, setup, 8, &[], &calls, How::Quiet, &LENT))
}

const CLOSED: Comes = Comes {
    course: Course::Whole,
    ran: &[(0, 0)],
    written: &[REPLY_0, CLOSE],
};

/// The write of CloseConnection fails.
const STOPPED: Comes = Comes {
    course: Course::Stopped,
    ran: &[(0, 0)],
    written: &[REPLY_0],
};

fn closes(alloc: Global, setup: &Setup) -> Option<bool> {
    let calls = [
        offer(alloc, setup, 0, 0, 0)?,
        offer(alloc, setup, 1, 0, 0)?,
        post(setup, What::Bound),
    ];
    Some(
        runs(alloc, setup, 1, &[], &calls, How::Quiet, &CLOSED)
            && runs(alloc, setup, 1, &[1], &calls, How::Quiet, &STOPPED),
    )
}

const WITHDRAWN: Comes = Comes {
    course: Course::Whole,
    ran: &[(0, 0)],
    written: &[HERE_9, ADDRESSING_9, REPLY_0],
};

fn withdraws(alloc: Global, setup: &Setup) -> Option<bool> {
    let conn = PIPE_CONN;
    let calls = [
        offer(alloc, setup, 0, 0, 1)?,
        offer(alloc, setup, 1, 0, 1)?,
        LaneCall::Cancel { conn, id: 1 },
        post(setup, What::Located(true)),
        post(setup, What::Addressing),
    ];
    Some(runs(alloc, setup, 8, &[], &calls, How::Quiet, &WITHDRAWN))
}

/// What the calls of a connection come to.
#[derive(Clone, Copy)]
enum Story {
    Overtakes,
    Lends,
    Closes,
    Withdraws,
}

fn tells(alloc: Global, setup: &Setup, story: Story) -> Option<bool> {
    match story {
        Story::Overtakes => overtakes(alloc, setup),
        Story::Lends => lends(alloc, setup),
        Story::Closes => closes(alloc, setup),
        Story::Withdraws => withdraws(alloc, setup),
    }
}

fn holds(alloc: Global, config: &[u8], story: Story) -> bool {
    match read_setup(alloc, config) {
        Ok(setup) => tells(alloc, &setup, story) == Some(true),
        Err(_) => false,
    }
}

#[test]
fn an_urgent_request_overtakes_in_its_group(rt: HostRuntime) {
    assert!(rt; holds(rt.alloc(), FLAT, Story::Overtakes));
}

#[test]
fn a_lower_lane_lends_its_thread_and_refuses(rt: HostRuntime) {
    assert!(rt; holds(rt.alloc(), LANED, Story::Lends));
}

#[test]
fn a_run_closes_at_its_limit(rt: HostRuntime) {
    assert!(rt; holds(rt.alloc(), ONE_CALL, Story::Closes));
}

#[test]
fn a_cancelled_request_never_runs(rt: HostRuntime) {
    assert!(rt; holds(rt.alloc(), FLAT, Story::Withdraws));
}
