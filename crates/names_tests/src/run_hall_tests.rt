//! All slots of a hall, over memory.
ghost use Rattle.std.specs.Prelude.{◌≡◌, ◌+◌, ◌≤◌, length, IfSome};
ghost use Rattle.std.specs.List.{All};
ghost use Rattle.std.specs.Vec.{vec_capacity};
ghost use Rattle.halls.specs.Served.{IsJob};

use crate::echo::*;
use halls::*;
use link_slots::SlotEnd;
use orb_base::{List, MemAcceptor, MemLink, MemSink, MemSource};
use std::alloc::Global;
use std::collections::LinkedList;
use std::sync::Wait;
use std::sync::atomic::{AtomicU64, Ordering};
use std::test::*;
use std::thread::Threads;

/// One link of a slot, by its input.
fn add_link(alloc: Global, links: &mut LinkedList<MemLink>, input: &[&[u8]]) -> Option<()> {
    let source = source_of(alloc, input, 4096, &[])?;
    let sink = sink_of(alloc, &[])?;
    links.push_back(MemLink::new(source, sink)).ok()
}

/// A slot of a hand with two invocations, by the inputs of its links.
fn slot_of(
    alloc: Global,
    slot: u8,
    inputs: &[&[&[u8]]],
) -> Option<HallJob<MemAcceptor, Tally, MemSource, MemSink>>
    ensures { IfSome result (λ job. IsJob (λ t. Unit {0}) 2 job) }
{
    let mut links = LinkedList::new(alloc);
    for input in inputs {
        add_link(alloc, &mut links, input)?;
    }
    Some(HallJob {
        place: Tally::new(slot, 2),
        acceptor: MemAcceptor::new(links, 8, List::new(alloc)),
        logs: Vec::with_capacity(alloc, 2).ok()?,
    })
}

/// Puts a slot's job after the others, for which there is room.
fn add_job(
    jobs: &mut Vec<HallJob<MemAcceptor, Tally, MemSource, MemSink>>,
    job: HallJob<MemAcceptor, Tally, MemSource, MemSink>,
)
    requires kept { All (IsJob (λ t. Unit {0}) 2) jobs.old.items }
    requires job { IsJob (λ t. Unit {0}) 2 job }
    requires room { length jobs.old.items + 1 ≤ vec_capacity jobs.old }
    ensures kept { All (IsJob (λ t. Unit {0}) 2) jobs.new.items }
    ensures len { length jobs.new.items ≡ length jobs.old.items + 1 }
    ensures room { vec_capacity jobs.new ≡ vec_capacity jobs.old }
{
    jobs.push_reserved(job);
}

/// What the slots of a hall left.
type Left = Vec<HallDone<MemAcceptor, Tally, MemSource, MemSink>>;

/// Two slots: two links of one request each; and a link of three requests, which is one more than the hand has, with another one after it.
fn run_both<R: Wait + Threads + Sync>(rt: &R, alloc: Global) -> Option<Left> {
    let setup = setup_of(alloc, PLAIN)?;
    let hall = Echo {
        rt,
        alloc,
        setup: &setup,
    };
    let mut jobs = Vec::with_capacity(alloc, 2).ok()?;
    add_job(&mut jobs, slot_of(alloc, 0, &[&[EARLY_1], &[LATE_2]])?);
    add_job(
        &mut jobs,
        slot_of(alloc, 1, &[&[LATE_2, QUIET_3, EARLY_1], &[LATE_2]])?,
    );
    let done = Vec::with_capacity(alloc, 2).ok()?;
    Some(run_hall(rt, alloc, &hall, 2, jobs, done))
}

/// Whether a connection is the slot's of this number, and its sink holds these parts.
fn wrote(
    alloc: Global,
    log: &LinkLog<MemSource, MemSink>,
    slot: u8,
    nth: u8,
    parts: &[&[u8]],
) -> bool {
    match joined(alloc, parts) {
        Some(output) => {
            log.id.slot == slot && log.id.nth == nth && log.sink.held() == output.as_slice()
        }
        None => false,
    }
}

/// Whether both slots came out as they must.
fn both_come_out<R: Wait + Threads + Sync>(rt: &R, alloc: Global) -> bool {
    let Some(done) = run_both(rt, alloc) else {
        return false;
    };
    match done.as_slice() {
        [first, second] => {
            first.end == SlotEnd::Served
                && first.place.left == 0
                && second.end == SlotEnd::Closed
                && second.place.left == 0
                && match (first.logs.as_slice(), second.logs.as_slice()) {
                    ([a, b], [c]) => {
                        wrote(alloc, a, 0, 0, &[REPLY_1])
                            && wrote(alloc, b, 0, 1, &[REPLY_2])
                            && wrote(alloc, c, 1, 0, &[REPLY_2, CLOSE])
                    }
                    _ => false,
                }
        }
        _ => false,
    }
}

#[test]
fn slots_serve_links_until_a_limit_is_met(rt: HostRuntime) {
    assert!(rt; both_come_out(&rt, rt.alloc()));
}

/// Two slots of a link with one request each, in a hall where each waits for the other.
fn run_meeting<'x, R: Wait + Threads + Sync>(
    rt: &'x R,
    alloc: Global,
    begun: &'x AtomicU64,
    missed: &'x AtomicU64,
) -> Option<Left> {
    let setup = setup_of(alloc, PLAIN)?;
    let hall = Meeting {
        echo: Echo {
            rt,
            alloc,
            setup: &setup,
        },
        begun,
        missed,
    };
    let mut jobs = Vec::with_capacity(alloc, 2).ok()?;
    add_job(&mut jobs, slot_of(alloc, 0, &[&[LATE_2]])?);
    add_job(&mut jobs, slot_of(alloc, 1, &[&[LATE_2]])?);
    let done = Vec::with_capacity(alloc, 2).ok()?;
    Some(run_hall(rt, alloc, &hall, 2, jobs, done))
}

/// Whether both slots answered their request, and neither waited in vain.
fn both_meet<R: Wait + Threads + Sync>(rt: &R, alloc: Global) -> bool {
    let begun = AtomicU64::new(0);
    let missed = AtomicU64::new(0);
    let Some(done) = run_meeting(rt, alloc, &begun, &missed) else {
        return false;
    };
    let answered = match done.as_slice() {
        [first, second] => match (first.logs.as_slice(), second.logs.as_slice()) {
            ([a], [b]) => { wrote(alloc, a, 0, 0, &[REPLY_2]) && wrote(alloc, b, 1, 0, &[REPLY_2]) }
            _ => false,
        },
        _ => false,
    };
    answered && begun.load(Ordering::SeqCst) == 2 && missed.load(Ordering::SeqCst) == 0
}

#[test]
fn two_slots_invoke_at_once(rt: HostRuntime) {
    assert!(rt; both_meet(&rt, rt.alloc()));
}
