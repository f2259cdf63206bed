//! A run of several callers over one link.
ghost use Rattle.std.specs.Prelude.{◌≡◌, ◌≤◌, ◌+◌, [], length, IfOk, IfErr};
ghost use Rattle.std.specs.Vec.{vec_capacity};
ghost use Rattle.client_mux.specs.declared.limits.TheConstants.{MAX_CALLERS};
ghost use Rattle.mux_runs.specs.Callers as Callers;
ghost use Rattle.mux_runs.specs.Opened as Opened;
ghost use Rattle.mux_runs.specs.Runs as Spec;

use crate::jobs::{Asking, CallDone, CallJob, CallParts, give_calls, take_apart};
use crate::sides::{Crew, ReadSide, Sides, Start, WriteSide, run_sides};
use client_mux::{MuxCell, Why};
use mux_sides::{CallEnd, WriterEnd};
use orb_base::{List, NoMemory, Sink, Source};
use shared_link::{MuxSeat, RootSeat, Shared, open};
use std::alloc::Global;
use std::sync::Wait;
use std::thread::Threads;
use turn_cell::Entry;

/// What a run of several callers over one link leaves.
#[derive(Drop)]
pub struct MuxRun<I, O> {
    /// The one history of all calls of its callers, its writer and its reader.
    pub history: List<Entry<MuxCell>>,
    /// What came of each caller's call, in order.
    pub ends: List<CallEnd>,
    /// How the writer came out.
    pub write: WriterEnd,
    /// Why the reader lost the link.
    pub why: Why,
    pub source: I,
    pub sink: O,
}

/// An open link with room for what its callers leave.
#[derive(Drop)]
struct Prepared {
    shared: Shared,
    root: RootSeat,
    seats: Vec<MuxSeat>,
    writer: MuxSeat,
    reader: MuxSeat,
    jobs: Vec<CallJob>,
    done: Vec<CallDone>,
    parts: CallParts,
}

/// Opens a link for so many callers, and takes room for what they leave.
fn prepare(alloc: Global, callers: u8) -> Result<Prepared, NoMemory>
    requires some { 1 ≤ callers }
    requires few { callers ≤ MAX_CALLERS }
    ensures opened { IfOk result (λ p. Opened.IsReadyFor callers p.shared.cell p.root p.seats.items p.writer p.reader) }
    ensures rooms { IfOk result (λ p. (p.jobs.items ≡ []) × (callers ≤ vec_capacity p.jobs) × (p.done.items ≡ []) × (callers ≤ vec_capacity p.done)) }
    ensures parts { IfOk result (λ p. (p.parts.seats.items ≡ []) × (callers + 2 ≤ vec_capacity p.parts.seats)
        × (p.parts.ends.items ≡ []) × (callers ≤ vec_capacity p.parts.ends)) }
{
    let count = usize::from(callers);
    let opened = open(alloc, callers)?;
    let mut seats = opened.seats.into_vec();
    let Some(reader) = seats.pop() else {
        unreachable!()
    };
    let Some(writer) = seats.pop() else {
        unreachable!()
    };
    let Ok(jobs) = Vec::with_capacity(alloc, count) else {
        return Err(NoMemory);
    };
    let Ok(done) = Vec::with_capacity(alloc, count) else {
        return Err(NoMemory);
    };
    let Ok(back) = Vec::with_capacity(alloc, count + 2) else {
        return Err(NoMemory);
    };
    let Ok(ends) = Vec::with_capacity(alloc, count) else {
        return Err(NoMemory);
    };
    Ok(Prepared {
        shared: opened.shared,
        root: opened.root,
        seats,
        writer,
        reader,
        jobs,
        done,
        parts: CallParts { seats: back, ends },
    })
}

/// Runs all sides of a link, and closes it.
fn run_prepared<I: Source + Send + Drop, O: Sink + Send + Drop, R: Wait + Threads + Sync>(
    rt: &R,
    alloc: Global,
    prepared: Prepared,
    calls: Vec<Asking>,
    source: I,
    sink: O,
) -> MuxRun<I, O>
    requires opened { Opened.IsReadyFor (length calls.items) prepared.shared.cell prepared.root prepared.seats.items prepared.writer prepared.reader }
    requires short { Callers.AreShort calls.items }
    requires rooms { (prepared.jobs.items ≡ []) × (length calls.items ≤ vec_capacity prepared.jobs) × (prepared.done.items ≡ [])
        × (length calls.items ≤ vec_capacity prepared.done) }
    requires parts { (prepared.parts.seats.items ≡ []) × (length calls.items + 2 ≤ vec_capacity prepared.parts.seats)
        × (prepared.parts.ends.items ≡ []) × (length calls.items ≤ vec_capacity prepared.parts.ends) }
    ensures lawful { Spec.IsLawful (length calls.items) result.history.items }
    ensures called { Spec.CallsIn result.history.items 1 calls.items result.ends.items }
    ensures sent { Spec.SentIn result.history.items (length calls.items + 1) result.write (O.state sink) (O.state result.sink) }
    ensures heard { Spec.HeardIn result.history.items (length calls.items + 2) result.why (I.state source) (I.state result.source) }
    ensures own { Spec.AreOwn result.history.items 1 result.ends.items }
{
    let Prepared {
        shared,
        root,
        seats,
        writer,
        reader,
        jobs,
        done,
        parts,
    } = prepared;
    let jobs = give_calls(&shared, seats, calls, jobs);
    let start = Start {
        crew: Crew { jobs, done },
        writer,
        reader,
        source,
        sink,
    };
    let sides = run_sides(rt, alloc, &shared, start);
    let Sides {
        called,
        written,
        read,
    } = sides;
    let WriteSide {
        seat: writer,
        sink,
        end: write,
    } = written;
    let ReadSide {
        seat: reader,
        source,
        why,
    } = read;
    let CallParts { mut seats, ends } = take_apart(called, parts);
    seats.push_reserved(writer);
    seats.push_reserved(reader);
    let history = shared.close(root, seats);
    MuxRun {
        history,
        ends: List::from_vec(ends),
        write,
        why,
        source,
        sink,
    }
}

/// Runs several callers over one link: each makes its call once, in a thread of its own where one can be made, while a writer sends what
/// the link gives it and a reader hears the replies. It comes back once all callers have left, and the writer and the reader have come
/// out. Where a thread can't be made its work comes after that of the others, which may wait for it without end. Out of memory before any
/// thread is made it hands back the source and the sink as they are. Takes the memory of the link, of framing and of the messages.
pub fn mux_run<I: Source + Send + Drop, O: Sink + Send + Drop, R: Wait + Threads + Sync>(
    rt: &R,
    alloc: Global,
    source: I,
    sink: O,
    calls: List<Asking>,
) -> Result<MuxRun<I, O>, (I, O)>
    requires some { 1 ≤ length calls.items }
    requires few { length calls.items ≤ MAX_CALLERS }
    requires short { Callers.AreShort calls.items }
    // All calls are one legal history, and each in it is one that its seat may make.
    ensures lawful { IfOk result (λ run. Spec.IsLawful (length calls.items) run.history.items) }
    // Each caller made its call once, and this came of it.
    ensures called { IfOk result (λ run. Spec.CallsIn run.history.items 1 calls.items run.ends.items) }
    // What the sink took is what was given to the writer, in order, or a prefix of it.
    ensures sent { IfOk result (λ run. Spec.SentIn run.history.items (length calls.items + 1) run.write (O.state sink) (O.state run.sink)) }
    // What the reader said to have arrived are the replies of the bytes that it read, in order.
    ensures heard { IfOk result (λ run. Spec.HeardIn run.history.items (length calls.items + 2) run.why (I.state source) (I.state run.source)) }
    // A caller that got a reply got the first of its own id after its start, and one whose link is gone the cause that came first.
    ensures own { IfOk result (λ run. Spec.AreOwn run.history.items 1 run.ends.items) }
    ensures kept { IfErr result (λ both. (both.0 ≡ source) × (both.1 ≡ sink)) }
{
    let callers = calls.len() as u8;
    match prepare(alloc, callers) {
        Ok(prepared) => Ok(run_prepared(rt, alloc, prepared, calls.into_vec(), source, sink)),
        Err(NoMemory) => Err((source, sink)),
    }
}
