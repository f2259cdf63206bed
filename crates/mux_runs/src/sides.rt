//! The writer, the callers and the reader of a link, side by side.
ghost use Rattle.std.specs.Prelude.{◌≡◌, ◌≤◌, [], length};
ghost use Rattle.std.specs.Vec.{vec_capacity};
ghost use Rattle.std.specs.Thread.{IsSync};
ghost use Rattle.shared_link.specs.Roles.{CanSend, CanRead, CanLose};
ghost use Rattle.mux_sides.specs.Sending.{WritesSide};
ghost use Rattle.mux_sides.specs.Replying.{ReadsSide};
ghost use Rattle.mux_runs.specs.Callers as Spec;

use crate::callers::run_callers;
use crate::jobs::{CallDone, CallJob};
use client_mux::Why;
use mux_sides::{WriterEnd, read_side, write_side};
use orb_base::{Sink, Source};
use shared_link::{MuxSeat, Shared};
use std::alloc::Global;
use std::sync::Wait;
use std::thread;
use std::thread::Threads;

/// What the reader leaves.
#[derive(Drop)]
pub struct ReadSide<I> {
    pub seat: MuxSeat,
    pub source: I,
    pub why: Why,
}

/// What the writer leaves.
#[derive(Drop)]
pub struct WriteSide<O> {
    pub seat: MuxSeat,
    pub sink: O,
    pub end: WriterEnd,
}

/// The callers with what they begin with, and room for what they leave.
#[derive(Drop)]
pub struct Crew {
    pub jobs: Vec<CallJob>,
    pub done: Vec<CallDone>,
}

/// The reader.
fn read_whole<I: Source, R: Wait>(
    rt: &R,
    alloc: Global,
    shared: &Shared,
    seat: MuxSeat,
    source: I,
) -> ReadSide<I>
    requires reads { CanRead shared.now.cell 0 seat }
    requires loses { CanLose shared.now.cell seat }
    ensures { ReadsSide result.why seat result.seat (I.state source) (I.state result.source) }
{
    let mut seat = seat;
    let mut source = source;
    let why = read_side(rt, alloc, &mut source, shared, &mut seat);
    ReadSide { seat, source, why }
}

/// The writer.
fn write_whole<O: Sink, R: Wait>(
    rt: &R,
    alloc: Global,
    shared: &Shared,
    seat: MuxSeat,
    sink: O,
) -> WriteSide<O>
    requires sends { CanSend shared.now.cell seat }
    requires loses { CanLose shared.now.cell seat }
    ensures { WritesSide result.end seat result.seat (O.state sink) (O.state result.sink) }
{
    let mut seat = seat;
    let mut sink = sink;
    let end = write_side(rt, alloc, &mut sink, shared, &mut seat);
    WriteSide { seat, sink, end }
}

/// The callers in threads of their own, where one can be made, and the reader here.
fn call_and_read<I: Source + Drop, R: Wait + Threads + Sync>(
    rt: &R,
    alloc: Global,
    shared: &Shared,
    crew: Crew,
    reader: MuxSeat,
    source: I,
) -> (Vec<CallDone>, ReadSide<I>)
    requires jobs { Spec.AreReady shared.now.cell 1 crew.jobs.items }
    requires room { (crew.done.items ≡ []) × (length crew.jobs.items ≤ vec_capacity crew.done) }
    requires reads { CanRead shared.now.cell 0 reader }
    requires loses { CanLose shared.now.cell reader }
    ensures called { Spec.HaveCalled shared.now.cell 1 (Spec.asked_by crew.jobs.items) result.0.items }
    ensures all { length result.0.items ≡ length crew.jobs.items }
    ensures read { ReadsSide result.1.why reader result.1.seat (I.state source) (I.state result.1.source) }
{
    let Crew { jobs, done } = crew;
    thread::join(
        rt,
        move || -> Vec<CallDone>
            requires { IsSync R.row × Spec.AreReady shared.now.cell 1 jobs.items × (done.items ≡ []) × (length jobs.items ≤ vec_capacity done) }
            ensures { Spec.HaveCalled shared.entry.now.cell 1 (Spec.asked_by jobs.items) result.items
                × (length result.items ≡ length jobs.items) }
        { run_callers(rt, shared, jobs, done) },
        move || -> ReadSide<I>
            requires { CanRead shared.now.cell 0 reader × CanLose shared.now.cell reader }
            ensures { ReadsSide result.why reader result.seat (I.state source) (I.state result.source) }
        { read_whole(rt, alloc, shared, reader, source) },
    )
}

/// What the threads of a link begin with.
#[derive(Drop)]
pub struct Start<I, O> {
    pub crew: Crew,
    pub writer: MuxSeat,
    pub reader: MuxSeat,
    pub source: I,
    pub sink: O,
}

/// What they leave.
#[derive(Drop)]
pub struct Sides<I, O> {
    pub called: Vec<CallDone>,
    pub written: WriteSide<O>,
    pub read: ReadSide<I>,
}

/// The writer in a thread of its own, or last where none can be made, and the callers and the reader beside it.
pub fn run_sides<I: Source + Send + Drop, O: Sink + Send + Drop, R: Wait + Threads + Sync>(
    rt: &R,
    alloc: Global,
    shared: &Shared,
    start: Start<I, O>,
) -> Sides<I, O>
    requires jobs { Spec.AreReady shared.now.cell 1 start.crew.jobs.items }
    requires room { (start.crew.done.items ≡ []) × (length start.crew.jobs.items ≤ vec_capacity start.crew.done) }
    requires writer { CanSend shared.now.cell start.writer × CanLose shared.now.cell start.writer }
    requires reader { CanRead shared.now.cell 0 start.reader × CanLose shared.now.cell start.reader }
    ensures called { Spec.HaveCalled shared.now.cell 1 (Spec.asked_by start.crew.jobs.items) result.called.items }
    ensures all { length result.called.items ≡ length start.crew.jobs.items }
    ensures written { WritesSide result.written.end start.writer result.written.seat (O.state start.sink) (O.state result.written.sink) }
    ensures read { ReadsSide result.read.why start.reader result.read.seat (I.state start.source) (I.state result.read.source) }
{
    let Start {
        crew,
        writer,
        reader,
        source,
        sink,
    } = start;
    let (written, (called, read)) = thread::join(
        rt,
        move || -> WriteSide<O>
            requires { CanSend shared.now.cell writer × CanLose shared.now.cell writer }
            ensures { WritesSide result.end writer result.seat (O.state sink) (O.state result.sink) }
        { write_whole(rt, alloc, shared, writer, sink) },
        move || -> (Vec<CallDone>, ReadSide<I>)
            requires { IsSync R.row × Spec.AreReady shared.now.cell 1 crew.jobs.items × (crew.done.items ≡ [])
                × (length crew.jobs.items ≤ vec_capacity crew.done) × CanRead shared.now.cell 0 reader × CanLose shared.now.cell reader }
            ensures { Spec.HaveCalled shared.entry.now.cell 1 (Spec.asked_by crew.jobs.items) result.0.items
                × (length result.0.items ≡ length crew.jobs.items)
                × ReadsSide result.1.why reader result.1.seat (I.state source) (I.state result.1.source) }
        { call_and_read(rt, alloc, shared, crew, reader, source) },
    );
    Sides {
        called,
        written,
        read,
    }
}
