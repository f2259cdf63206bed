//! One connection over memory, from its link to the slot's leave, with a worker in a thread of its own.
ghost use Rattle.std.specs.Prelude.{◌≡◌, ◌<◌, [], length, IfSome};
ghost use Rattle.orb_base.specs.Pool.{IsWellFormed};
ghost use Rattle.orb_base.specs.declared.outcome.Outcome.TheVariants.{Returned};
ghost use Rattle.lane_machine.specs.State.{CanOpen};
ghost use Rattle.lane_pool.specs.Passes.{AreFrom, IsOpen};
ghost use Rattle.lane_pool.specs.Returned.{IsSlotOut, IsWorkerOut};
ghost use Rattle.lane_pool.specs.Turns.{AllRest, AllIdle, CanTake, Listens, Writes, HasEnded, Rests, heard_by};

use adapter_policies::{Setup, read_setup};
use conn_engine::ReadEnd;
use conn_sides::*;
use giop_frames::FrameCause;
use giop_messages::Fault;
use heard_calls::Ending;
use lane_pool::{LanePool, Opened, SlotPass, WorkerPass, open};
use orb_base::{
    Completed, Gate, Job, List, MemSink, MemSource, NoMemory, Octets, Outcome, PoolSpec, Serving,
    SharedOctets, Sys, SysName, Text,
};
use std::alloc::Global;
use std::sync::Wait;
use std::thread;
use std::thread::Threads;

/// Answers each request with an empty body.
#[derive(Drop)]
struct Quick {
    alloc: Global,
}

impl Serving for Quick {
    ghost outcome = { λ _ _ _. Returned [] };

    fn invoke(&self, _interface: &Text, _job: &Job) -> Outcome {
        match SharedOctets::new(self.alloc, List::new(self.alloc)) {
            Ok(body) => Outcome::Returned(body),
            Err(NoMemory) => Outcome::System(Sys {
                name: SysName::NoMemory,
                minor: 1,
                completed: Completed::Maybe,
            }),
        }
    }
}

/// Lets every worker through.
#[derive(Drop)]
struct Open;

impl Gate for Open {
    fn enter(&self, _job: &Job) {}

    fn leave(&self, _job: &Job) {}
}

/// One slot of one connection, one thread with a buffer of three requests, and `ping` under CLIENT_PROPAGATED.
const PLAIN: &[u8] =
    b"server = { slots = 1, per_slot = 1 }\npool = { static = 1, dynamic = 0, default_priority = 10, buffering = true, max_buffered_requests = 3, max_request_buffer_size = 200 }\nadapter = [{ name = \"prop\", model = \"CLIENT_PROPAGATED\", priority = 10 }]\nobject = [{ key = \"ping\", adapter = \"prop\", interface = \"i\" }]\n";

/// The same in a run that hears one call.
const ONE_CALL: &[u8] =
    b"server = { slots = 1, per_slot = 1, max_calls = 1 }\npool = { static = 1, dynamic = 0, default_priority = 10 }\nadapter = [{ name = \"prop\", model = \"CLIENT_PROPAGATED\", priority = 10 }]\nobject = [{ key = \"ping\", adapter = \"prop\", interface = \"i\" }]\n";

/// Requests of id 1 and 2 for `current` of `ping`, of 48 bytes each: CORBA 3.0.3, section 15.4.2.
const FIRST: &[u8] =
    b"GIOP\x01\x02\0\0\0\0\0\x24\0\0\0\x01\x03\0\0\0\0\0\0\0\0\0\0\x04ping\0\0\0\x08current\0\0\0\0\0";

const SECOND: &[u8] =
    b"GIOP\x01\x02\0\0\0\0\0\x24\0\0\0\x02\x03\0\0\0\0\0\0\0\0\0\0\x04ping\0\0\0\x08current\0\0\0\0\0";

/// A request of id 3 for `current` of `pong`, which no adapter serves.
const UNKNOWN: &[u8] =
    b"GIOP\x01\x02\0\0\0\0\0\x24\0\0\0\x03\x03\0\0\0\0\0\0\0\0\0\0\x04pong\0\0\0\x08current\0\0\0\0\0";

/// A LocateRequest of id 4 for `ping`.
const LOCATE: &[u8] = b"GIOP\x01\x02\0\x03\0\0\0\x10\0\0\0\x04\0\0\0\0\0\0\0\x04ping";

/// The replies of id 1 and 2: NO_EXCEPTION, without contexts and body.
const REPLY_1: &[u8] = b"GIOP\x01\x02\0\x01\0\0\0\x0c\0\0\0\x01\0\0\0\0\0\0\0\0";

const REPLY_2: &[u8] = b"GIOP\x01\x02\0\x01\0\0\0\x0c\0\0\0\x02\0\0\0\0\0\0\0\0";

/// OBJECT_NOT_EXIST, minor 1, completed NO, to id 3: CORBA 3.0.3, section 4.12.
const REPLY_3: &[u8] =
    b"GIOP\x01\x02\0\x01\0\0\0\x40\0\0\0\x03\0\0\0\x02\0\0\0\0\0\0\0\x27IDL:omg.org/CORBA/OBJECT_NOT_EXIST:1.0\0\0\0\0\0\x01\0\0\0\x01";

/// OBJECT_HERE to id 4.
const HERE_4: &[u8] = b"GIOP\x01\x02\0\x04\0\0\0\x08\0\0\0\x04\0\0\0\x01";

/// A header with another magic.
const BROKEN: &[u8] = b"GIOX\x01\x02\0\0\0\0\0\0";

const CLOSE: &[u8] = b"GIOP\x01\x02\0\x05\0\0\0\0";

const ERROR: &[u8] = b"GIOP\x01\x02\0\x06\0\0\0\0";

/// The front of a request.
const UNFINISHED: &[u8] = b"GIOP\x01\x02\0\0\0\0\0\x24\0\0";

/// An input over a configuration, which reads and writes of it fail, how both sides come out, and what is written.
struct Row {
    config: &'static [u8],
    input: &'static [&'static [u8]],
    reads: &'static [u64],
    writes: &'static [u64],
    read: ReadSideEnd,
    write: WriteEnd,
    output: &'static [&'static [u8]],
}

fn numbers(alloc: Global, all: &[u64]) -> Option<List<u64>> {
    match Vec::from_slice(alloc, all) {
        Ok(all) => Some(List::from_vec(all)),
        Err(_) => None,
    }
}

/// A source of bytes, of which each read gives so many.
fn source_of(alloc: Global, bytes: Octets, cut: usize, reads: &[u64]) -> Option<MemSource> {
    let failing = numbers(alloc, reads)?;
    match vec![in alloc; cut; bytes.len()] {
        Ok(cuts) => Some(MemSource::new(bytes, List::from_vec(cuts), failing)),
        Err(_) => None,
    }
}

/// Puts these parts after the bytes; whether there was memory.
fn join(bytes: &mut Octets, parts: &[&[u8]]) -> bool {
    for part in parts {
        if bytes.append(part).is_err() {
            return false;
        }
    }
    true
}

fn joined(alloc: Global, parts: &[&[u8]]) -> Option<Octets> {
    let mut bytes = Octets::new(alloc);
    if join(&mut bytes, parts) {
        Some(bytes)
    } else {
        None
    }
}

/// An open pool of one slot with one connection.
fn opened(alloc: Global, spec: &PoolSpec) -> Option<Opened>
    requires can { CanOpen spec.now 1 1 }
    ensures opened { IfSome result (λ o. IsOpen spec.now 1 1 o.pool.cell o.root o.slots.items o.workers.items) }
    ensures slots { IfSome result (λ o. AllRest o.pool.cell 0 o.slots.items) }
    ensures workers { IfSome result (λ o. AllIdle o.pool.cell 0 o.workers.items) }
{
    match open(alloc, spec, 1, 1) {
        Ok(opened) => Some(opened),
        Err(_) => None,
    }
}

/// The pass of the one slot.
#[tactic(auto, using(lane_pool::proofs::Sending::slots_out, lane_pool::proofs::Sending::one_slot))]
fn one_slot(pool: &LanePool, slots: List<SlotPass>) -> Option<SlotPass>
    requires rest { AllRest pool.now.cell 0 slots.items }
    requires fresh { AreFrom pool.now.cell 1 0 slots.items }
    requires one { length slots.items ≡ 1 }
    ensures { IfSome result (λ pass. IsSlotOut pool.now.cell 0 pass) }
{
    slots.into_vec().pop()
}

/// The pass of the one worker.
#[tactic(auto, using(lane_pool::proofs::Sending::workers_out, lane_pool::proofs::Sending::one_worker))]
fn one_worker(pool: &LanePool, workers: List<WorkerPass>) -> Option<WorkerPass>
    requires idle { AllIdle pool.now.cell 0 workers.items }
    requires fresh { AreFrom pool.now.cell 2 0 workers.items }
    requires one { length workers.items ≡ 1 }
    ensures { IfSome result (λ pass. IsWorkerOut pool.now.cell 2 pass) }
{
    workers.into_vec().pop()
}

/// The worker, for a thread of its own.
fn work_whole<R: Wait>(rt: &R, alloc: Global, setup: &Setup, pool: &LanePool, worker: WorkerPass)
    requires { CanTake pool.now.cell worker }
{
    let mut worker = worker;
    work(rt, alloc, setup, pool, &Quick { alloc }, &Open, &mut worker);
}

/// How both sides came out, and what was written.
type Came = (ReadSideEnd, WriteEnd, MemSink);

/// Reads the whole input, writes all that comes of it, and leaves.
fn connect<R: Wait>(
    rt: &R,
    alloc: Global,
    setup: &Setup,
    pool: &LanePool,
    slot: SlotPass,
    source: MemSource,
    sink: MemSink,
) -> Option<Came>
    requires slot { Rests pool.now.cell slot }
    requires room { slot.nth < pool.now.cell.terms.opening.per_slot }
    requires well_formed { IsWellFormed setup.now.pool }
    requires pool { pool.now.cell.terms.opening.pool ≡ setup.now.pool }
{
    let Ok((reader, writer)) = pool.link(slot) else {
        return None;
    };
    let mut source = source;
    let mut sink = sink;
    let mut reader = reader;
    let mut writer = writer;
    let read = read_side(rt, alloc, &mut source, setup, pool, &mut reader);
    let write = write_side(rt, &mut sink, pool, &mut writer);
    let mut slot = pool.unlink(reader, writer);
    pool.leave(rt, &mut slot);
    Some((read, write, sink))
}

/// The worker in a thread of its own, and the connection here.
fn side_by_side<R: Threads + Wait + Sync>(
    rt: &R,
    alloc: Global,
    setup: &Setup,
    pool: &LanePool,
    slot: SlotPass,
    worker: WorkerPass,
    source: MemSource,
    sink: MemSink,
) -> Option<Came>
    requires slot { Rests pool.now.cell slot × (slot.nth < pool.now.cell.terms.opening.per_slot) }
    requires worker { CanTake pool.now.cell worker }
    requires well_formed { IsWellFormed setup.now.pool }
    requires pool { pool.now.cell.terms.opening.pool ≡ setup.now.pool }
{
    let (_, came) = thread::join(
        rt,
        move || -> bool
            requires { CanTake pool.now.cell worker }
        {
            work_whole(rt, alloc, setup, pool, worker);
            true
        },
        move || -> Option<Came>
            requires { Rests pool.now.cell slot × (slot.nth < pool.now.cell.terms.opening.per_slot) × IsWellFormed setup.now.pool × (pool.now.cell.terms.opening.pool ≡ setup.now.pool) }
        { connect(rt, alloc, setup, pool, slot, source, sink) },
    );
    came
}

/// The run of an open pool.
#[tactic(auto, using(conn_sides::proofs::Opened::pool_there, lane_pool::proofs::Openings::room_there))]
fn run<R: Threads + Wait + Sync>(
    rt: &R,
    alloc: Global,
    setup: &Setup,
    all: Opened,
    source: MemSource,
    sink: MemSink,
) -> Option<Came>
    requires opened { IsOpen setup.now.pool 1 1 all.pool.cell all.root all.slots.items all.workers.items }
    requires slots { AllRest all.pool.cell 0 all.slots.items }
    requires workers { AllIdle all.pool.cell 0 all.workers.items }
    requires well_formed { IsWellFormed setup.now.pool }
{
    let Opened {
        pool,
        root: _,
        slots,
        workers,
    } = all;
    if workers.len() != 1 {
        return None;
    }
    let slot = one_slot(&pool, slots)?;
    let worker = one_worker(&pool, workers)?;
    side_by_side(rt, alloc, setup, &pool, slot, worker, source, sink)
}

/// Whether both sides come out so, and the sink was closed once: also after a failed write, and not before the last message.
fn comes_out(came: Option<Came>, row: &Row) -> bool {
    match came {
        Some((read, write, sink)) => {
            read == row.read
                && write == row.write
                && sink.closes == 1
                && is_joined(sink.held(), row.output)
        }
        None => false,
    }
}

fn runs<R: Threads + Wait + Sync>(
    rt: &R,
    alloc: Global,
    setup: &Setup,
    source: MemSource,
    sink: MemSink,
    row: &Row,
) -> bool {
    if setup.slots() != 1 || setup.per_slot() != 1 {
        return false;
    }
    match opened(alloc, setup.pool()) {
        Some(all) => comes_out(run(rt, alloc, setup, all, source, sink), row),
        None => false,
    }
}

fn runs_over<R: Threads + Wait + Sync>(
    rt: &R,
    alloc: Global,
    setup: &Setup,
    cut: usize,
    row: &Row,
) -> bool {
    let Some(bytes) = joined(alloc, row.input) else {
        return false;
    };
    let Some(source) = source_of(alloc, bytes, cut, row.reads) else {
        return false;
    };
    match numbers(alloc, row.writes) {
        Some(failing) => {
            let sink = MemSink::new(alloc, List::new(alloc), failing);
            runs(rt, alloc, setup, source, sink, row)
        }
        None => false,
    }
}

fn holds<R: Threads + Wait + Sync>(rt: &R, alloc: Global, cut: usize, row: &Row) -> bool {
    match read_setup(alloc, row.config) {
        Ok(setup) => runs_over(rt, alloc, &setup, cut, row),
        Err(_) => false,
    }
}

/// Whether these rows come out so where each read gives so many bytes.
fn all_hold<R: Threads + Wait + Sync>(rt: &R, alloc: Global, cut: usize, rows: &[Row]) -> bool {
    for row in rows {
        if !holds(rt, alloc, cut, row) {
            return false;
        }
    }
    true
}

/// The reading came to the end of the input, or to a CloseConnection.
const ENDED: ReadSideEnd = ReadSideEnd::Read(ReadEnd::Ended(Ending::Ended));

const BROKEN_AT_96: ReadSideEnd = ReadSideEnd::Read(ReadEnd::Ended(Ending::Broken {
    offset: 96,
    fault: Fault::Frame(FrameCause::BadMagic),
}));

const INPUTS: &[Row] = &[
    Row {
        config: PLAIN,
        input: &[FIRST, SECOND],
        reads: &[],
        writes: &[],
        read: ENDED,
        write: WriteEnd::Done,
        output: &[REPLY_1, REPLY_2],
    },
    Row {
        config: PLAIN,
        input: &[UNKNOWN, LOCATE],
        reads: &[],
        writes: &[],
        read: ENDED,
        write: WriteEnd::Done,
        output: &[REPLY_3, HERE_4],
    },
    Row {
        config: PLAIN,
        input: &[FIRST, CLOSE, SECOND],
        reads: &[],
        writes: &[],
        read: ENDED,
        write: WriteEnd::Done,
        output: &[REPLY_1],
    },
    Row {
        config: PLAIN,
        input: &[FIRST, UNFINISHED],
        reads: &[],
        writes: &[],
        read: ReadSideEnd::Read(ReadEnd::Ended(Ending::Cut(48))),
        write: WriteEnd::Done,
        output: &[REPLY_1],
    },
    Row {
        config: PLAIN,
        input: &[FIRST, SECOND, BROKEN],
        reads: &[],
        writes: &[],
        read: BROKEN_AT_96,
        write: WriteEnd::Error,
        output: &[REPLY_1, REPLY_2, ERROR],
    },
    Row {
        config: ONE_CALL,
        input: &[FIRST, SECOND],
        reads: &[],
        writes: &[],
        read: ReadSideEnd::RunClosed,
        write: WriteEnd::Closed,
        output: &[REPLY_1, CLOSE],
    },
];

#[test]
fn both_sides_come_out_by_the_input(rt: HostRuntime) {
    assert!(&rt; all_hold(&rt, rt.alloc(), 1, INPUTS));
    assert!(&rt; all_hold(&rt, rt.alloc(), 7, INPUTS));
    assert!(&rt; all_hold(&rt, rt.alloc(), 48, INPUTS));
    assert!(&rt; all_hold(&rt, rt.alloc(), 4096, INPUTS));
}

const FAULTS: &[Row] = &[
    Row {
        config: PLAIN,
        input: &[FIRST, SECOND],
        reads: &[1],
        writes: &[],
        read: ReadSideEnd::Read(ReadEnd::ReadFault),
        write: WriteEnd::Done,
        output: &[REPLY_1],
    },
    Row {
        config: PLAIN,
        input: &[FIRST, SECOND],
        reads: &[],
        writes: &[0],
        read: ENDED,
        write: WriteEnd::WriteFault(LastCollect::Done),
        output: &[],
    },
    Row {
        config: PLAIN,
        input: &[FIRST, SECOND],
        reads: &[],
        writes: &[1],
        read: ENDED,
        write: WriteEnd::WriteFault(LastCollect::Done),
        output: &[REPLY_1],
    },
];

#[test]
fn failed_reads_and_writes_are_told(rt: HostRuntime) {
    assert!(&rt; all_hold(&rt, rt.alloc(), 48, FAULTS));
}

/// Whether the bytes are these parts, one after the other.
fn is_joined(bytes: &[u8], parts: &[&[u8]]) -> bool {
    let mut rest = bytes;
    for part in parts {
        match rest.strip_prefix(*part) {
            Some(after) => rest = after,
            None => return false,
        }
    }
    rest.is_empty()
}
