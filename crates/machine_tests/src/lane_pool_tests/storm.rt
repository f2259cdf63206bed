//! Eight slots and 64 workers, each in threads of its own, offer, withdraw, carry out and collect side by side.
//!
//! That the history is legal and fit, and that each pass's calls are the entries of its number in their order, are clauses of
//! `LanePool::close` (`history`). What is left to compare at run time is that the threads come to their ends, that each reading
//! side made the calls that it was to make, in its order, and that each request was refused, withdrawn or carried out once.
ghost use Rattle.std.specs.Prelude.{◌≡◌, ◌<◌, ◌≤◌, ◌+◌, length, vec_capacity, IfSome, false};
ghost use Rattle.std.specs.Thread.{IsSync};
ghost use Rattle.orb_base.specs.Pool.{IsWellFormed};
ghost use Rattle.lane_pool.specs.Passes.{IsOpen};
ghost use Rattle.lane_pool.specs.Returned.{IsSame, IsHome, AllHome, IsAlone, AllAlone, IsSlotOut, AllSlotsOut, IsWorkerOut, AllWorkersOut};
ghost use Rattle.lane_pool.specs.Turns.{Rests, AllRest, AllIdle, Reads, Listens, heard_by, FitsFirst, Writes, HasEnded};

use super::fates::{all_read, all_settled, count_told};
use super::{leave, opened, pool_of, request, work_once};
use lane_machine::{How, Lanes};
use lane_pool::{
    Cancelling, Collected, LanePool, Offered, Opened, ReaderPass, SlotPass, WorkerPass, WriterPass,
};
use orb_base::{List, PoolSpec};
use std::alloc::Global;
use std::sync::Wait;
use std::thread;
use std::thread::Threads;
use turn_cell::Entry;

/// The slots, each of which has two connections.
pub const SLOTS: u8 = 8;

/// The threads of the pool.
const THREADS: u8 = 64;

/// The number of the first worker's seat.
const FIRST_WORKER: u8 = 9;

/// The calls of each connection before its end.
pub const CALLS: u32 = 30;

/// Whether the i-th call of a connection withdraws the request before it: so does each third one, and the others offer.
pub fn withdraws(i: u32) -> bool {
    i % 3 == 2
}

/// Offers a request of this serial. None where no more may come.
#[tactic(auto, using(lane_pool::proofs::Turns::listens_on, lane_pool::proofs::Staying::same_hear, lane_pool::proofs::Staying::same_reader))]
fn offer<R: Wait>(
    rt: &R,
    alloc: Global,
    pool: &LanePool,
    reader: &mut ReaderPass,
    serial: u32,
) -> Option<()>
    requires listens { Listens pool.now.cell reader.old }
    requires heard { heard_by reader.old ≡ serial }
    requires lane { FitsFirst pool.now.cell }
    ensures listens { IfSome result (λ _. Listens pool.now.cell reader.new) }
    ensures heard { IfSome result (λ _. heard_by reader.new ≡ serial + 1) }
    ensures reads { Reads pool.now.cell reader.new }
    ensures same { IsSame pool.now.cell reader.old reader.new }
{
    let Some(job) = request(alloc, reader.conn(), serial) else {
        return None;
    };
    match pool.offer(rt, reader, job) {
        Offered::Run { .. } => Some(()),
        Offered::Kept => Some(()),
        Offered::Full => Some(()),
        Offered::Closing => None,
    }
}

/// Withdraws the request of this id. None where no more may come.
#[tactic(auto, using(lane_pool::proofs::Turns::listens_on, lane_pool::proofs::Staying::same_hear, lane_pool::proofs::Staying::same_reader))]
fn withdraw<R: Wait>(rt: &R, pool: &LanePool, reader: &mut ReaderPass, id: u32) -> Option<()>
    requires listens { Listens pool.now.cell reader.old }
    ensures listens { IfSome result (λ _. Listens pool.now.cell reader.new) }
    ensures heard { IfSome result (λ _. heard_by reader.new ≡ heard_by reader.old + 1) }
    ensures reads { Reads pool.now.cell reader.new }
    ensures same { IsSame pool.now.cell reader.old reader.new }
{
    match pool.cancel(rt, reader, id) {
        Cancelling::Removed => Some(()),
        Cancelling::Nothing => Some(()),
        Cancelling::Closing => None,
    }
}

/// The i-th call of a connection.
fn call<R: Wait>(
    rt: &R,
    alloc: Global,
    pool: &LanePool,
    reader: &mut ReaderPass,
    i: u32,
) -> Option<()>
    requires listens { Listens pool.now.cell reader.old }
    requires heard { heard_by reader.old ≡ i }
    requires lane { FitsFirst pool.now.cell }
    ensures listens { IfSome result (λ _. Listens pool.now.cell reader.new) }
    ensures heard { IfSome result (λ _. heard_by reader.new ≡ i + 1) }
    ensures reads { Reads pool.now.cell reader.new }
    ensures same { IsSame pool.now.cell reader.old reader.new }
{
    if withdraws(i) {
        withdraw(rt, pool, reader, i.wrapping_sub(1))
    } else {
        offer(rt, alloc, pool, reader, i)
    }
}

/// All calls of a connection before its end.
#[tactic(auto, using(lane_pool::proofs::Staying::same_reader, lane_pool::proofs::Staying::same_then))]
fn call_all<R: Wait>(rt: &R, alloc: Global, pool: &LanePool, reader: &mut ReaderPass)
    requires listens { Listens pool.now.cell reader.old }
    requires unheard { heard_by reader.old ≡ 0 }
    requires lane { FitsFirst pool.now.cell }
    ensures reads { Reads pool.now.cell reader.new }
    ensures same { IsSame pool.now.cell reader.old reader.new }
{
    for i in 0..CALLS {
        let Some(()) = call(rt, alloc, pool, reader, i) else {
            return;
        };
    }
}

/// The reading side of a connection.
#[tactic(auto, using(lane_pool::proofs::Staying::same_end, lane_pool::proofs::Staying::same_then))]
fn read<R: Wait>(rt: &R, alloc: Global, pool: &LanePool, reader: ReaderPass) -> ReaderPass
    requires listens { Listens pool.now.cell reader }
    requires unheard { heard_by reader ≡ 0 }
    requires lane { FitsFirst pool.now.cell }
    ensures ended { HasEnded pool.now.cell result }
    ensures same { IsSame pool.now.cell reader result }
{
    let mut reader = reader;
    call_all(rt, alloc, pool, &mut reader);
    pool.end(rt, &mut reader, How::Quiet);
    reader
}

/// Collects one message. None where nothing comes any more.
#[tactic(auto, using(lane_pool::proofs::Staying::same_collect))]
fn collect<R: Wait>(rt: &R, pool: &LanePool, writer: &mut WriterPass) -> Option<()>
    requires { Writes pool.now.cell writer.old }
    ensures writes { IfSome result (λ _. Writes pool.now.cell writer.new) }
    ensures same { IsSame pool.now.cell writer.old writer.new }
{
    match pool.collect(rt, writer) {
        Collected::Item(_) => Some(()),
        Collected::Close => None,
        Collected::Error => None,
        Collected::Done => None,
    }
}

/// The writing side of a connection.
#[tactic(auto, using(lane_pool::proofs::Staying::same_writer, lane_pool::proofs::Staying::same_then))]
fn write<R: Wait>(rt: &R, pool: &LanePool, writer: WriterPass) -> WriterPass
    requires { Writes pool.now.cell writer }
    ensures { IsSame pool.now.cell writer result }
{
    let mut writer = writer;
    for _ in rt.forever() {
        let Some(()) = collect(rt, pool, &mut writer) else {
            return writer;
        };
    }
    unreachable!()
}

/// A worker.
#[tactic(auto, using(lane_pool::proofs::Staying::alone_same))]
fn work<R: Wait>(rt: &R, pool: &LanePool, worker: WorkerPass) -> WorkerPass
    requires { IsWorkerOut pool.now.cell worker.seat.number worker }
    ensures { IsAlone pool.now.cell worker.seat.number result }
{
    let mut worker = worker;
    for _ in rt.forever() {
        let Some(_) = work_once(rt, pool, &mut worker) else {
            return worker;
        };
    }
    unreachable!()
}

/// The writing side in a thread of its own, and the reading side here.
fn both_sides<R: Threads + Wait + Sync>(
    rt: &R,
    alloc: Global,
    pool: &LanePool,
    reader: ReaderPass,
    writer: WriterPass,
) -> (WriterPass, ReaderPass)
    requires reader { Listens pool.now.cell reader × (heard_by reader ≡ 0) }
    requires lane { FitsFirst pool.now.cell }
    requires writer { Writes pool.now.cell writer }
    ensures writer { IsSame pool.now.cell writer result.0 }
    ensures ended { HasEnded pool.now.cell result.1 }
    ensures reader { IsSame pool.now.cell reader result.1 }
{
    thread::join(
        rt,
        move || -> WriterPass
            requires { Writes pool.now.cell writer }
            ensures { IsSame pool.entry.now.cell writer result }
        { write(rt, pool, writer) },
        move || -> ReaderPass
            requires { Listens pool.now.cell reader × (heard_by reader ≡ 0) × FitsFirst pool.now.cell }
            ensures { HasEnded pool.entry.now.cell result × IsSame pool.entry.now.cell reader result }
        { read(rt, alloc, pool, reader) },
    )
}

/// A slot's next connection.
fn serve<R: Threads + Wait + Sync>(
    rt: &R,
    alloc: Global,
    pool: &LanePool,
    slot: SlotPass,
) -> SlotPass
    requires rests { Rests pool.now.cell slot × (slot.nth < pool.now.cell.terms.opening.per_slot) }
    requires home { IsHome pool.now.cell slot.who slot }
    requires lane { FitsFirst pool.now.cell }
    ensures rests { Rests pool.now.cell result × (result.nth ≤ slot.nth + 1) }
    ensures home { IsHome pool.now.cell result.who result }
    ensures who { result.who ≡ slot.who }
{
    match pool.link(slot) {
        Ok((reader, writer)) => {
            let (writer, reader) = both_sides(rt, alloc, pool, reader, writer);
            pool.unlink(reader, writer)
        }
        Err(slot) => slot,
    }
}

/// A slot: two connections, and its leave.
#[tactic(auto, using(lane_pool::proofs::Staying::home_left))]
fn serve_both<R: Threads + Wait + Sync>(
    rt: &R,
    alloc: Global,
    pool: &LanePool,
    slot: SlotPass,
) -> SlotPass
    requires slot { IsSlotOut pool.now.cell slot.who slot }
    requires two { 2 ≤ pool.now.cell.terms.opening.per_slot }
    requires lane { FitsFirst pool.now.cell }
    ensures home { IsHome pool.now.cell result.who result }
    ensures who { result.who ≡ slot.who }
{
    let slot = serve(rt, alloc, pool, slot);
    let slot = serve(rt, alloc, pool, slot);
    leave(rt, pool, slot)
}

/// The last slot in a thread of its own, and the others from here.
#[cycle(slots)]
#[tactic(auto, using(lane_pool::proofs::Sending::slot_own, lane_pool::proofs::Sending::home_grows))]
fn with_slots<R: Threads + Wait + Sync>(
    rt: &R,
    alloc: Global,
    pool: &LanePool,
    slot: SlotPass,
    slots: Vec<SlotPass>,
) -> Vec<SlotPass>
    requires slot { IsSlotOut pool.now.cell (length slots.items) slot }
    requires slots { AllSlotsOut pool.now.cell 0 slots.items }
    requires space { length slots.items + 1 ≤ vec_capacity slots }
    requires two { 2 ≤ pool.now.cell.terms.opening.per_slot }
    requires lane { FitsFirst pool.now.cell }
    ensures home { AllHome pool.now.cell 0 result.items }
    ensures all { length result.items ≡ length slots.items + 1 }
    ensures space { vec_capacity result ≡ vec_capacity slots }
{
    let (last, mut all) = thread::join(
        rt,
        move || -> SlotPass
            requires { IsSync R.row × IsSlotOut pool.now.cell slot.who slot × (2 ≤ pool.now.cell.terms.opening.per_slot) × FitsFirst pool.now.cell }
            ensures { IsHome pool.entry.now.cell result.who result × (result.who ≡ slot.who) }
        { serve_both(rt, alloc, pool, slot) },
        move || -> Vec<SlotPass>
            requires { IsSync R.row × AllSlotsOut pool.now.cell 0 slots.items × (length slots.items + 1 ≤ vec_capacity slots) × (2 ≤ pool.now.cell.terms.opening.per_slot) × FitsFirst pool.now.cell }
            ensures { AllHome pool.entry.now.cell 0 result.items × (length result.items ≡ length slots.items) × (vec_capacity result ≡ vec_capacity slots) }
        { run_slots(rt, alloc, pool, slots) },
    );
    all.push_reserved(last);
    all
}

/// Each slot in a thread of its own.
#[cycle(slots)]
fn run_slots<R: Threads + Wait + Sync>(
    rt: &R,
    alloc: Global,
    pool: &LanePool,
    slots: Vec<SlotPass>,
) -> Vec<SlotPass>
    requires slots { AllSlotsOut pool.now.cell 0 slots.items }
    requires two { 2 ≤ pool.now.cell.terms.opening.per_slot }
    requires lane { FitsFirst pool.now.cell }
    ensures home { AllHome pool.now.cell 0 result.items }
    ensures all { length result.items ≡ length slots.items }
    ensures space { vec_capacity result ≡ vec_capacity slots }
{
    let mut slots = slots;
    match slots.pop() {
        None => slots,
        Some(slot) => with_slots(rt, alloc, pool, slot, slots),
    }
}

/// The last worker in a thread of its own, and the others from here.
#[cycle(workers)]
#[tactic(auto, using(lane_pool::proofs::Sending::worker_own, lane_pool::proofs::Sending::alone_grows))]
fn with_workers<R: Threads + Wait + Sync>(
    rt: &R,
    pool: &LanePool,
    first: u8,
    worker: WorkerPass,
    workers: Vec<WorkerPass>,
) -> Vec<WorkerPass>
    requires worker { IsWorkerOut pool.now.cell (first + length workers.items) worker }
    requires workers { AllWorkersOut pool.now.cell first workers.items }
    requires space { length workers.items + 1 ≤ vec_capacity workers }
    ensures alone { AllAlone pool.now.cell first result.items }
    ensures all { length result.items ≡ length workers.items + 1 }
    ensures space { vec_capacity result ≡ vec_capacity workers }
{
    let (last, mut all) = thread::join(
        rt,
        move || -> WorkerPass
            requires { IsSync R.row × IsWorkerOut pool.now.cell worker.seat.number worker }
            ensures { IsAlone pool.entry.now.cell worker.seat.number result }
        { work(rt, pool, worker) },
        move || -> Vec<WorkerPass>
            requires { IsSync R.row × AllWorkersOut pool.now.cell first workers.items × (length workers.items + 1 ≤ vec_capacity workers) }
            ensures { AllAlone pool.entry.now.cell first result.items × (length result.items ≡ length workers.items) × (vec_capacity result ≡ vec_capacity workers) }
        { run_workers(rt, pool, first, workers) },
    );
    all.push_reserved(last);
    all
}

/// Each worker in a thread of its own.
#[cycle(workers)]
fn run_workers<R: Threads + Wait + Sync>(
    rt: &R,
    pool: &LanePool,
    first: u8,
    workers: Vec<WorkerPass>,
) -> Vec<WorkerPass>
    requires workers { AllWorkersOut pool.now.cell first workers.items }
    ensures alone { AllAlone pool.now.cell first result.items }
    ensures all { length result.items ≡ length workers.items }
    ensures space { vec_capacity result ≡ vec_capacity workers }
{
    let mut workers = workers;
    match workers.pop() {
        None => workers,
        Some(worker) => with_workers(rt, pool, first, worker, workers),
    }
}

/// All workers and all slots.
fn run_all<R: Threads + Wait + Sync>(
    rt: &R,
    alloc: Global,
    pool: &LanePool,
    slots: Vec<SlotPass>,
    workers: Vec<WorkerPass>,
) -> (Vec<WorkerPass>, Vec<SlotPass>)
    requires slots { AllSlotsOut pool.now.cell 0 slots.items }
    requires workers { AllWorkersOut pool.now.cell 9 workers.items }
    requires two { 2 ≤ pool.now.cell.terms.opening.per_slot }
    requires lane { FitsFirst pool.now.cell }
    ensures slots { AllHome pool.now.cell 0 result.1.items × (length result.1.items ≡ length slots.items) }
    ensures workers { AllAlone pool.now.cell 9 result.0.items × (length result.0.items ≡ length workers.items) }
{
    thread::join(
        rt,
        move || -> Vec<WorkerPass>
            requires { AllWorkersOut pool.now.cell 9 workers.items }
            ensures { AllAlone pool.entry.now.cell 9 result.items × (length result.items ≡ length workers.items) }
        { run_workers(rt, pool, FIRST_WORKER, workers) },
        move || -> Vec<SlotPass>
            requires { AllSlotsOut pool.now.cell 0 slots.items × (2 ≤ pool.now.cell.terms.opening.per_slot) × FitsFirst pool.now.cell }
            ensures { AllHome pool.entry.now.cell 0 result.items × (length result.items ≡ length slots.items) }
        { run_slots(rt, alloc, pool, slots) },
    )
}

/// The history of a whole run.
#[tactic(auto, using(lane_pool::proofs::Openings::room_there, lane_pool::proofs::Returned::home_in, lane_pool::proofs::Returned::alone_in))]
fn storm<R: Threads + Wait + Sync>(
    rt: &R,
    alloc: Global,
    spec: &PoolSpec,
    all: Opened,
) -> List<Entry<Lanes>>
    requires opened { IsOpen spec.now 8 2 all.pool.cell all.root all.slots.items all.workers.items }
    requires slots { AllRest all.pool.cell 0 all.slots.items }
    requires workers { AllIdle all.pool.cell 0 all.workers.items }
    requires well_formed { IsWellFormed spec.now }
    requires flat { spec.now.laned ≡ false }
{
    let _ = spec;
    let Opened {
        pool,
        root,
        slots,
        workers,
    } = all;
    let (workers, slots) = run_all(rt, alloc, &pool, slots.into_vec(), workers.into_vec());
    pool.close(root, List::from_vec(slots), List::from_vec(workers))
}

/// Whether the history tells that each reading side made its calls, that each request is settled, and that each worker and each
/// writing side was told of its end.
fn is_whole(history: &[Entry<Lanes>]) -> bool {
    all_read(history) && all_settled(history) && count_told(history) == (64, 16)
}

/// Whether the history of a whole run tells all that.
fn settles<R: Threads + Wait + Sync>(rt: &R, alloc: Global) -> bool {
    let Some(mut spec) = pool_of(alloc, THREADS, 1_000) else {
        return false;
    };
    spec.max_requests = 8;
    if !spec.well_formed() || spec.laned {
        return false;
    }
    match opened(alloc, &spec, SLOTS, 2) {
        Some(all) => is_whole(storm(rt, alloc, &spec, all).as_slice()),
        None => false,
    }
}

#[test]
fn eight_slots_and_64_workers_carry_out_withdraw_or_refuse_each_request(rt: HostRuntime) {
    assert!(rt; settles(&rt, rt.alloc()));
}
