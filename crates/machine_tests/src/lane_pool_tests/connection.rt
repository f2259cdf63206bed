//! A pool of one slot and one thread, called by one caller after another.
ghost use Rattle.std.specs.Prelude.{◌≡◌, ◌<◌, length, IfSome, false};
ghost use Rattle.orb_base.specs.Pool.{IsWellFormed};
ghost use Rattle.lane_pool.specs.Passes.{AreFrom, IsOpen, MainAt};
ghost use Rattle.lane_pool.specs.Returned.{IsSame, IsHome, IsAlone, IsSlotOut, IsWorkerOut};
ghost use Rattle.lane_pool.specs.Turns.{AllRest, AllIdle, Listens, heard_by, FitsFirst, Writes, HasEnded};

use super::{leave, opened, pool_of, request, work_once};
use lane_machine::How;
use lane_pool::{
    Cancelling, Collected, LanePool, Offered, Opened, Posting, ReaderPass, RootPass, SlotPass,
    Taken, WorkerPass, WriterPass,
};
use orb_base::{Item, List, Notice, Order, PoolSpec, What};
use std::alloc::Global;
use std::sync::Wait;

/// The pass of the one slot.
#[tactic(auto, using(lane_pool::proofs::Sending::slots_out, lane_pool::proofs::Sending::one_slot))]
pub fn one_slot(pool: &LanePool, slots: List<SlotPass>) -> Option<SlotPass>
    requires rest { AllRest pool.now.cell 0 slots.items }
    requires fresh { AreFrom pool.now.cell 1 0 slots.items }
    requires one { length slots.items ≡ 1 }
    ensures { IfSome result (λ pass. IsSlotOut pool.now.cell 0 pass) }
{
    slots.into_vec().pop()
}

/// The pass of the one worker.
#[tactic(auto, using(lane_pool::proofs::Sending::workers_out, lane_pool::proofs::Sending::one_worker))]
fn one_worker(pool: &LanePool, workers: List<WorkerPass>) -> Option<WorkerPass>
    requires idle { AllIdle pool.now.cell 0 workers.items }
    requires fresh { AreFrom pool.now.cell 2 0 workers.items }
    requires one { length workers.items ≡ 1 }
    ensures { IfSome result (λ pass. IsWorkerOut pool.now.cell 2 pass) }
{
    workers.into_vec().pop()
}

/// Offers two requests, which are given to the thread and kept.
#[tactic(auto, using(lane_pool::proofs::Turns::listens_on, lane_pool::proofs::Staying::same_hear, lane_pool::proofs::Staying::same_then))]
fn offer_two<R: Wait>(rt: &R, alloc: Global, pool: &LanePool, reader: &mut ReaderPass) -> Option<()>
    requires listens { Listens pool.now.cell reader.old }
    requires unheard { heard_by reader.old ≡ 0 }
    requires lane { FitsFirst pool.now.cell }
    ensures listens { IfSome result (λ _. Listens pool.now.cell reader.new) }
    ensures same { IfSome result (λ _. IsSame pool.now.cell reader.old reader.new) }
{
    let conn = reader.conn();
    let first = request(alloc, conn, 0)?;
    let second = request(alloc, conn, 1)?;
    let Offered::Run {
        thread: 0,
        lent: false,
    } = pool.offer(rt, reader, first)
    else {
        return None;
    };
    let Offered::Kept = pool.offer(rt, reader, second) else {
        return None;
    };
    Some(())
}

/// Withdraws the second request, answers by itself, and ends.
#[tactic(auto, using(lane_pool::proofs::Turns::listens_on, lane_pool::proofs::Staying::same_hear, lane_pool::proofs::Staying::same_end, lane_pool::proofs::Staying::same_then))]
fn withdraw_and_end<R: Wait>(
    rt: &R,
    pool: &LanePool,
    reader: &mut ReaderPass,
) -> Option<(Cancelling, Posting)>
    requires listens { Listens pool.now.cell reader.old }
    ensures ended { IfSome result (λ _. HasEnded pool.now.cell reader.new) }
    ensures same { IfSome result (λ _. IsSame pool.now.cell reader.old reader.new) }
{
    let cancelled = pool.cancel(rt, reader, 1);
    let Cancelling::Removed = cancelled else {
        return None;
    };
    let notice = Notice {
        conn: reader.conn(),
        order: Order::Big,
        id: 2,
        what: What::Bound,
    };
    let posted = pool.post(rt, reader, notice);
    pool.end(rt, reader, How::Quiet);
    Some((cancelled, posted))
}

/// All calls of the reading side.
#[tactic(auto, using(lane_pool::proofs::Staying::same_then))]
fn read<R: Wait>(
    rt: &R,
    alloc: Global,
    pool: &LanePool,
    reader: ReaderPass,
) -> Option<(ReaderPass, Cancelling, Posting)>
    requires listens { Listens pool.now.cell reader }
    requires unheard { heard_by reader ≡ 0 }
    requires lane { FitsFirst pool.now.cell }
    ensures ended { IfSome result (λ r. HasEnded pool.now.cell r.0) }
    ensures same { IfSome result (λ r. IsSame pool.now.cell reader r.0) }
{
    let mut reader = reader;
    offer_two(rt, alloc, pool, &mut reader)?;
    let (cancelled, posted) = withdraw_and_end(rt, pool, &mut reader)?;
    Some((reader, cancelled, posted))
}

/// Collects a notice, an answer and nothing more, in this order.
#[tactic(auto, using(lane_pool::proofs::Staying::same_collect, lane_pool::proofs::Staying::same_then))]
fn write<R: Wait>(rt: &R, pool: &LanePool, writer: WriterPass) -> Option<WriterPass>
    requires { Writes pool.now.cell writer }
    ensures { IfSome result (λ w. IsSame pool.now.cell writer w) }
{
    let mut writer = writer;
    let Collected::Item(Item::Noticed(_)) = pool.collect(rt, &mut writer) else {
        return None;
    };
    let Collected::Item(Item::Answered(_)) = pool.collect(rt, &mut writer) else {
        return None;
    };
    let Collected::Done = pool.collect(rt, &mut writer) else {
        return None;
    };
    Some(writer)
}

/// The worker is told that all has ended.
#[tactic(auto, using(lane_pool::proofs::Staying::same_take, lane_pool::proofs::Staying::alone_same))]
fn dismiss<R: Wait>(rt: &R, pool: &LanePool, worker: WorkerPass) -> Option<WorkerPass>
    requires { IsWorkerOut pool.now.cell 2 worker }
    ensures { IfSome result (λ w. IsAlone pool.now.cell 2 w) }
{
    let mut worker = worker;
    let Taken::Ended = pool.take(rt, &mut worker) else {
        return None;
    };
    Some(worker)
}

/// What was answered in a connection, and the id of the request that was carried out.
type Answers = (Cancelling, Posting, u32);

/// The calls of both sides of a connection and of the worker, one after another.
#[tactic(auto, using(lane_pool::proofs::Staying::alone_same))]
fn sides<R: Wait>(
    rt: &R,
    alloc: Global,
    pool: &LanePool,
    reader: ReaderPass,
    writer: WriterPass,
    worker: WorkerPass,
) -> Option<(ReaderPass, WriterPass, WorkerPass, Answers)>
    requires listens { Listens pool.now.cell reader }
    requires unheard { heard_by reader ≡ 0 }
    requires lane { FitsFirst pool.now.cell }
    requires writes { Writes pool.now.cell writer }
    requires worker { IsWorkerOut pool.now.cell 2 worker }
    ensures ended { IfSome result (λ r. HasEnded pool.now.cell r.0) }
    ensures reader { IfSome result (λ r. IsSame pool.now.cell reader r.0) }
    ensures writer { IfSome result (λ r. IsSame pool.now.cell writer r.1) }
    ensures worker { IfSome result (λ r. IsWorkerOut pool.now.cell 2 r.2) }
{
    let mut worker = worker;
    let (reader, cancelled, posted) = read(rt, alloc, pool, reader)?;
    let id = work_once(rt, pool, &mut worker)?;
    let writer = write(rt, pool, writer)?;
    Some((reader, writer, worker, (cancelled, posted, id)))
}

/// One connection from its link to the slot's leave, and the worker's end.
#[tactic(auto, using(lane_pool::proofs::Staying::home_link, lane_pool::proofs::Staying::home_same))]
fn serve<R: Wait>(
    rt: &R,
    alloc: Global,
    pool: &LanePool,
    slot: SlotPass,
    worker: WorkerPass,
) -> Option<(SlotPass, WorkerPass, Answers)>
    requires slot { IsSlotOut pool.now.cell 0 slot }
    requires room { 0 < pool.now.cell.terms.opening.per_slot }
    requires lane { FitsFirst pool.now.cell }
    requires worker { IsWorkerOut pool.now.cell 2 worker }
    ensures slot { IfSome result (λ r. IsHome pool.now.cell 0 r.0) }
    ensures worker { IfSome result (λ r. IsAlone pool.now.cell 2 r.1) }
{
    let Ok((reader, writer)) = pool.link(slot) else {
        return None;
    };
    let (reader, writer, worker, answers) = sides(rt, alloc, pool, reader, writer, worker)?;
    let slot = leave(rt, pool, pool.unlink(reader, writer));
    let worker = dismiss(rt, pool, worker)?;
    Some((slot, worker, answers))
}

/// The numbers of the callers of a pool's whole history, which has twelve calls.
#[tactic(auto, using(lane_pool::proofs::Returned::one_in))]
fn callers(
    alloc: Global,
    pool: LanePool,
    root: RootPass,
    slot: SlotPass,
    worker: WorkerPass,
) -> Option<[u32; 12]>
    requires root { MainAt pool.cell 2 root }
    requires slot { IsHome pool.cell 0 slot }
    requires worker { IsAlone pool.cell 2 worker }
{
    let mut slots = Vec::new(alloc);
    let mut workers = Vec::new(alloc);
    if slots.push(slot).is_err() || workers.push(worker).is_err() {
        return None;
    }
    let history = pool.close(root, List::from_vec(slots), List::from_vec(workers));
    if history.len() != 12 {
        return None;
    }
    let mut callers = [0; 12];
    for (caller, entry) in callers.iter_mut().zip(history.as_slice()) {
        *caller = entry.caller;
    }
    Some(callers)
}

/// One connection and the end of the pool: what was answered, and who called.
#[tactic(auto, using(lane_pool::proofs::Openings::room_there, lane_pool::proofs::Openings::flat_lane))]
fn run<R: Wait>(rt: &R, alloc: Global, spec: &PoolSpec, all: Opened) -> Option<(Answers, [u32; 12])>
    requires opened { IsOpen spec.now 1 1 all.pool.cell all.root all.slots.items all.workers.items }
    requires slots { AllRest all.pool.cell 0 all.slots.items }
    requires workers { AllIdle all.pool.cell 0 all.workers.items }
    requires well_formed { IsWellFormed spec.now }
    requires flat { spec.now.laned ≡ false }
{
    let _ = spec;
    let Opened {
        pool,
        root,
        slots,
        workers,
    } = all;
    if workers.len() != 1 {
        return None;
    }
    let slot = one_slot(&pool, slots)?;
    let worker = one_worker(&pool, workers)?;
    let (slot, worker, answers) = serve(rt, alloc, &pool, slot, worker)?;
    Some((answers, callers(alloc, pool, root, slot, worker)?))
}

/// One connection of a pool of one slot and one thread.
fn connected<R: Wait>(rt: &R, alloc: Global) -> Option<(Answers, [u32; 12])> {
    let spec = pool_of(alloc, 1, 9)?;
    if !spec.well_formed() || spec.laned {
        return None;
    }
    let all = opened(alloc, &spec, 1, 1)?;
    run(rt, alloc, &spec, all)
}

#[test]
fn a_connection_goes_from_its_link_to_the_end_of_the_pool(rt: HostRuntime) {
    // The reading side has the slot's number, 1, the thread 2, and the first writing side of the first slot 81.
    let callers = [1, 1, 1, 1, 1, 2, 2, 81, 81, 81, 1, 2];
    let answers = (Cancelling::Removed, Posting::Posted, 0);
    assert!(rt; connected(&rt, rt.alloc()) == Some((answers, callers)));
}
