//! How a pool is opened.
ghost use Rattle.std.specs.Prelude.{◌≡◌, ◌<◌, ◌≤◌, ◌+◌, ◌*◌, length, IfOk};
ghost use Rattle.orb_base.specs.Pool.{Pool};
ghost use Rattle.lane_machine.specs.State.{CanOpen};
ghost use Rattle.lane_pool.specs.Passes.{IsFresh, AreFrom, IsOpen, MainAt};
ghost use Rattle.lane_pool.specs.Turns.{AllRest, AllIdle};

use crate::passes::{RootPass, SlotPass, WorkerPass};
use crate::pool::LanePool;
use lane_machine::Lanes;
use orb_base::{List, NoMemory, PoolSpec};
use std::alloc::Global;
use turn_cell::{Seat, TurnCell};

/// An open pool with its passes.
#[derive(Drop)]
pub struct Opened {
    pub pool: LanePool,
    /// To which all other passes come back.
    pub root: RootPass,
    /// One for each slot, in order.
    pub slots: List<SlotPass>,
    /// One for each thread, in order.
    pub workers: List<WorkerPass>,
}

/// Opens a pool of threads, with so many slots and connections of each. Takes the memory for the machine, for the whole
/// history and for the passes.
#[tactic(auto, using(crate::proofs::Openings::all_rest, crate::proofs::Openings::all_idle))]
pub fn open(alloc: Global, pool: &PoolSpec, slots: u8, per_slot: u8) -> Result<Opened, NoMemory>
    requires can { CanOpen pool.now slots per_slot }
    ensures opened { IfOk result (λ o. IsOpen pool.now slots per_slot o.pool.cell o.root o.slots.items o.workers.items) }
    ensures slots { IfOk result (λ o. AllRest o.pool.cell 0 o.slots.items) }
    ensures workers { IfOk result (λ o. AllIdle o.pool.cell 0 o.workers.items) }
{
    let lanes = Lanes::new(alloc, pool, slots, per_slot)?;
    let threads = lanes.count_threads() as u8;
    let length = room(pool.run_calls, slots, per_slot, threads);
    let Ok((cell, mut main)) = TurnCell::new(alloc, lanes, length) else {
        return Err(NoMemory);
    };
    let readers = slot_passes(alloc, &cell, &mut main, slots)?;
    let workers = worker_passes(alloc, &cell, &mut main, slots, threads)?;
    Ok(Opened {
        pool: LanePool { cell },
        root: RootPass { main },
        slots: List::from_vec(readers),
        workers: List::from_vec(workers),
    })
}

/// How many entries the history of a run may have.
fn room(run_calls: u32, slots: u8, per_slot: u8, threads: u8) -> u32
    requires calls { run_calls ≤ 65536 }
    requires slots { slots * per_slot ≤ 128 }
    ensures { result ≡ 4 * run_calls + 3 * (slots * per_slot) + slots + threads }
{
    4 * run_calls
        + 3 * (u32::from(slots) * u32::from(per_slot))
        + u32::from(slots)
        + u32::from(threads)
}

/// Splits the next seat off the first one.
fn next(cell: &TurnCell<Lanes>, main: &mut Seat<Lanes>) -> Result<Seat<Lanes>, NoMemory>
    requires main { MainAt cell.now main.old.splits main.old }
    requires room { main.old.splits < 80 }
    ensures main { IfOk result (λ s. MainAt cell.now (main.old.splits + 1) main.new) }
    ensures seat { IfOk result (λ s. IsFresh cell.now (main.old.splits + 1) 0 (record { seat = s; who = 0; nth = 0 })) }
{
    cell.split(main)
}

/// The passes of the slots.
#[tactic(auto, using(crate::proofs::Growing::grows))]
fn slot_passes(
    alloc: Global,
    cell: &TurnCell<Lanes>,
    main: &mut Seat<Lanes>,
    slots: u8,
) -> Result<Vec<SlotPass>, NoMemory>
    requires main { MainAt cell.now 0 main.old }
    requires few { slots ≤ 16 }
    ensures main { IfOk result (λ v. MainAt cell.now slots main.new) }
    ensures passes { IfOk result (λ v. (length v.items ≡ slots) × AreFrom cell.now 1 0 v.items) }
{
    let Ok(mut passes) = Vec::with_capacity(alloc, usize::from(slots)) else {
        return Err(NoMemory);
    };
    for slot in 0..slots {
        let seat = next(cell, main)?;
        let pass = SlotPass {
            seat,
            slot,
            links: 0,
        };
        if passes.push(pass).is_err() {
            return Err(NoMemory);
        }
    }
    Ok(passes)
}

/// The passes of the threads, whose seats are split after those of the slots.
#[tactic(auto, using(crate::proofs::Growing::grows))]
fn worker_passes(
    alloc: Global,
    cell: &TurnCell<Lanes>,
    main: &mut Seat<Lanes>,
    slots: u8,
    threads: u8,
) -> Result<Vec<WorkerPass>, NoMemory>
    requires main { MainAt cell.now slots main.old }
    requires few { (slots ≤ 16) × (threads ≤ 64) }
    ensures main { IfOk result (λ v. MainAt cell.now (slots + threads) main.new) }
    ensures passes { IfOk result (λ v. (length v.items ≡ threads) × AreFrom cell.now (slots + 1) 0 v.items) }
{
    let Ok(mut passes) = Vec::with_capacity(alloc, usize::from(threads)) else {
        return Err(NoMemory);
    };
    for thread in 0..threads {
        let seat = next(cell, main)?;
        let pass = WorkerPass { seat, thread };
        if passes.push(pass).is_err() {
            return Err(NoMemory);
        }
    }
    Ok(passes)
}
