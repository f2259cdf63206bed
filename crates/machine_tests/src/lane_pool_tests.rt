//! Tests of a pool, and what they share.
ghost use Rattle.std.specs.Prelude.{◌≡◌, IfSome};
ghost use Rattle.lane_machine.specs.State.{CanOpen};
ghost use Rattle.lane_pool.specs.Passes.{IsOpen};
ghost use Rattle.lane_pool.specs.Returned.{IsSame};
ghost use Rattle.lane_pool.specs.Turns.{AllRest, AllIdle, CanTake, Rests};

use lane_pool::*;
use orb_base::{
    Answer, Arc, Completed, ConnId, Due, Job, LaneSpec, List, Order, Outcome, PoolSpec, Priority,
    Sys, SysName, Text,
};
use std::alloc::Global;
use std::sync::Wait;
use std::thread;

mod closing;
mod connection;
mod fates;
mod storm;

/// A pool without lanes, of so many static threads; as many requests may wait.
fn pool_of(alloc: Global, threads: u8, run_calls: u32) -> Option<PoolSpec> {
    let lane = LaneSpec {
        priority: Priority::new(0)?,
        statics: threads,
        dynamics: 0,
    };
    let lanes = Vec::from_slice(alloc, &[lane]).ok()?;
    Some(PoolSpec {
        laned: false,
        lanes: List::from_vec(lanes),
        borrowing: false,
        buffering: true,
        max_requests: u32::from(threads),
        max_bytes: 10_000,
        run_calls,
        run_bytes: 1_000_000,
    })
}

/// An open pool.
fn opened(alloc: Global, spec: &PoolSpec, slots: u8, per_slot: u8) -> Option<Opened>
    requires can { CanOpen spec.now slots per_slot }
    ensures opened { IfSome result (λ o. IsOpen spec.now slots per_slot o.pool.cell o.root o.slots.items o.workers.items) }
    ensures slots { IfSome result (λ o. AllRest o.pool.cell 0 o.slots.items) }
    ensures workers { IfSome result (λ o. AllIdle o.pool.cell 0 o.workers.items) }
{
    match open(alloc, spec, slots, per_slot) {
        Ok(opened) => Some(opened),
        Err(_) => None,
    }
}

/// A request of the connection with this serial, which is its id too.
fn request(alloc: Global, conn: ConnId, serial: u32) -> Option<Arc<Job>>
    ensures { IfSome result (λ job. (job.conn ≡ conn) × (job.serial ≡ serial) × (job.lane ≡ 0)) }
{
    let job = Job {
        conn,
        serial,
        id: serial,
        order: Order::Big,
        due: Due::Late,
        priority: Priority::new(5)?,
        lane: 0,
        size: 48,
        target: 0,
        operation: Text::new(alloc, b"ping").ok()?,
        body: List::new(alloc),
    };
    Arc::new(alloc, job).ok()
}

/// Lets the other threads go on for a while.
fn toil() {
    for _ in 0..300 {
        thread::yield_now();
    }
}

/// Takes a task and carries it out; its id. None where all has ended.
#[tactic(auto, using(lane_pool::proofs::Staying::same_take, lane_pool::proofs::Staying::same_finish, lane_pool::proofs::Staying::same_then))]
fn work_once<R: Wait>(rt: &R, pool: &LanePool, worker: &mut WorkerPass) -> Option<u32>
    requires { CanTake pool.now.cell worker.old }
    ensures idle { IfSome result (λ _. CanTake pool.now.cell worker.new) }
    ensures same { IsSame pool.now.cell worker.old worker.new }
{
    let Taken::Job(job) = pool.take(rt, worker) else {
        return None;
    };
    let id = job.get().id;
    let outcome = Outcome::System(Sys {
        name: SysName::NoMemory,
        minor: 1,
        completed: Completed::Maybe,
    });
    toil();
    pool.finish(rt, worker, Answer { job, outcome });
    Some(id)
}

/// The slot leaves.
#[tactic(auto, using(lane_pool::proofs::Staying::same_leave))]
fn leave<R: Wait>(rt: &R, pool: &LanePool, slot: SlotPass) -> SlotPass
    requires { Rests pool.now.cell slot }
    ensures { IsSame pool.now.cell slot result }
{
    let mut slot = slot;
    pool.leave(rt, &mut slot);
    slot
}
