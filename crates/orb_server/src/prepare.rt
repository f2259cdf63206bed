//! What a run begins with. All its memory but that of its reading sides is taken here.
ghost use Rattle.std.specs.Prelude.{◌≡◌, ◌+◌, ◌*◌, ◌≤◌, [], length, IfOk};
ghost use Rattle.std.specs.Vec.{vec_capacity};
ghost use Rattle.thread_borrowing.specs.ThreadList.{pool_threads};
ghost use Rattle.orb_base.specs.Pool.{IsWellFormed};
ghost use Rattle.lane_pool.specs.Passes.{MainAt, IsOpen};
ghost use Rattle.lane_pool.specs.Turns.{AllRest, AllIdle};
ghost use Rattle.orb_server.specs.Threads.{IsPoolOf, AreResting, AreStarts, AreJobs, acceptors_of, AreIdle};

use crate::give::{Parts, no_parts};
use crate::job::{PoolDone, PoolJob, SlotStart};
use adapter_policies::Setup;
use lane_pool::{LanePool, Opened, RootPass, SlotPass, WorkerPass, open};
use link_slots::SlotJob;
use orb_base::NoMemory;
use std::alloc::Global;

/// An open pool with all that its threads begin with, and room for all that they leave.
#[derive(Drop)]
pub struct Prepared<A, I, O> {
    pub pool: LanePool,
    pub root: RootPass,
    pub starts: Vec<SlotStart<I, O>>,
    pub workers: Vec<WorkerPass>,
    pub worked: Vec<WorkerPass>,
    pub jobs: Vec<PoolJob<A, I, O>>,
    pub done: Vec<PoolDone<A, I, O>>,
    pub unserved: Vec<A>,
    pub parts: Parts<A, I, O>,
}

/// Opens the setup's pool.
fn open_pool(alloc: Global, setup: &Setup) -> Result<Opened, NoMemory>
    ensures opened { IfOk result (λ o. IsOpen setup.now.pool setup.now.slots setup.now.per_slot o.pool.cell o.root
        o.slots.items o.workers.items) }
    ensures slots { IfOk result (λ o. AllRest o.pool.cell 0 o.slots.items) }
    ensures workers { IfOk result (λ o. AllIdle o.pool.cell 0 o.workers.items) }
    ensures well_formed { IsWellFormed setup.now.pool }
{
    open(alloc, setup.pool(), setup.slots(), setup.per_slot())
}

/// Takes room for what the connections of each slot leave, and puts it beside the slot's pass.
#[tactic(auto, using(crate::proofs::Starting::resting_front, crate::proofs::Starting::resting_last, crate::proofs::Starting::starts_none, crate::proofs::Starting::starts_grow))]
fn make_starts<I: Drop, O: Drop>(
    alloc: Global,
    setup: &Setup,
    pool: &LanePool,
    passes: Vec<SlotPass>,
    none: Vec<SlotStart<I, O>>,
) -> Result<Vec<SlotStart<I, O>>, NoMemory>
    requires passes { AreResting pool.now.cell 0 passes.items }
    requires room { (none.items ≡ []) × (length passes.items ≤ vec_capacity none) }
    ensures starts { IfOk result (λ v. AreStarts setup.now pool.now.cell 0 v.items) }
    ensures all { IfOk result (λ v. length v.items ≡ length passes.items) }
    ensures room { IfOk result (λ v. vec_capacity v ≡ vec_capacity none) }
{
    let mut before = passes;
    match before.pop() {
        None => Ok(none),
        Some(pass) => {
            let mut starts = make_starts(alloc, setup, pool, before, none)?;
            let Ok(logs) = Vec::with_capacity(alloc, usize::from(setup.per_slot())) else {
                return Err(NoMemory);
            };
            starts.push_reserved(SlotStart { pass, logs });
            Ok(starts)
        }
    }
}

/// Gives each slot its acceptor.
#[tactic(auto, using(crate::proofs::Starting::starts_front, crate::proofs::Starting::starts_last, crate::proofs::Starting::jobs_none, crate::proofs::Starting::jobs_grow, crate::proofs::Starting::acceptors_grow, crate::proofs::Starting::same_lengths))]
pub fn give_acceptors<A: Drop, I: Drop, O: Drop>(
    setup: &Setup,
    pool: &LanePool,
    starts: Vec<SlotStart<I, O>>,
    acceptors: Vec<A>,
    none: Vec<PoolJob<A, I, O>>,
) -> Vec<PoolJob<A, I, O>>
    requires starts { AreStarts setup.now pool.now.cell 0 starts.items }
    requires same { length starts.items ≡ length acceptors.items }
    requires room { (none.items ≡ []) × (length starts.items ≤ vec_capacity none) }
    ensures jobs { AreJobs setup.now pool.now.cell 0 result.items }
    ensures acceptors { acceptors_of result.items ≡ acceptors.items }
    ensures all { length result.items ≡ length starts.items }
    ensures room { vec_capacity result ≡ vec_capacity none }
{
    let mut starts = starts;
    let mut acceptors = acceptors;
    match starts.pop() {
        None => none,
        Some(SlotStart { pass, logs }) => match acceptors.pop() {
            None => unreachable!(),
            Some(acceptor) => {
                let mut jobs = give_acceptors(setup, pool, starts, acceptors, none);
                jobs.push_reserved(SlotJob {
                    place: pass,
                    acceptor,
                    logs,
                });
                jobs
            }
        },
    }
}

/// Opens the setup's pool, and takes room for what the run leaves.
#[tactic(auto, using(crate::proofs::Starting::pool_of, crate::proofs::Starting::all_resting, crate::proofs::Starting::all_idle))]
pub fn prepare<A: Drop, I: Drop, O: Drop>(
    alloc: Global,
    setup: &Setup,
) -> Result<Prepared<A, I, O>, NoMemory>
    ensures opened { IfOk result (λ p. IsPoolOf setup.now p.pool.cell) }
    ensures root { IfOk result (λ p. MainAt p.pool.cell (setup.now.slots + length (pool_threads 0 setup.now.pool.lanes)) p.root) }
    ensures starts { IfOk result (λ p. AreStarts setup.now p.pool.cell 0 p.starts.items × (length p.starts.items ≡ setup.now.slots)) }
    ensures workers { IfOk result (λ p. AreIdle p.pool.cell (setup.now.slots + 1) 0 p.workers.items
        × (length p.workers.items ≡ length (pool_threads 0 setup.now.pool.lanes))) }
    ensures worked { IfOk result (λ p. (p.worked.items ≡ []) × (length (pool_threads 0 setup.now.pool.lanes) ≤ vec_capacity p.worked)) }
    ensures jobs { IfOk result (λ p. (p.jobs.items ≡ []) × (setup.now.slots ≤ vec_capacity p.jobs)) }
    ensures done { IfOk result (λ p. (p.done.items ≡ []) × (setup.now.slots ≤ vec_capacity p.done)) }
    ensures unserved { IfOk result (λ p. (p.unserved.items ≡ []) × (setup.now.slots ≤ vec_capacity p.unserved)) }
    ensures empty { IfOk result (λ p. (p.parts.passes.items ≡ []) × (p.parts.acceptors.items ≡ []) × (p.parts.conns.items ≡ [])
        × (p.parts.ends.items ≡ [])) }
    ensures room { IfOk result (λ p. (setup.now.slots ≤ vec_capacity p.parts.passes) × (setup.now.slots ≤ vec_capacity p.parts.acceptors)
        × (setup.now.slots * setup.now.per_slot ≤ vec_capacity p.parts.conns) × (setup.now.slots ≤ vec_capacity p.parts.ends)) }
{
    let count = usize::from(setup.slots());
    let conns = count * usize::from(setup.per_slot());
    let Opened {
        pool,
        root,
        slots: passes,
        workers,
    } = open_pool(alloc, setup)?;
    let Ok(none) = Vec::with_capacity(alloc, count) else {
        return Err(NoMemory);
    };
    let starts = make_starts(alloc, setup, &pool, passes.into_vec(), none)?;
    let workers = workers.into_vec();
    let Ok(worked) = Vec::with_capacity(alloc, workers.len()) else {
        return Err(NoMemory);
    };
    let Ok(jobs) = Vec::with_capacity(alloc, count) else {
        return Err(NoMemory);
    };
    let Ok(done) = Vec::with_capacity(alloc, count) else {
        return Err(NoMemory);
    };
    let Ok(unserved) = Vec::with_capacity(alloc, count) else {
        return Err(NoMemory);
    };
    let parts = no_parts(alloc, count, conns)?;
    Ok(Prepared {
        pool,
        root,
        starts,
        workers,
        worked,
        jobs,
        done,
        unserved,
        parts,
    })
}
