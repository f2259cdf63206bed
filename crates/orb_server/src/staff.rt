//! All workers and all slots.
ghost use Rattle.std.specs.Prelude.{◌≡◌, ◌+◌, ◌≤◌, [], length, IfOk, IfErr};
ghost use Rattle.std.specs.Vec.{vec_capacity};
ghost use Rattle.std.specs.Thread.{IsSync, IsSend};
ghost use Rattle.orb_server.specs.Threads.{AreJobs, acceptors_of, AreDone, IsIdle, HasWorked, HaveWorked, IsCrew};

use crate::job::{PoolDone, PoolJob};
use crate::slots::run_slots;
use adapter_policies::Setup;
use conn_sides::work;
use lane_pool::{LanePool, WorkerPass};
use link_slots::SlotJob;
use orb_base::{Acceptor, Gate, Serving};
use std::alloc::Global;
use std::snapshot::Snapshot;
use std::sync::Wait;
use std::thread;
use std::thread::{Promise, Scope, Threads};

/// What all workers and slots begin with, and room for what they leave.
#[derive(Drop)]
pub struct Crew<A, I, O> {
    pub workers: Vec<WorkerPass>,
    pub worked: Vec<WorkerPass>,
    pub jobs: Vec<PoolJob<A, I, O>>,
    pub done: Vec<PoolDone<A, I, O>>,
    /// Room for the acceptors of slots that don't serve.
    pub unserved: Vec<A>,
}

/// What all workers and slots leave.
#[derive(Drop)]
pub struct Staff<A, I, O> {
    pub workers: Vec<WorkerPass>,
    pub slots: Vec<PoolDone<A, I, O>>,
}

/// A worker, to its end.
#[tactic(auto, using(crate::proofs::Staffing::has_worked))]
fn one_worker<S: Serving, G: Gate, R: Wait>(
    rt: &R,
    alloc: Global,
    setup: &Setup,
    pool: &LanePool,
    servants: &S,
    gate: &G,
    pass: WorkerPass,
) -> WorkerPass
    requires { IsIdle pool.now.cell pass.seat.number pass.who pass }
    ensures { HasWorked setup.now (S.outcome servants.now) pool.now.cell pass.seat.number pass.who result }
{
    let mut pass = pass;
    work(rt, alloc, setup, pool, servants, gate, &mut pass);
    pass
}

/// What the thread of a worker promises: its tasks were carried out as the servants do, to the end.
#[derive(Drop)]
struct Working<S> {
    setup: Snapshot<Setup>,
    servants: Snapshot<S>,
    pool: Snapshot<LanePool>,
    pass: Snapshot<WorkerPass>,
}

impl<S: Serving> Promise<WorkerPass> for Working<S> {
    ghost kept_by = { λ p r. HasWorked p.setup.value (S.outcome p.servants.value) p.pool.value.cell p.pass.value.seat.number
        p.pass.value.who r };
}

/// Each slot leaves and serves nothing, the last one first. Gives the acceptors back, in the order of the slots.
#[tactic(auto, using(crate::proofs::Starting::jobs_front, crate::proofs::Starting::last_rests, crate::proofs::Starting::given_none, crate::proofs::Starting::given_more))]
fn leave_unserved<A: Drop, I: Drop, O: Drop, R: Wait>(
    rt: &R,
    setup: &Setup,
    pool: &LanePool,
    jobs: Vec<PoolJob<A, I, O>>,
    none: Vec<A>,
) -> Vec<A>
    requires jobs { AreJobs setup.now pool.now.cell 0 jobs.items }
    requires room { (none.items ≡ []) × (length jobs.items ≤ vec_capacity none) }
    ensures acceptors { result.items ≡ acceptors_of jobs.items }
    ensures room { vec_capacity result ≡ vec_capacity none }
{
    let mut jobs = jobs;
    match jobs.pop() {
        None => none,
        Some(job) => {
            let SlotJob {
                mut place,
                acceptor,
                logs,
            } = job;
            drop(logs);
            pool.leave(rt, &mut place);
            let mut acceptors = leave_unserved(rt, setup, pool, jobs, none);
            acceptors.push_reserved(acceptor);
            acceptors
        }
    }
}

/// Starts a thread of the scope for each worker, from the last one to the first, and then runs all slots. Where a thread can't be made, the
/// slots leave unserved, which ends the workers that were started, and the acceptors come back.
#[tactic(auto, using(crate::proofs::Staffing::idle_front, crate::proofs::Staffing::idle_own, crate::proofs::Staffing::worked_none, crate::proofs::Staffing::worked_more))]
fn staff_in<
    's,
    E,
    A: Acceptor + Send + Drop,
    S: Serving + Sync,
    G: Gate + Sync,
    R: Wait + Threads + Sync,
>(
    scope: &Scope<'s, E>,
    rt: &'s R,
    alloc: Global,
    setup: &'s Setup,
    pool: &'s LanePool,
    servants: &'s S,
    gate: &'s G,
    crew: Crew<A, A::In, A::Out>,
) -> Result<Staff<A, A::In, A::Out>, Vec<A>>
    requires { IsCrew setup.now pool.now.cell crew }
    ensures workers { IfOk result (λ s. HaveWorked setup.now (S.outcome servants.now) pool.now.cell (setup.now.slots + 1) 0 s.workers.items) }
    ensures all { IfOk result (λ s. length s.workers.items ≡ length crew.workers.items) }
    ensures space { IfOk result (λ s. vec_capacity s.workers ≡ vec_capacity crew.worked) }
    ensures slots { IfOk result (λ s. AreDone A.state A.In.state A.Out.state setup.now pool.now.cell 0 (acceptors_of crew.jobs.items) s.slots.items) }
    ensures every { IfOk result (λ s. length s.slots.items ≡ length crew.jobs.items) }
    ensures unserved { IfErr result (λ v. v.items ≡ acceptors_of crew.jobs.items) }
{
    let Crew {
        mut workers,
        worked,
        jobs,
        done,
        unserved,
    } = crew;
    let Some(pass) = workers.pop() else {
        let slots = run_slots(rt, alloc, setup, pool, jobs, done);
        return Ok(Staff {
            workers: worked,
            slots,
        });
    };
    let promise = Working {
        setup: Snapshot::of(setup),
        servants: Snapshot::of(servants),
        pool: Snapshot::of(pool),
        pass: Snapshot::of(&pass),
    };
    let started = scope.spawn_with(
        promise,
        move || -> WorkerPass
            requires { IsSync R.row × IsSync S.row × IsSync G.row × IsIdle pool.now.cell pass.seat.number pass.who pass }
            ensures { HasWorked setup.entry.now (S.outcome servants.entry.now) pool.entry.now.cell pass.seat.number pass.who result }
        { one_worker(rt, alloc, setup, pool, servants, gate, pass) },
    );
    match started {
        Ok(working) => {
            let crew = Crew {
                workers,
                worked,
                jobs,
                done,
                unserved,
            };
            let mut staff = staff_in(scope, rt, alloc, setup, pool, servants, gate, crew)?;
            staff.workers.push_reserved(working.join(rt));
            Ok(staff)
        }
        Err(_) => Err(leave_unserved(rt, setup, pool, jobs, unserved)),
    }
}

/// Runs each worker and each slot in a thread of its own, to their ends. Where the thread of a worker can't be made no slot serves, and
/// the acceptors come back as they were.
pub fn run_staff<
    A: Acceptor + Send + Drop,
    S: Serving + Sync,
    G: Gate + Sync,
    R: Wait + Threads + Sync,
>(
    rt: &R,
    alloc: Global,
    setup: &Setup,
    pool: &LanePool,
    servants: &S,
    gate: &G,
    crew: Crew<A, A::In, A::Out>,
) -> Result<Staff<A, A::In, A::Out>, Vec<A>>
    requires { IsCrew setup.now pool.now.cell crew }
    ensures workers { IfOk result (λ s. HaveWorked setup.now (S.outcome servants.now) pool.now.cell (setup.now.slots + 1) 0 s.workers.items) }
    ensures all { IfOk result (λ s. length s.workers.items ≡ length crew.workers.items) }
    ensures slots { IfOk result (λ s. AreDone A.state A.In.state A.Out.state setup.now pool.now.cell 0 (acceptors_of crew.jobs.items) s.slots.items) }
    ensures every { IfOk result (λ s. length s.slots.items ≡ length crew.jobs.items) }
    ensures unserved { IfErr result (λ v. v.items ≡ acceptors_of crew.jobs.items) }
{
    thread::scope(
        thread::scope_env(),
        rt,
        move |scope| -> Result<Staff<A, A::In, A::Out>, Vec<A>>
            requires { IsSync R.row × IsSync S.row × IsSync G.row × IsSend A.row × IsSend A.In.row × IsSend A.Out.row
                × IsCrew setup.now pool.now.cell crew }
            ensures { IfOk result (λ s. HaveWorked setup.entry.now (S.outcome servants.entry.now) pool.entry.now.cell
                (setup.entry.now.slots + 1) 0 s.workers.items × (length s.workers.items ≡ length crew.workers.items)
                × AreDone A.state A.In.state A.Out.state setup.entry.now pool.entry.now.cell 0 (acceptors_of crew.jobs.items) s.slots.items
                × (length s.slots.items ≡ length crew.jobs.items))
                × IfErr result (λ v. v.items ≡ acceptors_of crew.jobs.items) }
        { staff_in(scope, rt, alloc, setup, pool, servants, gate, crew) },
    )
}
