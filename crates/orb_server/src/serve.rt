//! A run of the server.
ghost use Rattle.std.specs.Prelude.{◌≡◌, ◌+◌, ◌*◌, ◌≤◌, [], length, IfOk, IfErr, OnErr};
ghost use Rattle.std.specs.Vec.{vec_capacity};
ghost use Rattle.thread_borrowing.specs.ThreadList.{pool_threads};
ghost use Rattle.lane_pool.specs.Passes.{MainAt};
ghost use Rattle.lane_pool.specs.Returned.{AllHome};
ghost use Rattle.orb_server.specs.Threads.{IsPoolOf, AreStarts, AreIdle, HaveWorked};
ghost use Rattle.orb_server.specs.Giving.{passes_of, conns_of};
ghost use Rattle.orb_server.specs.Fates.{RunsOnce, RunsInLanes, RunsAdmitted};
ghost use Rattle.orb_server.specs.Runs.{opening_of, IsLawful, AllSlotsRan, SlotsRanOver, WorkersRan};

use crate::give::{Parts, take_apart};
use crate::prepare::{Prepared, give_acceptors, prepare};
use crate::run::Run;
use crate::staff::{Crew, Staff, run_staff};
use adapter_policies::Setup;
use lane_laws::{all_is_done, each_in_one_place};
use lane_pool::{LanePool, RootPass};
use orb_base::{Acceptor, Gate, List, NoMemory, Serving};
use std::alloc::Global;
use std::mem;
use std::sync::Wait;
use std::thread::Threads;

/// Gives all passes back, and closes the pool.
fn close_run<A: Acceptor + Drop, S: Serving>(
    pool: LanePool,
    root: RootPass,
    setup: &Setup,
    servants: &S,
    staff: Staff<A, A::In, A::Out>,
    none: Parts<A, A::In, A::Out>,
) -> (Run<A::In, A::Out>, Vec<A>)
    requires opened { IsPoolOf setup.now pool.cell }
    requires root { MainAt pool.cell (setup.now.slots + length (pool_threads 0 setup.now.pool.lanes)) root }
    requires home { AllHome pool.cell 0 (passes_of staff.slots.items) × (length staff.slots.items ≡ setup.now.slots) }
    requires workers { HaveWorked setup.now (S.outcome servants.now) pool.cell (setup.now.slots + 1) 0 staff.workers.items
        × (length staff.workers.items ≡ length (pool_threads 0 setup.now.pool.lanes)) }
    requires empty { (none.passes.items ≡ []) × (none.acceptors.items ≡ []) × (none.conns.items ≡ []) × (none.ends.items ≡ []) }
    requires room { (setup.now.slots ≤ vec_capacity none.passes) × (setup.now.slots ≤ vec_capacity none.acceptors)
        × (length (conns_of staff.slots.items) ≤ vec_capacity none.conns) × (setup.now.slots ≤ vec_capacity none.ends) }
    ensures lawful { IsLawful setup.now result.0.history.items }
    ensures slots { SlotsRanOver A.state A.In.state A.Out.state setup.now pool.cell result.0.history.items staff.slots.items result.1.items
        result.0.conns.items result.0.slots.items }
    ensures workers { WorkersRan setup.now (S.outcome servants.now) result.0.history.items }
    ensures once { RunsOnce (opening_of setup.now) result.0.history.items }
    ensures lanes { RunsInLanes (opening_of setup.now) result.0.history.items }
    ensures admitted { RunsAdmitted [] result.0.history.items }
{
    all_is_done();
    each_in_one_place();
    let Staff { workers, slots } = staff;
    let Parts {
        passes,
        acceptors,
        conns,
        ends,
    } = take_apart(slots, none);
    let homes = List::from_vec(passes);
    let alones = List::from_vec(workers);
    let history = pool.close(root, homes, alones);
    let conns = List::from_vec(conns);
    let slots = List::from_vec(ends);
    let run = Run {
        history,
        conns,
        slots,
    };
    (run, acceptors)
}

/// Runs all workers and slots over these acceptors, and closes the pool. Where the thread of a worker can't be made no slot serves, and the
/// acceptors come back as they were.
fn run_prepared<
    A: Acceptor + Send + Drop,
    S: Serving + Sync,
    G: Gate + Sync,
    R: Wait + Threads + Sync,
>(
    rt: &R,
    alloc: Global,
    setup: &Setup,
    servants: &S,
    gate: &G,
    acceptors: Vec<A>,
    prepared: Prepared<A, A::In, A::Out>,
) -> Result<(Run<A::In, A::Out>, Vec<A>), Vec<A>>
    requires slots { length acceptors.items ≡ setup.now.slots }
    requires opened { IsPoolOf setup.now prepared.pool.cell }
    requires root { MainAt prepared.pool.cell (setup.now.slots + length (pool_threads 0 setup.now.pool.lanes)) prepared.root }
    requires starts { AreStarts setup.now prepared.pool.cell 0 prepared.starts.items × (length prepared.starts.items ≡ setup.now.slots) }
    requires workers { AreIdle prepared.pool.cell (setup.now.slots + 1) 0 prepared.workers.items
        × (length prepared.workers.items ≡ length (pool_threads 0 setup.now.pool.lanes)) }
    requires worked { (prepared.worked.items ≡ []) × (length (pool_threads 0 setup.now.pool.lanes) ≤ vec_capacity prepared.worked) }
    requires jobs { (prepared.jobs.items ≡ []) × (setup.now.slots ≤ vec_capacity prepared.jobs) }
    requires done { (prepared.done.items ≡ []) × (setup.now.slots ≤ vec_capacity prepared.done) }
    requires unserved { (prepared.unserved.items ≡ []) × (setup.now.slots ≤ vec_capacity prepared.unserved) }
    requires empty { (prepared.parts.passes.items ≡ []) × (prepared.parts.acceptors.items ≡ []) × (prepared.parts.conns.items ≡ [])
        × (prepared.parts.ends.items ≡ []) }
    requires room { (setup.now.slots ≤ vec_capacity prepared.parts.passes) × (setup.now.slots ≤ vec_capacity prepared.parts.acceptors)
        × (setup.now.slots * setup.now.per_slot ≤ vec_capacity prepared.parts.conns)
        × (setup.now.slots ≤ vec_capacity prepared.parts.ends) }
    ensures lawful { IfOk result (λ r. IsLawful setup.now r.0.history.items) }
    ensures slots { IfOk result (λ r. AllSlotsRan A.state A.In.state A.Out.state setup.now r.0.history.items acceptors.items r.1.items
        r.0.conns.items r.0.slots.items) }
    ensures workers { IfOk result (λ r. WorkersRan setup.now (S.outcome servants.now) r.0.history.items) }
    ensures once { IfOk result (λ r. RunsOnce (opening_of setup.now) r.0.history.items) }
    ensures lanes { IfOk result (λ r. RunsInLanes (opening_of setup.now) r.0.history.items) }
    ensures admitted { IfOk result (λ r. RunsAdmitted [] r.0.history.items) }
    ensures unserved { IfErr result (λ v. v.items ≡ acceptors.items) }
{
    let Prepared {
        pool,
        root,
        starts,
        workers,
        worked,
        jobs,
        done,
        unserved,
        parts,
    } = prepared;
    let jobs = give_acceptors(setup, &pool, starts, acceptors, jobs);
    let crew = Crew {
        workers,
        worked,
        jobs,
        done,
        unserved,
    };
    let staff = run_staff(rt, alloc, setup, &pool, servants, gate, crew)?;
    Ok(close_run(pool, root, setup, servants, staff, parts))
}

/// Runs the server of a setup: each slot serves the links of its acceptor, one after another, by two threads each, and one thread works
/// for each of the pool. It comes back once every slot has left; the acceptors are in their places then. NoMemory comes before any link
/// is accepted, also where the thread of a worker can't be made, and leaves the acceptors. Where that of a writing side can't be made, its
/// connection is closed unread; where that of a slot can't, the slot serves after the others.
///
/// It costs what its connections cost; two threads a slot and one for each thread of the pool; and room for the log of each connection that
/// may come, `slots` times `per_slot`, which is taken at the start.
pub fn serve_run<
    A: Acceptor + Send + Drop,
    S: Serving + Sync,
    G: Gate + Sync,
    R: Wait + Threads + Sync,
>(
    rt: &R,
    alloc: Global,
    setup: &Setup,
    servants: &S,
    slots: &mut List<A>,
    gate: &G,
) -> Result<Run<A::In, A::Out>, NoMemory>
    requires { length slots.old.items ≡ setup.now.slots }
    // All calls are one legal history, in which each was fit for its caller.
    ensures lawful { IfOk result (λ run. IsLawful setup.now run.history.items) }
    // Each connection's calls are what its bytes mean, and its output is what the history says.
    ensures slots { IfOk result (λ run. AllSlotsRan A.state A.In.state A.Out.state setup.now run.history.items slots.old.items
        slots.new.items run.conns.items run.slots.items) }
    // Each admitted request that its client did not withdraw ran once, on a thread of its lane or one lent from a lower lane.
    ensures workers { IfOk result (λ run. WorkersRan setup.now (S.outcome servants.now) run.history.items) }
    ensures once { IfOk result (λ run. RunsOnce (opening_of setup.now) run.history.items) }
    ensures lanes { IfOk result (λ run. RunsInLanes (opening_of setup.now) run.history.items) }
    ensures admitted { IfOk result (λ run. RunsAdmitted [] run.history.items) }
    ensures kept { OnErr result (slots.new.items ≡ slots.old.items) }
{
    let prepared = prepare(alloc, setup)?;
    let acceptors = mem::replace(slots, List::new(alloc)).into_vec();
    let (run, acceptors) = match run_prepared(
        rt, alloc, setup, servants, gate, acceptors, prepared,
    ) {
        Ok((run, acceptors)) => (Ok(run), acceptors),
        Err(acceptors) => (Err(NoMemory), acceptors),
    };
    *slots = List::from_vec(acceptors);
    run
}
