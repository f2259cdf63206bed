//! The workers.
ghost use Rattle.pipe_laws.specs.Lacking.{served};
ghost use Rattle.lane_pool.specs.Turns.{CanTake};
ghost use Rattle.conn_sides.specs.Working.{WorksOut, CarriesOut};

use adapter_policies::Setup;
use lane_driver::invoke;
use lane_pool::{LanePool, Taken, WorkerPass};
use orb_base::{Answer, Arc, Gate, Job, Outcome, Serving};
use std::alloc::Global;
use std::sync::Wait;

/// The answer to a job, between the two calls of the gate.
fn carry_out<S: Serving, G: Gate>(
    alloc: Global,
    setup: &Setup,
    servants: &S,
    gate: &G,
    job: Arc<Job>,
) -> Answer
    ensures { CarriesOut (served setup.now (S.outcome servants.now)) job result }
{
    gate.enter(job.get());
    let outcome: Outcome = invoke(alloc, setup, servants, job.get());
    gate.leave(job.get());
    Answer { job, outcome }
}

/// A worker of a server of this setup: takes a task by the pass, calls the gate, has the servant of the task's object carry it out, calls the
/// gate, and finishes the task with what came of it, until it is told that all has ended. Each take and each call of the gate may wait. The
/// memory is the servants'.
pub fn work<S: Serving, G: Gate, R: Wait>(
    rt: &R,
    alloc: Global,
    setup: &Setup,
    pool: &LanePool,
    servants: &S,
    gate: &G,
    pass: &mut WorkerPass,
)
    requires { CanTake pool.now.cell pass.old }
    ensures { WorksOut pool.now.cell (served setup.now (S.outcome servants.now)) pass.old pass.new }
{
    for _ in rt.forever() {
        match pool.take(rt, pass) {
            Taken::Job(job) => {
                let answer = carry_out(alloc, setup, servants, gate, job);
                pool.finish(rt, pass, answer);
            }
            Taken::Ended => return,
        }
    }
    unreachable!()
}
