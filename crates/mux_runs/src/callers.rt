//! The callers of a link, each in a thread of its own where one can be made.
ghost use Rattle.std.specs.Prelude.{◌≡◌, ◌≤◌, [], length};
ghost use Rattle.std.specs.Vec.{vec_capacity};
ghost use Rattle.mux_runs.specs.Callers as Spec;

use crate::jobs::{Asking, CallDone, CallJob};
use mux_sides::make_call;
use shared_link::Shared;
use side_by_side::run_all;
use std::sync::Wait;
use std::thread::Threads;

/// Makes the call of one caller.
#[tactic(auto, using(crate::proofs::CallerJobs::ready_caller, crate::proofs::CallerJobs::called_one))]
fn call_one<R: Wait>(rt: &R, shared: &Shared, job: CallJob) -> CallDone
    requires { Spec.IsReady shared.now.cell job.seat.number job }
    ensures { Spec.HasCalled shared.now.cell job.seat.number job.asking result }
{
    let CallJob { seat, asking } = job;
    let Asking { request, due } = asking;
    let mut seat = seat;
    let end = make_call(rt, shared, &mut seat, request, due);
    CallDone { seat, end }
}

/// Makes the calls of all callers, each in a thread of its own where one can be made, and puts what each leaves into `done`, in order.
pub fn run_callers<R: Wait + Threads + Sync>(
    rt: &R,
    shared: &Shared,
    jobs: Vec<CallJob>,
    done: Vec<CallDone>,
) -> Vec<CallDone>
    requires jobs { Spec.AreReady shared.now.cell 1 jobs.items }
    requires room { (done.items ≡ []) × (length jobs.items ≤ vec_capacity done) }
    ensures called { Spec.HaveCalled shared.now.cell 1 (Spec.asked_by jobs.items) result.items }
    ensures all { length result.items ≡ length jobs.items }
{
    let call = move |job: CallJob| -> CallDone
        requires { Spec.IsReady shared.now.cell job.seat.number job }
        ensures { Spec.HasCalled shared.entry.now.cell job.seat.number job.asking result }
    { call_one(rt, shared, job) };
    run_all(rt, &call, jobs, done)
}
