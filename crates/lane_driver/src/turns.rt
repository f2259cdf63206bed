//! Turns of the threads, from any state of the machine.
ghost use Rattle.std.specs.Prelude.{◌≡◌, ◌≤◌, [], true, Some, slice_get, OnOk, IfOk};
ghost use Rattle.orb_base.specs.Outcomes.{body_len};
ghost use Rattle.lane_machine.specs.declared.call.LaneCall.TheVariants.{Take, Finish};
ghost use Rattle.lane_machine.specs.declared.call.LaneReply.TheVariants.{Given, Finished};
ghost use Rattle.lane_machine.specs.Readiness.{is_ready, IsSound, IsBusyWith};
ghost use Rattle.pipe_laws.specs.Piped.{first_given};
ghost use Rattle.lane_driver.specs.Driving.{IsApplied, IsBetween};
ghost use Rattle.pipe_laws.specs.Lacking.{CameOf, served};
ghost use Rattle.lane_driver.specs.Turning.{IsAnswer, TurnsOnce, RunsToRest};

use crate::log::Log;
use adapter_policies::Setup;
use lane_machine::{LaneCall, LaneReply, Lanes};
use orb_base::limits::MAX_BODY;
use orb_base::{Answer, Arc, Job, NoMemory, Outcome, Serving, Text};
use std::alloc::Global;

/// One call of the machine, which is noted in the log. When out of memory the call may have been made.
pub fn apply_call(lanes: &mut Lanes, log: &mut Log, call: LaneCall) -> Result<LaneReply, NoMemory>
    requires ready { is_ready lanes.old call ≡ true }
    requires sound { IsSound lanes.old call }
    ensures { IfOk result (λ r. IsApplied lanes.old call lanes.new log.old log.new r) }
{
    let (first, second) = lanes.apply(&call)?;
    log.note(call, first)?;
    Ok(second)
}

/// The thread takes its task.
fn take(lanes: &mut Lanes, log: &mut Log, thread: u8) -> Result<Arc<Job>, NoMemory>
    requires { first_given lanes.old ≡ Some thread }
    ensures { IfOk result (λ job. IsApplied lanes.old (Take thread) lanes.new log.old log.new (Given job)) }
{
    match apply_call(lanes, log, LaneCall::Take { thread })? {
        LaneReply::Given(job) => Ok(job),
        _ => unreachable!(),
    }
}

/// The interface of no object. Takes no memory.
fn no_interface(alloc: Global) -> Text
    ensures { result ≡ [] }
{
    match Text::from_vec(Vec::new(alloc)) {
        Ok(text) => text,
        Err(_) => unreachable!(),
    }
}

/// Has the servants carry the job out, by the interface of its object, or by no interface where the setup has no such object. The memory is
/// the servants'.
#[tactic(auto, using(crate::proofs::Driving::came_or_wanting))]
pub fn invoke<S: Serving>(alloc: Global, setup: &Setup, servants: &S, job: &Job) -> Outcome
    ensures came { CameOf (served setup.now (S.outcome servants.now)) job.now result }
    ensures few { body_len result ≤ MAX_BODY }
{
    match setup.object(job.target) {
        Some(object) => servants.invoke(&object.interface, job),
        None => servants.invoke(&no_interface(alloc), job),
    }
}

/// The answer to a job.
fn carry_out<S: Serving>(alloc: Global, setup: &Setup, servants: &S, job: Arc<Job>) -> Answer
    ensures { IsAnswer (served setup.now (S.outcome servants.now)) job result }
{
    let outcome = invoke(alloc, setup, servants, job.get());
    Answer { job, outcome }
}

/// The thread finishes its task.
fn finish(lanes: &mut Lanes, log: &mut Log, thread: u8, answer: Answer) -> Result<(), NoMemory>
    requires busy { IsBusyWith answer (slice_get lanes.old.threads thread) }
    requires short { body_len answer.outcome ≤ MAX_BODY }
    ensures { OnOk result (IsApplied lanes.old (Finish thread answer) lanes.new log.old log.new Finished) }
{
    match apply_call(lanes, log, LaneCall::Finish { thread, answer })? {
        LaneReply::Finished => Ok(()),
        _ => unreachable!(),
    }
}

/// One turn of the thread of smallest number that has a task to take.
fn turn<S: Serving>(
    alloc: Global,
    lanes: &mut Lanes,
    log: &mut Log,
    setup: &Setup,
    servants: &S,
    thread: u8,
) -> Result<(), NoMemory>
    requires between { IsBetween lanes.old }
    requires given { first_given lanes.old ≡ Some thread }
    ensures { OnOk result (TurnsOnce (served setup.now (S.outcome servants.now)) lanes.old lanes.new log.old log.new) }
{
    let job = take(lanes, log, thread)?;
    let answer = carry_out(alloc, setup, servants, job);
    finish(lanes, log, thread, answer)?;
    Ok(())
}

/// Turns of the threads, of the smallest number first, until no task is given. Each finishes one of the requests in hand.
pub fn run_to_rest<S: Serving>(
    alloc: Global,
    lanes: &mut Lanes,
    log: &mut Log,
    setup: &Setup,
    servants: &S,
) -> Result<(), NoMemory>
    requires { IsBetween lanes.old }
    ensures { OnOk result (RunsToRest (served setup.now (S.outcome servants.now)) lanes.old lanes.new log.old log.new) }
{
    while let Some(thread) = lanes.first_given() {
        turn(alloc, lanes, log, setup, servants, thread)?;
    }
    Ok(())
}
