//! Runs over the acceptors of one listener, one after another.
ghost use Rattle.std.specs.Prelude.{◌≡◌, ◌≤◌, ◌<◌, ◌+◌, ◌++◌, ◌∷◌, [], length, IfOk, OnErr};
ghost use Rattle.std.specs.List.{list_any};
ghost use Rattle.server_runs.specs.Plans as Plan;
ghost use Rattle.server_runs.specs.RunLines.{WritesLines, lines_of};
ghost use Rattle.server_runs.specs.Serving as Spec;

use crate::open_gate::OpenGate;
use crate::run_lines::write_run;
use crate::run_plan::RunPlan;
use crate::serve_end::ServeEnd;
use adapter_policies::Setup;
use orb_base::{Acceptor, List, NoMemory, Serving, Sink};
use orb_server::{Run, SlotEnd, serve_run};
use std::alloc::Global;
use std::sync::Wait;
use std::thread::Threads;

/// Whether links may be left to a slot that ended so.
fn may_go_on(end: SlotEnd) -> bool
    ensures { result ≡ Plan.may_go_on end }
{
    match end {
        SlotEnd::Served | SlotEnd::Closed => true,
        SlotEnd::Done | SlotEnd::AcceptFault => false,
    }
}

/// Whether links may be left to one of the slots.
fn some_may_go_on(ends: &[SlotEnd]) -> bool
    ensures { result ≡ list_any Plan.may_go_on ends.now }
{
    ends.iter().any(|end| may_go_on(*end))
}

/// Whether another run follows one that came out so, where at most so many are made, that one included.
fn goes_on<I, T>(wrote: ServeEnd, left: u8, run: &Run<I, T>) -> bool
    ensures { result ≡ Plan.goes_on wrote left run.now.slots.items }
{
    match wrote {
        ServeEnd::Done => left > 1 && some_may_go_on(run.slots.as_slice()),
        ServeEnd::NetFault | ServeEnd::WriteFault | ServeEnd::NoMemory => false,
    }
}

/// Writes the lines of a run, with its trace where the plan asks for it.
fn write_lines<I, T, O: Sink>(
    alloc: Global,
    out: &mut O,
    setup: &Setup,
    plan: &RunPlan,
    run: &Run<I, T>,
) -> ServeEnd
    ensures { WritesLines result plan.now.trace (lines_of plan.now.trace setup.now run.now.history.items) (O.state out.old)
        (O.state out.new) }
{
    write_run(alloc, out, setup, plan.trace, run.history.as_slice())
}

/// Makes one run over these acceptors.
fn make_run<A: Acceptor + Send + Drop, S: Serving + Sync, R: Wait + Threads + Sync>(
    rt: &R,
    alloc: Global,
    setup: &Setup,
    servants: &S,
    acceptors: &mut List<A>,
) -> Result<Run<A::In, A::Out>, NoMemory>
    requires { length acceptors.old.items ≡ setup.now.slots }
    ensures ran { IfOk result (λ run. Spec.Ran A.state A.In.state A.Out.state setup.now (S.outcome servants.now) run acceptors.old.items
        acceptors.new.items) }
    ensures many { IfOk result (λ run. length acceptors.new.items ≡ setup.now.slots) }
    ensures kept { OnErr result (acceptors.new.items ≡ acceptors.old.items) }
{
    serve_run(rt, alloc, setup, servants, acceptors, &OpenGate)
}

/// Puts a run after those that are there, for which there is room.
fn keep<I, T>(runs: &mut List<Run<I, T>>, run: Run<I, T>)
    requires { 0 < runs.old.spare }
    ensures items { runs.new.items ≡ runs.old.items ++ run ∷ [] }
    ensures left { runs.old.spare ≤ runs.new.spare + 1 }
{
    match runs.push(run) {
        Ok(()) => {}
        Err(_) => unreachable!(),
    }
}

/// Makes runs over these acceptors by a plan, one after another, and puts what each leaves after the runs that are there, for which there
/// is room.
#[tactic(auto, using(crate::proofs::Following::none_made, crate::proofs::Following::last_made, crate::proofs::Following::more_made, crate::proofs::Going::goes_more))]
pub fn serve_runs<A: Acceptor + Send + Drop, S: Serving + Sync, O: Sink, R: Wait + Threads + Sync>(
    rt: &R,
    alloc: Global,
    setup: &Setup,
    servants: &S,
    plan: &RunPlan,
    acceptors: &mut List<A>,
    runs: &mut List<Run<A::In, A::Out>>,
    out: &mut O,
) -> ServeEnd
    requires slots { length acceptors.old.items ≡ setup.now.slots }
    requires room { plan.now.runs ≤ runs.old.spare }
    ensures { Spec.RunsOn A.state A.In.state A.Out.state setup.now (S.outcome servants.now) plan.now result runs.old.items runs.new.items
        acceptors.old.items acceptors.new.items (O.state out.old) (O.state out.new) }
{
    let Ok(run) = make_run(rt, alloc, setup, servants, acceptors) else {
        return ServeEnd::NoMemory;
    };
    let wrote = write_lines(alloc, out, setup, plan, &run);
    let follows = goes_on(wrote, plan.runs.count(), &run);
    keep(runs, run);
    if !follows {
        return wrote;
    }
    let after = plan.after_one();
    serve_runs(rt, alloc, setup, servants, &after, acceptors, runs, out)
}
