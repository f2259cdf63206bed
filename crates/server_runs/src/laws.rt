//! Laws of runs, which cost nothing to call.
ghost use Rattle.adapter_policies.specs.SetupData.{SetupData};
ghost use Rattle.lane_machine.specs.Histories.{History};
ghost use Rattle.orb_base.specs.JobRecord.{JobRecord};
ghost use Rattle.orb_base.specs.Outside.{SinkState};
ghost use Rattle.orb_base.specs.declared.outcome.Outcome.{Outcome};
ghost use Rattle.orb_server.specs.Runs.{Slot, SlotsRan};
ghost use Rattle.orb_server.specs.declared.run.Run.{Run};
ghost use Rattle.server_runs.specs.Complete.{AllWentWell, AllComplete};
ghost use Rattle.server_runs.specs.Serving.{RanRuns};
ghost use Rattle.server_runs.specs.Successive.{AllHold, AllTakeFirst, EndsInPlan};
ghost use Rattle.server_runs.specs.declared.run_plan.RunPlan.{RunPlan};
ghost use Rattle.server_runs.specs.declared.serve_end.ServeEnd.{ServeEnd};
ghost use Rattle.std.specs.Prelude.{◌≤◌, ℕ, List};

use orb_base::Acceptor;

/// A law: slots of a run at which nothing failed left nothing out. Where no accept, no read and no write failed, no call was answered
/// Closing and memory did not run out, all that each connection's bytes mean was called, as the entries of its slot in the history, all
/// that it was owed was written, as those of its writing side, and each slot served all links that came, up to as many as a slot may, or
/// up to one that was told to close.
#[tactic(auto, using(crate::proofs::Completing::slots_complete))]
pub fn runs_without_fault_are_complete<A: Acceptor>()
    ensures { (setup : SetupData) (h : History) (slots : List (Slot A A.In A.Out)) → AllWentWell slots
        → SlotsRan A.state A.In.state A.Out.state setup h 0 slots → AllComplete A.state A.In.state A.Out.state setup h 0 slots }
{}

/// Laws of runs that followed each other over the same acceptors. Of each of them the headline holds; and where nothing failed in it, it
/// left nothing out of the links that were left when it began. The links that a slot took, run by run, are the first of those that its
/// acceptor knew. And there are no more runs than the plan has; where the last one's lines were written whole, there are as many, or that
/// one left no links to its slots.
pub fn runs_follow_each_other<A: Acceptor>()
    ensures each { (setup : SetupData) (outcome : List ℕ → JobRecord → Outcome) (plan : RunPlan) (end : ServeEnd)
        (runs : List (Run A.In A.Out)) (before behind : List A) (out out' : SinkState)
        → RanRuns A.state A.In.state A.Out.state setup outcome plan end runs before behind out out'
        → AllHold A.state A.In.state A.Out.state setup outcome runs }
    ensures links { (setup : SetupData) (outcome : List ℕ → JobRecord → Outcome) (plan : RunPlan) (end : ServeEnd)
        (runs : List (Run A.In A.Out)) (before behind : List A) (out out' : SinkState)
        → RanRuns A.state A.In.state A.Out.state setup outcome plan end runs before behind out out'
        → AllTakeFirst A.state A.In.state A.Out.state setup 0 runs before behind }
    ensures count { (setup : SetupData) (outcome : List ℕ → JobRecord → Outcome) (plan : RunPlan) (end : ServeEnd)
        (runs : List (Run A.In A.Out)) (before behind : List A) (out out' : SinkState) → 1 ≤ plan.runs
        → RanRuns A.state A.In.state A.Out.state setup outcome plan end runs before behind out out' → EndsInPlan plan end runs }
{}
