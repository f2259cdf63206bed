//! Laws of runs. The bodies are empty: each contract is a law of the definitions.
ghost use Rattle.std.specs.Prelude.{ℕ};
ghost use Rattle.adapter_policies.specs.SetupData.{SetupData};
ghost use Rattle.name_map.specs.Callers.{History};
ghost use Rattle.names_runs.specs.Complete.{SlotWentWell, SlotComplete};
ghost use Rattle.names_runs.specs.Runs.{Slot, SlotRan};

use orb_base::Acceptor;

/// A slot of a run at which nothing failed left nothing out. Where no accept, no read and no write of it failed, its hand had an
/// invocation for each request, and memory did not run out, all that each connection's bytes mean was made and written, and the slot
/// served all links that came, up to as many as a slot may, or up to one that sent too many bytes.
#[tactic(auto, using(crate::proofs::Completing::slot_complete))]
pub fn runs_without_fault_are_complete<A: Acceptor>()
    ensures { (setup : SetupData) (h : History) (slot : ℕ) (s : Slot A A.In A.Out)
        (ran : SlotRan A.state A.In.state A.Out.state setup h slot s) → SlotWentWell A.state A.In.state A.Out.state setup h slot s ran
        → SlotComplete A.state A.In.state A.Out.state setup h slot s }
{}
