//! Laws over what a run of the server leaves. The bodies are empty: each contract is a law of the definitions.
ghost use Rattle.std.specs.Prelude.{ℕ};
ghost use Rattle.lane_machine.specs.Callers.{of, slot_seat};
ghost use Rattle.lane_machine.specs.Histories.{History};
ghost use Rattle.adapter_policies.specs.SetupData.{SetupData};
ghost use Rattle.conn_sides.specs.Entering.{calls_of};
ghost use Rattle.orb_server.specs.Runs.{Slot, SlotRan};
ghost use Rattle.server_laws.specs.Mandates.{AreMandated};

use orb_base::Acceptor;

/// At its mandated priority: where a slot of a run came out as `serve_run` says, each request that the slot's connections offered is
/// that of an object of the setup, and has the priority that the setup mandates for it: what the priority model of the object's adapter
/// makes of the object's priority and of the one that the request carries, by the adapter's transform (Real-time CORBA 1.2, Priority
/// models and Priority transforms). Its lane is that of this priority by the clause `lanes` of `serve_run`.
pub fn each_request_has_its_mandated_priority<A: Acceptor>()
    ensures { (setup : SetupData) (h : History) (slot : ℕ) (s : Slot A A.In A.Out)
        → SlotRan A.state A.In.state A.Out.state setup h slot s → AreMandated setup (calls_of (of (slot_seat slot) h)) }
{}
