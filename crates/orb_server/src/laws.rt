//! Laws over what a run of the server leaves. A body only calls the laws that its contract follows from.
ghost use Rattle.std.specs.Prelude.{◌≡◌, ◌<◌, List, ℕ, length};
ghost use Rattle.orb_base.specs.JobRecord.{JobRecord};
ghost use Rattle.orb_base.specs.declared.outcome.Outcome.{Outcome};
ghost use Rattle.lane_machine.specs.Histories.{History, replay};
ghost use Rattle.lane_laws.specs.Replies.{handed_replies, finished_awaited};
ghost use Rattle.adapter_policies.specs.SetupData.{SetupData};
ghost use Rattle.orb_server.specs.AtRest.{IsAtRest};
ghost use Rattle.orb_server.specs.Connections.{conn_at};
ghost use Rattle.orb_server.specs.Runs.{opening_of, IsLawful, Slot, SlotRan, WorkersRan};

use lane_laws::{all_is_done, each_in_one_place, replies_are_counted};
use orb_base::Acceptor;

/// The end of a run: where its history is lawful and its workers ran to their end, as `serve_run` says, no request waits, and no
/// thread has one in hand.
pub fn a_run_ends_at_rest()
    ensures { (setup : SetupData) (outcome : List ℕ → JobRecord → Outcome) (h : History) → IsLawful setup h → WorkersRan setup outcome h
        → IsAtRest (replay (opening_of setup) h) }
{
    all_is_done();
    each_in_one_place();
}

/// Each reply once: where the history of a run is lawful, and its slots ran, as `serve_run` says, each connection that a slot served was
/// handed one reply to each of its requests that was carried out and whose reply is due with its answer, and no other such reply. What
/// it was handed was written, or its sink failed, as `SlotRan` says of each connection.
pub fn each_reply_is_handed_once<A: Acceptor>()
    ensures { (setup : SetupData) (h : History) (slot : ℕ) (s : Slot A A.In A.Out) → IsLawful setup h
        → SlotRan A.state A.In.state A.Out.state setup h slot s → (nth : ℕ) → nth < length s.conns → (serial : ℕ)
        → handed_replies (conn_at slot nth) serial h ≡ finished_awaited (conn_at slot nth) serial h }
{
    replies_are_counted();
}
