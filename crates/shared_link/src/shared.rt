//! The link that threads share: the turn cell of its machine. It holds no seat, so that it may be shared.
ghost use Rattle.std.specs.Prelude.{◌≡◌};
ghost use Rattle.turn_cell.specs.Calls.{IsOf, Calls};
ghost use Rattle.client_mux.specs.declared.call.MuxCall.TheVariants.{Start, Cancel, Next, Arrived, Await, Lost, Left};
ghost use Rattle.client_mux.specs.declared.call.MuxReply.TheVariants as reply;
ghost use Rattle.client_mux.specs.Machine.{step, is_ready, IsSound, Opens};
ghost use Rattle.client_mux.specs.Callers.{IsFit};
ghost use Rattle.shared_link.specs.Turns.{IsIn, MayMake, Makes};
ghost use Rattle.shared_link.specs.Replies.{IsAnswer, started_reply, stopped_reply, waited_reply, upcoming_reply, placed_reply, IsBegun, IsOutcome};

use crate::answers::{
    Placed, Started, Stopped, Upcoming, Waited, next_answer, place_answer, start_answer,
    stop_answer, wait_answer,
};
use crate::mux_seat::MuxSeat;
use client_mux::{HeardReply, MuxCall, MuxCell, MuxReply, Why};
use giop_messages::Request;
use orb_base::Arc;
use std::marker::Model;
use std::sync::Wait;
use turn_cell::TurnCell;

/// A link that threads share, with room for every call that may come.
#[derive(Drop)]
pub struct Shared {
    pub(crate) cell: TurnCell<MuxCell>,
}

impl Model for Shared {
    ghost use Rattle.std.specs.Prelude.{◌≡◌};
    ghost use Rattle.client_mux.specs.declared.limits.TheConstants.{MAX_ENTRIES};
    ghost use Rattle.shared_link.specs.Link.{Link};

    ghost Value = { Link };

    ghost view = { λ s. record { cell = s.cell } };

    ghost invariant = { λ s. s.cell.terms.length ≡ MAX_ENTRIES };
}

impl Shared {
    /// A caller starts a call by a request, whose id the link gives. Takes memory for a share of the request.
    #[tactic(auto, using(crate::proofs::Answered::start_is, crate::proofs::Outcomes::start_begins))]
    pub fn start<R: Wait>(&self, rt: &R, seat: &mut MuxSeat, request: Arc<Request>) -> Started
        requires cell { IsIn self.now.cell seat.old }
        requires fit { MayMake self.now.cell (Start seat.old.number request) seat.old }
        ensures made { Makes self.now.cell (Start seat.old.number request) (started_reply result) seat.old seat.new }
        ensures begun { IsBegun seat.new.seen result }
    {
        let by = seat.by;
        start_answer(self.call(rt, seat, MuxCall::Start { by, request }))
    }

    /// A caller doesn't want the reply of a call of its own any more. Takes no memory.
    #[tactic(auto, using(crate::proofs::Answered::cancel_is))]
    pub fn cancel<R: Wait>(&self, rt: &R, seat: &mut MuxSeat, id: u32) -> Stopped
        requires cell { IsIn self.now.cell seat.old }
        requires fit { MayMake self.now.cell (Cancel seat.old.number id) seat.old }
        ensures { Makes self.now.cell (Cancel seat.old.number id) (stopped_reply result) seat.old seat.new }
    {
        let by = seat.by;
        stop_answer(self.call(rt, seat, MuxCall::Cancel { by, id }))
    }

    /// A caller gets the reply of a call of its own: the first that arrived after its start, or why the link was lost first.
    /// Waits until there is one of both. Takes memory for shares of the reply.
    #[tactic(auto, using(crate::proofs::Answered::await_is, crate::proofs::Outcomes::await_gets))]
    pub fn wait<R: Wait>(&self, rt: &R, seat: &mut MuxSeat, id: u32) -> Waited
        requires cell { IsIn self.now.cell seat.old }
        requires fit { MayMake self.now.cell (Await seat.old.number id) seat.old }
        ensures made { Makes self.now.cell (Await seat.old.number id) (waited_reply result) seat.old seat.new }
        ensures outcome { IsOutcome id seat.new.seen result }
    {
        let by = seat.by;
        wait_answer(self.call(rt, seat, MuxCall::Await { by, id }))
    }

    /// A caller makes no call any more. Takes no memory.
    #[tactic(auto, using(crate::proofs::Answered::left_is))]
    pub fn leave<R: Wait>(&self, rt: &R, seat: &mut MuxSeat)
        requires cell { IsIn self.now.cell seat.old }
        requires fit { MayMake self.now.cell (Left seat.old.number) seat.old }
        ensures { Makes self.now.cell (Left seat.old.number) reply.Noted seat.old seat.new }
    {
        let by = seat.by;
        self.call(rt, seat, MuxCall::Left { by });
    }

    /// What the writer is to send next. Waits until there is something, the link is lost, or all callers left. Takes memory for
    /// shares of a request.
    #[tactic(auto, using(crate::proofs::Answered::next_is))]
    pub fn take_next<R: Wait>(&self, rt: &R, seat: &mut MuxSeat) -> Upcoming
        requires cell { IsIn self.now.cell seat.old }
        requires fit { MayMake self.now.cell Next seat.old }
        ensures { Makes self.now.cell Next (upcoming_reply result) seat.old seat.new }
    {
        next_answer(self.call(rt, seat, MuxCall::Next))
    }

    /// The reader gives a reply that it read. Takes memory for a share of it.
    #[tactic(auto, using(crate::proofs::Answered::arrived_is))]
    pub fn put_arrived<R: Wait>(
        &self,
        rt: &R,
        seat: &mut MuxSeat,
        id: u32,
        reply: Arc<HeardReply>,
    ) -> Placed
        requires cell { IsIn self.now.cell seat.old }
        requires fit { MayMake self.now.cell (Arrived id reply) seat.old }
        ensures { Makes self.now.cell (Arrived id reply) (placed_reply result) seat.old seat.new }
    {
        place_answer(self.call(rt, seat, MuxCall::Arrived { id, reply }))
    }

    /// The writer or the reader says that the link is lost. Takes no memory.
    #[tactic(auto, using(crate::proofs::Answered::lost_is))]
    pub fn lose<R: Wait>(&self, rt: &R, seat: &mut MuxSeat, why: Why)
        requires cell { IsIn self.now.cell seat.old }
        requires fit { MayMake self.now.cell (Lost why) seat.old }
        ensures { Makes self.now.cell (Lost why) reply.Noted seat.old seat.new }
    {
        self.call(rt, seat, MuxCall::Lost { why });
    }

    /// Makes a call by a seat. The history has room for it, by the law of length.
    #[tactic(auto, using(crate::proofs::Worn::never_worn, crate::proofs::Answered::answers))]
    fn call<R: Wait>(&self, rt: &R, seat: &mut MuxSeat, call: MuxCall) -> MuxReply
        requires cell { IsIn self.now.cell seat.old }
        requires fit { MayMake self.now.cell call seat.old }
        ensures made { Makes self.now.cell call result seat.old seat.new }
        ensures answered { IsAnswer call result }
    {
        match self.cell.call(rt, &mut seat.seat, call) {
            Ok(reply) => reply,
            Err(_) => unreachable!(),
        }
    }
}
