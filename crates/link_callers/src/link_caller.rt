//! A caller of a shared link.
ghost use Rattle.std.specs.Prelude.{◌≡◌, ◌<◌, ◌+◌, []};
ghost use Rattle.client_mux.specs.declared.limits.TheConstants.{MAX_STARTS};
ghost use Rattle.client_mux.specs.declared.call.MuxCall.TheVariants.{Left};
ghost use Rattle.client_mux.specs.declared.call.MuxReply.TheVariants as reply;
ghost use Rattle.client_mux.specs.Callers.{IsShort, starts};
ghost use Rattle.shared_link.specs.Roles.{CanCall, CanAwait};
ghost use Rattle.shared_link.specs.Turns.{Makes};
ghost use Rattle.mux_sides.specs.Calling.{Awaits, Follows, Called};
ghost use Rattle.link_callers.specs.Going.{CanGoOn};

use giop_messages::Request;
use mux_sides::CallEnd;
use orb_base::Arc;
use shared_link::{MuxSeat, Shared, Started, Waited};
use std::marker::Model;
use std::sync::Wait;

/// A caller of a shared link, with its seat and how many calls it started.
#[derive(Drop)]
pub struct LinkCaller {
    seat: MuxSeat,
    started: u32,
}

impl Model for LinkCaller {
    ghost use Rattle.std.specs.Prelude.{◌≡◌};
    ghost use Rattle.client_mux.specs.Callers.{starts};
    ghost use Rattle.shared_link.specs.Link.{Sitting};

    ghost Value = { Sitting };

    ghost view = { λ c. c.seat };

    ghost invariant = { λ c. c.started ≡ starts c.seat.mine };
}

/// What came of a call that was started, where a reply is due.
#[tactic(auto, using(shared_link::proofs::RoleLaws::fit_await, crate::proofs::Going::goes_awaited, crate::proofs::Going::none_more, mux_sides::proofs::Entering::enters_one))]
fn reply_of<R: Wait>(rt: &R, shared: &Shared, seat: &mut MuxSeat, id: u32) -> CallEnd
    requires goes { CanGoOn shared.now.cell seat.old }
    requires may { CanAwait id seat.old }
    ensures goes { CanGoOn shared.now.cell seat.new }
    ensures same { starts seat.new.mine ≡ starts seat.old.mine }
    ensures awaits { Awaits id result seat.old seat.new }
{
    match shared.wait(rt, seat, id) {
        Waited::Reply(reply) => CallEnd::Reply(reply),
        Waited::Gone(why) => CallEnd::Gone(why),
    }
}

/// What came of a call that was started.
fn end_of<R: Wait>(rt: &R, shared: &Shared, seat: &mut MuxSeat, id: u32, due: bool) -> CallEnd
    requires goes { CanGoOn shared.now.cell seat.old }
    requires may { CanAwait id seat.old }
    ensures goes { CanGoOn shared.now.cell seat.new }
    ensures same { starts seat.new.mine ≡ starts seat.old.mine }
    ensures follows { Follows id due result seat.old seat.new }
{
    if due {
        reply_of(rt, shared, seat, id)
    } else {
        CallEnd::NoneDue
    }
}

/// Starts a call, and awaits its reply, where one is due.
#[tactic(auto, using(shared_link::proofs::RoleLaws::fit_start, crate::proofs::Going::goes_started, crate::proofs::Going::one_more, crate::proofs::Going::later_call, mux_sides::proofs::CallSteps::called_gone, mux_sides::proofs::CallSteps::called_on))]
fn call_by<R: Wait>(
    rt: &R,
    shared: &Shared,
    seat: &mut MuxSeat,
    request: Arc<Request>,
    due: bool,
) -> CallEnd
    requires goes { CanGoOn shared.now.cell seat.old }
    requires more { starts seat.old.mine < MAX_STARTS }
    requires short { IsShort request }
    ensures goes { CanGoOn shared.now.cell seat.new }
    ensures one { starts seat.new.mine ≡ starts seat.old.mine + 1 }
    ensures called { Called request due result seat.old seat.new }
{
    match shared.start(rt, seat, request) {
        Started::Id(id) => end_of(rt, shared, seat, id, due),
        Started::Gone(why) => CallEnd::Gone(why),
    }
}

impl LinkCaller {
    /// A caller by a seat that has called nothing.
    pub fn new(seat: MuxSeat) -> LinkCaller
        requires { seat.mine ≡ [] }
        ensures { result ≡ seat }
    {
        LinkCaller { seat, started: 0 }
    }

    /// How many calls it has started, those on a lost link among them.
    pub fn started(&self) -> u32
        ensures { result ≡ starts self.now.mine }
    {
        self.started
    }

    /// Starts a call by a request, whose id the link gives, and awaits its reply, where one is due. Takes memory for shares of the
    /// request and of the reply. Waits until there is a reply or the link is lost.
    pub fn call<R: Wait>(
        &mut self,
        rt: &R,
        shared: &Shared,
        request: Arc<Request>,
        due: bool,
    ) -> CallEnd
        requires goes { CanGoOn shared.now.cell self.old }
        requires more { starts self.old.mine < MAX_STARTS }
        requires short { IsShort request }
        ensures goes { CanGoOn shared.now.cell self.new }
        ensures one { starts self.new.mine ≡ starts self.old.mine + 1 }
        ensures called { Called request due result self.old self.new }
    {
        let end = call_by(rt, shared, &mut self.seat, request, due);
        self.started += 1;
        end
    }

    /// Leaves the link, and gives the seat back.
    #[tactic(auto, using(shared_link::proofs::RoleLaws::fit_left))]
    pub fn leave<R: Wait>(self, rt: &R, shared: &Shared) -> MuxSeat
        requires goes { CanGoOn shared.now.cell self }
        ensures { Makes shared.now.cell (Left self.number) reply.Noted self result }
    {
        let LinkCaller { seat, started: _ } = self;
        let mut seat = seat;
        shared.leave(rt, &mut seat);
        seat
    }
}
