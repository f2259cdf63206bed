//! A caller of a shared link.
ghost use Rattle.std.specs.Prelude.{◌≡◌, []};
ghost use Rattle.client_mux.specs.Callers.{IsShort};
ghost use Rattle.shared_link.specs.Roles.{CanCall, CanAwait};
ghost use Rattle.mux_sides.specs.Calling as Spec;

use client_mux::{HeardReply, Why};
use giop_messages::Request;
use orb_base::Arc;
use shared_link::{MuxSeat, Shared, Started, Waited};
use std::sync::Wait;

/// What came of the call of a caller.
#[derive(Debug, Drop)]
pub enum CallEnd {
    /// Its reply: the first of its own id after its start.
    Reply(Arc<HeardReply>),
    /// The link is lost, for this cause, and there is no reply.
    Gone(Why),
    /// It was started, and no reply is due.
    NoneDue,
}

/// What came of a call that was started, where a reply is due.
#[tactic(auto, using(shared_link::proofs::RoleLaws::fit_await, shared_link::proofs::RoleLaws::after_await, crate::proofs::Entering::enters_one))]
fn reply_of<R: Wait>(rt: &R, shared: &Shared, seat: &mut MuxSeat, id: u32) -> CallEnd
    requires calls { CanCall shared.now.cell 1 seat.old }
    requires may { CanAwait id seat.old }
    ensures calls { CanCall shared.now.cell 1 seat.new }
    ensures awaits { Spec.Awaits id result seat.old seat.new }
{
    match shared.wait(rt, seat, id) {
        Waited::Reply(reply) => CallEnd::Reply(reply),
        Waited::Gone(why) => CallEnd::Gone(why),
    }
}

/// What came of a call that was started.
fn end_of<R: Wait>(rt: &R, shared: &Shared, seat: &mut MuxSeat, id: u32, due: bool) -> CallEnd
    requires calls { CanCall shared.now.cell 1 seat.old }
    requires may { CanAwait id seat.old }
    ensures calls { CanCall shared.now.cell 1 seat.new }
    ensures follows { Spec.Follows id due result seat.old seat.new }
{
    if due {
        reply_of(rt, shared, seat, id)
    } else {
        CallEnd::NoneDue
    }
}

/// Starts a call, and awaits its reply, where one is due.
#[tactic(auto, using(shared_link::proofs::RoleLaws::fit_start, shared_link::proofs::RoleLaws::after_start, shared_link::proofs::RoleLaws::first_call, crate::proofs::CallSteps::called_gone, crate::proofs::CallSteps::called_on))]
fn call<R: Wait>(
    rt: &R,
    shared: &Shared,
    seat: &mut MuxSeat,
    request: Arc<Request>,
    due: bool,
) -> CallEnd
    requires calls { CanCall shared.now.cell 0 seat.old }
    requires first { seat.old.mine ≡ [] }
    requires short { IsShort request }
    ensures calls { CanCall shared.now.cell 1 seat.new }
    ensures called { Spec.Called request due result seat.old seat.new }
{
    match shared.start(rt, seat, request) {
        Started::Id(id) => end_of(rt, shared, seat, id, due),
        Started::Gone(why) => CallEnd::Gone(why),
    }
}

/// The call of a caller of a shared link, which has made none: starts it by the request, whose id the link gives, awaits its reply, where
/// one is due, and leaves the link. Takes memory for shares of the request and of the reply. Waits until there is a reply or the link is
/// lost.
#[tactic(auto, using(shared_link::proofs::RoleLaws::fit_left, crate::proofs::CallSteps::made))]
pub fn make_call<R: Wait>(
    rt: &R,
    shared: &Shared,
    seat: &mut MuxSeat,
    request: Arc<Request>,
    due: bool,
) -> CallEnd
    requires calls { CanCall shared.now.cell 0 seat.old }
    requires first { seat.old.mine ≡ [] }
    requires short { IsShort request }
    ensures { Spec.MakesCall request due result seat.old seat.new }
{
    let end = call(rt, shared, seat, request, due);
    shared.leave(rt, seat);
    end
}
