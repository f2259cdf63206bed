//! A link with its seats taken apart, and calls of them.
ghost use Rattle.std.specs.Prelude.{◌≤◌, ◌<◌, ◌+◌, IfSome, []};
ghost use Rattle.client_mux.specs.declared.limits.TheConstants.{MAX_CALLERS, MAX_ARRIVALS};
ghost use Rattle.client_mux.specs.Callers.{IsShort};
ghost use Rattle.shared_link.specs.Turns.{IsOpen};
ghost use Rattle.shared_link.specs.Roles.{CanCall, CanAwait, CanCancel, CanSend, CanRead, CanLose};
ghost use Rattle.client_tests.specs.Seats.{IsIdle, AreIdle};

use client_mux::{HeardReply, Why};
use giop_messages::{Message, Reply, Request, Target};
use link_callers::short_request;
use orb_base::{Arc, List, Order, Text};
use shared_link::{MuxSeat, Opened, Placed, Shared, Started, Stopped, Upcoming, Waited, open};
use std::alloc::Global;
use std::sync::Wait;

/// An open link with its seats.
#[derive(Drop)]
pub struct Ends {
    pub shared: Shared,
    pub callers: Vec<MuxSeat>,
    pub writer: MuxSeat,
    pub reader: MuxSeat,
}

/// Opens a link for so many callers.
pub fn open_ends(alloc: Global, callers: u8) -> Option<Ends>
    requires some { 1 ≤ callers }
    requires few { callers ≤ MAX_CALLERS }
    ensures callers { IfSome result (λ e. AreIdle e.shared.cell e.callers.items) }
    ensures writer { IfSome result (λ e. CanSend e.shared.cell e.writer × CanLose e.shared.cell e.writer) }
    ensures reader { IfSome result (λ e. CanRead e.shared.cell 0 e.reader × CanLose e.shared.cell e.reader) }
{
    match open(alloc, callers) {
        Ok(opened) => taken_apart(opened, callers),
        Err(_) => None,
    }
}

/// The seats of an open link.
fn taken_apart(opened: Opened, callers: u8) -> Option<Ends>
    requires open { IsOpen callers opened.shared.cell opened.root opened.seats.items }
    ensures callers { IfSome result (λ e. AreIdle e.shared.cell e.callers.items) }
    ensures writer { IfSome result (λ e. CanSend e.shared.cell e.writer × CanLose e.shared.cell e.writer) }
    ensures reader { IfSome result (λ e. CanRead e.shared.cell 0 e.reader × CanLose e.shared.cell e.reader) }
{
    let Opened {
        shared,
        root: _,
        seats,
    } = opened;
    let mut rest = seats.into_vec();
    let reader = rest.pop()?;
    let writer = rest.pop()?;
    Some(Ends {
        shared,
        callers: rest,
        writer,
        reader,
    })
}

/// A caller that called nothing, out of some.
#[tactic(auto, using(crate::proofs::SeatLemmas::idle_rest, crate::proofs::SeatLemmas::idle_last))]
pub fn caller(shared: &Shared, callers: &mut Vec<MuxSeat>) -> Option<MuxSeat>
    requires { AreIdle shared.now.cell callers.old.items }
    ensures rest { AreIdle shared.now.cell callers.new.items }
    ensures idle { IfSome result (λ seat. IsIdle shared.now.cell seat) }
{
    callers.pop()
}

/// The message of a request of `current`.
fn asking(alloc: Global) -> Option<Message> {
    let operation = Text::new(alloc, b"current").ok()?;
    Some(Message::Request(Request {
        id: 0,
        flags: 3,
        target: Target::Key(List::new(alloc)),
        operation,
        contexts: List::new(alloc),
        body: List::new(alloc),
    }))
}

/// A request of `current` that is short enough, to be shared.
pub fn request(alloc: Global) -> Option<Arc<Request>>
    ensures { IfSome result (λ r. IsShort r) }
{
    let request = short_request(asking(alloc)?)?;
    Arc::new(alloc, request).ok()
}

/// An empty reply of an id, in a message that is big endian.
pub fn reply(alloc: Global, id: u32) -> Option<Arc<HeardReply>> {
    let reply = Reply {
        id,
        status: 0,
        contexts: List::new(alloc),
        body: List::new(alloc),
    };
    let order = Order::Big;
    Arc::new(alloc, HeardReply { order, reply }).ok()
}

/// Starts a caller's first call.
#[tactic(auto, using(shared_link::proofs::RoleLaws::fit_start, shared_link::proofs::RoleLaws::after_start, shared_link::proofs::RoleLaws::first_call))]
pub fn begin<R: Wait>(
    rt: &R,
    shared: &Shared,
    seat: &mut MuxSeat,
    request: Arc<Request>,
) -> Option<u32>
    requires idle { IsIdle shared.now.cell seat.old }
    requires short { IsShort request }
    ensures calls { IfSome result (λ id. CanCall shared.now.cell 1 seat.new) }
    ensures may { IfSome result (λ id. CanCancel id seat.new) }
{
    match shared.start(rt, seat, request) {
        Started::Id(id) => Some(id),
        Started::Gone(_) => None,
    }
}

/// Starts a call, and gives what came of it.
#[tactic(auto, using(shared_link::proofs::RoleLaws::fit_start))]
pub fn try_start<R: Wait>(
    rt: &R,
    shared: &Shared,
    seat: &mut MuxSeat,
    request: Arc<Request>,
) -> Started
    requires idle { IsIdle shared.now.cell seat.old }
    requires short { IsShort request }
{
    shared.start(rt, seat, request)
}

/// Cancels the call of a caller.
#[tactic(auto, using(shared_link::proofs::RoleLaws::fit_cancel, shared_link::proofs::RoleLaws::after_cancel))]
pub fn stop<R: Wait>(rt: &R, shared: &Shared, seat: &mut MuxSeat, id: u32) -> Stopped
    requires calls { CanCall shared.now.cell 1 seat.old }
    requires may { CanCancel id seat.old }
    ensures { CanCall shared.now.cell 1 seat.new }
{
    shared.cancel(rt, seat, id)
}

/// Cancels the call of a caller, which then may be awaited where it was too late.
#[tactic(auto, using(shared_link::proofs::RoleLaws::fit_cancel, shared_link::proofs::RoleLaws::after_cancel, shared_link::proofs::RoleLaws::late_cancel))]
pub fn stop_late<R: Wait>(rt: &R, shared: &Shared, seat: &mut MuxSeat, id: u32) -> Option<()>
    requires calls { CanCall shared.now.cell 1 seat.old }
    requires may { CanCancel id seat.old }
    ensures calls { CanCall shared.now.cell 1 seat.new }
    ensures may { IfSome result (λ _. CanAwait id seat.new) }
{
    match shared.cancel(rt, seat, id) {
        Stopped::Cancelled => None,
        Stopped::TooLate => Some(()),
    }
}

/// Waits for the call of a caller: the id of its reply, or why there is none.
#[tactic(auto, using(shared_link::proofs::RoleLaws::fit_await, shared_link::proofs::RoleLaws::after_await))]
pub fn outcome<R: Wait>(rt: &R, shared: &Shared, seat: &mut MuxSeat, id: u32) -> Result<u32, Why>
    requires calls { CanCall shared.now.cell 1 seat.old }
    requires may { CanAwait id seat.old }
    ensures { CanCall shared.now.cell 1 seat.new }
{
    match shared.wait(rt, seat, id) {
        Waited::Reply(reply) => Ok(reply.get().reply.id),
        Waited::Gone(why) => Err(why),
    }
}

/// A caller leaves.
#[tactic(auto, using(shared_link::proofs::RoleLaws::fit_left))]
pub fn leave<R: Wait>(rt: &R, shared: &Shared, mut seat: MuxSeat)
    requires { CanCall shared.now.cell 1 seat }
{
    shared.leave(rt, &mut seat);
}

/// The reader gives a reply.
#[tactic(auto, using(shared_link::proofs::RoleLaws::fit_arrived, shared_link::proofs::RoleLaws::after_arrived, shared_link::proofs::RoleLaws::lose_later))]
pub fn place<R: Wait>(
    rt: &R,
    shared: &Shared,
    seat: &mut MuxSeat,
    reply: Arc<HeardReply>,
    nth: u32,
) -> Placed
    requires reads { CanRead shared.now.cell nth seat.old }
    requires loses { CanLose shared.now.cell seat.old }
    requires few { nth < MAX_ARRIVALS }
    ensures reads { CanRead shared.now.cell (nth + 1) seat.new }
    ensures loses { CanLose shared.now.cell seat.new }
{
    let id = reply.get().reply.id;
    shared.put_arrived(rt, seat, id, reply)
}

/// The writer or the reader says that the link is lost.
#[tactic(auto, using(shared_link::proofs::RoleLaws::fit_lost))]
pub fn lose<R: Wait>(rt: &R, shared: &Shared, seat: &mut MuxSeat, why: Why)
    requires { CanLose shared.now.cell seat.old }
{
    shared.lose(rt, seat, why);
}

/// What the writer is to send: the id of a request or of a cancel.
#[derive(Clone, Copy, Debug, PartialEq, Eq)]
pub enum Sent {
    Request(u32),
    Cancel(u32),
}

/// What the writer is to send next, or None for nothing any more.
#[tactic(auto, using(shared_link::proofs::RoleLaws::fit_next, shared_link::proofs::RoleLaws::after_next, shared_link::proofs::RoleLaws::lose_later))]
pub fn take_sent<R: Wait>(rt: &R, shared: &Shared, seat: &mut MuxSeat) -> Option<Sent>
    requires sends { CanSend shared.now.cell seat.old }
    requires loses { CanLose shared.now.cell seat.old }
    ensures sends { IfSome result (λ _. CanSend shared.now.cell seat.new) }
    ensures loses { CanLose shared.now.cell seat.new }
{
    match shared.take_next(rt, seat) {
        Upcoming::Send { id, .. } => Some(Sent::Request(id)),
        Upcoming::Stop(id) => Some(Sent::Cancel(id)),
        Upcoming::Finish => None,
    }
}
