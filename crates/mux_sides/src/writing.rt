//! The writer of a shared link.
ghost use Rattle.std.specs.Prelude.{◌≡◌, IfOk};
ghost use Rattle.client_mux.specs.declared.call.MuxCall.TheVariants.{Next};
ghost use Rattle.shared_link.specs.Turns.{Makes};
ghost use Rattle.shared_link.specs.Replies.{upcoming_reply};
ghost use Rattle.shared_link.specs.Roles.{CanSend, CanLose};
ghost use Rattle.mux_sides.specs.Sending as Spec;

use client_mux::Why;
use orb_base::{NoMemory, Octets, Sink};
use request_writer::{cancel_bytes, request_bytes};
use shared_link::{MuxSeat, Shared, Upcoming};
use std::alloc::Global;
use std::sync::Wait;
use text_streams::{WriteAll, write_all};

/// How the writer of a shared link came out.
#[derive(Clone, Copy, Debug, PartialEq, Eq)]
pub enum WriterEnd {
    /// Nothing was to be sent any more. All that was given to it was written.
    Finished,
    /// A write failed, after a prefix of what was given to it.
    WriteFault,
    /// Out of memory, after a prefix of what was given to it.
    NoMemory,
}

/// What is to be sent next. A request is short enough for a message.
#[tactic(auto, using(shared_link::proofs::RoleLaws::fit_next, shared_link::proofs::RoleLaws::after_next, shared_link::proofs::RoleLaws::lose_later, crate::proofs::ShortSends::next_short))]
fn take<R: Wait>(rt: &R, shared: &Shared, seat: &mut MuxSeat) -> Upcoming
    requires sends { CanSend shared.now.cell seat.old }
    requires loses { CanLose shared.now.cell seat.old }
    ensures made { Makes shared.now.cell Next (upcoming_reply result) seat.old seat.new }
    ensures sends { Spec.SendsOn shared.now.cell (upcoming_reply result) seat.new }
    ensures loses { CanLose shared.now.cell seat.new }
    ensures short { Spec.IsShortReply (upcoming_reply result) }
{
    shared.take_next(rt, seat)
}

/// The bytes that are sent for what is to be sent.
fn spelled(alloc: Global, upcoming: &Upcoming) -> Result<Octets, NoMemory>
    requires short { Spec.IsShortReply (upcoming_reply upcoming.now) }
    ensures { IfOk result (λ bytes. bytes.items ≡ Spec.text_of (upcoming_reply upcoming.now)) }
{
    match upcoming {
        Upcoming::Send { id, request } => request_bytes(alloc, *id, request.get()),
        Upcoming::Stop(id) => cancel_bytes(alloc, *id),
        Upcoming::Finish => Ok(Octets::new(alloc)),
    }
}

/// Writes bytes: how the writer comes out with them, if it does.
fn put<O: Sink>(sink: &mut O, bytes: &[u8]) -> Option<WriterEnd>
    ensures { Spec.Puts result bytes.now (O.state sink.old) (O.state sink.new) }
{
    match write_all(sink, bytes) {
        WriteAll::Whole => None,
        WriteAll::Failed => Some(WriterEnd::WriteFault),
    }
}

/// Writes what is to be sent: how the writer comes out with it, if it does.
fn say<O: Sink>(alloc: Global, sink: &mut O, upcoming: &Upcoming) -> Option<WriterEnd>
    requires short { Spec.IsShortReply (upcoming_reply upcoming.now) }
    ensures { Spec.Says result (upcoming_reply upcoming.now) (O.state sink.old) (O.state sink.new) }
{
    if matches!(upcoming, Upcoming::Finish) {
        return Some(WriterEnd::Finished);
    }
    match spelled(alloc, upcoming) {
        Ok(bytes) => put(sink, bytes.as_slice()),
        Err(NoMemory) => Some(WriterEnd::NoMemory),
    }
}

/// Says that the link is lost, where the writer came out so.
#[tactic(auto, using(shared_link::proofs::RoleLaws::fit_lost, crate::proofs::Entering::enters_none, crate::proofs::Entering::enters_one))]
fn lose_by<R: Wait>(rt: &R, shared: &Shared, seat: &mut MuxSeat, end: WriterEnd)
    requires { CanLose shared.now.cell seat.old }
    ensures { Spec.LosesBy end seat.old seat.new }
{
    match end {
        WriterEnd::Finished => {}
        WriterEnd::WriteFault => shared.lose(rt, seat, Why::WriteFault),
        WriterEnd::NoMemory => shared.lose(rt, seat, Why::NoMemory),
    }
}

/// The writer of a shared link: takes what is to be sent, one after another, and writes it, until nothing is to be sent any more. At a
/// failed write, and out of memory, it says that the link is lost, and takes nothing more. At each end it closes the sink, so that the
/// peer ends what the reader reads. Each take and each write may wait. Takes memory for one message at a time.
pub fn write_side<O: Sink, R: Wait>(
    rt: &R,
    alloc: Global,
    sink: &mut O,
    shared: &Shared,
    seat: &mut MuxSeat,
) -> WriterEnd
    requires sends { CanSend shared.now.cell seat.old }
    requires loses { CanLose shared.now.cell seat.old }
    ensures { Spec.WritesSide result seat.old seat.new (O.state sink.old) (O.state sink.new) }
{
    for _ in rt.forever() {
        let upcoming = take(rt, shared, seat);
        match say(alloc, sink, &upcoming) {
            None => {}
            Some(end) => {
                lose_by(rt, shared, seat, end);
                sink.close();
                return end;
            }
        }
    }
    unreachable!()
}
