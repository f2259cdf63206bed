//! The reader of a shared link.
ghost use Rattle.std.specs.Prelude.{◌≡◌, ◌≤◌, ◌+◌, ◌<◌, ◌^◌, ◌∷◌, [], length, reverse};
ghost use Rattle.heard_messages.specs.Hearers.{IsGoing, IsNew};
ghost use Rattle.client_mux.specs.declared.limits.TheConstants.{MAX_ARRIVALS};
ghost use Rattle.shared_link.specs.Roles.{CanRead, CanLose};
ghost use Rattle.mux_sides.specs.Replying as Spec;

use crate::judge::LinkJudge;
use client_mux::limits::MAX_ARRIVALS;
use client_mux::{HeardReply, Why};
use heard_messages::{Hearing, MAX_TAKEN, READ_LEN, ReadEnd};
use orb_base::{Arc, Got, NoMemory, Source};
use shared_link::{MuxSeat, Shared};
use std::alloc::Global;
use std::sync::Wait;

/// Says that one reply arrived, after so many others.
#[tactic(auto, using(shared_link::proofs::RoleLaws::fit_arrived, shared_link::proofs::RoleLaws::after_arrived, shared_link::proofs::RoleLaws::lose_later, crate::proofs::Arriving::arrives_one))]
fn put_one<R: Wait>(
    rt: &R,
    shared: &Shared,
    seat: &mut MuxSeat,
    count: usize,
    reply: Arc<HeardReply>,
)
    requires reads { CanRead shared.now.cell count seat.old }
    requires loses { CanLose shared.now.cell seat.old }
    requires few { count < MAX_ARRIVALS }
    ensures { Spec.Arrives shared.now.cell (reply ∷ []) count (count + 1) seat.old seat.new }
{
    let id = reply.get().reply.id;
    shared.put_arrived(rt, seat, id, reply);
}

/// Says that replies arrived, in order, after so many others, as many as there is room for: how many arrived with them. The last reply is
/// first.
fn put_turned<R: Wait>(
    rt: &R,
    shared: &Shared,
    seat: &mut MuxSeat,
    before: usize,
    turned: Vec<Arc<HeardReply>>,
) -> usize
    requires reads { CanRead shared.now.cell before seat.old }
    requires loses { CanLose shared.now.cell seat.old }
    requires few { before ≤ MAX_ARRIVALS }
    ensures { Spec.Puts shared.now.cell (reverse turned.items) before result seat.old seat.new }
{
    let mut left = turned;
    let mut count = before;
    while count < MAX_ARRIVALS {
        match left.pop() {
            None => return count,
            Some(reply) => {
                put_one(rt, shared, seat, count, reply);
                count += 1;
            }
        }
    }
    count
}

/// Says that replies arrived, in order, after so many others, as many as there is room for: how many arrived with them. Takes memory for
/// shares of them.
fn put_all<R: Wait>(
    rt: &R,
    shared: &Shared,
    seat: &mut MuxSeat,
    before: usize,
    replies: Vec<Arc<HeardReply>>,
) -> usize
    requires reads { CanRead shared.now.cell before seat.old }
    requires loses { CanLose shared.now.cell seat.old }
    requires few { before ≤ MAX_ARRIVALS }
    ensures { Spec.Puts shared.now.cell replies.items before result seat.old seat.new }
{
    let mut turned = replies;
    turned.reverse();
    put_turned(rt, shared, seat, before, turned)
}

/// Why the link is lost where the reading came out so.
fn why_of(end: ReadEnd) -> Why
    ensures { result ≡ Spec.why_of end }
{
    match end {
        ReadEnd::Ended => Why::Closed,
        ReadEnd::Cut(_) => Why::Closed,
        ReadEnd::Broken { offset, fault } => Why::Refused { offset, fault },
        ReadEnd::Spent => Why::Limit,
        ReadEnd::ReadFault => Why::ReadFault,
    }
}

/// How the reading came out with so many replies and this ending, if it did.
fn out_of(count: usize, ending: Option<ReadEnd>) -> Option<Why>
    ensures { Spec.Comes result count ending }
{
    if count >= MAX_ARRIVALS {
        return Some(Why::Limit);
    }
    match ending {
        Some(end) => Some(why_of(end)),
        None => None,
    }
}

/// Hears one piece and says that its replies arrived. None where the reading goes on.
fn take_piece<R: Wait>(
    rt: &R,
    alloc: Global,
    shared: &Shared,
    seat: &mut MuxSeat,
    count: &mut usize,
    hearing: &mut Hearing<'_, LinkJudge>,
    piece: &[u8],
) -> Option<Why>
    requires reads { CanRead shared.now.cell count.old seat.old }
    requires loses { CanLose shared.now.cell seat.old }
    requires room { count.old ≤ MAX_ARRIVALS }
    requires going { IsGoing Spec.first Spec.means hearing.old }
    requires few { length hearing.old.framer.fed + length piece.now < 2 ^ 32 }
    ensures { Spec.TakesPiece shared.now.cell result hearing.old hearing.new piece.now (seat.old, count.old) (seat.new, count.new) }
{
    match hearing.feed(alloc, piece) {
        Ok(heard) => {
            *count = put_all(rt, shared, seat, *count, heard.calls.into_vec());
            out_of(*count, heard.ending)
        }
        Err(NoMemory) => Some(Why::NoMemory),
    }
}

/// Reads a link from its first byte on, `READ_LEN` bytes at a time at most, and says that the replies of each read arrived before the next
/// one: why the link is lost.
fn take_reads<I: Source, R: Wait>(
    rt: &R,
    alloc: Global,
    source: &mut I,
    shared: &Shared,
    seat: &mut MuxSeat,
    hearing: Hearing<'_, LinkJudge>,
) -> Why
    requires new { IsNew Spec.first Spec.means hearing.judge hearing }
    requires reads { CanRead shared.now.cell 0 seat.old }
    requires loses { CanLose shared.now.cell seat.old }
    ensures { Spec.Reads shared.now.cell result seat.old seat.new (I.state source.old) (I.state source.new) }
{
    let mut hearing = hearing;
    let mut piece = [0u8; READ_LEN];
    let mut taken = 0;
    let mut count = 0;
    while taken < MAX_TAKEN {
        let space = piece.len().min(MAX_TAKEN - taken);
        match source.read(&mut piece[..space]) {
            Got::Bytes(n) => {
                taken += n;
                let bytes = &piece[..n];
                match take_piece(rt, alloc, shared, seat, &mut count, &mut hearing, bytes) {
                    Some(why) => return why,
                    None => {}
                }
            }
            Got::End => return why_of(hearing.at_end()),
            Got::Failed => return Why::ReadFault,
        }
    }
    Why::Limit
}

/// Reads a link from its first byte on: why it is lost.
fn read_all<I: Source, R: Wait>(
    rt: &R,
    alloc: Global,
    source: &mut I,
    shared: &Shared,
    seat: &mut MuxSeat,
) -> Why
    requires reads { CanRead shared.now.cell 0 seat.old }
    requires loses { CanLose shared.now.cell seat.old }
    ensures { Spec.Reads shared.now.cell result seat.old seat.new (I.state source.old) (I.state source.new) }
{
    let judge = LinkJudge;
    match Hearing::new(alloc, &judge) {
        Ok(hearing) => take_reads(rt, alloc, source, shared, seat, hearing),
        Err(NoMemory) => Why::NoMemory,
    }
}

/// The reader of a shared link: reads it from its first byte on, `READ_LEN` bytes at a time at most, says that the replies of each read
/// arrived before the next one, and at last that the link is lost, and why. It stops where the bytes end the reading, at the end of the
/// input, after `MAX_TAKEN` bytes, with the last of `MAX_ARRIVALS` replies, at a failed read and out of memory. A reply that no call
/// waits for is passed over. Each read may wait. Memory and work are those of framing and hearing.
#[tactic(auto, using(shared_link::proofs::RoleLaws::fit_lost, crate::proofs::ReadLaws::side_ended))]
pub fn read_side<I: Source, R: Wait>(
    rt: &R,
    alloc: Global,
    source: &mut I,
    shared: &Shared,
    seat: &mut MuxSeat,
) -> Why
    requires reads { CanRead shared.now.cell 0 seat.old }
    requires loses { CanLose shared.now.cell seat.old }
    ensures { Spec.ReadsSide result seat.old seat.new (I.state source.old) (I.state source.new) }
{
    let why = read_all(rt, alloc, source, shared, seat);
    shared.lose(rt, seat, why);
    why
}
