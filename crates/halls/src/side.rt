//! One connection in a hall.
ghost use Rattle.std.specs.Prelude.{◌≡◌};
ghost use Rattle.orb_base.specs.declared.order.Order.TheVariants.{Big};
ghost use Rattle.giop_messages.specs.Message.{close, error};
ghost use Rattle.giop_messages.specs.Spelling.{spelled};
ghost use Rattle.heard_messages.specs.Hearers.{IsNew};
ghost use Rattle.halls.specs.Pieces as Pieces;
ghost use Rattle.halls.specs.Sides.{Reads, Says, SaysLast, Sides};
ghost use Rattle.halls.specs.declared.ends.HallWrite.TheVariants as write;

use crate::ends::{HallRead, HallWrite};
use crate::hall::Hall;
use crate::judge::HallJudge;
use crate::pieces::take_piece;
use heard_messages::{Hearing, MAX_TAKEN, READ_LEN, ReadEnd};
use item_writer::{write_close, write_error};
use orb_base::{ConnId, Got, NoMemory, Sink, Source};
use std::alloc::Global;
use text_streams::WriteAll;

/// Reads a connection from its first byte on, `READ_LEN` bytes at a time at most, and makes the calls of each read before the next one.
fn take_reads<I: Source, O: Sink, H: Hall>(
    alloc: Global,
    source: &mut I,
    sink: &mut O,
    hall: &H,
    hand: &mut H::Hand,
    hearing: Hearing<'_, HallJudge<'_>>,
) -> HallRead
    requires of { H.is_of hall.now hand.old }
    requires new { IsNew Pieces.first Pieces.means hearing.judge hearing }
    requires setup { hearing.judge.setup ≡ H.judged_by hall.now }
    ensures of { H.is_of hall.now hand.new }
    ensures reads { Reads result hearing.entry.judge.setup hearing.entry.judge.conn (I.state source.old) (I.state source.new)
        (record { hand = H.held hand.old; sink = O.state sink.old }) (record { hand = H.held hand.new; sink = O.state sink.new }) }
{
    let mut hearing = hearing;
    let mut piece = [0u8; READ_LEN];
    let mut taken = 0;
    while taken < MAX_TAKEN {
        let space = piece.len().min(MAX_TAKEN - taken);
        match source.read(&mut piece[..space]) {
            Got::Bytes(n) => {
                taken += n;
                let bytes = &piece[..n];
                match take_piece(alloc, sink, hall, hand, &mut hearing, bytes) {
                    Some(end) => return end,
                    None => {}
                }
            }
            Got::End => return HallRead::Read(hearing.at_end()),
            Got::Failed => return HallRead::Read(ReadEnd::ReadFault),
        }
    }
    HallRead::Read(ReadEnd::Spent)
}

/// Reads a connection from its first byte on.
fn read_all<I: Source, O: Sink, H: Hall>(
    alloc: Global,
    source: &mut I,
    sink: &mut O,
    hall: &H,
    hand: &mut H::Hand,
    conn: ConnId,
) -> HallRead
    requires of { H.is_of hall.now hand.old }
    ensures of { H.is_of hall.now hand.new }
    ensures reads { Reads result (H.judged_by hall.now) conn (I.state source.old) (I.state source.new)
        (record { hand = H.held hand.old; sink = O.state sink.old }) (record { hand = H.held hand.new; sink = O.state sink.new }) }
{
    let judge = HallJudge {
        setup: hall.setup(),
        conn,
    };
    match Hearing::new(alloc, &judge) {
        Ok(hearing) => take_reads(alloc, source, sink, hall, hand, hearing),
        Err(NoMemory) => HallRead::NoMemory,
    }
}

/// Writes CloseConnection.
fn say_closed<O: Sink>(sink: &mut O) -> HallWrite
    ensures { Says write.Closed (spelled Big close) result (O.state sink.old) (O.state sink.new) }
{
    match write_close(sink) {
        WriteAll::Whole => HallWrite::Closed,
        WriteAll::Failed => HallWrite::WriteFault,
    }
}

/// Writes MessageError.
fn say_error<O: Sink>(sink: &mut O) -> HallWrite
    ensures { Says write.Error (spelled Big error) result (O.state sink.old) (O.state sink.new) }
{
    match write_error(sink) {
        WriteAll::Whole => HallWrite::Error,
        WriteAll::Failed => HallWrite::WriteFault,
    }
}

/// Writes the last message, if there is one.
fn say_last<O: Sink>(sink: &mut O, read: HallRead) -> HallWrite
    ensures { SaysLast read result (O.state sink.old) (O.state sink.new) }
{
    match read {
        HallRead::Read(ReadEnd::Ended) => HallWrite::Done,
        HallRead::Read(ReadEnd::Cut(_)) => HallWrite::Done,
        HallRead::Read(ReadEnd::Broken { .. }) => say_error(sink),
        HallRead::Read(ReadEnd::Spent) => say_closed(sink),
        HallRead::Read(ReadEnd::ReadFault) => HallWrite::Done,
        HallRead::RunClosed => say_closed(sink),
        HallRead::NoMemory => say_closed(sink),
        HallRead::Stopped => HallWrite::WriteFault,
    }
}

/// Serves a connection in a hall by a hand, from its first byte on, and closes its sink: reads `READ_LEN` bytes at a time at most, makes
/// the invocations that they mean, one after another and in order, and writes the answers, those of each read before the next one. It
/// stops where the bytes end the reading, at the end of the input, after `MAX_TAKEN` bytes, at a failed read, where the hand has no
/// invocation left, out of memory, and at a failed write. Each read, write and invocation may wait. Memory and work are those of framing,
/// hearing and the invocations.
pub fn hall_side<I: Source, O: Sink, H: Hall>(
    alloc: Global,
    source: &mut I,
    sink: &mut O,
    hall: &H,
    hand: &mut H::Hand,
    conn: ConnId,
) -> (HallRead, HallWrite)
    requires of { H.is_of hall.now hand.old }
    ensures of { H.is_of hall.now hand.new }
    ensures sides { Sides result (H.judged_by hall.now) conn (I.state source.old) (I.state source.new)
        (record { hand = H.held hand.old; sink = O.state sink.old }) (record { hand = H.held hand.new; sink = O.state sink.new }) }
{
    let read = read_all(alloc, source, sink, hall, hand, conn);
    let write = say_last(sink, read);
    sink.close();
    (read, write)
}
