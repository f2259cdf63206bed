//! The dump: one line for each message of an input.
ghost use Rattle.std.specs.Prelude.{◌≡◌, ◌+◌, ◌<◌, ◌^◌, ◌++◌, [], length, IfOk, string_bytes};
ghost use Rattle.giop_dump.specs.Ending.{at_end as at_end_lem};
ghost use Rattle.giop_dump.specs.Dump.{Dumps};
ghost use Rattle.giop_dump.specs.Steps.{IsGoing, FeedsOn, AddsLines, DumpsPiece};

use crate::dump_end::{DumpEnd, MAX_DUMPED, READ_LEN};
use crate::dump_lines::{DumpLines, dump_lines};
use crate::refusal::Refusal;
use giop_frames::{FeedFault, Framer, Whole};
use giop_messages::Fault;
use orb_base::limits::MAX_MESSAGE;
use orb_base::{Got, List, NoMemory, Sink, Source};
use std::alloc::Global;
use text_streams::{WriteAll, write_all};

/// Feeds one more piece of the input, and gives what the stream breaks with it.
fn feed(
    framer: &mut Framer,
    piece: &[u8],
    messages: &mut List<Whole>,
) -> Result<Option<Refusal>, NoMemory>
    requires going { IsGoing framer.old }
    requires short { length framer.old.fed + length piece.now < 2 ^ 64 }
    requires none { messages.old.items ≡ [] }
    ensures fed { framer.new.fed ≡ framer.old.fed ++ piece.now }
    ensures ok { IfOk result (λ fault. FeedsOn framer.old framer.new messages.new.items fault) }
{
    match framer.feed(piece, messages) {
        Ok(()) => Ok(None),
        Err(FeedFault::Frame(broken)) => Ok(Some(Refusal {
            offset: broken.offset,
            fault: Fault::Frame(broken.cause),
        })),
        Err(FeedFault::NoMemory) => Err(NoMemory),
    }
}

/// Takes one more piece of the input: the lines that it adds, and what is refused with it.
fn take_piece(alloc: Global, framer: &mut Framer, piece: &[u8]) -> Result<DumpLines, NoMemory>
    requires going { IsGoing framer.old }
    requires short { length framer.old.fed + length piece.now < 2 ^ 64 }
    ensures fed { framer.new.fed ≡ framer.old.fed ++ piece.now }
    ensures ok { IfOk result (λ lines. AddsLines framer.old framer.new (string_bytes lines.text) lines.refusal) }
{
    let mut messages = List::new(alloc);
    let broken = feed(framer, piece, &mut messages)?;
    let DumpLines { text, refusal } = dump_lines(alloc, messages.as_slice())?;
    Ok(DumpLines {
        text,
        refusal: refusal.or(broken),
    })
}

/// Takes one more piece of the input and writes the lines that it adds. Gives how the dump ends with it, if it does.
fn dump_piece<O: Sink>(
    alloc: Global,
    framer: &mut Framer,
    piece: &[u8],
    sink: &mut O,
) -> Result<Option<DumpEnd>, NoMemory>
    requires going { IsGoing framer.old }
    requires short { length framer.old.fed + length piece.now < 2 ^ 64 }
    ensures fed { framer.new.fed ≡ framer.old.fed ++ piece.now }
    ensures dumps { DumpsPiece result framer.old framer.new (O.state sink.old) (O.state sink.new) }
{
    let lines = take_piece(alloc, framer, piece)?;
    match write_all(sink, lines.text.as_bytes()) {
        WriteAll::Whole => match lines.refusal {
            Some(refusal) => Ok(Some(DumpEnd::Refused(refusal))),
            None => Ok(None),
        },
        WriteAll::Failed => Ok(Some(DumpEnd::WriteFault)),
    }
}

/// How a dump ends at the end of its input, where something may be unfinished.
fn at_end(rest: Option<u64>) -> DumpEnd
    ensures { result ≡ at_end_lem rest }
{
    match rest {
        Some(offset) => DumpEnd::Refused(Refusal {
            offset,
            fault: Fault::Cut,
        }),
        None => DumpEnd::Done,
    }
}

/// Writes one line for each message of the input, up to the end of the input, to its first fault, or to `MAX_DUMPED` bytes. A
/// CloseConnection or a MessageError ends nothing. The lines of a message are written before the next read; a failed read or
/// write ends the dump.
///
/// It keeps what the framer keeps, one piece of input, and the messages and lines that this piece completes. It returns where
/// each read and write returns. Work per byte is constant.
pub fn dump_run<I: Source, O: Sink>(
    alloc: Global,
    source: &mut I,
    sink: &mut O,
) -> Result<DumpEnd, NoMemory>
    ensures { Dumps result (I.state source.old) (I.state source.new) (O.state sink.old) (O.state sink.new) }
{
    let mut framer = Framer::new(alloc, MAX_MESSAGE)?;
    let mut piece = [0u8; READ_LEN];
    let mut taken = 0;
    while taken < MAX_DUMPED {
        let room = piece.len().min(MAX_DUMPED - taken);
        match source.read(&mut piece[..room]) {
            Got::Bytes(n) => {
                taken += n;
                if let Some(end) = dump_piece(alloc, &mut framer, &piece[..n], sink)? {
                    return Ok(end);
                }
            }
            Got::End => return Ok(at_end(framer.rest())),
            Got::Failed => return Ok(DumpEnd::ReadFault),
        }
    }
    Ok(DumpEnd::Spent)
}
