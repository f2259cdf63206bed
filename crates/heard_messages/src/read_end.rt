//! How the reading of a connection comes out.
ghost use Rattle.std.specs.Prelude.{◌≡◌};
ghost use Rattle.heard_messages.specs.ReadEnds as Spec;

use giop_frames::FrameFault;
use giop_messages::Fault;

/// Bytes of a connection that are taken at most.
pub const MAX_TAKEN: usize = 67_108_864;

/// Bytes of one read at most.
pub const READ_LEN: usize = 4096;

/// How the reading of a connection came out. Messages and pieces that follow what ends it aren't looked at.
#[derive(Clone, Copy, Debug, PartialEq, Eq)]
pub enum ReadEnd {
    /// By a message with which the other side ends the connection, or at the end of the input where nothing is unfinished.
    Ended,
    /// At the end of the input within a message: the offset of the first byte that is unfinished, from the first byte of the
    /// stream.
    Cut(u64),
    /// By a message that is refused, or by a piece that breaks a rule of framing: the offset of the first byte of that piece, or
    /// of the piece that completed the message, from the first byte of the stream, and the cause.
    Broken { offset: u64, fault: Fault },
    /// `MAX_TAKEN` bytes were taken without such an ending; the end of the input was not looked for.
    Spent,
    /// A read failed. What was read before it counts.
    ReadFault,
}

/// How bytes end the reading, if they do: by the message that did, or else by what their stream breaks.
pub fn decided(ending: Option<ReadEnd>, bad: Option<FrameFault>) -> Option<ReadEnd>
    ensures { result ≡ Spec.decided ending bad }
{
    match (ending, bad) {
        (Some(ending), _) => Some(ending),
        (None, Some(fault)) => Some(ReadEnd::Broken {
            offset: fault.offset,
            fault: Fault::Frame(fault.cause),
        }),
        (None, None) => None,
    }
}

/// How an input ends that ended the reading nowhere before, by the offset of what is unfinished at its end.
pub fn input_end(rest: Option<u64>) -> ReadEnd
    ensures { result ≡ Spec.input_end rest }
{
    match rest {
        Some(offset) => ReadEnd::Cut(offset),
        None => ReadEnd::Ended,
    }
}
