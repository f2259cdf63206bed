//! How connections end.
ghost use Rattle.std.specs.Prelude.{◌≡◌};
ghost use Rattle.heard_calls.specs.Input as Spec;

use giop_frames::FrameFault;
use giop_messages::Fault;

/// How the reading of a connection ended. What is after a message that ends it isn't looked at.
#[derive(Clone, Copy, Debug, PartialEq, Eq)]
pub enum Ending {
    /// By the other side's CloseConnection or MessageError, or at the end of the input where nothing is unfinished.
    Ended,
    /// At the end of the input within a message: the offset of the first byte that is unfinished, from the first byte of the
    /// stream.
    Cut(u64),
    /// By a message that is refused, or by a piece that breaks a rule of framing: the offset of the first byte of that piece, or
    /// of the piece that completed the message, and the cause.
    Broken { offset: u64, fault: Fault },
}

/// How an input ended of which no message ended the reading, by what its stream broke and by what was left unfinished.
fn at_end(bad: Option<FrameFault>, rest: Option<u64>) -> Ending
    ensures { result ≡ Spec.at_end bad rest }
{
    match (bad, rest) {
        (Some(fault), _) => Ending::Broken {
            offset: fault.offset,
            fault: Fault::Frame(fault.cause),
        },
        (None, Some(offset)) => Ending::Cut(offset),
        (None, None) => Ending::Ended,
    }
}

/// How an input ended: by a message, or else at its end.
pub fn ending_of(decided: Option<Ending>, bad: Option<FrameFault>, rest: Option<u64>) -> Ending
    ensures { result ≡ Spec.ending_of decided bad rest }
{
    match decided {
        Some(ending) => ending,
        None => at_end(bad, rest),
    }
}
