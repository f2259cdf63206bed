//! The messages of a stream, piece by piece.
ghost use Rattle.std.specs.Prelude.{◌≡◌, ◌+◌, ◌<◌, ◌^◌, ◌++◌, length, Some, IfOk};
ghost use Rattle.heard_messages.specs.Framing as Spec;

use giop_frames::{FeedFault, FrameFault, Framer, Whole};
use orb_base::{List, NoMemory};
use std::alloc::Global;

/// What one more piece of a stream completes, and what it breaks.
#[derive(Drop)]
pub struct Framed {
    /// The messages that it completes, in the order of their last pieces.
    pub messages: List<Whole>,
    /// The rule that the stream breaks with it or broke before, if it does.
    pub bad: Option<FrameFault>,
}

/// The fault of a feed, if it has one.
fn fault_of(fed: Result<(), FeedFault>) -> Result<Option<FrameFault>, NoMemory>
    ensures { IfOk result (λ bad. Spec.fault_in fed ≡ Some bad) }
{
    match fed {
        Ok(()) => Ok(None),
        Err(FeedFault::Frame(fault)) => Ok(Some(fault)),
        Err(FeedFault::NoMemory) => Err(NoMemory),
    }
}

/// Feeds one more piece of a connection to its framer, whose limit is `MAX_MESSAGE` bytes: the messages that it completes, each of which
/// can be read, and what the stream breaks. Out of memory, the framer is of no more use. Memory grows with the messages that the piece
/// completes, and work with its bytes.
pub fn frame(alloc: Global, framer: &mut Framer, piece: &[u8]) -> Result<Framed, NoMemory>
    requires going { Spec.IsFraming framer.old }
    requires few { length framer.old.fed + length piece.now < 2 ^ 64 }
    ensures fed { framer.new.fed ≡ framer.old.fed ++ piece.now }
    ensures ok { IfOk result (λ framed. Spec.FramesOn framer.old framer.new framed.messages.items framed.bad) }
{
    let mut messages = List::new(alloc);
    let bad = fault_of(framer.feed(piece, &mut messages))?;
    Ok(Framed { messages, bad })
}
