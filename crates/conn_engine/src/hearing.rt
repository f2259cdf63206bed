//! The reading side of a connection, fed piece by piece. It knows nothing of where the bytes come from, nor of what becomes of the
//! calls.
ghost use Rattle.std.specs.Prelude.{◌≡◌, ◌+◌, ◌<◌, ◌^◌, ◌++◌, [], length, Some, IfOk};
ghost use Rattle.orb_base.specs.declared.limits.TheConstants.{MAX_MESSAGE};
ghost use Rattle.giop_frames.specs.Stream.{stream};
ghost use Rattle.heard_calls.specs.Input.{at_end as at_end_of, fault_in};
ghost use Rattle.conn_engine.specs.HeardSoFar as Spec;
ghost use Rattle.conn_engine.specs.Hearers as Hearers;

use adapter_policies::Setup;
use giop_frames::{FeedFault, FrameFault, Framer, Whole};
use giop_messages::Fault;
use heard_calls::{Ending, hear};
use lane_machine::LaneCall;
use orb_base::limits::MAX_MESSAGE;
use orb_base::{Band, ConnId, List, NoMemory, Told};
use std::alloc::Global;
use std::marker::Model;

/// What one more piece of a connection's bytes means.
#[derive(Drop)]
pub struct HeardPiece {
    /// The calls of the messages that it completed, in order.
    pub calls: List<LaneCall>,
    /// How the reading ended with it, if it did.
    pub ending: Option<Ending>,
}

/// Hears a connection to a server of a setup: takes its bytes in whatever pieces they come, and gives the calls of the messages that
/// each piece completes. It keeps what the framer keeps, the band that is bound, and the number of the calls.
#[derive(Drop)]
pub struct Hearing<'a> {
    setup: &'a Setup,
    conn: ConnId,
    framer: Framer,
    band: Option<Band>,
    made: u32,
    calls: Told<LaneCall>,
}

impl<'a> Model for Hearing<'a> {
    ghost use Rattle.conn_engine.specs.Hearers.{Hearer};

    ghost Value = { Hearer };

    ghost view = { λ h. record {
      setup = h.setup.now;
      conn = h.conn;
      framer = h.framer;
      band = h.band;
      made = h.made;
      calls = h.calls.items;
    } };
}

/// The fault of a feed, if it has one.
fn fault_of(fed: Result<(), FeedFault>) -> Result<Option<FrameFault>, NoMemory>
    ensures { IfOk result (λ bad. fault_in fed ≡ Some bad) }
{
    match fed {
        Ok(()) => Ok(None),
        Err(FeedFault::Frame(fault)) => Ok(Some(fault)),
        Err(FeedFault::NoMemory) => Err(NoMemory),
    }
}

/// Feeds one more piece, and gives what the stream breaks with it.
fn frame(
    framer: &mut Framer,
    piece: &[u8],
    messages: &mut List<Whole>,
) -> Result<Option<FrameFault>, NoMemory>
    requires going { Hearers.IsFraming framer.old }
    requires few { length framer.old.fed + length piece.now < 2 ^ 32 }
    requires none { messages.old.items ≡ [] }
    ensures fed { framer.new.fed ≡ framer.old.fed ++ piece.now }
    ensures ok { IfOk result (Hearers.FramesOn framer.old framer.new messages.new.items) }
{
    fault_of(framer.feed(piece, messages))
}

/// How bytes end the reading, by the message that did, or else by what their stream breaks.
fn decided(ending: Option<Ending>, bad: Option<FrameFault>) -> Option<Ending>
    ensures { result ≡ Spec.decided ending bad }
{
    match (ending, bad) {
        (Some(ending), _) => Some(ending),
        (None, Some(fault)) => Some(Ending::Broken {
            offset: fault.offset,
            fault: Fault::Frame(fault.cause),
        }),
        (None, None) => None,
    }
}

impl<'a> Hearing<'a> {
    /// Hears a connection from its first byte on. Takes the memory of a framer.
    pub fn new(alloc: Global, setup: &'a Setup, conn: ConnId) -> Result<Hearing<'a>, NoMemory>
        ensures { IfOk result (Hearers.IsNew setup.now conn) }
    {
        Ok(Hearing {
            setup,
            conn,
            framer: Framer::new(alloc, MAX_MESSAGE)?,
            band: None,
            made: 0,
            calls: Told::new(),
        })
    }

    /// Hears one more piece: the calls of the messages that it completes, up to the one that ends the reading, if one does. After
    /// such an ending, and once out of memory, nothing more can be heard. Memory grows with the messages that the piece completes;
    /// the work is that of framing and hearing.
    pub fn feed(&mut self, alloc: Global, piece: &[u8]) -> Result<HeardPiece, NoMemory>
        requires going { Hearers.IsGoing self.old }
        requires few { length self.old.framer.fed + length piece.now < 2 ^ 32 }
        ensures { IfOk result (λ heard. Hearers.FeedsOn self.old self.new piece.now heard.calls.items heard.ending) }
    {
        let mut messages = List::new(alloc);
        let bad = frame(&mut self.framer, piece, &mut messages)?;
        let messages = messages.as_slice();
        let heard = hear(alloc, self.setup, self.conn, self.band, self.made, messages)?;
        self.band = heard.band;
        self.made += heard.calls.len() as u32;
        self.calls = self.calls.and(heard.calls.as_slice());
        Ok(HeardPiece {
            calls: heard.calls,
            ending: decided(heard.ending, bad),
        })
    }

    /// How the reading ends where the input ends here.
    pub fn at_end(&self) -> Ending
        requires { Hearers.IsGoing self.now }
        ensures { result ≡ at_end_of None (stream MAX_MESSAGE self.now.framer.fed).rest }
    {
        match self.framer.rest() {
            Some(offset) => Ending::Cut(offset),
            None => Ending::Ended,
        }
    }
}
