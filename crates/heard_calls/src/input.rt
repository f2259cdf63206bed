//! What a whole input of a connection means.
ghost use Rattle.std.specs.Prelude.{◌≡◌, ◌<◌, ◌^◌, length, Some, IfOk};
ghost use Rattle.std.specs.List.{All};
ghost use Rattle.orb_base.specs.declared.limits.TheConstants.{MAX_MESSAGE};
ghost use Rattle.giop_frames.specs.Stream.{stream};
ghost use Rattle.giop_messages.specs.MessageReading.{IsMessage};
ghost use Rattle.heard_calls.specs.Input as Spec;

use crate::ending::{Ending, ending_of};
use crate::hearing::hear;
use adapter_policies::Setup;
use giop_frames::{FeedFault, FrameFault, Framer, Whole};
use lane_machine::LaneCall;
use orb_base::limits::MAX_MESSAGE;
use orb_base::{ConnId, List, NoMemory};
use std::alloc::Global;
use std::marker::Model;

/// What a whole input means.
#[derive(Drop)]
pub struct Input {
    /// The calls of its messages, in order.
    pub calls: List<LaneCall>,
    /// How it ended.
    pub ending: Ending,
}

/// What the stream of an input says.
#[derive(Drop)]
struct Framed {
    messages: List<Whole>,
    rest: Option<u64>,
    bad: Option<FrameFault>,
}

impl Model for Framed {
    ghost use Rattle.giop_frames.specs.Stream.{Said};

    ghost Value = { Said };

    ghost view = { λ f. record { messages = f.messages.items; rest = f.rest; bad = f.bad } };
}

/// The fault of a feed, if it has one.
fn fault_of(fed: Result<(), FeedFault>) -> Result<Option<FrameFault>, NoMemory>
    ensures { IfOk result (λ bad. Spec.fault_in fed ≡ Some bad) }
{
    match fed {
        Ok(()) => Ok(None),
        Err(FeedFault::Frame(fault)) => Ok(Some(fault)),
        Err(FeedFault::NoMemory) => Err(NoMemory),
    }
}

/// What the stream of an input says.
fn frame(alloc: Global, input: &[u8]) -> Result<Framed, NoMemory>
    requires { length input.now < 2 ^ 32 }
    ensures stream { IfOk result (λ f. f ≡ stream MAX_MESSAGE input.now) }
    ensures messages { IfOk result (λ f. All IsMessage f.messages) }
    ensures few { IfOk result (λ f. length f.messages < 2 ^ 32) }
{
    let mut framer = Framer::new(alloc, MAX_MESSAGE)?;
    let mut messages = List::new(alloc);
    let bad = fault_of(framer.feed(input, &mut messages))?;
    Ok(Framed {
        messages,
        rest: framer.rest(),
        bad,
    })
}

/// What a whole input of a connection means to a server of a setup: the calls of its messages up to the one that ends the reading,
/// and how it ended. Memory and work grow with its bytes, and with what `judge` takes for each request.
pub fn hear_input(
    alloc: Global,
    setup: &Setup,
    conn: ConnId,
    input: &[u8],
) -> Result<Input, NoMemory>
    requires few { length input.now < 2 ^ 32 }
    ensures { IfOk result (λ heard. Spec.HearsInput setup.now conn input.now heard.calls.items heard.ending) }
{
    let framed = frame(alloc, input)?;
    let heard = hear(alloc, setup, conn, None, 0, framed.messages.as_slice())?;
    Ok(Input {
        calls: heard.calls,
        ending: ending_of(heard.ending, framed.bad, framed.rest),
    })
}
