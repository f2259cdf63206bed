//! What messages mean, in their order.
ghost use Rattle.std.specs.Prelude.{◌≡◌, ◌+◌, ◌<◌, ◌^◌, ◌++◌, None, length, option_to_list, IfOk};
ghost use Rattle.std.specs.List.{All};
ghost use Rattle.giop_messages.specs.MessageReading.{IsMessage};
ghost use Rattle.heard_messages.specs.Hearing as Spec;

use crate::judge::Judge;
use crate::meaning::meaning_of;
use crate::means::Means;
use crate::read_end::ReadEnd;
use giop_frames::Whole;
use orb_base::{List, NoMemory};
use std::alloc::Global;

/// What messages mean, or the bytes of a piece.
#[derive(Debug, Drop)]
pub struct Heard<C> {
    /// The calls of the messages, in order.
    pub calls: List<C>,
    /// How one of them ended the reading, or how the stream did, if it ended.
    pub ending: Option<ReadEnd>,
}

/// Adds a call after the others, if there is one.
fn add<C: Drop>(calls: &mut List<C>, call: Option<C>) -> Result<(), NoMemory>
    ensures { IfOk result (λ u. calls.new.items ≡ calls.old.items ++ option_to_list call) }
{
    let Some(call) = call else {
        return Ok(());
    };
    match calls.push(call) {
        Ok(()) => Ok(()),
        Err(_) => Err(NoMemory),
    }
}

/// Hears one message more, where `serial` calls were made before the first of `calls`: how it ends the reading, if it does.
fn take<J: Judge>(
    alloc: Global,
    judge: &J,
    bound: &mut J::Bound,
    calls: &mut List<J::Call>,
    serial: u32,
    message: &Whole,
) -> Result<Option<ReadEnd>, NoMemory>
    requires message { IsMessage message.now }
    requires few { serial + length calls.old.items < 2 ^ 32 }
    ensures { IfOk result (λ ending. Spec.Takes (J.means judge.now) serial message.now
        (record { calls = calls.old.items; bound = bound.old; ending = None })
        (record { calls = calls.new.items; bound = bound.new; ending = ending })) }
{
    let number = serial + calls.len() as u32;
    match meaning_of(alloc, judge, bound, number, message)? {
        Means::Goes { bound: next, call } => {
            *bound = next;
            add(calls, call)?;
            Ok(None)
        }
        Means::Ends => Ok(Some(ReadEnd::Ended)),
        Means::Breaks(fault) => Ok(Some(ReadEnd::Broken {
            offset: message.at,
            fault,
        })),
    }
}

/// What messages mean by a judge, where `bound` was settled before them and `serial` calls were made: their calls up to the first message
/// that ends the reading. From then on `bound` is what is settled after them. Memory and work grow with their bytes, and with what the
/// judge takes for each.
pub fn hear<J: Judge>(
    alloc: Global,
    judge: &J,
    bound: &mut J::Bound,
    serial: u32,
    messages: &[Whole],
) -> Result<Heard<J::Call>, NoMemory>
    requires messages { All IsMessage messages.now }
    requires few { serial + length messages.now < 2 ^ 32 }
    ensures { IfOk result (λ heard. Spec.Hears (J.means judge.now) messages.now bound.old serial
        (record { calls = heard.calls.items; bound = bound.new; ending = heard.ending })) }
{
    let mut calls = List::new(alloc);
    for message in messages {
        if let Some(ending) = take(alloc, judge, bound, &mut calls, serial, message)? {
            return Ok(Heard {
                calls,
                ending: Some(ending),
            });
        }
    }
    Ok(Heard {
        calls,
        ending: None,
    })
}
