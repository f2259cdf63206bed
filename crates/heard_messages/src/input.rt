//! What a whole input of a connection means.
ghost use Rattle.std.specs.Prelude.{◌<◌, ◌^◌, length, IfOk};
ghost use Rattle.heard_messages.specs.Inputs as Spec;

use crate::hearing::Hearing;
use crate::judge::Judge;
use crate::read_end::ReadEnd;
use orb_base::{List, NoMemory};
use std::alloc::Global;

/// What a whole input means.
#[derive(Debug, Drop)]
pub struct Input<C> {
    /// The calls of its messages, in order.
    pub calls: List<C>,
    /// How it ended.
    pub end: ReadEnd,
}

/// What a whole input of a connection means by a judge: the calls of its messages up to the one that ends the reading, and how it ended.
/// Memory and work grow with its bytes, and with what the judge takes for each message.
pub fn hear_input<J: Judge>(
    alloc: Global,
    judge: &J,
    input: &[u8],
) -> Result<Input<J::Call>, NoMemory>
    requires { length input.now < 2 ^ 32 }
    ensures { IfOk result (λ heard. Spec.HearsInput (J.means judge.now) (J.first judge.now) input.now heard.calls.items heard.end) }
{
    let mut hearing = Hearing::new(alloc, judge)?;
    let heard = hearing.feed(alloc, input)?;
    match heard.ending {
        Some(end) => Ok(Input {
            calls: heard.calls,
            end,
        }),
        None => Ok(Input {
            calls: heard.calls,
            end: hearing.at_end(),
        }),
    }
}
