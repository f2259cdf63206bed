//! The awaited reply.
ghost use Rattle.std.specs.Prelude.{◌≡◌};
ghost use Rattle.client_lines.specs.Lines.{IsHeard};
ghost use Rattle.client_calls.specs.Exchanges.{came_by};
ghost use Rattle.client_calls.specs.Steps.{Awaits};

use crate::call_fault::CallFault;
use client_lines::{Answer, Line, Next};
use heard_messages::ReadEnd;
use orb_base::Source;
use std::alloc::Global;

/// What a call comes to whose connection came out so before the reply.
fn came_by(end: ReadEnd) -> CallFault
    ensures { result ≡ came_by end }
{
    match end {
        ReadEnd::Ended => CallFault::Closed,
        ReadEnd::Cut(_) => CallFault::Closed,
        ReadEnd::Broken { offset, fault } => CallFault::Refused { offset, fault },
        ReadEnd::Spent => CallFault::Limit,
        ReadEnd::ReadFault => CallFault::ReadFault,
    }
}

/// The next reply that the connection gives.
pub(crate) fn await_reply<I: Source>(
    alloc: Global,
    line: &mut Line<'_>,
    source: &mut I,
) -> Result<Answer, CallFault>
    requires heard { IsHeard line.old }
    ensures { Awaits result line.old line.new (I.state source.old) (I.state source.new) }
{
    let next = line.next(alloc, source)?;
    match next {
        Next::Answers(answer) => Ok(answer),
        Next::Over(end) => Err(came_by(end)),
    }
}
