//! Whether a call may be sent.
ghost use Rattle.std.specs.Prelude.{IsTrue, ◌↔◌};
ghost use Rattle.client_stub.specs.Asking.{arguments_fit, asked_of};
ghost use Rattle.client_stub.specs.Sending.{IsSendable};

use client_stub::{Asked, request_len};
use orb_base::limits::MAX_MESSAGE;

/// Whether none of the requests that the call takes is longer than a message may be. Takes no memory; work grows with the arguments.
#[tactic(auto, using(crate::proofs::ShortCalls::is_short, crate::proofs::ShortCalls::is_long))]
pub fn is_sendable(asked: &Asked) -> bool
    requires fits { IsTrue (arguments_fit (asked_of asked.now)) }
    ensures { IsTrue result ↔ IsSendable (asked_of asked.now) }
{
    request_len(asked) <= MAX_MESSAGE as u64
}
