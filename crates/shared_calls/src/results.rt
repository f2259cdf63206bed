//! What the calls of callers over a shared link come to.
ghost use Rattle.std.specs.Prelude.{◌≡◌};
ghost use Rattle.idl_types.specs.Views.{operation_of};
ghost use Rattle.client_calls.specs.Replies.{Means, seen};
ghost use Rattle.shared_calls.specs.Results as Spec;

use cdr_values::IdlValue;
use client_calls::{CallFault, meaning_by_status};
use client_mux::Why;
use idl_types::Operation;
use mux_sides::CallEnd;
use orb_base::List;
use std::alloc::Global;

/// The fault of a call whose link is lost for this cause.
fn fault_of(why: Why) -> CallFault
    ensures { result ≡ Spec.fault_of why }
{
    match why {
        Why::Closed => CallFault::Closed,
        Why::Refused { offset, fault } => CallFault::Refused { offset, fault },
        Why::Limit => CallFault::Limit,
        Why::ReadFault => CallFault::ReadFault,
        Why::WriteFault => CallFault::WriteFault,
        Why::NoMemory => CallFault::NoMemory,
    }
}

/// What a caller's call comes to. Work and memory grow with the bytes of its reply that are read.
#[tactic(auto, using(crate::proofs::Meanings::gone_means, crate::proofs::Meanings::none_means))]
pub(crate) fn result_of(
    alloc: Global,
    operation: &Operation,
    end: &CallEnd,
) -> Result<List<IdlValue>, CallFault>
    ensures { Means (seen result) (Spec.result_of (operation_of operation.now) end.now) }
{
    match end {
        CallEnd::Reply(reply) => {
            let heard = reply.get();
            let body = heard.reply.body.as_slice();
            meaning_by_status(alloc, operation, heard.reply.status, heard.order, body)
        }
        CallEnd::Gone(why) => Err(fault_of(*why)),
        CallEnd::NoneDue => Ok(List::new(alloc)),
    }
}
