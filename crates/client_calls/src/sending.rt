//! Requests, as they are written.
ghost use Rattle.client_calls.specs.Steps.{Sends};

use crate::call_fault::CallFault;
use orb_base::{Octets, Sink};
use text_streams::{WriteAll, write_all};

/// Writes all of a request, or a prefix of it up to a fault.
pub(crate) fn send<O: Sink>(sink: &mut O, request: &Octets) -> Result<(), CallFault>
    ensures { Sends result request.now.items (O.state sink.old) (O.state sink.new) }
{
    match write_all(sink, request.as_slice()) {
        WriteAll::Whole => Ok(()),
        WriteAll::Failed => Err(CallFault::WriteFault),
    }
}
