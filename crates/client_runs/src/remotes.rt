//! The remote object of a call.
ghost use Rattle.std.specs.Prelude.{◌≡◌};
ghost use Rattle.client_runs.specs.Judging as Spec;

use crate::call_end::{CallEnd, LocalFault};
use client_stub::{Remote, remote_of};
use object_refs::RefError;
use orb_base::Text;
use reference_lines::MAX_REFERENCE;
use std::alloc::Global;

/// The remote object of a text.
fn remote_in(alloc: Global, text: &[u8]) -> Result<Remote, CallEnd>
    ensures { Spec.Gives (λ r. r) result (Spec.remote_in text.now) }
{
    match remote_of(alloc, text) {
        Ok(remote) => Ok(remote),
        Err(RefError::Refused(_)) => Err(CallEnd::Local(LocalFault::BadReference)),
        Err(RefError::NoMemory) => Err(CallEnd::NoMemory),
    }
}

/// The remote object that the text of a reference means, where it isn't too long.
pub(crate) fn remote_by(alloc: Global, reference: &Text) -> Result<Remote, CallEnd>
    ensures { Spec.Gives (λ r. r) result (Spec.remote_by reference.now) }
{
    let text = reference.as_slice();
    if text.len() > MAX_REFERENCE {
        return Err(CallEnd::Local(LocalFault::BadReference));
    }
    remote_in(alloc, text)
}
