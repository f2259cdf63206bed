//! Parts of encapsulations: texts and octets, copied.
ghost use Rattle.std.specs.Prelude.{◌≡◌, Ok};
ghost use Rattle.cdr_core.specs.Answers.{Answers, Gives};
ghost use Rattle.cdr_core.specs.declared.fault.CdrFault.{CdrFault};
ghost use Rattle.cdr_core.specs.Errors.{fault_of};
ghost use Rattle.cdr_core.specs.Reading.{octets_at, string_at};

use cdr_core::{CdrError, Reader};
use orb_base::{List, Octets, Text};
use std::alloc::Global;

/// A copy of the bytes.
fn copied(alloc: Global, bytes: &[u8]) -> Result<Octets, CdrError>
    ensures { Answers {F = CdrFault} fault_of (λ o. o.items) result (Ok bytes.now) }
{
    match Vec::from_slice(alloc, bytes) {
        Ok(copy) => Ok(List::from_vec(copy)),
        Err(_) => Err(CdrError::NoMemory),
    }
}

/// Takes an octet sequence. Copies its bytes once.
pub fn take_octets(alloc: Global, reader: &mut Reader<'_>) -> Result<Octets, CdrError>
    ensures { Gives fault_of (λ o. o.items) result reader.new (octets_at reader.old) }
{
    match reader.take_octets() {
        Ok(bytes) => copied(alloc, bytes),
        Err(fault) => Err(CdrError::Refused(fault)),
    }
}

/// Takes a string. Copies its bytes once.
pub fn take_text(alloc: Global, reader: &mut Reader<'_>) -> Result<Text, CdrError>
    ensures { Gives fault_of (λ t. t) result reader.new (string_at reader.old) }
{
    match reader.take_string() {
        Ok(bytes) => match Text::new(alloc, bytes) {
            Ok(text) => Ok(text),
            Err(_) => Err(CdrError::NoMemory),
        },
        Err(fault) => Err(CdrError::Refused(fault)),
    }
}
