//! The note of `orb idl`.
ghost use Rattle.std.specs.Prelude.{◌≡◌};
ghost use Rattle.orb_command.specs.IdlAnswer as Spec;

use crate::note::{Note, Role};
use idl_lines::IdlEnd;

/// The note of a run of `orb idl`.
pub fn idl_note(end: IdlEnd) -> Note
    ensures { result ≡ Spec.idl_note end }
{
    match end {
        IdlEnd::Done => Note::Nothing,
        IdlEnd::Refused(fault) => Note::Idl(fault),
        IdlEnd::Absent => Note::Absent(Role::Idl),
        IdlEnd::TooLong => Note::TooLong(Role::Idl),
        IdlEnd::ReadFault => Note::ReadFault,
        IdlEnd::WriteFault => Note::WriteFault,
        IdlEnd::NoMemory => Note::Memory,
    }
}
