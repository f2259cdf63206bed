//! The notes of `orb refs`, of a reference and of those at an address.
ghost use Rattle.std.specs.Prelude.{◌≡◌};
ghost use Rattle.orb_command.specs.AtAnswer.{at_note};
ghost use Rattle.orb_command.specs.RefsAnswer.{refs_note as refs_note_lem};

use crate::note::Note;
use crate::setup_note::note_setup;
use giop_messages::Fault;
use object_lines::AtEnd;
use orb_base::NoMemory;
use reference_lines::{MAX_REFERENCE, RefsEnd};

/// The note of a run of `orb refs`.
pub fn refs_note(ran: Result<RefsEnd, NoMemory>) -> Note
    ensures { result ≡ refs_note_lem ran }
{
    match ran {
        Ok(RefsEnd::Done) => Note::Nothing,
        Ok(RefsEnd::Refused(fault)) => Note::Reference(fault),
        Ok(RefsEnd::TooLong) => Note::Input(MAX_REFERENCE as u64, Fault::Cut),
        Ok(RefsEnd::ReadFault) => Note::ReadFault,
        Ok(RefsEnd::WriteFault) => Note::WriteFault,
        Err(NoMemory) => Note::Memory,
    }
}

/// The note of a run of `orb refs --at`.
pub fn note_at(end: AtEnd) -> Note
    ensures { result ≡ at_note end }
{
    match end {
        AtEnd::Done => Note::Nothing,
        AtEnd::NoBroker(why) => note_setup(why),
        AtEnd::WriteFault => Note::WriteFault,
        AtEnd::NoMemory => Note::Memory,
    }
}
