//! The note of a dump.
ghost use Rattle.std.specs.Prelude.{◌≡◌};
ghost use Rattle.orb_command.specs.DumpAnswer.{dump_note as dump_note_lem};

use crate::note::Note;
use giop_dump::DumpEnd;
use orb_base::NoMemory;

/// The note of a dump.
pub fn dump_note(dumped: Result<DumpEnd, NoMemory>) -> Note
    ensures { result ≡ dump_note_lem dumped }
{
    match dumped {
        Ok(DumpEnd::Done) => Note::Nothing,
        Ok(DumpEnd::Refused(refusal)) => Note::Input(refusal.offset, refusal.fault),
        Ok(DumpEnd::Spent) => Note::Limit,
        Ok(DumpEnd::ReadFault) => Note::ReadFault,
        Ok(DumpEnd::WriteFault) => Note::WriteFault,
        Err(NoMemory) => Note::Memory,
    }
}
