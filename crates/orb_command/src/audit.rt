//! The note of an audit.
ghost use Rattle.std.specs.Prelude.{◌≡◌};
ghost use Rattle.orb_command.specs.AuditAnswer.{audit_note as audit_note_lem};

use crate::note::Note;
use orb_base::NoMemory;
use trace_audit::AuditEnd;

/// The note of an audit.
pub fn audit_note(audited: Result<AuditEnd, NoMemory>) -> Note
    ensures { result ≡ audit_note_lem audited }
{
    match audited {
        Ok(AuditEnd::Legal) => Note::Nothing,
        Ok(AuditEnd::Wrong(wrong)) => Note::Audit(wrong.run, wrong.entry),
        Ok(AuditEnd::NotTrace(at)) => Note::Trace(at),
        Ok(AuditEnd::ReadFault) => Note::ReadFault,
        Ok(AuditEnd::Spent) => Note::Limit,
        Ok(AuditEnd::WriteFault) => Note::WriteFault,
        Err(NoMemory) => Note::Memory,
    }
}
