//! What `orb_picture` ends with.
ghost use Rattle.std.specs.Prelude.{◌≡◌};
ghost use Rattle.picture_runs.specs.Answering.{status_of as status_of_lem};

use std::fmt;

/// What `orb_picture` ends with.
#[derive(Clone, Copy, Debug, PartialEq, Eq)]
pub enum Note {
    /// What was asked for was written.
    Nothing,
    /// The words ask for nothing.
    Usage,
    /// The input failed, and no whole line before that is at fault. Nothing was written.
    ReadFault,
    /// The output failed. A prefix of what was asked for was written.
    WriteFault,
    /// The input is no traces: the offset of the first line at fault, in bytes. Nothing was written.
    Trace(u64),
    /// The input is traces, but has no run of this number. Nothing was written.
    Absent(u32),
    /// Out of memory. Nothing was written. Where the input failed too, bytes had come before.
    Memory,
    /// `MAX_AUDITED` bytes were taken, in which no whole line is at fault. Nothing was written.
    Limit,
}

/// The status of a note.
pub fn status_of(note: Note) -> u8
    ensures { result ≡ status_of_lem note }
{
    match note {
        Note::Nothing => 0,
        Note::Usage => 1,
        Note::ReadFault => 3,
        Note::WriteFault => 4,
        Note::Trace(_) => 8,
        Note::Absent(_) => 10,
        Note::Memory => 12,
        Note::Limit => 13,
    }
}

impl fmt::Display for Note {
    fn fmt<W: fmt::Write>(&self, f: &mut fmt::Formatter<W>) -> fmt::Result {
        match self {
            Note::Nothing => Ok(()),
            Note::Usage => f.write_str("usage"),
            Note::ReadFault => f.write_str("read fault"),
            Note::WriteFault => f.write_str("write fault"),
            Note::Trace(offset) => write!(f, "trace: offset {offset}"),
            Note::Absent(run) => write!(f, "absent: run {run}"),
            Note::Memory => f.write_str("memory"),
            Note::Limit => f.write_str("limit"),
        }
    }
}
