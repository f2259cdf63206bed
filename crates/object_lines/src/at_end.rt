//! How the lines of objects came out.

use setup_files::SetupEnd;

/// How the lines of objects came out.
#[derive(Drop)]
pub enum AtEnd {
    /// The line of each object was written.
    Done,
    /// There is no setup with servants, for this reason. Nothing was written.
    NoBroker(SetupEnd),
    /// The sink failed. A prefix of the lines was written.
    WriteFault,
    /// Out of memory for the lines. Nothing was written.
    NoMemory,
}
