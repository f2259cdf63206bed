//! What comes of looking for a run.

use trace_runs::Run;

/// What comes of looking for a run in a text that is to be an input of traces.
#[derive(Drop)]
pub enum Found {
    /// The text is runs, and this is the one.
    Run(Run),
    /// The text is runs, and has fewer.
    Absent,
    /// It ends where lines are lacking, or within a line: the offset of the first byte that isn't of a whole line.
    Lacking(usize),
    /// The first line at fault begins at this offset.
    AtFault(usize),
}
