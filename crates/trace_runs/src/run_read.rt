//! What is read at the beginning of a text.

use crate::run::Run;

/// What is read at the beginning of a text.
#[derive(Drop)]
pub enum RunRead {
    /// A run, with the length of its text in bytes.
    Run { run: Run, len: usize },
    /// The text is empty.
    Nothing,
    /// The text ends where lines are lacking, or within a line: the offset of the first byte that isn't of a whole line.
    Lacking(usize),
    /// The first line at fault begins at this offset.
    AtFault(usize),
}
