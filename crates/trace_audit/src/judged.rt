//! What a text comes to that is to be an input of traces.

use crate::verdict::Verdict;
use orb_base::List;

/// What a text comes to that is to be an input of traces.
#[derive(Drop)]
pub enum Judged {
    /// It is the text of runs: their verdicts, in order.
    Runs(List<Verdict>),
    /// It ends where lines are lacking, or within a line: the offset of the first byte that isn't of a whole line.
    Lacking(usize),
    /// The first line at fault begins at this offset.
    AtFault(usize),
}
