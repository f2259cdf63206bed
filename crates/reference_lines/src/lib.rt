//! The parts of an object reference, line by line: of a stringified reference, or of an object URL.
#![tactic(auto)]

mod laws;
mod ref_lines;
mod refs;
mod refs_end;

pub use laws::prints_one_way;
pub use refs::refs_run;
pub use refs_end::{MAX_REFERENCE, RefsEnd};
