//! One line of text for each GIOP message of an input, up to the first one that has no reading.
#![tactic(auto)]

mod dump;
mod dump_end;
mod dump_line;
mod dump_lines;
mod laws;
mod refusal;

pub use dump::dump_run;
pub use dump_end::{DumpEnd, MAX_DUMPED, READ_LEN};
pub use laws::{dumps_go_on, written_is_shown};
pub use refusal::Refusal;
