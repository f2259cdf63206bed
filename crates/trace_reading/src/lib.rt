//! Traces read back: an input as the runs whose text it is, or its first line at fault.
#![tactic(auto)]

mod actions;
mod laws;
mod row;
mod rows;
mod words;

pub use laws::{first_fault_is_one, inputs_have_one_reading, lines_read_back};
pub use row::{Flags, Head, Limits, Row};
pub use rows::read_line;
