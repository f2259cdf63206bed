//! The listing of what a text of IDL declares: a line for each thing, and after an interface a line for each of its operations.
#![tactic(auto)]

mod counts;
mod idl_end;
mod lines;
mod listing;
mod run;
mod texts;

pub use idl_end::IdlEnd;
pub use listing::write_listing;
pub use run::idl_run;
