//! A run of a name service, and its line.
//!
//! Four slots serve the links of their acceptors, one after another, over one map that they share. `names_run` says that the calls of the
//! map are one legal history, that each slot's entries there are those of its invocations, and what each connection wrote. What a name
//! service does is this project's own.
#![tactic(auto)]

mod give;
mod job;
mod keys;
mod laws;
mod line;
mod prepare;
mod run;
mod running;

pub use laws::runs_without_fault_are_complete;
pub use line::{WroteLine, write_line};
pub use run::NamesRun;
pub use running::names_run;
