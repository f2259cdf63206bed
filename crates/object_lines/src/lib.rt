//! The references of a setup's objects at an address, one object a line; the setup is that of a configuration, or the built-in
//! one.
#![tactic(auto)]

mod address;
mod at_end;
mod lines;
mod run;

pub use address::{Address, read_address};
pub use at_end::AtEnd;
pub use run::at_run;
