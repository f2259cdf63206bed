//! A setup and its servants, from the files that a configuration names: what each command that serves objects begins with.
#![tactic(auto)]

mod broker;
mod setup_end;
mod setups;

pub use broker::{Broker, read_broker};
pub use setup_end::{MAX_CONFIG, SetupEnd};
