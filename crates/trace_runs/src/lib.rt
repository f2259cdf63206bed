//! Runs of traces, read one after another from a text: each is the text that is printed of it, or its first line at fault is known.
#![tactic(auto)]

mod bounds;
mod cut;
mod laws;
mod lines;
mod opening;
mod reading;
mod run;
mod run_read;
mod step;
mod summaries;

pub use laws::texts_go_on_afresh;
pub use reading::read_run;
pub use run::Run;
pub use run_read::RunRead;
