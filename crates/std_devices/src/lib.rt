//! The devices that each program has: its standard streams as a source and a sink, and its words.
#![tactic(auto)]

mod program_words;
mod std_sink;
mod std_source;

pub use program_words::words;
pub use std_sink::StdSink;
pub use std_source::StdSource;
