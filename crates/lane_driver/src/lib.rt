//! The driver of the lane machine for the pipe: one thread that makes the calls of one connection in groups, has the
//! servants carry out what is given to the threads, and writes what the connection is owed.
//!
//! Each contract says by `Drives` of `specs/Driving.antt` what was done: the entries by which the history grew are those of
//! the run that `pipe_laws` defines, and what was written is what they say.
#![tactic(auto)]

mod collects;
mod course;
mod feeding;
mod groups;
mod laws;
mod log;
mod opening;
mod runs;
mod said;
mod turns;

pub use collects::{PIPE_CONN, collect, collect_all, settle};
pub use course::Course;
pub use feeding::feed;
pub use groups::{end_run, take_call};
pub use laws::{runs_are_piped, what_is_done_is_piped};
pub use log::{Log, Noted};
pub use opening::open;
pub use runs::run_calls;
pub use said::write_said;
pub use turns::{apply_call, invoke, run_to_rest};
