//! The threads of a pool and what they do: which thread is given a request, with threads that lower lanes lend
//! (Real-time CORBA 1.2, Threadpools).
//!
//! A thread of a lane runs the requests of its lane, and with borrowing those of higher lanes. A request goes to a
//! thread without a task, down the lanes from its own; in a lane to a static thread, else to a dynamic one that was
//! started, else to one that is started for it; and among these to the one of the smallest number.
#![tactic(auto)]

mod building;
mod choice;
mod doing;
mod lane_thread;
mod laws;
mod lending;
mod mask;
mod probes;
mod standing;
mod task;
mod threads;

pub use choice::Choice;
pub use doing::Doing;
pub use laws::{choice_goes_down, choice_stands_first};
pub use lending::may_run;
pub use probes::Steps;
pub use task::Task;
pub use threads::Threads;
