//! Jobs that are done side by side, each in a thread of its own where one can be made.
//!
//! What is done with a job is a closure, and what is known of each job and of what it leaves is the closure's own contract.
//! Threads are started by `std::thread::join` alone, two closures at a time, so that each is joined. Nothing is said of
//! progress: a job whose thread can't be made is done after those that were to run beside it.
#![tactic(auto)]

mod run;

pub use run::run_all;
