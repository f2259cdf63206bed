//! The requests that wait for a thread, within two limits: how many they are, and how many bytes they have together
//! (Real-time CORBA 1.2, Threadpools: request buffering).
//!
//! A thread that becomes free takes the earliest of those of greatest priority that it may run.
#![tactic(auto)]

mod buffer;
mod found;
mod key;
mod laws;
mod queue;
mod queues;
mod sought;
mod waiting;

pub use buffer::Buffer;
pub use laws::next_is_most_urgent;
