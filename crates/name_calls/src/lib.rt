//! What requests mean to a name service, and how it answers them.
//!
//! The service is one object of `IDL:Orb/Names:1.0`. A request asks the map of `name_map`, or has an answer of its own:
//! an operation of every object, or an exception. What a name service does is this project's own.
#![tactic(auto)]

mod answers;
mod bodies;
mod exceptions;
pub mod laws;
pub mod limits;
mod meaning;
mod means;
mod operation;
mod reading;

pub use answers::answer_of;
pub use meaning::Meaning;
pub use means::meaning_of;
pub use operation::Operation;
