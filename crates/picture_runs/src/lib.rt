//! The picture of a run of an input of traces: what the words ask for, the reading of the input, and what is written.
#![tactic(auto)]

mod asked;
mod finding;
mod found;
mod note;
mod picturing;
mod words;

pub use asked::Asked;
pub use note::{Note, status_of};
pub use picturing::picture_main;
