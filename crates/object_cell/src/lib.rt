//! The machine of one object that keeps a value. It is an object that threads share by a turn cell.
//!
//! A job runs outside the turn, between two calls: a Begin takes hold of the value, and a Commit puts the value after the job in its
//! place. Until then nobody else gets the value, so that no job works on an old one. Each call is one step of the machine in
//! `specs/Machine.antt`, made one after another.
#![tactic(auto)]

mod call;
mod laws;
pub mod limits;
mod object_cell;
mod staging;

pub use call::{ObjectCall, ObjectReply};
pub use laws::{
    commits_follow_begins, entries_suffice, fit_is_sound, jobs_come_in_turn, seats_are_one_tree,
};
pub use object_cell::ObjectCell;
pub use staging::Staging;
