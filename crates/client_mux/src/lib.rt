//! The machine of a link that several callers share: calls with their ids, what is to be sent, which calls wait, were
//! answered or dropped, why the link was lost first, and who left. Each call is one step of the machine in
//! `specs/Machine.antt`, made through a turn cell, one after another. Own profile.
#![tactic(auto)]

mod call;
mod called;
mod caller_count;
mod heard_reply;
mod laws;
pub mod limits;
mod mux_cell;
mod why;

pub use call::{MuxCall, MuxReply};
pub use called::{Called, Doing, Sending};
pub use caller_count::CallerCount;
pub use heard_reply::HeardReply;
pub use laws::{
    entries_suffice, first_loss_counts, fit_is_sound, own_reply_is_first, rooms_suffice,
    seats_are_one_tree,
};
pub use mux_cell::MuxCell;
pub use why::Why;
