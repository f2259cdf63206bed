//! What objects need alike that are called through a turn cell, where every caller has a seat that was split from the first one:
//! the numbers of those seats, and how long a history gets whose callers make so many calls at most.
#![tactic(auto)]

mod heirs;
mod laws;

pub use heirs::flat_heir;
pub use laws::{
    bounded_callers_leave_room, flat_seats_are_one_tree, legal_at_each_place, own_entries_in_order,
};
