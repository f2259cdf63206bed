//! The hall of a name service: what its slots invoke by, over one map that they share.
//!
//! The map is shared by a turn cell: each slot calls it by a seat of its own, and the calls of all are one legal history. A request is
//! judged and its texts are made before the map is called, and its answer is spelled after it, so that nothing but shares is made while
//! the map is held. `specs/Entering.antt` says how a slot's invocations are tied to its entries in the history. What a name service does
//! is this project's own.
#![tactic(auto)]

mod closing;
mod hall;
mod hand;
mod laws;
mod map;
mod opening;
mod sendable;

pub use closing::{Closed, close};
pub use hall::NamesHall;
pub use hand::{NamesHand, RootSeat};
pub use laws::clients_are_told_what_the_map_answers;
pub use map::NamesMap;
pub use opening::{Opened, open};
