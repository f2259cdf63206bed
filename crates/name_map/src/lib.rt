//! The map of a name service: texts under keys, which are texts too. It is an object that threads share by a turn cell.
//!
//! It is one list of bindings that rises by the bytes of its keys, whose room is taken when it opens. Keys are found by
//! halving, and texts are shared, so that a call takes memory for shares alone.
#![tactic(auto)]

mod binding;
mod call;
pub mod laws;
pub mod limits;
mod look;
mod names_cell;

pub use binding::Binding;
pub use call::{NamesCall, NamesReply};
pub use names_cell::NamesCell;
