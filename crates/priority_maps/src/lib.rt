//! Maps between CORBA priorities and native ones (Real-time CORBA 1.2, Priority mappings).
//!
//! A map is linear, or a table of bands. What each means is in `specs/`, and so do the laws that hold of both.
#![tactic(auto)]

mod laws;
mod level;
mod linear;
mod map;
mod row;
mod table;

pub use laws::{linear_keeps_ends, linear_keeps_order, there_and_back};
pub use map::Map;
pub use row::MapRow;
