//! A turn cell: threads call one object, one at a time, and their calls are one legal history.
#![tactic(auto)]

mod bell;
mod bells;
mod board;
mod cell;
mod entry;
mod hatch;
mod log;
mod object;
mod open;
mod places;
mod plays;
mod register;
mod run;
mod seat;
mod steps;
mod tried;
mod turn_cell;
mod waits;

pub use entry::Entry;
pub use hatch::{Hatch, HatchCall, HatchReply};
pub use object::Object;
pub use register::{Register, RegisterCall, RegisterReply};
pub use seat::Seat;
pub use turn_cell::{TurnCell, Worn};
