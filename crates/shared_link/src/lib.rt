//! A link that threads share: each caller, the writer and the reader call its machine by a seat of its own, and the calls of all
//! are one legal history: own profile.
//!
//! | Seat | Calls |
//! |---|---|
//! | of a caller | `start` at most 64 times, `cancel` and `wait` of what it started, `leave` last |
//! | of the writer | `take_next` up to the answer that nothing is to be sent any more, `lose` once at most |
//! | of the reader | `put_arrived` at most 4,096 times, `lose` once at most |
//!
//! No call but `open` takes memory beside shares. A call that isn't ready waits; no clause says that it comes back.
#![tactic(auto)]

mod answers;
mod closing;
mod laws;
mod mux_seat;
mod opening;
mod sendable;
mod shared;

pub use answers::{Placed, Started, Stopped, Upcoming, Waited};
pub use laws::{roles_are_fit, roles_go_on};
pub use mux_seat::{MuxSeat, RootSeat};
pub use opening::{Opened, open};
pub use shared::Shared;
