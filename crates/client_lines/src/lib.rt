//! Connections of a client, as they are read: the replies that it awaits, one after another.
//!
//! What a message is to a client is in `specs/Awaiting.antt`, as what a judge of `heard_messages` says; what was heard of a connection
//! is in `specs/Lines.antt`.
#![tactic(auto)]

mod answer;
mod awaited;
mod caller;
mod line;
mod next;

pub use answer::Answer;
pub use awaited::{Awaited, BIND_ID, FIRST_ID, NEXT_ID};
pub use caller::{Caller, call_id};
pub use line::Line;
pub use next::Next;
