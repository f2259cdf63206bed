//! GIOP framing: the messages of a stream of bytes that comes in any pieces (CORBA 3.0.3, section 15.4).
#![tactic(auto)]

mod cutting;
mod fault;
mod framer;
mod header;
mod joiner;
mod kind;
pub mod laws;
mod opened;
mod partials;
mod rules;
mod stream;
mod unfinished;
mod whole;

pub use cutting::{can_split, split};
pub use fault::{FeedFault, FrameCause, FrameFault};
pub use framer::Framer;
pub use kind::Kind;
pub use stream::read_stream;
pub use whole::Whole;
