//! The writing of what a connection is owed: each item as the message that it is. Takes no memory: a head is in 128 bytes of its
//! own, with the body where it fits in there. Else 4,096 bytes have the head and the start of the body, and the rest is written from
//! where it lies.
//! CORBA 3.0.3, section 15.4.
#![tactic(auto)]

mod exceptions;
mod heads;
mod items;

pub use heads::HEAD_LEN;
pub use items::{write_close, write_error, write_item};
