//! Messages of GIOP 1.2, read and written (CORBA 3.0.3, section 15.4).
#![tactic(auto)]

mod copying;
mod exceptions;
mod flags;
mod laws;
mod length;
mod locate;
mod located;
mod message;
mod message_fault;
mod part;
mod parts;
mod ranges;
mod read;
mod read_basic;
mod read_shared;
mod refused;
mod reply;
mod request;
mod target;
mod write;

pub use copying::read_message;
pub use exceptions::{completion_status, system_exception_body};
pub use flags::due_of;
pub use laws::{framed_is_message, reads_one_way, spelled_is_read, written_is_read};
pub use length::{message_len, reply_len, request_len};
pub use locate::Locate;
pub use located::Located;
pub use message::Message;
pub use message_fault::MessageFault;
pub use orb_base::{Context, Tagged};
pub use parts::{PartTarget, Parts};
pub use read::read_parts;
pub use refused::Fault;
pub use reply::Reply;
pub use request::Request;
pub use target::Target;
pub use write::{header_start, write_message, write_reply};
