//! Calls of remote objects: what is sent, and what becomes of the call by the bytes that come back.
//!
//! What a reply means for an operation is in `specs/Replies.antt`. `specs/Exchanges.antt` says which one result the bytes of a connection
//! and its end give, and what is sent; `specs/Calls.antt` says what a call has to do with that.
#![tactic(auto)]

mod body;
mod call_fault;
mod calling;
mod exceptions;
mod laws;
mod meaning;
mod results;
mod sendable;
mod sending;
mod system_exception;
mod taking;
mod waiting;

pub use call_fault::CallFault;
pub use calling::call;
pub use laws::bytes_and_end_give_one_result;
pub use meaning::{SYSTEM_EXCEPTION, USER_EXCEPTION, meaning_by_status, meaning_of};
pub use sendable::is_sendable;
pub use system_exception::SystemException;
