//! One call of a history.

use crate::object::Object;

/// A call that was made, by whom, and its reply.
#[derive(Drop)]
pub struct Entry<O: Object> {
    /// The number of the seat that called.
    pub caller: u32,
    pub call: O::Call,
    pub reply: O::Reply,
}
