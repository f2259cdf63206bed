//! What one try of a call gives.

use crate::object::Object;

/// Why a call was not answered yet.
#[derive(Clone, Copy, Drop)]
pub enum Hold {
    /// Another seat held the turn.
    Turn,
    /// The call was not ready, at this value of the table's word.
    Unready(u64),
    /// The object wanted memory.
    Memory,
}

/// What one try of a call gives. A call that was not made comes back.
#[derive(Drop)]
pub enum Tried<O: Object> {
    Replied(O::Reply),
    Worn(O::Call),
    NotYet(O::Call, Hold),
}
