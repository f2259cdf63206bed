//! Where and why an input is refused.

use giop_messages::Fault;

/// Where and why an input is refused: own profile.
#[derive(Clone, Copy, Debug, PartialEq, Eq)]
pub struct Refusal {
    /// The offset of the piece at fault from the first byte of the input: the piece that breaks a rule of framing, the one
    /// that completed a message without a reading, or the first one of what is cut.
    pub offset: u64,
    pub fault: Fault,
}
