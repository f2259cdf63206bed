//! Why what came over a connection is refused.

use cdr_core::CdrCause;
use giop_frames::FrameCause;
use thiserror::Error;

/// Why the bytes of a connection, or a message among them, are refused: own profile. It is shown by the name of its
/// cause alone, as `BadMagic`, `Short` or `Cut`.
#[derive(Clone, Copy, Debug, PartialEq, Eq, Error)]
pub enum Fault {
    /// A piece of the stream breaks a rule of framing.
    #[error("{0}")]
    Frame(FrameCause),
    /// A number, a text or a count of a message has no reading.
    #[error("{0}")]
    Message(CdrCause),
    /// The form of a target is above 2.
    #[error("BadTarget")]
    BadTarget,
    /// The status of a reply is above 5.
    #[error("BadStatus")]
    BadStatus,
    /// The message has a reading, and the other side alone sends such messages.
    #[error("WrongWay")]
    WrongWay,
    /// The bytes end within a piece, or before the last fragment of a message.
    #[error("Cut")]
    Cut,
}
