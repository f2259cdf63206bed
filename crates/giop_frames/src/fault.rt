//! Why bytes are no stream of messages.

use thiserror::Error;

/// What is wrong with a piece: own profile. The first four are told by a header alone and are tested in this order,
/// BadPiece, TooLong and TooManyPartials by a whole piece, in this order.
#[derive(Clone, Copy, Debug, PartialEq, Eq, Error)]
pub enum FrameCause {
    /// The header doesn't begin with "GIOP".
    #[error("BadMagic")]
    BadMagic,
    /// The version isn't 1.2.
    #[error("BadVersion")]
    BadVersion,
    /// The kind is above 7.
    #[error("BadType")]
    BadType,
    /// The piece, or the message that it is joined to, is longer than the limit.
    #[error("TooLong")]
    TooLong,
    /// The piece is where no such piece may: a CancelRequest, CloseConnection or MessageError with the fragment bit, a
    /// piece with that bit whose length isn't a multiple of 8, a Fragment below 16 bytes, of an id that isn't open or of
    /// another order, or a first piece of an id that is open.
    #[error("BadPiece")]
    BadPiece,
    /// A seventeenth unfinished message begins.
    #[error("TooManyPartials")]
    TooManyPartials,
}

/// What is wrong with a stream, and where: the first fault.
#[derive(Clone, Copy, Debug, PartialEq, Eq, Error)]
#[error("{offset}: {cause}")]
pub struct FrameFault {
    pub cause: FrameCause,
    /// The offset of the first byte of the piece at fault, from the first byte of the stream.
    pub offset: u64,
}

/// Why a feed was not taken.
#[derive(Clone, Copy, Debug, PartialEq, Eq, Error)]
pub enum FeedFault {
    /// The stream has a fault.
    #[error("{0}")]
    Frame(FrameFault),
    /// Memory was wanting.
    #[error("out of memory")]
    NoMemory,
}
