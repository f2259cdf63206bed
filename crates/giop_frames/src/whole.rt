//! Whole messages of a stream.

use orb_base::{Octets, Order};
use std::marker::Model;

/// A message of one piece, or one that was joined from fragments.
#[derive(Drop)]
pub struct Whole {
    /// The offset of the first byte of the piece that completed it, from the first byte of the stream.
    pub at: u64,
    /// The byte order of its header and of its first piece.
    pub order: Order,
    /// The kind, 0 to 6 (CORBA 3.0.3, section 15.4.1).
    pub kind: u8,
    /// The header of 12 bytes, with the fragment bit cleared and the joined size, and the joined body.
    pub bytes: Octets,
}

impl Model for Whole {
    ghost use Rattle.giop_frames.specs.Messages.{Message};

    ghost Value = { Message };

    ghost view = { λ w. record { at = w.at; order = w.order; kind = w.kind; bytes = w.bytes.items } };
}
