//! Replies that a client awaits.

use orb_base::{Octets, Order};
use std::marker::Model;

/// What the reply to a request of the client carries.
#[derive(Debug, Drop)]
pub struct Answer {
    /// The byte order of the reply.
    pub order: Order,
    /// The status, 0 to 5.
    pub status: u32,
    /// The result or the exception, which begins at a multiple of 8 of the reply.
    pub body: Octets,
}

impl Model for Answer {
    ghost use Rattle.client_lines.specs.Answer as Spec;

    ghost Value = { Spec.Answer };

    ghost view = { λ a. record { order = a.order; status = a.status; body = a.body.items } };
}
