//! Replies: CORBA 3.0.3, section 15.4.3.

use orb_base::{Context, List, Octets};
use std::marker::Model;

/// A reply: CORBA 3.0.3, section 15.4.3.
#[derive(Debug, Drop)]
pub struct Reply {
    /// The number of the request.
    pub id: u32,
    /// The status, 0 to 5 in a message that is written or was read.
    pub status: u32,
    /// The service contexts.
    pub contexts: List<Context>,
    /// The result or the exception, which begins at a multiple of 8 of the message.
    pub body: Octets,
}

impl Model for Reply {
    ghost use Rattle.giop_messages.specs.Message as Spec;

    ghost Value = { Spec.Reply };

    ghost view = { λ r. record { id = r.id; status = r.status; contexts = r.contexts.items; body = r.body.items } };
}
