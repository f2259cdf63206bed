//! Answers that no invocation gives.

use crate::conn_id::ConnId;
use crate::order::Order;
use crate::system::Sys;

/// What a notice tells the client.
#[derive(Clone, Copy, Debug, PartialEq, Eq)]
pub enum What {
    /// A band is bound: a Reply with NO_EXCEPTION and no body.
    Bound,
    /// The request is refused: a Reply with this system exception.
    System(Sys),
    /// The request's target is no object key: a Reply with NEEDS_ADDRESSING_MODE.
    Addressing,
    /// A LocateReply: whether the target is an object here.
    Located(bool),
}

/// An answer that the reading side of a connection gives itself, without an invocation.
#[derive(Clone, Copy, Debug, PartialEq, Eq)]
pub struct Notice {
    /// The connection that the request came by.
    pub conn: ConnId,
    /// The byte order of the request, and so of its reply.
    pub order: Order,
    /// The request's id.
    pub id: u32,
    /// What it tells.
    pub what: What,
}
