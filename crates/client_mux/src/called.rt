//! What the link machine keeps of its calls.

use crate::heard_reply::HeardReply;
use giop_messages::Request;
use orb_base::Arc;

/// Where a call is.
#[derive(Debug, Drop)]
pub enum Doing {
    /// No reply came yet.
    Waiting,
    /// Its reply came.
    Answered(Arc<HeardReply>),
    /// It was cancelled before its reply came.
    Dropped,
}

/// A call that was started.
#[derive(Debug, Drop)]
pub struct Called {
    /// The number of its caller's seat.
    pub by: u32,
    pub doing: Doing,
    /// Whether its caller cancelled it, in time or not.
    pub cancelled: bool,
    /// Whether its caller awaits it, or has awaited it.
    pub awaited: bool,
}

/// What is to be sent.
#[derive(Debug, Drop)]
pub enum Sending {
    /// The request of a call, with its id.
    Send { id: u32, request: Arc<Request> },
    /// The cancel of a call.
    Stop(u32),
}
