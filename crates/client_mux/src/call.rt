//! The calls of the link machine and their replies.

use crate::heard_reply::HeardReply;
use crate::why::Why;
use giop_messages::Request;
use orb_base::Arc;

/// A call of the link machine. Callers are named by the numbers of their seats.
#[derive(Debug, Drop)]
pub enum MuxCall {
    /// A caller starts a call by this request, whose id the machine gives.
    Start { by: u32, request: Arc<Request> },
    /// A caller doesn't want the reply of a call any more.
    Cancel { by: u32, id: u32 },
    /// The writer asks what to send.
    Next,
    /// A reply of this id was read.
    Arrived { id: u32, reply: Arc<HeardReply> },
    /// A caller waits for the reply of a call.
    Await { by: u32, id: u32 },
    /// The link is lost.
    Lost { why: Why },
    /// A caller makes no call any more.
    Left { by: u32 },
}

/// A reply of the link machine.
#[derive(Debug, Drop)]
pub enum MuxReply {
    /// The call was started, with this id.
    Id(u32),
    /// The link is lost, for this cause.
    Gone(Why),
    /// The call was cancelled.
    Cancelled,
    /// The call had its reply already.
    TooLate,
    /// The request of a call is to be sent, with this id.
    Send { id: u32, request: Arc<Request> },
    /// The cancel of a call is to be sent.
    Stop(u32),
    /// Nothing is to be sent any more.
    Finish,
    /// The reply is that of a call that waited.
    Matched,
    /// No call of the reply's id waits.
    Stray,
    /// The call's reply.
    Reply(Arc<HeardReply>),
    /// It was noted.
    Noted,
}
