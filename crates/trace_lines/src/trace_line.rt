//! The lines of a trace, as data.

use lane_machine::How;
use orb_base::{ConnId, Due, Priority};

/// A request, as the line says it that offers it.
#[derive(Clone, Copy)]
pub struct OfferedRequest {
    /// The connection that the request came by.
    pub conn: ConnId,
    /// How many calls of the connection came before, from 0.
    pub serial: u32,
    /// The request's id.
    pub id: u32,
    /// When a reply is due.
    pub due: Due,
    /// The mandated priority.
    pub priority: Priority,
    /// The lane that runs it, from 0.
    pub lane: u8,
    /// The length of the whole message in bytes.
    pub size: u32,
}

/// The reply to an offered request.
#[derive(Clone, Copy)]
pub enum OfferReply {
    /// A thread of the request's lane was given it.
    Run(u8),
    /// A thread of another lane was given it.
    Lent(u8),
    /// It waits.
    Kept,
    /// It was refused: no thread is free and nothing more may wait.
    Full,
    /// A limit of the run is met; nothing was heard.
    Closing,
}

/// The reply to an answer of the reading side.
#[derive(Clone, Copy)]
pub enum PostReply {
    /// The answer is owed.
    Posted,
    /// A limit of the run is met; nothing was heard.
    Closing,
}

/// The reply to a withdrawal.
#[derive(Clone, Copy)]
pub enum CancelReply {
    /// The waiting request was taken out.
    Removed,
    /// No such request waits.
    Nothing,
    /// A limit of the run is met; nothing was heard.
    Closing,
}

/// What a writing side was handed, or that nothing comes any more.
#[derive(Clone, Copy)]
pub enum CollectReply {
    /// The reply to the finished request of this number.
    Answered(usize),
    /// The reply to the admitted request of this number, which asks for one at once.
    Early(usize),
    /// The refusal of the request of this number.
    Transient(usize),
    /// The answer of the reading side to the request of this id.
    Posted(u32),
    /// CloseConnection is to be written.
    Close,
    /// MessageError is to be written.
    Error,
    /// Nothing is owed any more.
    Done,
}

/// A call of the lane machine with its reply, as a trace says them. A request is named by its number: how many were offered before
/// it in the run, from 0.
#[derive(Clone, Copy)]
pub enum Action {
    /// A request was offered.
    Offer {
        request: OfferedRequest,
        reply: OfferReply,
    },
    /// The reading side answered by itself the request of this id.
    Post {
        conn: ConnId,
        id: u32,
        reply: PostReply,
    },
    /// The client withdrew the request of this id.
    Cancel {
        conn: ConnId,
        id: u32,
        reply: CancelReply,
    },
    /// A thread asked for its task: the request of this number, or none any more.
    Take {
        thread: u8,
        task: Option<usize>,
    },
    /// A thread has carried out the request of this number, whose answer has a body of so many bytes.
    Finish {
        thread: u8,
        request: usize,
        body_len: usize,
    },
    /// A connection's writing side asked for what is owed next.
    Collect {
        conn: ConnId,
        reply: CollectReply,
    },
    /// A connection's reading side has ended.
    End {
        conn: ConnId,
        how: How,
    },
    /// A slot will read no connection any more.
    Leave {
        slot: u8,
    },
}

/// A line of a trace: who called, and the call with its reply.
#[derive(Clone, Copy)]
pub struct TraceLine {
    /// The number of the seat that called.
    pub caller: u32,
    pub action: Action,
}
