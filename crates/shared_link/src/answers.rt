//! What the calls of a shared link answer.
ghost use Rattle.std.specs.Prelude.{◌≡◌, true};
ghost use Rattle.shared_link.specs.Replies.{started_reply, stopped_reply, waited_reply, upcoming_reply, placed_reply, is_started, is_stopped, is_waited, is_upcoming, is_placed};

use client_mux::{HeardReply, MuxReply, Why};
use giop_messages::Request;
use orb_base::Arc;

/// What became of a call that is started.
#[derive(Clone, Copy, Debug, PartialEq, Eq)]
pub enum Started {
    /// It has this id.
    Id(u32),
    /// The link is lost, for this cause.
    Gone(Why),
}

/// What became of a call that is cancelled.
#[derive(Clone, Copy, Debug, PartialEq, Eq)]
pub enum Stopped {
    /// Its reply won't come.
    Cancelled,
    /// Its reply had come.
    TooLate,
}

/// What came of a call.
#[derive(Debug, Drop)]
pub enum Waited {
    /// Its reply.
    Reply(Arc<HeardReply>),
    /// The link is lost, for this cause.
    Gone(Why),
}

/// What the writer is to send.
#[derive(Debug, Drop)]
pub enum Upcoming {
    /// The request of a call, with its id.
    Send { id: u32, request: Arc<Request> },
    /// The cancel of a call.
    Stop(u32),
    /// Nothing any more.
    Finish,
}

/// What became of a reply that was read.
#[derive(Clone, Copy, Debug, PartialEq, Eq)]
pub enum Placed {
    /// It is that of a call that waited.
    Matched,
    /// No call of its id waits.
    Stray,
}

/// The answer of a reply to a Start.
pub fn start_answer(reply: MuxReply) -> Started
    requires { is_started reply ≡ true }
    ensures { started_reply result ≡ reply }
{
    match reply {
        MuxReply::Id(id) => Started::Id(id),
        MuxReply::Gone(why) => Started::Gone(why),
        _ => unreachable!(),
    }
}

/// The answer of a reply to a Cancel.
pub fn stop_answer(reply: MuxReply) -> Stopped
    requires { is_stopped reply ≡ true }
    ensures { stopped_reply result ≡ reply }
{
    match reply {
        MuxReply::Cancelled => Stopped::Cancelled,
        MuxReply::TooLate => Stopped::TooLate,
        _ => unreachable!(),
    }
}

/// The answer of a reply to an Await.
pub fn wait_answer(reply: MuxReply) -> Waited
    requires { is_waited reply ≡ true }
    ensures { waited_reply result ≡ reply }
{
    match reply {
        MuxReply::Reply(reply) => Waited::Reply(reply),
        MuxReply::Gone(why) => Waited::Gone(why),
        _ => unreachable!(),
    }
}

/// The answer of a reply to a Next.
pub fn next_answer(reply: MuxReply) -> Upcoming
    requires { is_upcoming reply ≡ true }
    ensures { upcoming_reply result ≡ reply }
{
    match reply {
        MuxReply::Send { id, request } => Upcoming::Send { id, request },
        MuxReply::Stop(id) => Upcoming::Stop(id),
        MuxReply::Finish => Upcoming::Finish,
        _ => unreachable!(),
    }
}

/// The answer of a reply to an Arrived.
pub fn place_answer(reply: MuxReply) -> Placed
    requires { is_placed reply ≡ true }
    ensures { placed_reply result ≡ reply }
{
    match reply {
        MuxReply::Matched => Placed::Matched,
        MuxReply::Stray => Placed::Stray,
        _ => unreachable!(),
    }
}
