//! The text of a line.
ghost use Rattle.std.specs.Prelude.{◌≡◌};
ghost use Rattle.trace_lines.specs.Texts as Text;

use crate::trace_line::{
    Action, CancelReply, CollectReply, OfferReply, OfferedRequest, PostReply, TraceLine,
};
use lane_machine::How;
use orb_base::{ConnId, Due};
use std::fmt;

/// A connection.
#[derive(Clone, Copy)]
struct ConnText {
    conn: ConnId,
}

impl fmt::Display for ConnText {
    ghost use Rattle.std.specs.Prelude.{Some};

    ghost output = { λ t. Some (Text.conn_text t.conn) };

    fn fmt<W: fmt::Write>(&self, f: &mut fmt::Formatter<W>) -> fmt::Result {
        write!(f, "{}.{}", self.conn.slot, self.conn.nth)
    }
}

/// The number of a due reply.
fn due_number(due: Due) -> u8
    ensures { result ≡ Text.due_number due }
{
    match due {
        Due::Nothing => 0,
        Due::Early => 1,
        Due::Late => 2,
    }
}

/// How the reading of a connection ended.
fn how_word(how: How) -> &'static str
    ensures { result.now ≡ Text.how_text how }
{
    match how {
        How::Quiet => "quiet",
        How::Bad => "bad",
        How::Shut => "shut",
    }
}

/// What a request asks for: when its reply is due, its priority, lane and size.
#[derive(Clone, Copy)]
struct DemandText {
    request: OfferedRequest,
}

impl fmt::Display for DemandText {
    ghost use Rattle.std.specs.Prelude.{Some};

    ghost output = { λ t. Some (Text.demand_text t.request) };

    fn fmt<W: fmt::Write>(&self, f: &mut fmt::Formatter<W>) -> fmt::Result {
        let due = due_number(self.request.due);
        let priority = self.request.priority.level();
        write!(
            f,
            "{due} {priority} {} {}",
            self.request.lane, self.request.size
        )
    }
}

impl fmt::Display for OfferedRequest {
    ghost use Rattle.std.specs.Prelude.{Some};

    ghost output = { λ r. Some (Text.request_text r) };

    fn fmt<W: fmt::Write>(&self, f: &mut fmt::Formatter<W>) -> fmt::Result {
        let conn = ConnText { conn: self.conn };
        let demand = DemandText { request: *self };
        write!(f, "{conn} {} {} {demand}", self.serial, self.id)
    }
}

impl fmt::Display for OfferReply {
    ghost use Rattle.std.specs.Prelude.{Some};

    ghost output = { λ r. Some (Text.offer_reply_text r) };

    fn fmt<W: fmt::Write>(&self, f: &mut fmt::Formatter<W>) -> fmt::Result {
        match self {
            OfferReply::Run(thread) => write!(f, "run {thread}"),
            OfferReply::Lent(thread) => write!(f, "lent {thread}"),
            OfferReply::Kept => f.write_str("kept"),
            OfferReply::Full => f.write_str("full"),
            OfferReply::Closing => f.write_str("closing"),
        }
    }
}

impl fmt::Display for PostReply {
    ghost use Rattle.std.specs.Prelude.{Some};

    ghost output = { λ r. Some (Text.post_reply_text r) };

    fn fmt<W: fmt::Write>(&self, f: &mut fmt::Formatter<W>) -> fmt::Result {
        match self {
            PostReply::Posted => f.write_str("posted"),
            PostReply::Closing => f.write_str("closing"),
        }
    }
}

impl fmt::Display for CancelReply {
    ghost use Rattle.std.specs.Prelude.{Some};

    ghost output = { λ r. Some (Text.cancel_reply_text r) };

    fn fmt<W: fmt::Write>(&self, f: &mut fmt::Formatter<W>) -> fmt::Result {
        match self {
            CancelReply::Removed => f.write_str("removed"),
            CancelReply::Nothing => f.write_str("nothing"),
            CancelReply::Closing => f.write_str("closing"),
        }
    }
}

impl fmt::Display for CollectReply {
    ghost use Rattle.std.specs.Prelude.{Some};

    ghost output = { λ r. Some (Text.collect_reply_text r) };

    fn fmt<W: fmt::Write>(&self, f: &mut fmt::Formatter<W>) -> fmt::Result {
        match self {
            CollectReply::Answered(request) => write!(f, "answered {request}"),
            CollectReply::Early(request) => write!(f, "early {request}"),
            CollectReply::Transient(request) => write!(f, "transient {request}"),
            CollectReply::Posted(id) => write!(f, "posted {id}"),
            CollectReply::Close => f.write_str("close"),
            CollectReply::Error => f.write_str("error"),
            CollectReply::Done => f.write_str("done"),
        }
    }
}

/// The request that a thread was given.
#[derive(Clone, Copy)]
struct TaskText {
    task: Option<usize>,
}

impl fmt::Display for TaskText {
    ghost use Rattle.std.specs.Prelude.{Some};

    ghost output = { λ t. Some (Text.task_text t.task) };

    fn fmt<W: fmt::Write>(&self, f: &mut fmt::Formatter<W>) -> fmt::Result {
        match self.task {
            Some(request) => write!(f, "{request}"),
            None => f.write_str("ended"),
        }
    }
}

impl fmt::Display for Action {
    ghost use Rattle.std.specs.Prelude.{Some};

    ghost output = { λ a. Some (Text.action_text a) };

    fn fmt<W: fmt::Write>(&self, f: &mut fmt::Formatter<W>) -> fmt::Result {
        match self {
            Action::Offer { request, reply } => write!(f, "offer {request} {reply}"),
            Action::Post { conn, id, reply } => {
                let conn = ConnText { conn: *conn };
                write!(f, "post {conn} {id} {reply}")
            }
            Action::Cancel { conn, id, reply } => {
                let conn = ConnText { conn: *conn };
                write!(f, "cancel {conn} {id} {reply}")
            }
            Action::Take { thread, task } => {
                let task = TaskText { task: *task };
                write!(f, "take {thread} {task}")
            }
            Action::Finish {
                thread,
                request,
                body_len,
            } => write!(f, "finish {thread} {request} {body_len}"),
            Action::Collect { conn, reply } => {
                let conn = ConnText { conn: *conn };
                write!(f, "collect {conn} {reply}")
            }
            Action::End { conn, how } => {
                let conn = ConnText { conn: *conn };
                let word = how_word(*how);
                write!(f, "end {conn} {word}")
            }
            Action::Leave { slot } => write!(f, "leave {slot}"),
        }
    }
}

impl fmt::Display for TraceLine {
    ghost use Rattle.std.specs.Prelude.{Some};

    ghost output = { λ l. Some (Text.line_text l) };

    fn fmt<W: fmt::Write>(&self, f: &mut fmt::Formatter<W>) -> fmt::Result {
        writeln!(f, "{} {}", self.caller, self.action)
    }
}
