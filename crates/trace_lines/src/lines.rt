//! The line of an entry.
ghost use Rattle.std.specs.Prelude.{◌≡◌};
ghost use Rattle.orb_base.specs.Outcomes.{body_len as body_len_lem};
ghost use Rattle.trace_lines.specs.Lines as Spec;
ghost use Rattle.trace_lines.specs.Numbers.{number_in};

use crate::numbering::Numbering;
use crate::trace_line::{
    Action, CancelReply, CollectReply, OfferReply, OfferedRequest, PostReply, TraceLine,
};
use lane_machine::{LaneCall, LaneReply, Lanes};
use orb_base::{Item, Job, Outcome};
use turn_cell::Entry;

/// A request without its byte order, target, operation and body.
fn request_of(job: &Job) -> OfferedRequest
    ensures { result ≡ Spec.request_of job.now }
{
    OfferedRequest {
        conn: job.conn,
        serial: job.serial,
        id: job.id,
        due: job.due,
        priority: job.priority,
        lane: job.lane,
        size: job.size,
    }
}

/// The length of an outcome's body.
fn body_len(outcome: &Outcome) -> usize
    ensures { result ≡ body_len_lem outcome.now }
{
    match outcome {
        Outcome::Returned(body) => body.as_slice().len(),
        Outcome::User(body) => body.as_slice().len(),
        Outcome::System(_) => 0,
    }
}

/// The reply to an offered request.
fn offer_reply_of(reply: &LaneReply) -> OfferReply
    ensures { result ≡ Spec.offer_reply_of reply.now }
{
    match reply {
        LaneReply::Run { thread, lent } => {
            if *lent {
                OfferReply::Lent(*thread)
            } else {
                OfferReply::Run(*thread)
            }
        }
        LaneReply::Kept => OfferReply::Kept,
        LaneReply::Full => OfferReply::Full,
        _ => OfferReply::Closing,
    }
}

/// The reply to an answer of the reading side.
fn post_reply_of(reply: &LaneReply) -> PostReply
    ensures { result ≡ Spec.post_reply_of reply.now }
{
    match reply {
        LaneReply::Posted => PostReply::Posted,
        _ => PostReply::Closing,
    }
}

/// The reply to a withdrawal.
fn cancel_reply_of(reply: &LaneReply) -> CancelReply
    ensures { result ≡ Spec.cancel_reply_of reply.now }
{
    match reply {
        LaneReply::Removed => CancelReply::Removed,
        LaneReply::Nothing => CancelReply::Nothing,
        _ => CancelReply::Closing,
    }
}

/// The number of the request that a thread was given.
fn task_of(numbering: &Numbering, reply: &LaneReply) -> Option<usize>
    ensures { result ≡ Spec.task_of (number_in numbering.now) reply.now }
{
    match reply {
        LaneReply::Given(job) => Some(numbering.number(job.get())),
        _ => None,
    }
}

/// What a writing side was handed.
fn handed_of(numbering: &Numbering, item: &Item) -> CollectReply
    ensures { result ≡ Spec.handed_of (number_in numbering.now) item.now }
{
    match item {
        Item::Answered(answer) => CollectReply::Answered(numbering.number(answer.job.get())),
        Item::Early(job) => CollectReply::Early(numbering.number(job.get())),
        Item::Transient(job) => CollectReply::Transient(numbering.number(job.get())),
        Item::Noticed(notice) => CollectReply::Posted(notice.id),
    }
}

/// The reply to a writing side.
fn collect_reply_of(numbering: &Numbering, reply: &LaneReply) -> CollectReply
    ensures { result ≡ Spec.collect_reply_of (number_in numbering.now) reply.now }
{
    match reply {
        LaneReply::Handed(item) => handed_of(numbering, item),
        LaneReply::Close => CollectReply::Close,
        LaneReply::Error => CollectReply::Error,
        _ => CollectReply::Done,
    }
}

/// A call with its reply.
fn action_of(numbering: &Numbering, call: &LaneCall, reply: &LaneReply) -> Action
    ensures { result ≡ Spec.action_of (number_in numbering.now) call.now reply.now }
{
    match call {
        LaneCall::Offer(job) => Action::Offer {
            request: request_of(job.get()),
            reply: offer_reply_of(reply),
        },
        LaneCall::Post(notice) => Action::Post {
            conn: notice.conn,
            id: notice.id,
            reply: post_reply_of(reply),
        },
        LaneCall::Cancel { conn, id } => Action::Cancel {
            conn: *conn,
            id: *id,
            reply: cancel_reply_of(reply),
        },
        LaneCall::Take { thread } => Action::Take {
            thread: *thread,
            task: task_of(numbering, reply),
        },
        LaneCall::Finish { thread, answer } => Action::Finish {
            thread: *thread,
            request: numbering.number(answer.job.get()),
            body_len: body_len(&answer.outcome),
        },
        LaneCall::Collect { conn } => Action::Collect {
            conn: *conn,
            reply: collect_reply_of(numbering, reply),
        },
        LaneCall::End { conn, how } => Action::End {
            conn: *conn,
            how: *how,
        },
        LaneCall::Leave { slot } => Action::Leave { slot: *slot },
    }
}

/// The line of an entry, by the numbers of the requests of its run.
pub fn line_of(numbering: &Numbering, entry: &Entry<Lanes>) -> TraceLine
    ensures { result ≡ Spec.line_of (number_in numbering.now) entry.now }
{
    TraceLine {
        caller: entry.caller,
        action: action_of(numbering, &entry.call, &entry.reply),
    }
}
