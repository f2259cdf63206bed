//! What the calls of a pool answer.
ghost use Rattle.std.specs.Prelude.{◌≡◌, true};
ghost use Rattle.lane_pool.specs.Replies.{offered_reply, posting_reply, cancelling_reply, taken_reply, collected_reply, is_offered, is_posting, is_cancelling, is_taken, is_collected};

use lane_machine::LaneReply;
use orb_base::{Arc, Item, Job};

/// What became of a request.
#[derive(Clone, Copy, Debug, PartialEq, Eq)]
pub enum Offered {
    /// It was given to this thread, which is lent where its lane is another than the request's.
    Run { thread: u8, lent: bool },
    /// It waits.
    Kept,
    /// It was refused: no thread is free and nothing more may wait.
    Full,
    /// A limit of the run is met; nothing was heard.
    Closing,
}

/// What became of an answer that the reading side gives by itself.
#[derive(Clone, Copy, Debug, PartialEq, Eq)]
pub enum Posting {
    /// It is owed.
    Posted,
    /// A limit of the run is met; nothing was heard.
    Closing,
}

/// What became of a request that its client withdraws.
#[derive(Clone, Copy, Debug, PartialEq, Eq)]
pub enum Cancelling {
    /// It waited and was taken out; it will not run.
    Removed,
    /// No such request waits.
    Nothing,
    /// A limit of the run is met; nothing was heard.
    Closing,
}

/// A worker's task.
#[derive(Drop)]
pub enum Taken {
    /// The request to carry out.
    Job(Arc<Job>),
    /// There will be none any more.
    Ended,
}

/// What is owed to a connection next.
#[derive(Drop)]
pub enum Collected {
    /// A message.
    Item(Item),
    /// Nothing any more, and CloseConnection is to be written.
    Close,
    /// Nothing any more, and MessageError is to be written.
    Error,
    /// Nothing any more.
    Done,
}

/// The answer of a reply to an Offer.
pub fn offer_answer(reply: LaneReply) -> Offered
    requires { is_offered reply ≡ true }
    ensures { offered_reply result ≡ reply }
{
    match reply {
        LaneReply::Run { thread, lent } => Offered::Run { thread, lent },
        LaneReply::Kept => Offered::Kept,
        LaneReply::Full => Offered::Full,
        LaneReply::Closing => Offered::Closing,
        _ => unreachable!(),
    }
}

/// The answer of a reply to a Post.
pub fn post_answer(reply: LaneReply) -> Posting
    requires { is_posting reply ≡ true }
    ensures { posting_reply result ≡ reply }
{
    match reply {
        LaneReply::Posted => Posting::Posted,
        LaneReply::Closing => Posting::Closing,
        _ => unreachable!(),
    }
}

/// The answer of a reply to a Cancel.
pub fn cancel_answer(reply: LaneReply) -> Cancelling
    requires { is_cancelling reply ≡ true }
    ensures { cancelling_reply result ≡ reply }
{
    match reply {
        LaneReply::Removed => Cancelling::Removed,
        LaneReply::Nothing => Cancelling::Nothing,
        LaneReply::Closing => Cancelling::Closing,
        _ => unreachable!(),
    }
}

/// The answer of a reply to a Take.
pub fn take_answer(reply: LaneReply) -> Taken
    requires { is_taken reply ≡ true }
    ensures { taken_reply result ≡ reply }
{
    match reply {
        LaneReply::Given(job) => Taken::Job(job),
        LaneReply::Ended => Taken::Ended,
        _ => unreachable!(),
    }
}

/// The answer of a reply to a Collect.
pub fn collect_answer(reply: LaneReply) -> Collected
    requires { is_collected reply ≡ true }
    ensures { collected_reply result ≡ reply }
{
    match reply {
        LaneReply::Handed(item) => Collected::Item(item),
        LaneReply::Close => Collected::Close,
        LaneReply::Error => Collected::Error,
        LaneReply::Done => Collected::Done,
        _ => unreachable!(),
    }
}
