//! What is in a line for the call.
ghost use Rattle.std.specs.Prelude.{◌≡◌};
ghost use Rattle.history_lines.specs.Lines as Text;

use lane_machine::{How, LaneCall};
use orb_base::{ConnId, Job, Outcome};
use std::fmt;

/// A connection.
#[derive(Clone, Copy)]
pub struct ConnText {
    pub conn: ConnId,
}

impl fmt::Display for ConnText {
    ghost use Rattle.std.specs.Prelude.{Some};

    ghost output = { λ t. Some (Text.conn_text t.conn) };

    fn fmt<W: fmt::Write>(&self, f: &mut fmt::Formatter<W>) -> fmt::Result {
        write!(f, "c{}.{}", self.conn.slot, self.conn.nth)
    }
}

/// A request that is offered.
#[derive(Clone, Copy)]
struct OfferText<'a> {
    job: &'a Job,
}

impl fmt::Display for OfferText<'_> {
    ghost use Rattle.std.specs.Prelude.{Some};

    ghost output = { λ t. Some (Text.offer_text t.job.now) };

    fn fmt<W: fmt::Write>(&self, f: &mut fmt::Formatter<W>) -> fmt::Result {
        let job = self.job;
        let conn = ConnText { conn: job.conn };
        let level = job.priority.level();
        write!(f, "offer {conn} #{} p{level} l{}", job.id, job.lane)
    }
}

/// What an invocation came to.
fn outcome_word(outcome: &Outcome) -> &'static str
    ensures { result.now ≡ Text.outcome_word outcome.now }
{
    match outcome {
        Outcome::Returned(_) => "returned",
        Outcome::User(_) => "user",
        Outcome::System(_) => "system",
    }
}

/// How the reading of a connection ended.
fn how_word(how: How) -> &'static str
    ensures { result.now ≡ Text.how_word how }
{
    match how {
        How::Quiet => "quiet",
        How::Bad => "bad",
        How::Shut => "shut",
    }
}

/// A call.
#[derive(Clone, Copy)]
pub struct CallText<'a> {
    pub call: &'a LaneCall,
}

impl fmt::Display for CallText<'_> {
    ghost use Rattle.std.specs.Prelude.{Some};

    ghost output = { λ t. Some (Text.call_text t.call.now) };

    fn fmt<W: fmt::Write>(&self, f: &mut fmt::Formatter<W>) -> fmt::Result {
        match self.call {
            LaneCall::Offer(job) => {
                let job = job.get();
                let offer = OfferText { job };
                write!(f, "{offer}")
            }
            LaneCall::Post(notice) => {
                let conn = ConnText { conn: notice.conn };
                write!(f, "post {conn} #{}", notice.id)
            }
            LaneCall::Cancel { conn, id } => {
                let conn = ConnText { conn: *conn };
                write!(f, "cancel {conn} #{id}")
            }
            LaneCall::Take { thread } => write!(f, "take t{thread}"),
            LaneCall::Finish { thread, answer } => {
                let id = answer.job.get().id;
                let word = outcome_word(&answer.outcome);
                write!(f, "finish t{thread} #{id} {word}")
            }
            LaneCall::Collect { conn } => {
                let conn = ConnText { conn: *conn };
                write!(f, "collect {conn}")
            }
            LaneCall::End { conn, how } => {
                let conn = ConnText { conn: *conn };
                let word = how_word(*how);
                write!(f, "end {conn} {word}")
            }
            LaneCall::Leave { slot } => write!(f, "leave s{slot}"),
        }
    }
}
