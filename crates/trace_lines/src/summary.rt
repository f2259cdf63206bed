//! What a run did, in numbers.
ghost use Rattle.std.specs.Prelude.{◌≡◌, count_by};
ghost use Rattle.trace_lines.specs.Summaries as Spec;

use lane_machine::{LaneCall, LaneReply, Lanes};
use std::fmt;
use turn_cell::Entry;

/// What a run did, in numbers. Own profile.
#[derive(Clone, Copy, Debug, PartialEq, Eq)]
pub struct Summary {
    /// The requests, posts and cancels that were heard.
    pub calls: usize,
    /// The requests that were given to a thread of their own lane.
    pub run: usize,
    /// The requests that were given to a thread of a lower lane.
    pub lent: usize,
    /// The requests that waited first.
    pub kept: usize,
    /// The requests that were refused, since no thread was free and nothing more might wait.
    pub full: usize,
    /// The requests that were withdrawn before they ran.
    pub removed: usize,
    /// The connections whose reading ended.
    pub connections: usize,
}

/// What became of the requests of a run when they came, as it is told in a line.
#[derive(Clone, Copy)]
pub struct GivenText {
    /// The numbers of the run.
    pub summary: Summary,
}

impl fmt::Display for GivenText {
    ghost use Rattle.std.specs.Prelude.{Some};

    ghost output = { λ t. Some (Spec.given_text t.summary) };

    fn fmt<W: fmt::Write>(&self, f: &mut fmt::Formatter<W>) -> fmt::Result {
        let s = self.summary;
        write!(
            f,
            "run {} lent {} kept {} full {}",
            s.run, s.lent, s.kept, s.full
        )
    }
}

impl fmt::Display for Summary {
    ghost use Rattle.std.specs.Prelude.{Some};

    ghost output = { λ s. Some (Spec.summary_line s) };

    fn fmt<W: fmt::Write>(&self, f: &mut fmt::Formatter<W>) -> fmt::Result {
        let given = GivenText { summary: *self };
        let removed = self.removed;
        writeln!(
            f,
            "calls {} {given} removed {removed} connections {}",
            self.calls, self.connections
        )
    }
}

/// Whether a call is one that a connection's bytes mean.
fn is_heard(call: &LaneCall) -> bool
    ensures { result ≡ Spec.is_heard call.now }
{
    matches!(
        call,
        LaneCall::Offer(_) | LaneCall::Post(_) | LaneCall::Cancel { .. }
    )
}

/// Whether an entry is such a call, and no limit was met by it.
fn counts(entry: &Entry<Lanes>) -> bool
    ensures { result ≡ Spec.counts entry.now }
{
    is_heard(&entry.call) && !matches!(entry.reply, LaneReply::Closing)
}

/// Whether an entry ends a connection's reading.
fn is_end(entry: &Entry<Lanes>) -> bool
    ensures { result ≡ Spec.is_end entry.now }
{
    matches!(entry.call, LaneCall::End { .. })
}

/// Whether an entry gives a request to a thread, which is lent or not.
fn gives(entry: &Entry<Lanes>, is_lent: bool) -> bool
    ensures { result ≡ Spec.gives is_lent entry.now }
{
    match entry.reply {
        LaneReply::Run { thread: _, lent } => lent == is_lent,
        _ => false,
    }
}

/// Whether an entry keeps a request.
fn keeps(entry: &Entry<Lanes>) -> bool
    ensures { result ≡ Spec.keeps entry.now }
{
    matches!(entry.reply, LaneReply::Kept)
}

/// Whether an entry refuses a request.
fn refuses(entry: &Entry<Lanes>) -> bool
    ensures { result ≡ Spec.refuses entry.now }
{
    matches!(entry.reply, LaneReply::Full)
}

/// Whether an entry gives a request to a thread, keeps it or refuses it.
fn offers(entry: &Entry<Lanes>) -> bool
    ensures { result ≡ Spec.offers entry.now }
{
    matches!(
        entry.reply,
        LaneReply::Run { .. } | LaneReply::Kept | LaneReply::Full
    )
}

/// Whether an entry hands a message to a connection's writing side.
fn hands(entry: &Entry<Lanes>) -> bool
    ensures { result ≡ Spec.hands entry.now }
{
    matches!(entry.reply, LaneReply::Handed(_))
}

/// Whether an entry withdraws a request.
fn removes(entry: &Entry<Lanes>) -> bool
    ensures { result ≡ Spec.removes entry.now }
{
    matches!(entry.reply, LaneReply::Removed)
}

/// What is counted of a history.
#[derive(Clone, Copy)]
pub enum Counted {
    /// The requests, posts and cancels that were heard.
    Heard,
    /// The requests that were given to a thread, waited first or were refused.
    Offered,
    /// The requests that were given to a thread of their own lane.
    Own,
    /// The requests that were given to a thread of a lower lane.
    Lent,
    /// The requests that waited first.
    Kept,
    /// The requests that were refused.
    Full,
    /// The requests that were withdrawn.
    Removed,
    /// The messages that were handed to a connection's writing side.
    Handed,
    /// The connections whose reading ended.
    Ended,
}

/// Whether an entry is counted so.
fn is_counted(entry: &Entry<Lanes>, what: Counted) -> bool
    ensures { result ≡ Spec.is_counted what entry.now }
{
    match what {
        Counted::Heard => counts(entry),
        Counted::Offered => offers(entry),
        Counted::Own => gives(entry, false),
        Counted::Lent => gives(entry, true),
        Counted::Kept => keeps(entry),
        Counted::Full => refuses(entry),
        Counted::Removed => removes(entry),
        Counted::Handed => hands(entry),
        Counted::Ended => is_end(entry),
    }
}

/// How many entries of a history are counted so. It takes no memory; work grows with the history.
pub fn count(history: &[Entry<Lanes>], what: Counted) -> usize
    ensures { result ≡ count_by (Spec.is_counted what) history.now }
{
    history.iter().filter(|e| is_counted(e, what)).count()
}

/// The numbers of a history. It takes no memory; work grows with the history.
pub fn summary_of(history: &[Entry<Lanes>]) -> Summary
    ensures { result ≡ Spec.summary_of history.now }
{
    Summary {
        calls: count(history, Counted::Heard),
        run: count(history, Counted::Own),
        lent: count(history, Counted::Lent),
        kept: count(history, Counted::Kept),
        full: count(history, Counted::Full),
        removed: count(history, Counted::Removed),
        connections: count(history, Counted::Ended),
    }
}
