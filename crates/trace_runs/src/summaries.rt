//! The summary of a run, by its lines.
ghost use Rattle.std.specs.Prelude.{◌≡◌, IfOk, count_by};
ghost use Rattle.trace_lines.specs.ReadBack.{history_of};
ghost use Rattle.trace_lines.specs.Summaries.{summary_of as summary_lem};
ghost use Rattle.trace_runs.specs.Counting as Spec;
ghost use Rattle.trace_runs.specs.Reading.{IsSummaryAt, begins_so};

use orb_base::NoMemory;
use std::alloc::Global;
use trace_lines::{Action, CancelReply, OfferReply, PostReply, Summary, TraceLine};

/// What is counted of a history.
#[derive(Clone, Copy)]
enum Counted {
    Heard,
    Own,
    Lent,
    Kept,
    Full,
    Removed,
    Ended,
}

/// Whether an offered request is counted so.
fn counts_offer(what: Counted, reply: OfferReply) -> bool
    ensures { result ≡ Spec.counts_offer what reply }
{
    match what {
        Counted::Heard => !matches!(reply, OfferReply::Closing),
        Counted::Own => matches!(reply, OfferReply::Run(_)),
        Counted::Lent => matches!(reply, OfferReply::Lent(_)),
        Counted::Kept => matches!(reply, OfferReply::Kept),
        Counted::Full => matches!(reply, OfferReply::Full),
        Counted::Removed => false,
        Counted::Ended => false,
    }
}

/// Whether an answer of the reading side is.
fn counts_post(what: Counted, reply: PostReply) -> bool
    ensures { result ≡ Spec.counts_post what reply }
{
    match what {
        Counted::Heard => matches!(reply, PostReply::Posted),
        _ => false,
    }
}

/// Whether a withdrawal is.
fn counts_cancel(what: Counted, reply: CancelReply) -> bool
    ensures { result ≡ Spec.counts_cancel what reply }
{
    match what {
        Counted::Heard => !matches!(reply, CancelReply::Closing),
        Counted::Removed => matches!(reply, CancelReply::Removed),
        _ => false,
    }
}

/// Whether a line is.
fn counts_line(what: Counted, line: &TraceLine) -> bool
    ensures { result ≡ Spec.counts_line what line.now }
{
    match line.action {
        Action::Offer { reply, .. } => counts_offer(what, reply),
        Action::Post { reply, .. } => counts_post(what, reply),
        Action::Cancel { reply, .. } => counts_cancel(what, reply),
        Action::End { .. } => matches!(what, Counted::Ended),
        Action::Take { .. } => false,
        Action::Finish { .. } => false,
        Action::Collect { .. } => false,
        Action::Leave { .. } => false,
    }
}

/// How many lines are counted so.
fn count(lines: &[TraceLine], what: Counted) -> usize
    ensures { result ≡ count_by (Spec.counts_line what) lines.now }
{
    lines.iter().filter(|line| counts_line(what, line)).count()
}

/// The numbers of the history that lines say. It takes no memory; work grows with the lines.
fn summary_of(lines: &[TraceLine]) -> Summary
    ensures { result ≡ summary_lem (history_of lines.now) }
{
    Summary {
        calls: count(lines, Counted::Heard),
        run: count(lines, Counted::Own),
        lent: count(lines, Counted::Lent),
        kept: count(lines, Counted::Kept),
        full: count(lines, Counted::Full),
        removed: count(lines, Counted::Removed),
        connections: count(lines, Counted::Ended),
    }
}

/// Whether a text may begin with the line of a summary, by its first byte.
fn may_begin(text: &[u8]) -> bool
    ensures { result ≡ begins_so text.now }
{
    match text {
        [first, ..] => *first == b'c',
        [] => false,
    }
}

/// The length of the summary of these lines, where the text begins with it. Work grows with the lines where the text may begin so.
#[tactic(auto, using(crate::proofs::Summed::no_summary, crate::proofs::Summed::other_summary, crate::proofs::Summed::is_summary))]
pub fn summary_len(
    alloc: Global,
    lines: &[TraceLine],
    text: &[u8],
) -> Result<Option<usize>, NoMemory>
    ensures { IfOk result (λ len. IsSummaryAt lines.now text.now len) }
{
    if !may_begin(text) {
        return Ok(None);
    }
    let summary = summary_of(lines).to_string(alloc)?;
    if text.starts_with(summary.as_bytes()) {
        Ok(Some(summary.len()))
    } else {
        Ok(None)
    }
}
