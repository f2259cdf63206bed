//! What is counted of the lines of a run.
ghost use Rattle.std.specs.Prelude.{◌≡◌, ◌≤◌, ◌++◌, length, IfOk, OnOk};
ghost use Rattle.fit_audit.specs.Counts as Spec;

use orb_base::NoMemory;
use std::alloc::Global;
use trace_lines::{Action, OfferReply, TraceLine};

/// Whether a line offers a request to which a thread of another lane was lent.
fn is_lent(line: &TraceLine) -> bool
    ensures { result ≡ Spec.is_lent line.now }
{
    matches!(
        line.action,
        Action::Offer {
            reply: OfferReply::Lent(_),
            ..
        }
    )
}

/// How many of these lines offer a request to which a thread of another lane was lent. One pass.
pub fn count_lent(lines: &[TraceLine]) -> usize
    ensures count { result ≡ Spec.lent lines.now }
    ensures within { result ≤ length lines.now }
{
    lines.iter().filter(|line| is_lent(line)).count()
}

/// The number of an Offer's line, where the request was kept.
fn kept_by(n: usize, reply: OfferReply) -> Option<usize>
    ensures { result ≡ Spec.kept_by n reply }
{
    match reply {
        OfferReply::Kept => Some(n),
        _ => None,
    }
}

/// Puts the number of a line after those of the Offers before it, where it is one.
fn keep_line(kept: &mut Vec<Option<usize>>, n: usize, line: &TraceLine) -> Result<(), NoMemory>
    ensures { OnOk result (kept.new.items ≡ kept.old.items ++ Spec.kept_in n line.now.action) }
{
    if let Action::Offer { reply, .. } = line.action {
        kept.push(kept_by(n, reply))?;
    }
    Ok(())
}

/// Of each Offer among lines: the number of its line, where the request was kept.
fn kept_lines(alloc: Global, lines: &[TraceLine]) -> Result<Vec<Option<usize>>, NoMemory>
    ensures { IfOk result (λ kept. kept.items ≡ Spec.kept_lines 0 lines.now) }
{
    let mut kept = Vec::new(alloc);
    for (n, line) in lines.iter().enumerate() {
        keep_line(&mut kept, n, line)?;
    }
    Ok(kept)
}

/// How long the request waited that a line says to be taken, in lines; 0 where it says none.
fn wait_of(kept: &[Option<usize>], n: usize, line: &TraceLine) -> usize
    ensures { result ≡ Spec.wait_of kept.now n line.now.action }
{
    let Action::Take { task: Some(k), .. } = line.action else {
        return 0;
    };
    match kept.get(k) {
        Some(Some(place)) => n.saturating_sub(*place),
        _ => 0,
    }
}

/// The longest wait of a request that was kept, counted in lines from its Offer to its Take; 0 where none was taken. Two passes;
/// memory grows with the Offers.
pub fn longest_wait(alloc: Global, lines: &[TraceLine]) -> Result<usize, NoMemory>
    ensures wait { IfOk result (λ n. n ≡ Spec.longest lines.now) }
    ensures within { IfOk result (λ n. n ≤ length lines.now) }
{
    let kept = kept_lines(alloc, lines)?;
    let mut longest: usize = 0;
    for (n, line) in lines.iter().enumerate() {
        longest = longest.max(wait_of(&kept, n, line));
    }
    Ok(longest)
}
