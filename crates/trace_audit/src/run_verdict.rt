//! The verdict on one run.
ghost use Rattle.std.specs.Prelude.{◌≡◌, ◌<◌, ◌^◌, IfOk};
ghost use Rattle.trace_reading.specs.Traces.{IsTrace};
ghost use Rattle.trace_audit.specs.Verdicts.{IsVerdict};
ghost use Rattle.trace_audit.specs.Counting.{wrong_of};

use crate::verdict::Verdict;
use fit_audit::{are_fit, count_lent, longest_wait};
use lane_audit::count_legal;
use orb_base::NoMemory;
use std::alloc::Global;
use trace_runs::Run;

/// The first wrong entry of so many, where so many come before it, or all are right.
fn first_wrong(before: usize, entries: usize) -> Option<u32>
    requires { before < 2 ^ 32 }
    ensures { result ≡ wrong_of before entries }
{
    if before == entries {
        None
    } else {
        Some(before as u32)
    }
}

/// The verdict on a run. Some passes over its lines; memory grows with them.
pub fn judge_run(alloc: Global, run: &Run) -> Result<Verdict, NoMemory>
    requires { IsTrace run.now }
    ensures { IfOk result (IsVerdict run.now) }
{
    let lines = run.lines.as_slice();
    let before = count_legal(alloc, &run.pool, run.slots, run.per_slot, lines)?;
    let fit = are_fit(alloc, run.slots, run.per_slot, lines)?;
    let (counted, _) = lines.split_at(before);
    let longest = longest_wait(alloc, counted)?;
    Ok(Verdict {
        entries: lines.len() as u32,
        first_wrong: first_wrong(before, lines.len()),
        fit: before == lines.len() && fit,
        lent: count_lent(counted) as u32,
        longest: longest as u32,
    })
}
