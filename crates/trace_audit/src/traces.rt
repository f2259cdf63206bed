//! One run after another.
ghost use Rattle.std.specs.Prelude.{◌≡◌, ◌++◌, ◌∷◌, [], IfOk, OnOk};
ghost use Rattle.trace_audit.specs.Inputs.{JudgesText};

use crate::judged::Judged;
use crate::run_verdict::judge_run;
use crate::verdict::Verdict;
use orb_base::{List, NoMemory};
use std::alloc::Global;
use trace_runs::{RunRead, read_run};

/// Puts a verdict after the others.
fn put_verdict(verdicts: &mut List<Verdict>, verdict: Verdict) -> Result<(), NoMemory>
    ensures { OnOk result (verdicts.new.items ≡ verdicts.old.items ++ verdict ∷ []) }
{
    match verdicts.push(verdict) {
        Ok(()) => Ok(()),
        Err(_) => Err(NoMemory),
    }
}

/// Reads a text run by run, and judges each; or gives its first line at fault, or where it lacks lines. Work grows with the text;
/// memory with the runs, and with the lines of one.
pub fn judge_text(alloc: Global, text: &[u8]) -> Result<Judged, NoMemory>
    ensures { IfOk result (JudgesText text.now) }
{
    let mut verdicts = List::new(alloc);
    let mut rest = text;
    while !rest.is_empty() {
        let at = text.len() - rest.len();
        match read_run(alloc, rest)? {
            RunRead::Run { run, len } => {
                let verdict = judge_run(alloc, &run)?;
                put_verdict(&mut verdicts, verdict)?;
                let (_, after) = rest.split_at(len);
                rest = after;
            }
            RunRead::Nothing => return Ok(Judged::Runs(verdicts)),
            RunRead::Lacking(n) => return Ok(Judged::Lacking(at + n)),
            RunRead::AtFault(n) => return Ok(Judged::AtFault(at + n)),
        }
    }
    Ok(Judged::Runs(verdicts))
}
