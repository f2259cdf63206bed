//! Looking for a run.
ghost use Rattle.std.specs.Prelude.{◌≡◌, ◌<◌, ◌==◌, length, IfOk, OnErr, Some, if◌then◌else◌};
ghost use Rattle.picture_runs.specs.Inputs.{Finds, found_of as found_of_lem};

use crate::found::Found;
use orb_base::NoMemory;
use std::alloc::Global;
use trace_runs::{Run, RunRead, read_run};

/// Keeps a run, if it is the one of the number that is wanted.
fn keep(kept: &mut Option<Run>, n: usize, wanted: u32, run: Run)
    ensures { kept.new ≡ (if n == wanted then Some run else kept.old) }
{
    if n == wanted as usize {
        *kept = Some(run);
    }
}

/// What was found in a text that is runs.
fn found_of(kept: Option<Run>) -> Found
    ensures { result ≡ found_of_lem kept }
{
    match kept {
        Some(run) => Found::Run(run),
        None => Found::Absent,
    }
}

/// Reads a text run by run, and looks for the one of a number; or gives its first line at fault, or where it lacks lines. Work grows with
/// the text; memory with the lines of two runs.
#[tactic(auto, using(crate::proofs::Looking::starts, crate::proofs::Looking::all_found, crate::proofs::Looking::has_bytes, trace_audit::proofs::Runs::within, trace_audit::proofs::Runs::shorter))]
pub fn find_run(alloc: Global, text: &[u8], wanted: u32) -> Result<Found, NoMemory>
    ensures finds { IfOk result (Finds text.now wanted) }
    // Memory is asked for bytes alone.
    ensures memory { OnErr result (0 < length text.now) }
{
    let mut kept = None;
    let mut n: usize = 0;
    let mut rest = text;
    while !rest.is_empty() {
        let at = text.len() - rest.len();
        match read_run(alloc, rest)? {
            RunRead::Run { run, len } => {
                keep(&mut kept, n, wanted, run);
                n += 1;
                let (_, after) = rest.split_at(len);
                rest = after;
            }
            RunRead::Nothing => return Ok(found_of(kept)),
            RunRead::Lacking(n) => return Ok(Found::Lacking(at + n)),
            RunRead::AtFault(n) => return Ok(Found::AtFault(at + n)),
        }
    }
    Ok(found_of(kept))
}
