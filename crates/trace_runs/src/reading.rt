//! Reading the text of a run.
ghost use Rattle.std.specs.Prelude.{◌≡◌, ◌++◌, ◌<◌, IfOk, IfSome, length, position, false};
ghost use Rattle.trace_reading.specs.Faults.{is_feed};
ghost use Rattle.trace_reading.specs.Traces.{IsTrace, run_text};
ghost use Rattle.trace_runs.specs.Begun.{IsBegun, begun_text, HasNoFeed};
ghost use Rattle.trace_runs.specs.Reading.{is_nothing as is_nothing_lem, CutsLine, ReadsRun};

use crate::cut::Cut;
use crate::opening::open_run;
use crate::run::Run;
use crate::run_read::RunRead;
use crate::step::Step;
use crate::summaries::summary_len;
use orb_base::NoMemory;
use std::alloc::Global;

/// Where the first line feed is.
fn feed_of(text: &[u8]) -> Option<usize>
    ensures at { result ≡ position is_feed text.now }
    ensures within { IfSome result (λ n. n < length text.now) }
{
    text.iter().position(|b| *b == b'\n')
}

/// The first line of a text. None where no line feed comes.
#[tactic(auto, using(crate::proofs::FirstFaults::none_found))]
fn first_line(text: &[u8]) -> Option<Cut<'_>>
    ensures { CutsLine text.now result }
{
    let n = feed_of(text)?;
    let (line, after) = text.split_at(n);
    let (_, after) = after.split_at(1);
    Some(Cut { line, after })
}

/// Whether a text is empty.
fn is_nothing(text: &[u8]) -> bool
    ensures { result ≡ is_nothing_lem text.now }
{
    match text {
        [_first, ..] => false,
        [] => true,
    }
}

/// What is read of a text without a line feed.
fn read_no_line(text: &[u8]) -> RunRead
    requires { HasNoFeed text.now }
    ensures { ReadsRun text.now result }
{
    if is_nothing(text) {
        RunRead::Nothing
    } else {
        RunRead::Lacking(0)
    }
}

/// A run that is whole but for its summary, which the text after it may begin with. `text` is that of both.
#[tactic(auto, using(crate::proofs::RunsRead::within, crate::proofs::RunsRead::summed, crate::proofs::RunsRead::unsummed))]
fn finish_run(alloc: Global, run: Run, text: &[u8], after: &[u8]) -> Result<RunRead, NoMemory>
    requires is { IsTrace run }
    requires unsummed { run.summed ≡ false }
    requires parts { text.now ≡ run_text run ++ after.now }
    ensures { IfOk result (ReadsRun text.now) }
{
    let len = text.len() - after.len();
    match summary_len(alloc, run.lines.as_slice(), after)? {
        Some(more) => Ok(RunRead::Run {
            run: Run {
                summed: true,
                ..run
            },
            len: len + more,
        }),
        None => Ok(RunRead::Run { run, len }),
    }
}

/// Reads a run that was begun. `text` is that of what was read and of the rest.
#[tactic(auto, using(crate::proofs::RunsRead::within, crate::proofs::RunsRead::shorter, crate::proofs::RunsRead::ends_is, crate::proofs::RunsRead::ends_unsummed))]
fn read_begun(alloc: Global, run: Run, text: &[u8], rest: &[u8]) -> Result<RunRead, NoMemory>
    requires begun { IsBegun run }
    requires parts { text.now ≡ begun_text run ++ rest.now }
    ensures { IfOk result (ReadsRun text.now) }
{
    let mut run = run;
    let mut rest = rest;
    while let Some(cut) = first_line(rest) {
        match run.take_line(cut.line)? {
            Step::Goes => rest = cut.after,
            Step::Ends => return finish_run(alloc, run, text, cut.after),
            Step::Refused => return Ok(RunRead::AtFault(text.len() - rest.len())),
        }
    }
    Ok(RunRead::Lacking(text.len() - rest.len()))
}

/// Reads the text of one run at the beginning of a text, whatever comes after it. The run that is given back is whole; else the first
/// line at fault is reported, or where lines are lacking. Work grows with the text of the run; memory with its lines.
#[tactic(auto, using(crate::proofs::RunsRead::opens_begun, crate::proofs::RunsRead::opens_parts, crate::proofs::RunsRead::opens_none))]
pub fn read_run(alloc: Global, text: &[u8]) -> Result<RunRead, NoMemory>
    ensures { IfOk result (ReadsRun text.now) }
{
    let Some(cut) = first_line(text) else {
        return Ok(read_no_line(text));
    };
    match open_run(alloc, cut.line) {
        Some(run) => read_begun(alloc, run, text, cut.after),
        None => Ok(RunRead::AtFault(0)),
    }
}
