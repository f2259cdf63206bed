//! What is written of a run.
ghost use Rattle.std.specs.Prelude.{◌≡◌, false, true};
ghost use Rattle.server_runs.specs.RunLines as Spec;
ghost use Rattle.trace_lines.specs.Summaries.{summary_of as numbers, summary_line};

use crate::serve_end::ServeEnd;
use adapter_policies::Setup;
use lane_machine::Lanes;
use orb_base::{NoMemory, Sink};
use std::alloc::Global;
use text_streams::{WriteAll, write_all};
use trace_lines::{summary_of, write_trace};
use turn_cell::Entry;

/// Writes the summary of a history.
fn write_summary<O: Sink>(alloc: Global, out: &mut O, history: &[Entry<Lanes>]) -> ServeEnd
    ensures { Spec.WritesLines result false (summary_line (numbers history.now)) (O.state out.old) (O.state out.new) }
{
    let summary = summary_of(history);
    match format!(in alloc; "{summary}") {
        Ok(line) => match write_all(out, line.as_bytes()) {
            WriteAll::Whole => ServeEnd::Done,
            WriteAll::Failed => ServeEnd::WriteFault,
        },
        Err(_) => ServeEnd::NoMemory,
    }
}

/// Writes the trace of a run, and then its summary.
fn write_traced<O: Sink>(
    alloc: Global,
    out: &mut O,
    setup: &Setup,
    history: &[Entry<Lanes>],
) -> ServeEnd
    ensures { Spec.WritesLines result true (Spec.lines_of true setup.now history.now) (O.state out.old) (O.state out.new) }
{
    match write_trace(
        alloc,
        out,
        setup.pool(),
        setup.slots(),
        setup.per_slot(),
        history,
    ) {
        Ok(WriteAll::Whole) => write_summary(alloc, out, history),
        Ok(WriteAll::Failed) => ServeEnd::WriteFault,
        Err(NoMemory) => ServeEnd::NoMemory,
    }
}

/// Writes the lines of a run: its trace, where it is asked for, and then its summary.
pub fn write_run<O: Sink>(
    alloc: Global,
    out: &mut O,
    setup: &Setup,
    traced: bool,
    history: &[Entry<Lanes>],
) -> ServeEnd
    ensures { Spec.WritesLines result traced (Spec.lines_of traced setup.now history.now) (O.state out.old) (O.state out.new) }
{
    match traced {
        true => write_traced(alloc, out, setup, history),
        false => write_summary(alloc, out, history),
    }
}
