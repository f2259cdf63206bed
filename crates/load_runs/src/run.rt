//! The run of a load.
ghost use Rattle.std.specs.Prelude.{◌≡◌, IfOk};
ghost use Rattle.conn_engine.specs.declared.stream_end.StreamEnd.TheVariants.{Closed};
ghost use Rattle.load_runs.specs.Lines as Lines;
ghost use Rattle.load_runs.specs.Loading as Spec;
ghost use Rattle.load_runs.specs.Making.{IsMade};

use crate::input::load_input;
use crate::load_end::LoadEnd;
use crate::load_line::LoadLine;
use crate::load_plan::LoadPlan;
use adapter_policies::Setup;
use conn_engine::StreamEnd;
use lane_machine::Lanes;
use orb_base::{CountingSink, List, NoMemory, Octets, Serving, Sink, SteadySource};
use pipe_runs::{Shown, pipe_run};
use std::alloc::Global;
use text_streams::{WriteAll, write_all};
use trace_lines::{Counted, count, summary_of};
use turn_cell::Entry;

/// A run of a load: whether a limit of the run was met, and its line.
#[derive(Clone, Copy)]
struct Ran {
    closed: bool,
    line: LoadLine,
}

/// Whether a limit of the run was met.
fn is_closed(end: StreamEnd) -> bool
    ensures { result ≡ Spec.is_closed end }
{
    matches!(end, StreamEnd::Closed)
}

/// The numbers of a history, of an input of so many bytes and an output of so many.
fn line_of(history: &[Entry<Lanes>], taken: usize, written: u64) -> LoadLine
    ensures { result ≡ Lines.line_with taken written history.now }
{
    LoadLine {
        requests: count(history, Counted::Offered),
        given: summary_of(history),
        replies: count(history, Counted::Handed),
        taken,
        written,
    }
}

/// Runs the pipe over an input that is the load of a plan.
fn run_input<S: Serving>(
    alloc: Global,
    setup: &Setup,
    servants: &S,
    plan: &LoadPlan,
    input: Octets,
) -> Result<Ran, NoMemory>
    requires { IsMade setup.now plan.now input.items }
    ensures { IfOk result (λ ran. Spec.RunsLoad setup.now (S.outcome servants.now) plan.now input.items ran.closed ran.line) }
{
    let taken = input.len();
    let mut source = SteadySource::new(input, List::new(alloc));
    let mut sink = CountingSink::new();
    let piped = pipe_run(
        alloc,
        setup,
        servants,
        plan.batch,
        Shown::Bytes,
        &mut source,
        &mut sink,
    )?;
    let closed = is_closed(piped.end);
    let line = line_of(piped.history.as_slice(), taken, sink.bytes());
    Ok(Ran { closed, line })
}

/// Makes the load of a plan, and runs the pipe over it.
#[tactic(auto, using(crate::proofs::Runs::made_runs))]
fn run_load<S: Serving>(
    alloc: Global,
    setup: &Setup,
    servants: &S,
    plan: &LoadPlan,
) -> Result<Ran, NoMemory>
    ensures { IfOk result (λ ran. Spec.RunsMade setup.now (S.outcome servants.now) plan.now ran.closed ran.line) }
{
    let input = load_input(alloc, setup, plan)?;
    run_input(alloc, setup, servants, plan, input)
}

/// Writes the line of a run.
fn write_line<O: Sink>(alloc: Global, ran: Ran, out: &mut O) -> LoadEnd
    ensures { Spec.WritesLine result ran.closed (Lines.line_text ran.line) (O.state out.old) (O.state out.new) }
{
    let line = ran.line;
    match format!(in alloc; "{line}") {
        Ok(text) => match write_all(out, text.as_bytes()) {
            WriteAll::Failed => LoadEnd::WriteFault,
            WriteAll::Whole if ran.closed => LoadEnd::Closed,
            WriteAll::Whole => LoadEnd::Done,
        },
        Err(_) => LoadEnd::NoMemory,
    }
}

/// Makes the load of a plan for a setup, runs the pipe over it, from memory and into a sink that counts its bytes, and writes one line of
/// numbers: over the history, of the whole input, and of all that was to be written to the connection. Where a limit of the run was met
/// the line is written all the same. A fault of a read or of the input can't come; where the line can't be written, that goes before the
/// limit. Memory grows with the input, the history and what the pipe needs; the work is that of the pipe.
#[tactic(auto, using(crate::proofs::Runs::loads_by))]
pub fn load_of_setup<O: Sink, S: Serving>(
    alloc: Global,
    setup: &Setup,
    servants: &S,
    plan: &LoadPlan,
    out: &mut O,
) -> LoadEnd
    ensures { Spec.Loads result setup.now (S.outcome servants.now) plan.now (O.state out.old) (O.state out.new) }
{
    match run_load(alloc, setup, servants, plan) {
        Ok(ran) => write_line(alloc, ran, out),
        Err(NoMemory) => LoadEnd::NoMemory,
    }
}
