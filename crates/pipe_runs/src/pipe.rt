//! The pipe: one connection, read from a source and answered to a sink.
ghost use Rattle.std.specs.Prelude.{◌≡◌, ◌≤◌, [], unwrap_or, IfOk, OnErr};
ghost use Rattle.text_streams.specs.Streams.{WritesAll};
ghost use Rattle.pipe_runs.specs.Pipe as Spec;
ghost use Rattle.pipe_runs.specs.declared.shown.Shown.TheVariants.{Bytes};

use crate::batch::Batch;
use crate::piped::Piped;
use crate::shown::Shown;
use adapter_policies::Setup;
use conn_engine::{StreamEnd, run_stream};
use history_lines::history_text;
use lane_driver::{Log, Noted};
use orb_base::{CountingSink, List, NoMemory, Serving, Sink, Source};
use std::alloc::Global;
use text_streams::{WriteAll, write_all};
use trace_lines::write_trace;

/// The history that was kept; the empty one where none was.
fn kept_of(alloc: Global, log: Log) -> List<Noted>
    ensures { result.items ≡ unwrap_or log [] }
{
    match log.into_entries() {
        Some(entries) => entries,
        None => List::new(alloc),
    }
}

/// Writes the lines of a history.
#[tactic(auto, using(crate::proofs::Showing::trace_began))]
fn write_lines<O: Sink>(
    alloc: Global,
    sink: &mut O,
    setup: &Setup,
    shown: Shown,
    history: &[Noted],
) -> Result<WriteAll, NoMemory>
    requires lines { Spec.IsLines shown }
    ensures written { IfOk result (λ w. WritesAll w (Spec.shown_of shown setup.now history.now) (O.state sink.old) (O.state sink.new)) }
    ensures began { OnErr result (Spec.BeganLines shown setup.now history.now (O.state sink.old) (O.state sink.new)) }
{
    match shown {
        Shown::Bytes => unreachable!(),
        Shown::Text => {
            let text = history_text(alloc, history)?;
            Ok(write_all(sink, text.as_bytes()))
        }
        Shown::Trace => write_trace(
            alloc,
            sink,
            setup.pool(),
            setup.slots(),
            setup.per_slot(),
            history,
        ),
    }
}

/// Runs a stream, and writes the bytes that its history says.
fn run_as_bytes<I: Source, O: Sink, S: Serving>(
    alloc: Global,
    setup: &Setup,
    servants: &S,
    batch: u8,
    source: &mut I,
    sink: &mut O,
) -> Result<Piped, NoMemory>
    requires batch { 1 ≤ batch }
    ensures { Spec.Pipes result Bytes setup.now (S.outcome servants.now) batch (I.state source.old) (I.state source.new)
        (O.state sink.old) (O.state sink.new) }
{
    let mut log = Log::kept(alloc);
    let end = run_stream(alloc, setup, servants, batch, &mut log, source, sink)?;
    let history = kept_of(alloc, log);
    Ok(Piped { end, history })
}

/// Runs a stream, and writes the lines of its history in place of the bytes.
fn run_as_lines<I: Source, O: Sink, S: Serving>(
    alloc: Global,
    setup: &Setup,
    servants: &S,
    batch: u8,
    shown: Shown,
    source: &mut I,
    sink: &mut O,
) -> Result<Piped, NoMemory>
    requires batch { 1 ≤ batch }
    requires lines { Spec.IsLines shown }
    ensures { Spec.Pipes result shown setup.now (S.outcome servants.now) batch (I.state source.old) (I.state source.new)
        (O.state sink.old) (O.state sink.new) }
{
    let mut log = Log::kept(alloc);
    let mut nowhere = CountingSink::new();
    let end = run_stream(
        alloc,
        setup,
        servants,
        batch,
        &mut log,
        source,
        &mut nowhere,
    )?;
    let history = kept_of(alloc, log);
    match write_lines(alloc, sink, setup, shown, history.as_slice())? {
        WriteAll::Whole => Ok(Piped { end, history }),
        WriteAll::Failed => Ok(Piped {
            end: StreamEnd::WriteFault,
            history,
        }),
    }
}

/// Runs the pipe of a setup: reads the stream piece by piece, runs it in groups of `batch` calls, and writes the bytes that its history
/// says while it runs, or the lines of its history after it. The history is answered, whatever the end: how the reading came out, at
/// the latest after `conn_engine::MAX_TAKEN` bytes, or that a limit of the run was met, or that a write failed. Where the lines could
/// not be written whole, that goes before how the run came out. It returns where each read and write returns. Memory grows with the machine's
/// limits, the unfinished messages and the history; the work is that of hearing, and for each call that of one step of the machine.
pub fn pipe_run<I: Source, O: Sink, S: Serving>(
    alloc: Global,
    setup: &Setup,
    servants: &S,
    batch: Batch,
    shown: Shown,
    source: &mut I,
    sink: &mut O,
) -> Result<Piped, NoMemory>
    ensures { Spec.Pipes result shown setup.now (S.outcome servants.now) batch (I.state source.old) (I.state source.new)
        (O.state sink.old) (O.state sink.new) }
{
    let calls = batch.calls();
    match shown {
        Shown::Bytes => run_as_bytes(alloc, setup, servants, calls, source, sink),
        Shown::Text | Shown::Trace => {
            run_as_lines(alloc, setup, servants, calls, shown, source, sink)
        }
    }
}
