//! The picture of a run of an input of traces.
ghost use Rattle.std.specs.Prelude.{◌≡◌, ◌<◌, map, string_bytes, length, IfOk, OnErr};
ghost use Rattle.trace_reading.specs.Traces.{IsTrace};
ghost use Rattle.trace_audit.specs.Audit.{IsFaultInPart};
ghost use Rattle.picture_runs.specs.Answering as Spec;
ghost use Rattle.picture_runs.specs.Asking.{asked_of};
ghost use Rattle.picture_runs.specs.Drawing.{IsDrawn, asked_text, run_of as run_of_lem};

use crate::asked::Asked;
use crate::finding::find_run;
use crate::found::Found;
use crate::note::Note;
use crate::words::read_words;
use lane_audit::count_legal;
use orb_base::{NoMemory, Sink, Source};
use std::alloc::Global;
use text_streams::{WriteAll, write_all};
use trace_audit::{Input, take_input};
use trace_picture::{picture, table};
use trace_runs::Run;

/// The number of the run that is asked for.
fn run_of(asked: Asked) -> u32
    ensures { result ≡ run_of_lem asked }
{
    match asked {
        Asked::Picture(view) => view.run,
        Asked::Table(run) => run,
    }
}

/// What is asked for of a run, of which so many entries come before the first wrong one.
fn text_of(alloc: Global, run: &Run, legal: usize, asked: Asked) -> Result<String, NoMemory>
    requires { IsTrace run.now }
    ensures { IfOk result (λ text. string_bytes text ≡ asked_text run.now legal asked) }
{
    match asked {
        Asked::Picture(view) => picture(alloc, run, legal, view),
        Asked::Table(_) => table(alloc, run, legal),
    }
}

/// What is asked for of a run, of which the entries are drawn that come before the first wrong one.
#[tactic(auto, using(crate::proofs::Ending::is_drawn))]
fn draw(alloc: Global, run: &Run, asked: Asked) -> Result<String, NoMemory>
    requires { IsTrace run.now }
    ensures { IfOk result (λ text. IsDrawn run.now asked (string_bytes text)) }
{
    let legal = count_legal(
        alloc,
        &run.pool,
        run.slots,
        run.per_slot,
        run.lines.as_slice(),
    )?;
    text_of(alloc, run, legal, asked)
}

/// Writes what is asked for of a run.
#[tactic(auto, using(crate::proofs::Ending::wrote_all, crate::proofs::Ending::wrote_front))]
fn write_drawn<O: Sink>(alloc: Global, run: &Run, asked: Asked, sink: &mut O) -> Note
    requires { IsTrace run.now }
    ensures { Spec.Writes asked run.now result (O.state sink.old) (O.state sink.new) }
{
    match draw(alloc, run, asked) {
        Ok(text) => match write_all(sink, text.as_bytes()) {
            WriteAll::Whole => Note::Nothing,
            WriteAll::Failed => Note::WriteFault,
        },
        Err(NoMemory) => Note::Memory,
    }
}

/// Writes what is asked for of an input that was read to its end.
#[tactic(auto, using(crate::proofs::Ending::shows_run, trace_audit::proofs::Faults::at_any_end))]
fn show_whole<O: Sink>(alloc: Global, text: &[u8], asked: Asked, sink: &mut O) -> Note
    ensures { Spec.Shows asked text.now result (O.state sink.old) (O.state sink.new) }
{
    let wanted = run_of(asked);
    match find_run(alloc, text, wanted) {
        Ok(Found::Run(run)) => write_drawn(alloc, &run, asked, sink),
        Ok(Found::Absent) => Note::Absent(wanted),
        Ok(Found::Lacking(at)) | Ok(Found::AtFault(at)) => Note::Trace(at as u64),
        Err(NoMemory) => Note::Memory,
    }
}

/// Where the first line at fault begins, where a whole line is at fault.
fn whole_line_at_fault(found: &Found) -> Option<u64>
    ensures { result ≡ Spec.whole_line_at_fault found.now }
{
    match found {
        Found::AtFault(at) => Some(*at as u64),
        Found::Run(_) | Found::Absent | Found::Lacking(_) => None,
    }
}

/// Where the first line at fault begins of an input that wasn't read to its end. None where no whole line is at fault.
#[tactic(auto, using(crate::proofs::Ending::found_in_part))]
fn fault_in_part(alloc: Global, text: &[u8]) -> Result<Option<u64>, NoMemory>
    ensures fault { IfOk result (IsFaultInPart text.now) }
    // Memory is asked for bytes alone.
    ensures memory { OnErr result (0 < length text.now) }
{
    let found = find_run(alloc, text, 0)?;
    Ok(whole_line_at_fault(&found))
}

/// What is said of an input that wasn't read to its end: a whole line is at fault, or else this cause.
fn note_of(found: Result<Option<u64>, NoMemory>, cause: Note) -> Note
    ensures { result ≡ Spec.note_of found cause }
{
    match found {
        Ok(Some(at)) => Note::Trace(at),
        Ok(None) => cause,
        Err(NoMemory) => Note::Memory,
    }
}

/// Reads an input of traces to its end, and writes what is asked for of one of its runs. See `find_run`, `picture` and `table` on work and
/// memory; the run is judged first, as an audit does.
#[tactic(auto, using(crate::proofs::Ending::whole_answers, crate::proofs::Ending::unread_answers))]
fn picture_input<I: Source, O: Sink>(
    alloc: Global,
    asked: Asked,
    source: &mut I,
    sink: &mut O,
) -> Note
    ensures { Spec.Answers asked result (I.state source.old) (I.state source.new) (O.state sink.old) (O.state sink.new) }
{
    match take_input(alloc, source) {
        Ok(Input::Whole(bytes)) => show_whole(alloc, bytes.as_slice(), asked, sink),
        Ok(Input::Full(bytes)) => {
            let found = fault_in_part(alloc, bytes.as_slice());
            note_of(found, Note::Limit)
        }
        Ok(Input::Failed(bytes)) => {
            let found = fault_in_part(alloc, bytes.as_slice());
            note_of(found, Note::ReadFault)
        }
        Err(NoMemory) => Note::Memory,
    }
}

/// Reads an input of traces to its end, and writes the picture of one of its runs, or the table of its lanes, as the words ask. Words that
/// ask for nothing touch neither the input nor the output.
#[tactic(auto, using(crate::proofs::Ending::words_unread))]
pub fn picture_main<I: Source, O: Sink>(
    alloc: Global,
    words: &[String],
    source: &mut I,
    sink: &mut O,
) -> Note
    ensures { Spec.AnswersWords (asked_of (map string_bytes words.now)) result (I.state source.old) (I.state source.new)
        (O.state sink.old) (O.state sink.new) }
{
    match read_words(alloc, words) {
        Ok(Some(asked)) => picture_input(alloc, asked, source, sink),
        Ok(None) => Note::Usage,
        Err(NoMemory) => Note::Memory,
    }
}
