//! The note of `orb pipe`.
ghost use Rattle.std.specs.Prelude.{◌≡◌, None};
ghost use Rattle.orb_command.specs.Moment.{moment};
ghost use Rattle.orb_command.specs.PipeAnswer as Spec;

use crate::note::Note;
use crate::setup_note::note_setup;
use command_words::PipeWords;
use conn_engine::{ReadEnd, StreamEnd};
use giop_messages::Fault;
use heard_calls::Ending;
use orb_base::{Files, NoMemory, Sink, Source};
use pipe_runs::{Piped, pipe_run};
use setup_files::{Broker, read_broker};
use std::alloc::Global;

/// The note of how the bytes ended the reading.
fn note_of_ending(ending: Ending) -> Note
    ensures { result ≡ Spec.note_of_ending ending }
{
    match ending {
        Ending::Ended => Note::Nothing,
        Ending::Cut(offset) => Note::Input(offset, Fault::Cut),
        Ending::Broken { offset, fault } => Note::Input(offset, fault),
    }
}

/// The note of how the reading came out.
fn note_of_reading(end: ReadEnd) -> Note
    ensures { result ≡ Spec.note_of_reading end }
{
    match end {
        ReadEnd::Ended(ending) => note_of_ending(ending),
        ReadEnd::Spent => Note::Limit,
        ReadEnd::ReadFault => Note::ReadFault,
    }
}

/// The note of a run: a write fault and a limit of the run go before how the reading came out.
fn note_of_run(end: StreamEnd) -> Note
    ensures { result ≡ Spec.note_of_run end }
{
    match end {
        StreamEnd::Ended(end) => note_of_reading(end),
        StreamEnd::Closed => Note::Limit,
        StreamEnd::WriteFault => Note::WriteFault,
    }
}

/// What the pipe came to: its note, and its run, if there was one.
#[derive(Drop)]
pub struct Told {
    pub note: Note,
    pub piped: Option<Piped>,
}

impl Told {
    /// There was no run.
    fn without_run(note: Note) -> Told
        ensures note { result.note ≡ note }
        ensures piped { result.piped ≡ None }
    {
        Told { note, piped: None }
    }
}

/// The note of the pipe, and its run.
fn told_of(ran: Result<Piped, NoMemory>) -> Told
    ensures note { result.note ≡ Spec.note_of ran }
    ensures piped { result.piped ≡ Spec.piped_of ran }
{
    match ran {
        Ok(piped) => Told {
            note: note_of_run(piped.end),
            piped: Some(piped),
        },
        Err(NoMemory) => Told::without_run(Note::Memory),
    }
}

/// Runs the pipe of a setup over its servants, and answers the note and the run.
#[tactic(auto, using(crate::proofs::PipeNotes::ran_so))]
fn run_broker<I: Source, O: Sink>(
    alloc: Global,
    broker: &Broker,
    words: &PipeWords,
    input: &mut I,
    out: &mut O,
) -> Told
    ensures { Spec.Ran words.now broker.now result.note result.piped
        (I.state input.old) (I.state input.new) (O.state out.old) (O.state out.new) }
{
    told_of(pipe_run(
        alloc,
        &broker.setup,
        &broker.servants,
        words.batch,
        words.shown,
        input,
        out,
    ))
}

/// Runs the pipe of the configuration that the words name, or of the built-in setup where they name none, and answers the note and the
/// run. The first fault in the order of work is the answer: of the setup and its servants, and then of the run.
#[tactic(auto, using(crate::proofs::PipeNotes::by_broker, crate::proofs::PipeNotes::by_none))]
pub fn run_pipe<F: Files, I: Source, O: Sink>(
    alloc: Global,
    files: &mut F,
    words: &PipeWords,
    input: &mut I,
    out: &mut O,
) -> Told
    ensures { Spec.PipeAnswers words.now result.note result.piped (moment (F.state files.old) (I.state input.old) (O.state out.old))
        (moment (F.state files.new) (I.state input.new) (O.state out.new)) }
{
    match read_broker(alloc, files, words.config.as_ref()) {
        Ok(broker) => run_broker(alloc, &broker, words, input, out),
        Err(end) => Told::without_run(note_setup(end)),
    }
}
