//! The note of `orb load`.
ghost use Rattle.std.specs.Prelude.{◌≡◌};
ghost use Rattle.orb_command.specs.LoadAnswer as Spec;

use crate::note::Note;
use crate::setup_note::note_setup;
use command_words::LoadWords;
use load_runs::{LoadEnd, load_of_setup};
use orb_base::{Files, Sink};
use setup_files::{Broker, read_broker};
use std::alloc::Global;

/// The note of how a load came out.
fn note_of_end(end: LoadEnd) -> Note
    ensures { result ≡ Spec.note_of_end end }
{
    match end {
        LoadEnd::Done => Note::Nothing,
        LoadEnd::Closed => Note::Limit,
        LoadEnd::WriteFault => Note::WriteFault,
        LoadEnd::NoMemory => Note::Memory,
    }
}

/// Runs the load of the words for a setup over its servants.
#[tactic(auto, using(crate::proofs::LoadNotes::ran_so))]
fn load_broker<O: Sink>(alloc: Global, broker: &Broker, words: &LoadWords, out: &mut O) -> Note
    ensures { Spec.RanLoad words.now broker.now result (O.state out.old) (O.state out.new) }
{
    note_of_end(load_of_setup(alloc, &broker.setup, &broker.servants, &words.plan, out))
}

/// Runs the load of the words for the configuration that they name, or for the built-in setup where they name none. The first fault in
/// the order of work is the answer: of the setup and its servants, and then of the run.
#[tactic(auto, using(crate::proofs::LoadNotes::by_broker, crate::proofs::LoadNotes::by_none))]
pub fn run_load<F: Files, O: Sink>(
    alloc: Global,
    files: &mut F,
    words: &LoadWords,
    out: &mut O,
) -> Note
    ensures { Spec.LoadsBy words.now result (F.state files.old) (F.state files.new) (O.state out.old) (O.state out.new) }
{
    match read_broker(alloc, files, words.config.as_ref()) {
        Ok(broker) => load_broker(alloc, &broker, words, out),
        Err(end) => note_setup(end),
    }
}
