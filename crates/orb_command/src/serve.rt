//! The note of `orb serve`.
ghost use Rattle.std.specs.Prelude.{◌≡◌, []};
ghost use Rattle.orb_command.specs.ServeAnswer as Spec;

use crate::note::Note;
use crate::setup_note::note_setup;
use command_words::ServeWords;
use orb_base::{Files, List, Sink};
use orb_nets::Net;
use orb_server::Run;
use server_runs::{ServeEnd, Served, serve_at};
use setup_files::{Broker, read_broker};
use std::alloc::Global;
use std::sync::Wait;
use std::thread::Threads;

/// The note of how the server came out.
fn note_of_end(end: ServeEnd) -> Note
    ensures { result ≡ Spec.note_of_end end }
{
    match end {
        ServeEnd::Done => Note::Nothing,
        ServeEnd::NetFault => Note::NetFault,
        ServeEnd::WriteFault => Note::WriteFault,
        ServeEnd::NoMemory => Note::Memory,
    }
}

/// What the server came to: its note, its runs, and its acceptors.
#[derive(Drop)]
pub struct ServeTold<A, I, O> {
    pub note: Note,
    pub runs: List<Run<I, O>>,
    pub acceptors: List<A>,
}

impl<A, I, O> ServeTold<A, I, O> {
    /// Nothing was listened for.
    fn without_runs(alloc: Global, note: Note) -> ServeTold<A, I, O>
        ensures note { result.note ≡ note }
        ensures runs { result.runs.items ≡ [] }
        ensures acceptors { result.acceptors.items ≡ [] }
    {
        ServeTold {
            note,
            runs: List::new(alloc),
            acceptors: List::new(alloc),
        }
    }

    /// The server came out so.
    fn of(served: Served<A, I, O>) -> ServeTold<A, I, O>
        ensures note { result.note ≡ Spec.note_of_end served.end }
        ensures runs { result.runs ≡ served.runs }
        ensures acceptors { result.acceptors ≡ served.acceptors }
    {
        ServeTold {
            note: note_of_end(served.end),
            runs: served.runs,
            acceptors: served.acceptors,
        }
    }
}

/// Serves a setup over its servants.
#[tactic(auto, using(crate::proofs::ServeNotes::ran_so))]
fn serve_broker<N: Net, O: Sink, R: Wait + Threads + Sync>(
    rt: &R,
    alloc: Global,
    net: &mut N,
    broker: &Broker,
    words: &ServeWords,
    out: &mut O,
) -> ServeTold<N::Acc, N::In, N::Out>
    ensures { Spec.RanAt N.Acc.state N.In.state N.Out.state words.now broker.now result (N.state net.old) (N.state net.new)
        (O.state out.old) (O.state out.new) }
{
    ServeTold::of(serve_at(
        rt,
        alloc,
        net,
        &broker.setup,
        &broker.servants,
        &words.at,
        &words.plan,
        out,
    ))
}

/// Serves the configuration that the words name, at their address and by their plan. The first fault in the order of work is the answer:
/// of the setup and its servants, of the net, and then of the output.
#[tactic(auto, using(crate::proofs::ServeNotes::by_none))]
pub fn run_server<N: Net, F: Files, O: Sink, R: Wait + Threads + Sync>(
    rt: &R,
    alloc: Global,
    net: &mut N,
    files: &mut F,
    words: &ServeWords,
    out: &mut O,
) -> ServeTold<N::Acc, N::In, N::Out>
    ensures { Spec.ServesBy N.Acc.state N.In.state N.Out.state words.now result (F.state files.old) (F.state files.new)
        (N.state net.old) (N.state net.new) (O.state out.old) (O.state out.new) }
{
    match read_broker(alloc, files, Some(&words.config)) {
        Ok(broker) => serve_broker(rt, alloc, net, &broker, words, out),
        Err(end) => ServeTold::without_runs(alloc, note_setup(end)),
    }
}
