//! The note of `orb names`.
ghost use Rattle.std.specs.Prelude.{◌≡◌};
ghost use Rattle.orb_command.specs.NamesAnswer as Spec;

use crate::note::Note;
use names_runs::NamesRun;
use names_server::{NamesEnd, NamesServed, names_at};
use object_lines::Address;
use orb_base::{List, Sink};
use orb_nets::Net;
use std::alloc::Global;
use std::sync::Wait;
use std::thread::Threads;

/// The note of how the name service came out.
fn note_of_end(end: NamesEnd) -> Note
    ensures { result ≡ Spec.note_of_end end }
{
    match end {
        NamesEnd::Done => Note::Nothing,
        NamesEnd::NetFault => Note::NetFault,
        NamesEnd::WriteFault => Note::WriteFault,
        NamesEnd::NoMemory => Note::Memory,
    }
}

/// What the name service came to: its note, its run, and its acceptors.
#[derive(Drop)]
pub struct NamesTold<A, I, O> {
    pub note: Note,
    pub run: Option<NamesRun<I, O>>,
    pub acceptors: List<A>,
}

/// The name service came out so.
fn told_of<A, I, O>(served: NamesServed<A, I, O>) -> NamesTold<A, I, O>
    ensures note { result.note ≡ Spec.note_of_end served.end }
    ensures run { result.run ≡ served.run }
    ensures acceptors { result.acceptors ≡ served.acceptors }
{
    NamesTold {
        note: note_of_end(served.end),
        run: served.run,
        acceptors: served.acceptors,
    }
}

/// Serves names at the address of the words. The first fault in the order of work is the answer: of the net, and then of the output.
#[tactic(auto, using(crate::proofs::NamesNotes::told_so))]
pub fn run_names<N: Net, O: Sink, R: Wait + Threads + Sync>(
    rt: &R,
    alloc: Global,
    net: &mut N,
    at: &Address,
    out: &mut O,
) -> NamesTold<N::Acc, N::In, N::Out>
    ensures { Spec.NamesBy N.Acc.state N.In.state N.Out.state at.now result (N.state net.old) (N.state net.new) (O.state out.old)
        (O.state out.new) }
{
    told_of(names_at(rt, alloc, net, at, out))
}
