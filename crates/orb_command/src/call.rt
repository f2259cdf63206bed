//! The note of `orb call`.
ghost use Rattle.std.specs.Prelude.{◌≡◌};
ghost use Rattle.orb_command.specs.CallAnswer as Spec;

use crate::note::{Note, Role};
use client_calls::CallFault;
use client_runs::{CallEnd, CallWords, FileFault, call_run};
use orb_base::{Files, Sink};
use orb_nets::Net;
use std::alloc::Global;

/// The note of a file of IDL that gives no interfaces.
fn note_of_file(fault: FileFault) -> Note
    ensures { result ≡ Spec.note_of_file fault }
{
    match fault {
        FileFault::Refused(fault) => Note::Idl(fault),
        FileFault::Absent => Note::Absent(Role::Idl),
        FileFault::TooLong => Note::TooLong(Role::Idl),
        FileFault::ReadFault => Note::ReadFault,
    }
}

/// The note of a call that gave no results.
fn note_of_fault(fault: CallFault) -> Note
    ensures { result ≡ Spec.note_of_fault fault }
{
    match fault {
        CallFault::System(exception) => Note::System(exception),
        CallFault::User(id) => Note::User(id),
        CallFault::Forward(status) => Note::Forward(status),
        CallFault::Refused { offset, fault } => Note::Peer(offset, fault),
        CallFault::BadBody => Note::PeerBody,
        CallFault::Closed => Note::Closed,
        CallFault::ReadFault => Note::ReadFault,
        CallFault::WriteFault => Note::WriteFault,
        CallFault::Limit => Note::Limit,
        CallFault::NoMemory => Note::Memory,
    }
}

/// The note of how a call came out.
pub fn note_of_end(end: CallEnd) -> Note
    ensures { result ≡ Spec.note_of_end end }
{
    match end {
        CallEnd::File(fault) => note_of_file(fault),
        CallEnd::Local(fault) => Note::Local(fault),
        CallEnd::NetFault => Note::NetFault,
        CallEnd::Called(fault) => note_of_fault(fault),
        CallEnd::WriteFault => Note::WriteFault,
        CallEnd::NoMemory => Note::Memory,
        CallEnd::Done => Note::Nothing,
    }
}

/// What a call came to: its note, and the connection that the net gave.
#[derive(Drop)]
pub struct CallTold<I, O> {
    pub note: Note,
    pub link: Option<(I, O)>,
}

/// Calls as the words say.
#[tactic(auto, using(crate::proofs::CallNotes::called_so))]
pub fn run_call<N: Net, F: Files, O: Sink>(
    alloc: Global,
    net: &mut N,
    files: &mut F,
    words: &CallWords,
    out: &mut O,
) -> CallTold<N::In, N::Out>
    ensures { Spec.CallsSo N.In.state N.Out.state words.now result (F.state files.old) (F.state files.new)
        (N.state net.old) (N.state net.new) (O.state out.old) (O.state out.new) }
{
    let called = call_run(alloc, net, files, words, out);
    CallTold {
        note: note_of_end(called.end),
        link: called.link,
    }
}
