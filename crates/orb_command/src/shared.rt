//! The note of `orb call` with several callers.
ghost use Rattle.orb_command.specs.SharedAnswer as Spec;

use crate::call::note_of_end;
use crate::note::Note;
use client_mux::CallerCount;
use client_runs::CallWords;
use mux_runs::MuxRun;
use orb_base::{Files, Sink};
use orb_nets::Net;
use shared_calls::share_run;
use std::alloc::Global;
use std::sync::Wait;
use std::thread::Threads;

/// What a call of several callers came to: its note, the run of the callers, and the link that the net gave where they didn't run.
#[derive(Drop)]
pub struct SharedTold<I, O> {
    pub note: Note,
    pub run: Option<MuxRun<I, O>>,
    pub link: Option<(I, O)>,
}

/// Has so many callers make the call that the words say over one link. The first fault in the order of work is the answer, and of the
/// callers that of the first one that failed.
#[tactic(auto, using(crate::proofs::SharedNotes::shared_so))]
pub fn run_shared<N: Net, F: Files, O: Sink, R: Wait + Threads + Sync>(
    rt: &R,
    alloc: Global,
    net: &mut N,
    files: &mut F,
    words: &CallWords,
    callers: CallerCount,
    out: &mut O,
) -> SharedTold<N::In, N::Out>
    ensures { Spec.SharesSo N.In.state N.Out.state (record { words = words.now; callers = callers }) result (F.state files.old)
        (F.state files.new) (N.state net.old) (N.state net.new) (O.state out.old) (O.state out.new) }
{
    let shared = share_run(rt, alloc, net, files, words, callers, out);
    SharedTold {
        note: note_of_end(shared.end),
        run: shared.run,
        link: shared.link,
    }
}
