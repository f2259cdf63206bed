//! What the top call answers.
ghost use Rattle.std.specs.Prelude.{◌≡◌, [], None};
ghost use Rattle.orb_command.specs.Command.{report_of, status_of, Unlinked};

use crate::note::Note;
use mux_runs::MuxRun;
use names_runs::NamesRun;
use orb_base::List;
use orb_server::Run;
use pipe_runs::Piped;
use std::alloc::Global;
use std::io;

/// What a command other than `serve`, `names` and `call` ends with: its status, the note that it prints, and what a run of `pipe` came to.
#[derive(Drop)]
pub struct Reported {
    pub status: u8,
    pub note: Note,
    pub piped: Option<Piped>,
}

/// What the program ends with: its status, the note that it prints, what a run of `pipe` came to, what the runs of `serve` and that of
/// `names` left over these acceptors and connections of these sources and sinks, and what `call` left of its connection, or its callers of
/// theirs.
#[derive(Drop)]
pub struct Answered<A, I, O> {
    /// The exit status: 0 done, 1 usage, 2 a file that is too long or refused, 3 a read fault, 4 a write fault, 5 a fault of the net, 6 an
    /// exception of the remote object, or it is elsewhere, 7 the peer broke a rule, 8 an input that is refused, 9 the peer ended the
    /// connection, 10 a file that isn't there, 11 the words ask for no call, 12 out of memory, 13 a limit.
    pub status: u8,
    pub note: Note,
    /// The run of `pipe`, with its history: exactly where the pipe had servants, and memory was not wanting.
    pub piped: Option<Piped>,
    /// The runs of `serve` that ended, in order, each with its history. There is none where the net gave no acceptors, or memory ran out
    /// for the first one.
    pub runs: List<Run<I, O>>,
    /// The run of `names`, with its history: exactly where the net gave acceptors, and memory did not run out for the run.
    pub names: Option<NamesRun<I, O>>,
    /// The acceptors that the net gave to `serve` or `names`, as they are at the end.
    pub acceptors: List<A>,
    /// The source and the sink of the connection that the net gave to `call`, as they are at the end; of several callers they are in `mux`,
    /// where those ran.
    pub link: Option<(I, O)>,
    /// The run of several callers of `call`, with its history, and with the source and the sink of their link: exactly where the net gave
    /// one, and memory did not run out before the callers ran.
    pub mux: Option<MuxRun<I, O>>,
}

impl<A, I, O> Answered<A, I, O> {
    /// What a command other than `serve`, `names` and `call` ends with.
    pub fn plain(alloc: Global, reported: Reported) -> Answered<A, I, O>
        ensures reported { report_of result ≡ reported }
        ensures runs { result.runs.items ≡ [] }
        ensures names { result.names ≡ None }
        ensures acceptors { result.acceptors.items ≡ [] }
        ensures link { Unlinked result }
    {
        Answered {
            status: reported.status,
            note: reported.note,
            piped: reported.piped,
            runs: List::new(alloc),
            names: None,
            acceptors: List::new(alloc),
            link: None,
            mux: None,
        }
    }
}

/// What the program ends with where the words of its command line can't be had: out of memory, or one of them isn't UTF-8.
pub fn without_words<A, I, O>(alloc: Global, fault: &io::Error) -> Answered<A, I, O>
    ensures status { result.status ≡ status_of result.note }
    ensures runs { result.runs.items ≡ [] }
    ensures names { result.names ≡ None }
    ensures acceptors { result.acceptors.items ≡ [] }
    ensures link { Unlinked result }
{
    let (status, note) = match fault.kind() {
        io::ErrorKind::OutOfMemory => (12, Note::Memory),
        _ => (1, Note::Usage),
    };
    Answered::plain(
        alloc,
        Reported {
            status,
            note,
            piped: None,
        },
    )
}
