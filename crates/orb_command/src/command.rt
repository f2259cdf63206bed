//! The top call.
ghost use Rattle.std.specs.Prelude.{◌≡◌, true, [], map, string_bytes, None};
ghost use Rattle.command_words.specs.Words.{command_of};
ghost use Rattle.command_words.specs.declared.meaning.Meaning.TheVariants.{Unread};
ghost use Rattle.orb_command.specs.Moment.{moment};
ghost use Rattle.orb_command.specs.Command.{Answers};
ghost use Rattle.orb_command.specs.Completeness.{GoesWell, is_good};
ghost use Rattle.orb_command.specs.Command as Spec;

use crate::answered::{Answered, Reported};
use crate::audit::audit_note;
use crate::call::{CallTold, run_call};
use crate::dump::dump_note;
use crate::idl::idl_note;
use crate::load::run_load;
use crate::names::{NamesTold, run_names};
use crate::note::Note;
use crate::pipe::{Told, run_pipe};
use crate::refs::{note_at, refs_note};
use crate::serve::{ServeTold, run_server};
use crate::shared::{SharedTold, run_shared};
use command_words::{Meaning, read_words};
use giop_dump::dump_run;
use idl_lines::idl_run;
use object_lines::at_run;
use orb_base::{Files, List, NoMemory, Sink, Source};
use orb_nets::Net;
use reference_lines::refs_run;
use std::alloc::Global;
use std::sync::Wait;
use std::thread::Threads;
use trace_audit::audit_run;

/// The status of a note.
fn status_of(note: &Note) -> u8
    ensures { result ≡ Spec.status_of note.now }
{
    match note {
        Note::Nothing => 0,
        Note::Usage => 1,
        Note::Config(_) | Note::Idl(_) | Note::Script(_) | Note::Check(_) | Note::TooLong(_) => 2,
        Note::ReadFault => 3,
        Note::WriteFault => 4,
        Note::NetFault => 5,
        Note::System(_) | Note::User(_) | Note::Forward(_) => 6,
        Note::Peer(_, _) | Note::PeerBody => 7,
        Note::Input(_, _) | Note::Reference(_) | Note::Trace(_) => 8,
        Note::Closed => 9,
        Note::Absent(_) => 10,
        Note::Local(_) => 11,
        Note::Memory => 12,
        Note::Limit => 13,
        Note::Audit(_, _) => 15,
    }
}

/// The note with its status, where nothing was piped.
fn reported(note: Note) -> Reported
    ensures note { result.note ≡ note }
    ensures status { result.status ≡ Spec.status_of note }
    ensures piped { result.piped ≡ None }
{
    let status = status_of(&note);
    Reported {
        status,
        note,
        piped: None,
    }
}

/// What the pipe came to, with its status.
fn reported_pipe(told: Told) -> Reported
    ensures note { result.note ≡ told.note }
    ensures status { result.status ≡ Spec.status_of told.note }
    ensures piped { result.piped ≡ told.piped }
{
    let status = status_of(&told.note);
    Reported {
        status,
        note: told.note,
        piped: told.piped,
    }
}

/// What the server came to, with its status.
fn answered_serve<A, I, O>(told: ServeTold<A, I, O>) -> Answered<A, I, O>
    ensures told { Spec.serve_told result ≡ told }
    ensures status { result.status ≡ Spec.status_of told.note }
    ensures piped { result.piped ≡ None }
    ensures names { result.names ≡ None }
    ensures link { Spec.Unlinked result }
{
    let status = status_of(&told.note);
    Answered {
        status,
        note: told.note,
        piped: None,
        runs: told.runs,
        names: None,
        acceptors: told.acceptors,
        link: None,
        mux: None,
    }
}

/// What the name service came to, with its status.
fn answered_names<A, I, O>(alloc: Global, told: NamesTold<A, I, O>) -> Answered<A, I, O>
    ensures told { Spec.names_told result ≡ told }
    ensures status { result.status ≡ Spec.status_of told.note }
    ensures piped { result.piped ≡ None }
    ensures runs { result.runs.items ≡ [] }
    ensures link { Spec.Unlinked result }
{
    let status = status_of(&told.note);
    Answered {
        status,
        note: told.note,
        piped: None,
        runs: List::new(alloc),
        names: told.run,
        acceptors: told.acceptors,
        link: None,
        mux: None,
    }
}

/// What a call came to, with its status.
fn answered_call<A, I, O>(alloc: Global, told: CallTold<I, O>) -> Answered<A, I, O>
    ensures told { Spec.call_told result ≡ told }
    ensures status { result.status ≡ Spec.status_of told.note }
    ensures piped { result.piped ≡ None }
    ensures runs { result.runs.items ≡ [] }
    ensures names { result.names ≡ None }
    ensures acceptors { result.acceptors.items ≡ [] }
    ensures mux { result.mux ≡ None }
{
    let status = status_of(&told.note);
    Answered {
        status,
        note: told.note,
        piped: None,
        runs: List::new(alloc),
        names: None,
        acceptors: List::new(alloc),
        link: told.link,
        mux: None,
    }
}

/// What a call of several callers came to, with its status.
fn answered_shared<A, I, O>(alloc: Global, told: SharedTold<I, O>) -> Answered<A, I, O>
    ensures told { Spec.shared_told result ≡ told }
    ensures status { result.status ≡ Spec.status_of told.note }
    ensures piped { result.piped ≡ None }
    ensures runs { result.runs.items ≡ [] }
    ensures names { result.names ≡ None }
    ensures acceptors { result.acceptors.items ≡ [] }
{
    let status = status_of(&told.note);
    Answered {
        status,
        note: told.note,
        piped: None,
        runs: List::new(alloc),
        names: None,
        acceptors: List::new(alloc),
        link: told.link,
        mux: told.run,
    }
}

/// Carries out what words mean, where they were read, and answers the status with its note. Each status has its cause: see `orb_main`.
fn carry_out<N: Net, F: Files, I: Source, O: Sink, R: Wait + Threads + Sync>(
    rt: &R,
    alloc: Global,
    meaning: Meaning,
    net: &mut N,
    files: &mut F,
    input: &mut I,
    out: &mut O,
) -> Answered<N::Acc, N::In, N::Out>
    ensures answers { Answers N.Acc.state N.In.state N.Out.state meaning result
        (moment (F.state files.old) (I.state input.old) (O.state out.old))
        (moment (F.state files.new) (I.state input.new) (O.state out.new)) (N.state net.old) (N.state net.new) }
    ensures usage { meaning ≡ Unread → result.status ≡ 1 }
{
    match meaning {
        Meaning::Pipe(words) => Answered::plain(
            alloc,
            reported_pipe(run_pipe(alloc, files, &words, input, out)),
        ),
        Meaning::Serve(words) => answered_serve(run_server(rt, alloc, net, files, &words, out)),
        Meaning::Names(at) => answered_names(alloc, run_names(rt, alloc, net, &at, out)),
        Meaning::Dump => Answered::plain(alloc, reported(dump_note(dump_run(alloc, input, out)))),
        Meaning::Audit => {
            Answered::plain(alloc, reported(audit_note(audit_run(alloc, input, out))))
        }
        Meaning::Refs => Answered::plain(alloc, reported(refs_note(refs_run(alloc, input, out)))),
        Meaning::RefsAt(at, config) => Answered::plain(
            alloc,
            reported(note_at(at_run(alloc, files, out, config.as_ref(), &at))),
        ),
        Meaning::Idl(name) => Answered::plain(
            alloc,
            reported(idl_note(idl_run(alloc, files, &name, out))),
        ),
        Meaning::Call(words) => answered_call(alloc, run_call(alloc, net, files, &words, out)),
        Meaning::SharedCall { words, callers } => answered_shared(
            alloc,
            run_shared(rt, alloc, net, files, &words, callers, out),
        ),
        Meaning::Load(words) => {
            Answered::plain(alloc, reported(run_load(alloc, files, &words, out)))
        }
        Meaning::Unread => Answered::plain(alloc, reported(Note::Usage)),
    }
}

/// Does all that the program does: reads the words, runs the command over the net, the files, the input and the output, and answers the
/// status with its note. Options come in any order, as `--name value` or `--name=value`. `pipe` carries out the requests of its input while
/// it reads them, by the built-in setup, and with `--config FILE` by the configuration of this name and the interfaces and scripts that it
/// names, in groups of one, or with `--batch N` of up to N calls, and writes what is answered, or with `--history` the text of the run's
/// history, or with `--trace` its trace. `serve --config FILE --listen HOST:PORT` serves the configuration of this name at that address, in
/// one run, or with `--runs N` in up to N, one after another; after each it writes one line of summary, and before that with `--trace` the
/// run's trace. `names --listen HOST:PORT` serves the map of names at that address in one run, and writes its line. `audit` judges each run
/// of the traces that the input is, and writes a line for each. `dump` writes a line for each message of the input, and `refs` writes the
/// parts of the reference that it is. `refs --at HOST:PORT` writes the reference of each object of the built-in setup at that address, and
/// with `--config FILE` of each object of the configuration of this name. `idl --file FILE` lists what the IDL of the file declares. `call
/// --ref TEXT --op NAME` calls the operation of the object that the reference is of, with the arguments of `--args JSON`, and writes its
/// results as one line of JSON; `--priority N` is the caller's priority, `--idl FILE` a file of the interface, and `--interface ID` the
/// interface where the reference doesn't say it; with `--callers N` so many callers make the call over one connection, each in a thread of
/// its own, and a line is written for each, in order, up to the first that failed. `load SEED COUNT` makes COUNT requests to the first
/// object, runs them as `pipe` does, whole or with `--fragment N` in pieces, and writes one line of counts. It returns where each read and
/// write returns, and `serve` where its runs end. The answers to `pipe`, `serve` and `names` have their runs, with the history, and that to
/// `call` its connection, or the run of its callers.
pub fn orb_main<N: Net, F: Files, I: Source, O: Sink, R: Wait + Threads + Sync>(
    rt: &R,
    alloc: Global,
    words: &[String],
    net: &mut N,
    files: &mut F,
    input: &mut I,
    out: &mut O,
) -> Answered<N::Acc, N::In, N::Out>
    // The status is that of the note, and each note has its cause, by what the words mean: 3 only where the count of faults of the
    // input, of the files or of a call's source rose, 4 only where that of the output or of a call's sink did, and 5 only where that of
    // the net did; 6, 7, 9 and 13 of `call` only as the bytes that it took, and their end, say, and 11 only where the words ask for no
    // call, before the net was asked; 8 and 13 of `dump`, 8 of `refs`, and 8, 13 and 15 of `audit`, exactly where the bytes that it took
    // say so, and of `pipe` what its history and its bytes say; 13 of `load` only where its run met a limit; 2 and 10 exactly where the
    // files say so. Each run of `serve`, and that of `names`, is one legal history, whose lines are written.
    ensures answers { Answers N.Acc.state N.In.state N.Out.state (command_of (map string_bytes words.now)) result
        (moment (F.state files.old) (I.state input.old) (O.state out.old))
        (moment (F.state files.new) (I.state input.new) (O.state out.new)) (N.state net.old) (N.state net.new) }
    // Where no file is refused, and no read, write, listen or connect failed, the status is one of those with which the command may end.
    ensures complete { GoesWell N.In.state N.Out.state (command_of (map string_bytes words.now)) (Spec.link_of result)
        (moment (F.state files.old) (I.state input.old) (O.state out.old))
        (moment (F.state files.new) (I.state input.new) (O.state out.new)) (N.state net.old) (N.state net.new)
        → is_good (command_of (map string_bytes words.now)) result.status ≡ true }
    // Status 1 comes only where the words have no reading.
    ensures only { result.status ≡ 1 → command_of (map string_bytes words.now) ≡ Unread }
    // It comes wherever they have none, but for memory: 12 may come in its place where memory is asked for to read the words.
    ensures usage { Spec.UsageStatus (map string_bytes words.now) result.status }
{
    match read_words(alloc, words) {
        Ok(meaning) => carry_out(rt, alloc, meaning, net, files, input, out),
        Err(NoMemory) => Answered::plain(alloc, reported(Note::Memory)),
    }
}
