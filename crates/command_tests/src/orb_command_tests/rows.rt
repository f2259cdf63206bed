//! Rows of the tests: runs of the program over memory, each with what it is to answer and to write.

use crate::text_streams_tests::devices::{
    list, puts_word, puts_words, same, sink, source, spelled, store,
};
use orb_base::{List, MemAcceptor, MemFiles, MemLink, MemSink, MemSource, NoMemory};
use orb_command::*;
use orb_nets::{MemNet, MemSlot};
use orb_server::Run;
use std::alloc::Global;
use std::collections::LinkedList;
use std::sync::Wait;
use std::thread::Threads;

/// What is answered over a net in memory.
type Told = Answered<MemAcceptor, MemSource, MemSink>;

/// What a run leaves besides its status, its note and its output.
#[derive(Clone, Copy)]
pub enum Left<'a> {
    /// It doesn't matter.
    Any,
    /// No run of the pipe.
    NoPipe,
    /// A run of the pipe, with so many entries in its history.
    Entries(usize),
    /// No run of the server.
    NoServer,
    /// So many runs of the server.
    Server(usize),
    /// Runs of the server over one acceptor: for each what its first client was sent, and nothing where it had none.
    Sent(&'a [&'a [u8]]),
    /// A run of the name service, whose first client was sent this.
    Named(&'a [u8]),
    /// No run of the name service.
    Unnamed,
    /// The connection of a call, over which this was sent.
    Called(&'a [u8]),
    /// A run of so many callers over one link.
    Shared(usize),
    /// No connection of a call.
    NoCall,
}

/// One run: its words, what its devices hold and where they fail, and what comes of it. Reads and writes of a device are numbered from 0.
#[derive(Clone, Copy)]
pub struct Row<'a> {
    /// What the run shows.
    pub story: &'static str,
    pub words: &'a [&'a str],
    /// One more word after them.
    pub last: Option<&'a str>,
    /// The names of the files with their bytes.
    pub files: &'a [(&'a str, &'a [u8])],
    /// How many blanks are after the bytes of each file.
    pub blanks: usize,
    /// The reads of files that fail.
    pub failed_files: &'a [u64],
    /// How many clients come to the net's one slot, one after another.
    pub clients: usize,
    /// What each of them sends.
    pub sent: &'a [u8],
    /// What the one peer sends that the net connects to.
    pub answered: &'a [u8],
    /// The calls of the net that fail.
    pub failed_calls: &'a [u64],
    pub input: &'a [u8],
    /// How many times `a` is after the input.
    pub times: usize,
    /// How many bytes the reads of the input give at most.
    pub reads: &'a [usize],
    pub failed_reads: &'a [u64],
    /// How many bytes the writes take at most.
    pub writes: &'a [usize],
    pub failed_writes: &'a [u64],
    pub status: u8,
    /// The note, as `noted` writes it.
    pub note: &'a str,
    pub output: &'a [u8],
    pub left: Left<'a>,
}

/// The pipe of an empty input, whose devices don't fail.
pub const EMPTY: Row<'static> = Row {
    story: "an empty input",
    words: &["pipe"],
    last: None,
    files: &[],
    blanks: 0,
    failed_files: &[],
    clients: 1,
    sent: &[],
    answered: &[],
    failed_calls: &[],
    input: &[],
    times: 0,
    reads: &[],
    failed_reads: &[],
    writes: &[],
    failed_writes: &[],
    status: 0,
    note: "Nothing",
    output: &[],
    left: Left::Any,
};

/// A client that sends these bytes.
fn client(alloc: Global, sent: &[u8]) -> Result<MemLink, NoMemory> {
    let sent = MemSource::new(list(alloc, sent)?, List::new(alloc), List::new(alloc));
    let got = MemSink::new(alloc, List::new(alloc), List::new(alloc));
    Ok(MemLink::new(sent, got))
}

/// A slot at which so many clients come.
fn slot(alloc: Global, clients: usize, sent: &[u8]) -> Result<MemSlot, NoMemory> {
    let mut links = LinkedList::new(alloc);
    for _ in 0..clients {
        links.push_back(client(alloc, sent)?)?;
    }
    Ok(MemSlot {
        links,
        failing: List::new(alloc),
    })
}

/// A net of one slot, at which a row's clients come, and of one peer.
fn net(alloc: Global, row: &Row<'_>) -> Result<MemNet, NoMemory> {
    let mut slots = LinkedList::new(alloc);
    slots.push_back(slot(alloc, row.clients, row.sent)?)?;
    let mut peers = LinkedList::new(alloc);
    peers.push_back(client(alloc, row.answered)?)?;
    let failing = list(alloc, row.failed_calls)?;
    Ok(MemNet::new(alloc, slots, peers, failing))
}

fn input(alloc: Global, row: &Row<'_>) -> Result<MemSource, NoMemory> {
    let bytes = spelled(alloc, row.input, b'a', row.times, b"")?;
    source(alloc, bytes, row.reads, row.failed_reads)
}

/// What a run is given.
#[derive(Drop)]
struct Devices {
    net: MemNet,
    files: MemFiles,
    input: MemSource,
    out: MemSink,
}

fn devices_of(alloc: Global, row: &Row<'_>) -> Result<Devices, NoMemory> {
    Ok(Devices {
        net: net(alloc, row)?,
        files: store(alloc, row.files, row.blanks, row.failed_files)?,
        input: input(alloc, row)?,
        out: sink(alloc, row.writes, row.failed_writes)?,
    })
}

/// The note as it is written in a program; of a configuration's fault its cause and its path, and of a system exception its parts.
fn noted(alloc: Global, note: &Note) -> Option<String> {
    match note {
        Note::Config(fault) => {
            let cause = fault.cause;
            let path = str::from_utf8(fault.path.as_slice()).ok()?;
            format!(in alloc; "Config({cause:?} at {path})").ok()
        }
        Note::System(exception) => {
            let id = str::from_utf8(exception.id.as_slice()).ok()?;
            let minor = exception.minor;
            let completed = exception.completed;
            format!(in alloc; "System({id} minor {minor} completed {completed})").ok()
        }
        _ => format!(in alloc; "{note:?}").ok(),
    }
}

fn is_noted(alloc: Global, note: &Note, want: &str) -> bool {
    match noted(alloc, note) {
        Some(text) => text.as_str() == want,
        None => false,
    }
}

/// Whether this was sent to the first client of a run; nothing where there was none.
fn is_first_sent(run: &Run<MemSource, MemSink>, want: &[u8]) -> bool {
    match run.conns.get(0) {
        Some(log) => same(log.sink.held(), want),
        None => want.is_empty(),
    }
}

fn are_first_sent(runs: &[Run<MemSource, MemSink>], want: &[&[u8]]) -> bool {
    for (nth, run) in runs.iter().enumerate() {
        if nth >= want.len() || !is_first_sent(run, want[nth]) {
            return false;
        }
    }
    runs.len() == want.len()
}

/// Whether there are so many runs over one acceptor, and this was sent to the first client of each.
fn is_sent(told: &Told, want: &[&[u8]]) -> bool {
    told.acceptors.len() == 1 && are_first_sent(told.runs.as_slice(), want)
}

/// Whether there is a run of the name service over four acceptors, and this was sent to its first client.
fn is_named(told: &Told, want: &[u8]) -> bool {
    match &told.names {
        Some(run) => match run.conns.get(0) {
            Some(log) => told.acceptors.len() == 4 && same(log.sink.held(), want),
            None => false,
        },
        None => false,
    }
}

/// Whether this was sent over the connection of a call.
fn is_called(told: &Told, want: &[u8]) -> bool {
    match &told.link {
        Some((_, sink)) => same(sink.held(), want),
        None => false,
    }
}

fn is_left(told: &Told, want: Left<'_>) -> bool {
    match want {
        Left::Any => true,
        Left::NoPipe => told.piped.is_none(),
        Left::Entries(entries) => match &told.piped {
            Some(piped) => piped.history.len() == entries,
            None => false,
        },
        Left::NoServer => told.runs.is_empty(),
        Left::Server(runs) => told.runs.len() == runs,
        Left::Sent(want) => is_sent(told, want),
        Left::Named(want) => is_named(told, want),
        Left::Unnamed => told.names.is_none(),
        Left::Called(want) => is_called(told, want),
        Left::Shared(callers) => match &told.mux {
            Some(run) => told.link.is_none() && run.ends.len() == callers,
            None => false,
        },
        Left::NoCall => told.link.is_none() && told.mux.is_none(),
    }
}

/// Whether this is what a row is to answer and to write.
fn is_told(alloc: Global, row: &Row<'_>, told: &Told, output: &[u8]) -> bool {
    told.status == row.status
        && is_noted(alloc, &told.note, row.note)
        && same(output, row.output)
        && is_left(told, row.left)
}

/// Whether a run of these words over these devices answers and writes what a row says.
fn answers<R: Wait + Threads + Sync>(
    rt: &R,
    alloc: Global,
    row: &Row<'_>,
    words: &[String],
    on: &mut Devices,
) -> bool {
    let told = orb_main(
        rt,
        alloc,
        words,
        &mut on.net,
        &mut on.files,
        &mut on.input,
        &mut on.out,
    );
    is_told(alloc, row, &told, on.out.held())
}

fn runs<R: Wait + Threads + Sync>(rt: &R, alloc: Global, row: &Row<'_>, words: &[String]) -> bool {
    match devices_of(alloc, row) {
        Ok(mut on) => answers(rt, alloc, row, words, &mut on),
        Err(_) => false,
    }
}

/// Whether the last word of a row, where it has one, could be put after the others.
fn puts_last(alloc: Global, words: &mut Vec<String>, last: Option<&str>) -> bool {
    match last {
        Some(word) => puts_word(alloc, words, word),
        None => true,
    }
}

/// Whether a row's run answers and writes what it is to.
pub fn holds<R: Wait + Threads + Sync>(rt: &R, alloc: Global, row: &Row<'_>) -> bool {
    let mut words = Vec::new(alloc);
    puts_words(alloc, &mut words, row.words)
        && puts_last(alloc, &mut words, row.last)
        && runs(rt, alloc, row, words.as_slice())
}

/// The story of the first of these rows, in order, that doesn't hold, or nothing.
pub fn first_wrong<R: Wait + Threads + Sync>(
    rt: &R,
    alloc: Global,
    rows: &[Row<'_>],
) -> &'static str {
    for row in rows {
        if !holds(rt, alloc, row) {
            return row.story;
        }
    }
    ""
}
