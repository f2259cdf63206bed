//! Sources, sinks, files and links in memory, which follow their scripts.
use super::{job, list};
use orb_base::*;
use std::alloc::Global;
use std::collections::LinkedList;
use std::test::*;

/// What a read of at most three bytes answers, and what the bytes then begin with.
type Read = (Got, &'static [u8]);

/// A read through the bound.
fn reads<I: Source>(source: &mut I, row: &Read) -> bool {
    let mut into = [0u8; 3];
    source.read(&mut into) == row.0 && into.starts_with(row.1)
}

fn reads_each<I: Source>(source: &mut I, rows: &[Read]) -> bool {
    for row in rows {
        if !reads(source, row) {
            return false;
        }
    }
    true
}

/// Reads of abcde that are cut at 1, 0 and 9 bytes, of which that of number 2 fails.
const CUT_READS: &[Read] = &[
    (Got::Bytes(1), b"a"),
    (Got::Bytes(1), b"b"),
    (Got::Failed, b""),
    (Got::Bytes(3), b"cde"),
    (Got::End, b""),
];

/// Reads of ab that are not cut.
const STEADY_READS: &[Read] = &[(Got::Bytes(2), b"ab"), (Got::End, b"")];

fn cut_source_reads(alloc: Global) -> bool {
    let cuts = list(alloc, &[1, 0, 9]);
    let failing = list(alloc, &[2]);
    let mut source = MemSource::new(list(alloc, b"abcde"), cuts, failing);
    reads_each(&mut source, CUT_READS)
}

fn steady_source_reads(alloc: Global) -> bool {
    let mut source = SteadySource::new(list(alloc, b"ab"), List::new(alloc));
    reads_each(&mut source, STEADY_READS)
}

#[test]
fn sources_follow_their_scripts(rt: HostRuntime) {
    assert!(rt; cut_source_reads(rt.alloc()) && steady_source_reads(rt.alloc()));
}

/// What a write of abc through the bound answers.
fn writes_each<O: Sink>(sink: &mut O, rows: &[Put]) -> bool {
    for put in rows {
        if sink.write(b"abc") != *put {
            return false;
        }
    }
    sink.close();
    true
}

/// Writes of which the first is cut at 2 bytes, and that of number 1 fails.
const CUT_WRITES: &[Put] = &[Put::Took(2), Put::Failed, Put::Took(3)];

fn cut_sink_writes(alloc: Global) -> bool {
    let cuts = list(alloc, &[2]);
    let mut sink = MemSink::new(alloc, cuts, list(alloc, &[1]));
    writes_each(&mut sink, CUT_WRITES) && sink.held() == b"ababc".as_slice()
}

fn counting_sink_writes() -> bool {
    let mut sink = CountingSink::new();
    writes_each(&mut sink, &[Put::Took(3), Put::Took(3)]) && sink.bytes() == 6
}

#[test]
fn sinks_follow_their_scripts(rt: HostRuntime) {
    assert!(rt; cut_sink_writes(rt.alloc()) && counting_sink_writes());
}

/// The names of files, and their contents.
const FILES: &[(&[u8], &[u8])] = &[(b"a.idl", b"abc"), (b"b.idl", b"xyz"), (b"a.idl", b"two")];

fn puts_file(alloc: Global, files: &mut List<MemFile>, row: &(&[u8], &[u8])) -> bool {
    let bytes = list(alloc, row.1);
    match Text::new(alloc, row.0) {
        Ok(name) => files.push(MemFile { name, bytes }).is_ok(),
        Err(_) => false,
    }
}

fn puts_files(alloc: Global, files: &mut List<MemFile>) -> bool {
    for row in FILES {
        if !puts_file(alloc, files, row) {
            return false;
        }
    }
    true
}

fn files(alloc: Global) -> Option<List<MemFile>> {
    let mut files = List::new(alloc);
    if !puts_files(alloc, &mut files) {
        return None;
    }
    Some(files)
}

/// A read of a file: its name, the limit, the answer and what the list then holds.
type FileRead = (&'static [u8], usize, Filed, &'static [u8]);

/// Reads that do not fail.
const WHOLE: &[FileRead] = &[
    (b"a.idl", 3, Filed::Whole, b"abc"),
    (b"b.idl", 3, Filed::Whole, b"xyz"),
    (b"c.idl", 3, Filed::Absent, b""),
    (b"a.idl", 2, Filed::TooLong, b""),
];

/// The same reads, of which that of number 1 fails.
const FAILED: &[FileRead] = &[
    (b"a.idl", 3, Filed::Whole, b"abc"),
    (b"b.idl", 3, Filed::Failed, b""),
    (b"c.idl", 3, Filed::Absent, b""),
    (b"a.idl", 2, Filed::TooLong, b""),
];

fn holds(list: &Octets, bytes: &[u8]) -> bool {
    list.as_slice() == bytes
}

/// Whether a read through the bound answers this, and leaves this in a list that held something.
fn reads_file<F: Files>(files: &mut F, name: &Text, row: &FileRead, into: &mut Octets) -> bool {
    into.len() == 3 && files.read(name, row.1, into) == row.2 && holds(into, row.3)
}

fn reads_row<F: Files>(alloc: Global, files: &mut F, row: &FileRead) -> bool {
    match Text::new(alloc, row.0) {
        Ok(name) => reads_file(files, &name, row, &mut list(alloc, b"old")),
        Err(_) => false,
    }
}

fn reads_files<F: Files>(alloc: Global, files: &mut F, rows: &[FileRead]) -> bool {
    for row in rows {
        if !reads_row(alloc, files, row) {
            return false;
        }
    }
    true
}

fn steady_files_are_read(alloc: Global) -> bool {
    match files(alloc) {
        Some(files) => reads_files(alloc, &mut SteadyFiles::new(files), WHOLE),
        None => false,
    }
}

fn failing_files_are_read(alloc: Global) -> bool {
    match files(alloc) {
        Some(files) => { reads_files(alloc, &mut MemFiles::new(files, list(alloc, &[1])), FAILED) }
        None => false,
    }
}

#[test]
fn files_are_read_whole(rt: HostRuntime) {
    assert!(rt; steady_files_are_read(rt.alloc()) && failing_files_are_read(rt.alloc()));
}

fn link(alloc: Global, bytes: &[u8]) -> MemLink {
    MemLink::new(
        MemSource::new(list(alloc, bytes), List::new(alloc), List::new(alloc)),
        MemSink::new(alloc, List::new(alloc), List::new(alloc)),
    )
}

fn puts_link(alloc: Global, links: &mut LinkedList<MemLink>, bytes: &[u8]) -> bool {
    links.push_back(link(alloc, bytes)).is_ok()
}

fn puts_links(alloc: Global, links: &mut LinkedList<MemLink>) -> bool {
    puts_link(alloc, links, b"abc")
        && puts_link(alloc, links, b"def")
        && puts_link(alloc, links, b"ghi")
}

fn links(alloc: Global) -> Option<LinkedList<MemLink>> {
    let mut links = LinkedList::new(alloc);
    if !puts_links(alloc, &mut links) {
        return None;
    }
    Some(links)
}

/// What an accept gave: a link of which three bytes are read, no link, or a fault.
enum Gave {
    Link(&'static [u8; 3]),
    Done,
    Failed,
}

/// Whether a link is given, of which these bytes are read.
fn gives<I: Source, O: Sink>(source: &mut I, sink: &mut O, gave: &Gave) -> bool {
    let mut into = [0u8; 3];
    source.read(&mut into);
    sink.close();
    match gave {
        Gave::Link(bytes) => into == **bytes,
        _ => false,
    }
}

/// An accept through the bound.
fn accepts<A: Acceptor>(acceptor: &mut A, gave: &Gave) -> bool {
    match acceptor.accept() {
        Accepted::Link(mut source, mut sink) => gives(&mut source, &mut sink, gave),
        Accepted::Done => matches!(gave, Gave::Done),
        Accepted::Failed => matches!(gave, Gave::Failed),
    }
}

fn accepts_each<A: Acceptor>(acceptor: &mut A, rows: &[Gave]) -> bool {
    for gave in rows {
        if !accepts(acceptor, gave) {
            return false;
        }
    }
    true
}

/// Accepts of at most two links, of which that of number 1 fails.
const FAILING_ACCEPTS: &[Gave] = &[
    Gave::Link(b"abc"),
    Gave::Failed,
    Gave::Link(b"def"),
    Gave::Done,
];

/// Accepts of at most nine links.
const STEADY_ACCEPTS: &[Gave] = &[
    Gave::Link(b"abc"),
    Gave::Link(b"def"),
    Gave::Link(b"ghi"),
    Gave::Done,
];

fn failing_acceptor_gives(alloc: Global) -> bool {
    match links(alloc) {
        Some(links) => {
            let mut acceptor = MemAcceptor::new(links, 2, list(alloc, &[1]));
            accepts_each(&mut acceptor, FAILING_ACCEPTS)
        }
        None => false,
    }
}

fn steady_acceptor_gives(alloc: Global) -> bool {
    match links(alloc) {
        Some(links) => accepts_each(&mut SteadyAcceptor::new(links, 9), STEADY_ACCEPTS),
        None => false,
    }
}

#[test]
fn links_are_handed_out_in_order(rt: HostRuntime) {
    assert!(rt; failing_acceptor_gives(rt.alloc()) && steady_acceptor_gives(rt.alloc()));
}

/// A gate through the bound.
struct Open;

impl Gate for Open {
    fn enter(&self, _job: &Job) {}

    fn leave(&self, _job: &Job) {}
}

fn pass<G: Gate>(gate: &G, job: &Job) {
    gate.enter(job);
    gate.leave(job);
}

fn passes(alloc: Global, gate: &Open) -> bool {
    match job(alloc, 3) {
        Some(job) => {
            pass(gate, &job);
            job.id == 3
        }
        None => false,
    }
}

#[test]
fn an_open_gate_lets_a_job_pass(rt: HostRuntime) {
    assert!(rt; passes(rt.alloc(), &Open));
}

/// Numbers, and the models that have them.
const MODELS: &[(u32, Option<PriorityModel>)] = &[
    (0, Some(PriorityModel::ClientPropagated)),
    (1, Some(PriorityModel::ServerDeclared)),
    (2, None),
];

fn has_number(row: &(u32, Option<PriorityModel>)) -> bool {
    PriorityModel::of_number(row.0) == row.1
}

fn have_numbers(rows: &[(u32, Option<PriorityModel>)]) -> bool {
    for row in rows {
        if !has_number(row) {
            return false;
        }
    }
    PriorityModel::ClientPropagated.number() == 0 && PriorityModel::ServerDeclared.number() == 1
}

#[test]
fn priority_models_have_their_numbers(rt: HostRuntime) {
    assert!(rt; have_numbers(MODELS));
}
