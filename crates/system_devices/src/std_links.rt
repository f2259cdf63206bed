//! Links over TCP, of which nothing is given but the counts.
ghost use Rattle.std.specs.Prelude.{◌≡◌, ◌<◌, ◌≤◌, None, length, IfSome};
ghost use Rattle.orb_base.specs.Outside.{IsNewSource, IsNewSink, Rose};
ghost use Rattle.orb_base.specs.declared.accepted.Accepted.TheVariants.{Done, Failed};

use crate::run_door::{DoorCloser, RunDoor};
use crate::turned_away::CLOSE;
use orb_base::{Accepted, Acceptor, Got, Put, Sink, Source};
use std::alloc::Global;
use std::io::{BufRead, BufReader, Read, Write};
use std::net::{Shutdown, TcpListener, TcpStream};
use std::time::Duration;
use std::{io, net};

/// Bytes that a link reads ahead.
const READ_AHEAD: usize = 65_536;

/// The reading half of a link, with its counts. It reads ahead, and lets go of the link at its end and after a failed read.
#[derive(Drop)]
pub struct LinkSource {
    stream: Option<BufReader<TcpStream>>,
    faults: u64,
    ends: u64,
}

impl LinkSource {
    /// A source over a link, with its counts at 0.
    fn new(stream: BufReader<TcpStream>) -> LinkSource
        ensures { IsNewSource (⟦<LinkSource as Source>⟧.state result) }
    {
        LinkSource {
            stream: Some(stream),
            faults: 0,
            ends: 0,
        }
    }

    /// Reads from the link; no bytes once it was let go. None where the read failed.
    fn bytes(&mut self, into: &mut [u8]) -> Option<usize>
        requires { 0 < length into.old }
        ensures some { IfSome result (λ n. n ≤ length into.old) }
        ensures same { (self.new.faults ≡ self.old.faults) × (self.new.ends ≡ self.old.ends) }
        ensures len { length into.new ≡ length into.old }
    {
        match &mut self.stream {
            Some(stream) => stream.read(into).ok(),
            None => Some(0),
        }
    }
}

impl Source for LinkSource {
    ghost state = { λ s. record { left = None; taken = None; faults = s.faults; ends = s.ends } };

    fn read(&mut self, into: &mut [u8]) -> Got {
        match self.bytes(into) {
            Some(0) => {
                self.stream = None;
                self.ends = self.ends.saturating_add(1);
                Got::End
            }
            Some(n) => Got::Bytes(n),
            None => {
                self.stream = None;
                self.faults = self.faults.saturating_add(1);
                Got::Failed
            }
        }
    }
}

/// The writing half of a link, with its count of faults. A write that takes nothing is a fault. A close ends the link in both
/// directions, and lets go of it: a write after that is a fault. Where a CloseConnection is to be written the run closes, or memory ran
/// out: from then on no slot takes another link in this run, so that a peer that comes back at once is the next run's.
#[derive(Drop)]
pub struct LinkSink<'a, R> {
    stream: Option<TcpStream>,
    closer: Option<DoorCloser<'a, R>>,
    /// How much is still to come of the message that is being written.
    rest: u64,
    faults: u64,
}

/// How long a message is whose first piece this is, with its header.
fn message_len(piece: &[u8]) -> u64 {
    if piece.len() < 12 {
        return piece.len() as u64;
    }
    let mut size = [0u8; 4];
    size.copy_from_slice(&piece[8..12]);
    let size = if piece[6] & 1 == 0 {
        u32::from_be_bytes(size)
    } else {
        u32::from_le_bytes(size)
    };
    12 + u64::from(size)
}

impl<'a, R> LinkSink<'a, R> {
    /// A sink over a link, with its count at 0.
    fn new(stream: TcpStream, closer: Option<DoorCloser<'a, R>>) -> LinkSink<'a, R>
        ensures { result.faults ≡ 0 }
    {
        LinkSink {
            stream: Some(stream),
            closer,
            rest: 0,
            faults: 0,
        }
    }

    /// How many bytes the link took; none once it was let go or where the write failed.
    fn bytes(&mut self, piece: &[u8]) -> usize
        ensures fits { result ≤ length piece.now }
        ensures same { self.new.faults ≡ self.old.faults }
    {
        match &mut self.stream {
            Some(stream) => stream.write(piece).unwrap_or(0),
            None => 0,
        }
    }
}

impl<'a, R: net::Net<Listener = TcpListener, Stream = TcpStream>> LinkSink<'a, R> {
    /// Notes what is written: a message's first piece has its header, so that no bytes within a message are taken for one.
    fn note(&mut self, piece: &[u8])
        ensures { self.new.faults ≡ self.old.faults }
    {
        if self.rest > 0 {
            return;
        }
        self.rest = message_len(piece);
        if let Some(closer) = &self.closer
            && piece == CLOSE
        {
            closer.close();
        }
    }
}

impl<'a, R: net::Net<Listener = TcpListener, Stream = TcpStream>> Sink for LinkSink<'a, R> {
    ghost state = { λ s. record { held = None; faults = s.faults } };

    fn write(&mut self, piece: &[u8]) -> Put {
        self.note(piece);
        match self.bytes(piece) {
            0 => {
                self.faults = self.faults.saturating_add(1);
                Put::Failed
            }
            n => {
                self.rest = self.rest.saturating_sub(n as u64);
                Put::Took(n)
            }
        }
    }

    fn close(&mut self) {
        if let Some(stream) = &self.stream {
            let _ = stream.shutdown(Shutdown::Both);
        }
        self.stream = None;
    }
}

/// What reads a stream ahead; without memory for that, what reads it as it is. None where the system refuses.
fn read_ahead(alloc: Global, stream: &TcpStream) -> Option<BufReader<TcpStream>> {
    let first = stream.try_clone().ok()?;
    if let Ok(reader) = BufReader::with_capacity(alloc, READ_AHEAD, first) {
        return Some(reader);
    }
    let again = stream.try_clone().ok()?;
    BufReader::with_capacity(alloc, 0, again).ok()
}

/// How long a slot waits at a time for the first bytes of a link, in milliseconds, and how often at most: a second in all.
const FIRST_WAIT: u64 = 20;

const MOST_WAITS: u32 = 50;

/// A link that nobody serves yet.
#[derive(Drop)]
pub(crate) struct Fresh {
    pub(crate) stream: TcpStream,
    /// What reads it, with its first bytes once they are there.
    pub(crate) reader: BufReader<TcpStream>,
}

impl Fresh {
    /// A link of a stream, whose small writes go at once (TCP_NODELAY). None where the system refuses.
    pub(crate) fn new(alloc: Global, stream: TcpStream) -> Option<Fresh> {
        let Ok(()) = stream.set_nodelay(true) else {
            return None;
        };
        let reader = read_ahead(alloc, &stream)?;
        Some(Fresh { stream, reader })
    }

    /// Waits until the first bytes or the end of the link are there, the run closes, or a second is over: what a peer sends that was
    /// accepted before a run's limit was met, and was silent until then, is the next run's.
    fn wait(&mut self, door: &RunDoor) {
        let each = Some(Duration::from_millis(FIRST_WAIT));
        if self.stream.set_read_timeout(each).is_err() {
            return;
        }
        for _ in 0..MOST_WAITS {
            if door.is_closing() || !is_silent(&mut self.reader) {
                break;
            }
        }
        let _ = self.stream.set_read_timeout(None);
    }

    /// Its halves.
    pub(crate) fn halves<'a, R>(
        self,
        closer: Option<DoorCloser<'a, R>>,
    ) -> (LinkSource, LinkSink<'a, R>)
        ensures source { IsNewSource (⟦<LinkSource as Source>⟧.state result.0) }
        ensures sink { result.1.faults ≡ 0 }
    {
        let Fresh { stream, reader } = self;
        (LinkSource::new(reader), LinkSink::new(stream, closer))
    }
}

/// Whether nothing came within the time that a read may take.
fn is_silent(reader: &mut BufReader<TcpStream>) -> bool {
    match reader.fill_buf() {
        Ok(_) => false,
        Err(fault) => matches!(
            fault.kind(),
            io::ErrorKind::WouldBlock | io::ErrorKind::TimedOut | io::ErrorKind::Interrupted
        ),
    }
}

/// How many peers in a row may be gone again when they are accepted.
const MOST_GONE: u32 = 1_000;

/// Whether an accept met a peer that is gone again, or was interrupted: the next one may do.
pub(crate) fn is_passing(fault: &io::Error) -> bool {
    matches!(
        fault.kind(),
        io::ErrorKind::ConnectionAborted
            | io::ErrorKind::ConnectionReset
            | io::ErrorKind::Interrupted
    )
}

/// How many links of the server's own are passed over in a row at most.
const MOST_OWN: u32 = 64;

/// What came of waiting for a link.
#[derive(Drop)]
enum Came<L> {
    Link(L),
    /// The run closes.
    Closing,
    /// The system refuses.
    Failed,
}

/// The next link of a listener.
fn next_stream(listener: &TcpListener) -> Came<TcpStream> {
    for _ in 0..MOST_GONE {
        match listener.accept() {
            Ok((stream, _)) => return Came::Link(stream),
            Err(fault) if is_passing(&fault) => {}
            Err(_) => return Came::Failed,
        }
    }
    Came::Failed
}

/// One slot's share of a listener, with its counts. It tells no links. While the run closes it answers that no link is left, and keeps
/// one that came for the next run.
#[derive(Drop)]
pub struct StdAcceptor<'a, R> {
    alloc: Global,
    listener: TcpListener,
    closer: DoorCloser<'a, R>,
    /// A link that came while a run closed.
    kept: Option<Fresh>,
    left: u32,
    faults: u64,
    ends: u64,
}

impl<'a, R: net::Net<Listener = TcpListener, Stream = TcpStream>> StdAcceptor<'a, R> {
    /// What accepts so many links, with its counts at 0.
    pub(crate) fn new(
        alloc: Global,
        listener: TcpListener,
        closer: DoorCloser<'a, R>,
        each: u32,
    ) -> StdAcceptor<'a, R>
        ensures { (result.faults ≡ 0) × (result.ends ≡ 0) }
    {
        StdAcceptor {
            alloc,
            listener,
            closer,
            kept: None,
            left: each,
            faults: 0,
            ends: 0,
        }
    }

    /// The share of the listener, and the link that was kept.
    pub(crate) fn into_parts(self) -> (TcpListener, Option<Fresh>) {
        (self.listener, self.kept)
    }

    /// Waits for a link, unless the run closes.
    fn wait(&self) -> Came<TcpStream> {
        let door = self.closer.door();
        door.begin_waiting();
        let came = if door.is_closing() {
            Came::Closing
        } else {
            next_stream(&self.listener)
        };
        door.end_waiting();
        came
    }

    /// The next link that isn't one of the server's own.
    fn next_peer(&self) -> Came<TcpStream> {
        for _ in 0..MOST_OWN {
            match self.wait() {
                Came::Link(stream) if self.closer.door().is_own(&stream) => {}
                other => return other,
            }
        }
        Came::Failed
    }

    /// The next link, the one that was kept before all others.
    fn next_fresh(&self, kept: Option<Fresh>) -> Came<Fresh> {
        if let Some(fresh) = kept {
            return Came::Link(fresh);
        }
        match self.next_peer() {
            Came::Link(stream) => match Fresh::new(self.alloc, stream) {
                Some(fresh) => Came::Link(fresh),
                None => Came::Failed,
            },
            Came::Closing => Came::Closing,
            Came::Failed => Came::Failed,
        }
    }

    /// The next link, once its first bytes are there. One that comes, or is silent, while the run closes is kept.
    fn next(&mut self) -> Came<Fresh>
        ensures counts { (self.new.faults ≡ self.old.faults) × (self.new.ends ≡ self.old.ends) }
        ensures left { self.new.left ≡ self.old.left }
    {
        let kept = self.kept.take();
        let mut fresh = match self.next_fresh(kept) {
            Came::Link(fresh) => fresh,
            other => return other,
        };
        fresh.wait(self.closer.door());
        if self.closer.door().is_closing() {
            self.kept = Some(fresh);
            return Came::Closing;
        }
        Came::Link(fresh)
    }

    /// An accept that failed.
    fn failed(&mut self) -> Accepted<LinkSource, LinkSink<'a, R>>
        ensures answer { result ≡ Failed }
        ensures faults { (self.old.faults ≤ self.new.faults) × Rose self.old.faults self.new.faults }
        ensures ends { self.new.ends ≡ self.old.ends }
    {
        self.faults = self.faults.saturating_add(1);
        Accepted::Failed
    }

    /// No link is left in this run.
    fn done(&mut self) -> Accepted<LinkSource, LinkSink<'a, R>>
        ensures answer { result ≡ Done }
        ensures ends { (self.old.ends ≤ self.new.ends) × Rose self.old.ends self.new.ends }
        ensures faults { self.new.faults ≡ self.old.faults }
    {
        let ends = self.ends.saturating_add(1);
        self.ends = ends;
        Accepted::Done
    }
}

impl<'a, R: net::Net<Listener = TcpListener, Stream = TcpStream> + Sync> Acceptor
    for StdAcceptor<'a, R> {
    type In = LinkSource;

    type Out = LinkSink<'a, R>;

    ghost state = { λ a. record { links = None; faults = a.faults; ends = a.ends } };

    fn accept(&mut self) -> Accepted<LinkSource, LinkSink<'a, R>> {
        if self.left == 0 {
            return self.done();
        }
        match self.next() {
            Came::Link(fresh) => {
                self.left -= 1;
                let (source, sink) = fresh.halves(Some(self.closer.again()));
                Accepted::Link(source, sink)
            }
            Came::Closing => self.done(),
            Came::Failed => self.failed(),
        }
    }
}
