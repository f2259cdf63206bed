//! A link in memory that waits for what is written to it.

use orb_base::{Got, MemSink, Put, Sink, Source};
use std::sync::atomic::{AtomicU64, Ordering};
use std::thread;

/// How often a source looks for what it waits for.
const LOOKS: u64 = 100_000_000;

/// Looks until a number is at least this; whether it was, before it was looked at too often.
fn look(at: &AtomicU64, least: u64) -> bool {
    for _ in 0..LOOKS {
        if at.load(Ordering::SeqCst) >= least {
            return true;
        }
        thread::yield_now();
    }
    false
}

/// What comes after the last piece of a source.
#[derive(Clone, Copy, PartialEq, Eq)]
pub enum After {
    /// Its end, at once.
    End,
    /// Its end, once the sink was closed.
    EndOnceClosed,
    /// A failed read.
    Fails,
}

/// A source that gives its pieces, one for each read, once so many messages were written, or else its end.
#[derive(Drop)]
pub struct Waiting<'a> {
    pub pieces: &'static [&'static [u8]],
    pub given: usize,
    pub written: &'a AtomicU64,
    pub least: u64,
    pub closed: &'a AtomicU64,
    pub after: After,
    pub faults: u64,
    pub ends: u64,
}

impl Waiting<'_> {
    /// The next piece, if there is one and it may be given.
    fn next(&self) -> Option<&'static [u8]> {
        if self.given == 0 && !look(self.written, self.least) {
            return None;
        }
        let pieces = self.pieces;
        let piece = pieces.get(self.given)?;
        Some(*piece)
    }
}

impl Source for Waiting<'_> {
    ghost use Rattle.std.specs.Prelude.{None};

    ghost state = { λ s. record { left = None; taken = None; faults = s.faults; ends = s.ends } };

    fn read(&mut self, into: &mut [u8]) -> Got {
        if let Some(piece) = self.next() {
            if piece.len() <= into.len() && !piece.is_empty() {
                into[..piece.len()].copy_from_slice(piece);
                self.given = self.given.saturating_add(1);
                return Got::Bytes(piece.len());
            }
        }
        if self.after == After::Fails {
            self.faults = self.faults.saturating_add(1);
            return Got::Failed;
        }
        if self.after == After::EndOnceClosed {
            look(self.closed, 1);
        }
        self.ends = self.ends.saturating_add(1);
        Got::End
    }
}

/// A sink that tells how many writes it took, and whether it was closed.
#[derive(Drop)]
pub struct Telling<'a> {
    pub held: MemSink,
    pub written: &'a AtomicU64,
    pub closed: &'a AtomicU64,
}

impl Sink for Telling<'_> {
    ghost state = { λ s. ⟦<MemSink as Sink>⟧.state s.held };

    fn write(&mut self, piece: &[u8]) -> Put {
        let put = self.held.write(piece);
        if let Put::Took(_) = put {
            self.written.fetch_add(1, Ordering::SeqCst);
        }
        put
    }

    fn close(&mut self) {
        self.held.close();
        self.closed.fetch_add(1, Ordering::SeqCst);
    }
}
