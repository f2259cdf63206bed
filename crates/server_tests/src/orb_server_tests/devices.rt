//! A servant, a gate, and a link of one connection that asks by turns.
ghost use Rattle.orb_base.specs.declared.outcome.Outcome.TheVariants.{Returned};
ghost use Rattle.std.specs.Prelude.{[]};

use orb_base::{
    Accepted, Acceptor, Completed, Gate, Got, Job, List, MemSink, NoMemory, Outcome, Put, Serving,
    SharedOctets, Sink, Source, Sys, SysName, Text,
};
use std::alloc::Global;
use std::sync::atomic::{AtomicU64, Ordering};
use std::thread;

/// Answers each request with an empty body, and counts its invocations.
#[derive(Drop)]
pub struct Quick<'a> {
    pub alloc: Global,
    pub invoked: &'a AtomicU64,
}

impl Serving for Quick<'_> {
    ghost outcome = { λ _ _ _. Returned [] };

    fn invoke(&self, _interface: &Text, _job: &Job) -> Outcome {
        self.invoked.fetch_add(1, Ordering::SeqCst);
        match SharedOctets::new(self.alloc, List::new(self.alloc)) {
            Ok(body) => Outcome::Returned(body),
            Err(NoMemory) => Outcome::System(Sys {
                name: SysName::NoMemory,
                minor: 1,
                completed: Completed::Maybe,
            }),
        }
    }
}

/// Holds the worker of request 1 until a number is 1, as it is once request 2 was carried out, and counts its calls.
#[derive(Drop)]
pub struct Held<'a> {
    pub until: &'a AtomicU64,
    /// 1 where the worker of request 1 looked too often.
    pub missed: &'a AtomicU64,
    pub entered: &'a AtomicU64,
    pub left: &'a AtomicU64,
}

/// How often the worker of request 1 looks.
const LOOKS: u64 = 100_000_000;

impl Gate for Held<'_> {
    fn enter(&self, job: &Job) {
        self.entered.fetch_add(1, Ordering::SeqCst);
        if job.id == 1 && !look(self.until, 1) {
            self.missed.store(1, Ordering::SeqCst);
        }
    }

    fn leave(&self, job: &Job) {
        self.left.fetch_add(1, Ordering::SeqCst);
        if job.id == 2 {
            self.until.store(1, Ordering::SeqCst);
        }
    }
}

/// Looks until a number is at least this; whether it was, before it was looked at too often.
fn look(at: &AtomicU64, least: u64) -> bool {
    for _ in 0..LOOKS {
        if at.load(Ordering::SeqCst) >= least {
            return true;
        }
        thread::yield_now();
    }
    false
}

/// A source that gives its second piece once so many bytes were written, or not at all, and then tells that it met its end.
#[derive(Drop)]
pub struct Asking<'a> {
    pub first: &'a [u8],
    pub second: &'a [u8],
    pub given: usize,
    pub written: &'a AtomicU64,
    pub least: u64,
    pub met: &'a AtomicU64,
    pub ends: u64,
}

impl Source for Asking<'_> {
    ghost use Rattle.std.specs.Prelude.{None};

    ghost state = { λ s. record { left = None; taken = None; faults = 0; ends = s.ends } };

    fn read(&mut self, into: &mut [u8]) -> Got {
        let given = self.given;
        let comes = given == 0 || look(self.written, self.least);
        let piece = if given == 0 { self.first } else { self.second };
        if comes && given < 2 && piece.len() <= into.len() && !piece.is_empty() {
            into[..piece.len()].copy_from_slice(piece);
            self.given = given + 1;
            return Got::Bytes(piece.len());
        }
        self.met.store(1, Ordering::SeqCst);
        self.ends = self.ends.saturating_add(1);
        Got::End
    }
}

/// A sink that tells how many bytes were written.
#[derive(Drop)]
pub struct Telling<'a> {
    pub held: MemSink,
    pub written: &'a AtomicU64,
}

impl Sink for Telling<'_> {
    ghost state = { λ s. ⟦<MemSink as Sink>⟧.state s.held };

    fn write(&mut self, piece: &[u8]) -> Put {
        let put = self.held.write(piece);
        if let Put::Took(n) = put {
            self.written.fetch_add(n as u64, Ordering::SeqCst);
        }
        put
    }

    fn close(&mut self) {
        self.held.close();
    }
}

/// An acceptor of one such link.
#[derive(Drop)]
pub struct Once<'a> {
    pub alloc: Global,
    pub first: &'a [u8],
    pub second: &'a [u8],
    pub written: &'a AtomicU64,
    pub least: u64,
    pub met: &'a AtomicU64,
    pub left: bool,
    pub ends: u64,
}

impl<'a> Acceptor for Once<'a> {
    type In = Asking<'a>;

    type Out = Telling<'a>;

    ghost use Rattle.std.specs.Prelude.{None};

    ghost state = { λ a. record { links = None; faults = 0; ends = a.ends } };

    fn accept(&mut self) -> Accepted<Asking<'a>, Telling<'a>> {
        if !self.left {
            self.ends = self.ends.saturating_add(1);
            return Accepted::Done;
        }
        self.left = false;
        let source = Asking {
            first: self.first,
            second: self.second,
            given: 0,
            written: self.written,
            least: self.least,
            met: self.met,
            ends: 0,
        };
        let sink = Telling {
            held: MemSink::new(self.alloc, List::new(self.alloc), List::new(self.alloc)),
            written: self.written,
        };
        Accepted::Link(source, sink)
    }
}
