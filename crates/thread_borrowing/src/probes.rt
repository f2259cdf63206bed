//! Probes of a lane for a thread without a task, and their count.
//!
//! `LaneSet::probe` alone reads a set, and it alone adds a step: what can tick is in this file.
ghost use Rattle.std.specs.Prelude.{◌≡◌, ◌+◌, ◌<◌, ◌≤◌, None};
ghost use Rattle.thread_borrowing.specs.Masks.{IsLeast, IsProbed, IsPut, IsCleared};

use crate::mask::Mask;
use crate::standing::Standing;
use orb_base::limits::MAX_THREADS;
use std::marker::Model;
use std::sync::ledger::{Blank, Book, Ledger, Share};

/// How many probes of a lane were made. It takes no bytes, and a probe alone adds to it.
#[derive(Drop)]
pub struct Steps<L: Ledger> {
    book: Book<L>,
    share: Share<L>,
}

impl<L: Ledger> Model for Steps<L> {
    ghost use Rattle.std.specs.Prelude.{ℕ, ◌<◌};

    ghost Value = { ℕ };

    ghost view = { λ s. s.book.total };

    ghost invariant = { λ s. 0 < s.share.parts };
}

impl<L: Ledger> Steps<L> {
    /// No probe was made yet.
    pub fn new(blank: Blank) -> Steps<L>
        requires name { blank.name ≡ L.name }
        requires parts { blank.parts ≡ L.parts }
        requires some { 0 < blank.parts }
        ensures { result ≡ 0 }
    {
        let (book, share) = blank.open::<L>();
        Steps { book, share }
    }

    /// One more probe was made.
    fn tick(&mut self)
        ensures { self.new ≡ self.old + 1 }
    {
        self.book.add(&mut self.share, 1);
    }
}

/// The threads of a lane without a task, by their numbers in the pool.
#[derive(Clone, Copy, Debug)]
pub struct LaneSet {
    /// The static ones.
    statics: Mask,
    /// The dynamic ones that were started.
    started: Mask,
    /// The dynamic ones that were not started.
    resting: Mask,
}

impl LaneSet {
    /// The set without a thread.
    pub fn empty() -> LaneSet
        ensures { IsProbed result None }
    {
        LaneSet {
            statics: Mask::empty(),
            started: Mask::empty(),
            resting: Mask::empty(),
        }
    }

    /// Its first thread, and whether that is started for the request: of the static ones, else of the started ones,
    /// else of those that were not started.
    pub fn probe<L: Ledger>(&self, steps: &mut Steps<L>) -> Option<(u8, bool)>
        ensures value { IsProbed self.now result }
        ensures step { steps.new ≡ steps.old + 1 }
    {
        steps.tick();
        if let Some(thread) = self.statics.first() {
            return Some((thread, false));
        }
        if let Some(thread) = self.started.first() {
            return Some((thread, false));
        }
        if let Some(thread) = self.resting.first() {
            return Some((thread, true));
        }
        None
    }

    /// Puts a thread without a task into it.
    pub fn put(&mut self, thread: u8, standing: Standing)
        requires { thread < MAX_THREADS }
        ensures { IsPut thread standing self.old self.new }
    {
        match standing {
            Standing::Static => self.statics.put(thread),
            Standing::Started => self.started.put(thread),
            Standing::Resting => self.resting.put(thread),
        }
    }

    /// Takes a thread out of it, which has a task now.
    pub fn remove(&mut self, thread: u8)
        requires { thread < MAX_THREADS }
        ensures { IsCleared thread self.old self.new }
    {
        self.statics.remove(thread);
        self.started.remove(thread);
        self.resting.remove(thread);
    }
}
