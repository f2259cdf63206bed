//! A bell, at which callers wait that the same entries may help.
//!
//! Nothing is promised of it: waiting changes neither the object nor its history.

use std::sync::Wait;
use std::sync::atomic::AtomicU64;
use std::sync::atomic::Ordering::SeqCst;
use std::time::Duration;
use std::{hint, thread};

/// The most looks that a waiter takes before it sleeps, some 40 to 100 microseconds where no other thread wants its processor.
const MOST_LOOKS: u64 = 96;

/// How often a look reads before it gives way to other threads.
pub(crate) const READS: u64 = 16;

/// Where looking didn't pay, one wait in so many tries it again.
const TRIAL_EVERY: u64 = 64;

/// The longest sleep, in milliseconds. A sleeper then looks again, whether its bell was rung or not.
pub(crate) const LONGEST_SLEEP: u64 = 1_000;

/// What waiters look at, and sleep at.
#[derive(Drop)]
pub(crate) struct Bell {
    rings: AtomicU64,
    sleepers: AtomicU64,
    waits: AtomicU64,
    /// How often a waiter looks before it sleeps: more where looking paid, none where it didn't.
    looks: AtomicU64,
}

impl Bell {
    /// A bell that nobody waits at.
    pub(crate) fn new() -> Bell {
        Bell {
            rings: AtomicU64::new(0),
            sleepers: AtomicU64::new(0),
            waits: AtomicU64::new(0),
            looks: AtomicU64::new(MOST_LOOKS),
        }
    }

    /// How often it was rung, modulo 2^64.
    pub(crate) fn rings(&self) -> u64 {
        self.rings.load(SeqCst)
    }

    /// Ends each wait for a ring that began before.
    pub(crate) fn ring(&self) {
        self.rings.fetch_add(1, SeqCst);
        if self.has_sleepers() {
            self.rings.wake_all();
        }
    }

    /// Whether somebody sleeps at the bell.
    pub(crate) fn has_sleepers(&self) -> bool {
        self.sleepers.load(SeqCst) > 0
    }

    /// Waits for a ring after the first `seen` ones, or for a while; how many looks were taken, where they were enough.
    pub(crate) fn wait<R: Wait>(&self, rt: &R, seen: u64) -> Option<u64> {
        for looks in 0..self.budget() {
            if self.looks_behind(seen) {
                return Some(looks);
            }
            thread::yield_now();
        }
        self.wasted();
        self.sleep(rt, seen, LONGEST_SLEEP);
        None
    }

    /// Looks for a ring after the first `seen` ones.
    fn looks_behind(&self, seen: u64) -> bool {
        for _ in 0..READS {
            if self.rings() != seen {
                return true;
            }
            hint::spin_loop();
        }
        false
    }

    /// Sleeps for some milliseconds, unless the bell was rung after the first `seen` rings.
    pub(crate) fn sleep<R: Wait>(&self, rt: &R, seen: u64, millis: u64) {
        self.enter();
        let low = (seen % 0x1_0000_0000) as u32;
        self.rings
            .park_timeout(rt, low, Duration::from_millis(millis));
        self.leave();
    }

    /// Counts a sleeper, before it looks whether to sleep.
    pub(crate) fn enter(&self) {
        self.sleepers.fetch_add(1, SeqCst);
    }

    /// Takes a sleeper off again.
    pub(crate) fn leave(&self) {
        self.sleepers.fetch_sub(1, SeqCst);
    }

    /// How often to look this time.
    pub(crate) fn budget(&self) -> u64 {
        let looks = self.looks.load(SeqCst).min(MOST_LOOKS);
        if looks == 0 && self.waits.fetch_add(1, SeqCst) % TRIAL_EVERY == 0 {
            return MOST_LOOKS;
        }
        looks
    }

    /// So many looks ended in the call: twice as many are worth a try from now on.
    pub(crate) fn paid(&self, looks: u64) {
        let enough = (looks.min(MOST_LOOKS) * 2 + 1).min(MOST_LOOKS);
        self.looks.fetch_max(enough, SeqCst);
    }

    /// Looking didn't end in the call: a quarter less from now on.
    pub(crate) fn wasted(&self) {
        let looks = self.looks.load(SeqCst).min(MOST_LOOKS);
        self.looks.store(looks * 3 / 4, SeqCst);
    }
}
