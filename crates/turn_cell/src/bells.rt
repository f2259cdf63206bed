//! The bells of a cell: one for each kind of waiter, and one for the turn.

use crate::bell::Bell;
use crate::entry::Entry;
use crate::object::Object;
use std::array;
use std::sync::atomic::AtomicU64;
use std::sync::atomic::Ordering::SeqCst;

/// The bells that callers sleep at whose calls aren't ready.
const BELLS: usize = 64;

/// Where waiters wait, and who of them sleeps.
#[derive(Drop)]
pub(crate) struct Bells {
    at: [Bell; 64],
    /// A bit for each bell at which somebody may sleep since it was rung.
    awaited: AtomicU64,
    pub(crate) turn: Bell,
}

/// Bells that an entry rings, by their bits.
#[derive(Clone, Copy)]
pub(crate) struct Rung {
    bits: u64,
}

impl Rung {
    /// No bell.
    pub(crate) fn none() -> Rung {
        Rung { bits: 0 }
    }
}

impl Bells {
    /// Bells that nobody waits at.
    pub(crate) fn new() -> Bells {
        Bells {
            at: array::from_fn(|_| Bell::new()),
            awaited: AtomicU64::new(0),
            turn: Bell::new(),
        }
    }

    /// The bell of a number, modulo 64.
    pub(crate) fn bell(&self, number: u32) -> &Bell {
        &self.at[number as usize % BELLS]
    }

    /// Says that somebody waits at a bell, until it is rung next.
    pub(crate) fn expect(&self, number: u32) {
        self.awaited.fetch_or(1 << (number % 64), SeqCst);
    }

    /// The bells that an entry rings, out of those that are waited at. To be asked while the turn is held.
    pub(crate) fn rung_by<O: Object>(&self, object: &O, entry: &Entry<O>) -> Rung {
        let mut left = self.awaited.load(SeqCst);
        let mut bits = 0;
        for _ in 0..left.count_ones() {
            let number = left.trailing_zeros() % 64;
            left &= left.wrapping_sub(1);
            if object.rings(&entry.call, &entry.reply, number) {
                bits |= 1 << number;
            }
        }
        Rung { bits }
    }

    /// Rings bells, once the turn was given back.
    pub(crate) fn ring(&self, rung: Rung) {
        if rung.bits == 0 {
            return;
        }
        // Off first: who comes later than this sees a ring less, and says anew that it waits.
        self.awaited.fetch_and(!rung.bits, SeqCst);
        let mut left = rung.bits;
        for _ in 0..left.count_ones() {
            let number = left.trailing_zeros();
            left &= left.wrapping_sub(1);
            self.bell(number).ring();
        }
    }
}
