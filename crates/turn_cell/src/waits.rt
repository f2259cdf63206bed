//! How a call waits for the turn, and for its state.
use crate::bell::{LONGEST_SLEEP, READS};
use crate::bells::Rung;
use crate::board::Core;
use crate::cell::Board;
use crate::object::Object;
use crate::tried::{Hold, Tried};
use std::sync::Wait;
use std::time::Duration;
use std::{hint, thread};

/// How long a call sleeps whose object wanted memory, in milliseconds.
const WANT_OF_MEMORY: u64 = 1;

/// Where a call is that isn't answered yet.
#[derive(Clone, Copy)]
pub(crate) struct Watch {
    /// Its bell.
    number: u32,
    /// The rings that it had seen when it last said that it waits.
    said: Option<u64>,
    /// The looks that ended the last wait, if they did.
    looked: Option<u64>,
}

impl<O: Object> Board<O> {
    /// A call that wasn't tried yet.
    pub(crate) fn watch(&self, call: &O::Call) -> Watch {
        Watch {
            number: O::bell_of(call),
            said: None,
            looked: None,
        }
    }

    /// The call was answered.
    pub(crate) fn settle(&self, watch: Watch) {
        if let Some(looks) = watch.looked {
            self.bells.bell(watch.number).paid(looks);
        }
    }

    /// Waits until a call that wasn't made may be.
    pub(crate) fn pause<R: Wait>(&self, rt: &R, watch: Watch, hold: Hold) -> Watch {
        let bell = self.bells.bell(watch.number);
        match hold {
            Hold::Turn => {
                self.await_turn(rt);
                watch
            }
            Hold::Memory => {
                bell.sleep(rt, bell.rings(), WANT_OF_MEMORY);
                watch
            }
            Hold::Unready(word) => self.await_bell(rt, watch, word),
        }
    }

    // Says that the call waits, and tries once more unless nobody had the turn since; then waits for the bell.
    // Who takes the turn after that sees that the bell is waited at, so no ring is missed.
    fn await_bell<R: Wait>(&self, rt: &R, watch: Watch, word: u64) -> Watch {
        let bell = self.bells.bell(watch.number);
        if watch.looked.is_some() {
            bell.wasted();
        }
        let seen = match watch.said {
            Some(seen) => seen,
            None => {
                let seen = bell.rings();
                self.bells.expect(watch.number);
                if self.table.shared.peek(0) != word {
                    return Watch {
                        said: Some(seen),
                        looked: None,
                        ..watch
                    };
                }
                seen
            }
        };
        Watch {
            said: None,
            looked: bell.wait(rt, seen),
            ..watch
        }
    }

    // Looks for a free turn.
    fn looks_free(&self) -> bool {
        for _ in 0..READS {
            if self.table.shared.peek(0) % 2 == 0 {
                return true;
            }
            hint::spin_loop();
        }
        false
    }

    // Waits until the turn may be free.
    fn await_turn<R: Wait>(&self, rt: &R) {
        let turn = &self.bells.turn;
        for looks in 0..turn.budget() {
            if self.looks_free() {
                turn.paid(looks);
                return;
            }
            thread::yield_now();
        }
        turn.wasted();
        turn.enter();
        let word = self.table.shared.peek(0);
        if word % 2 == 1 {
            let low = (word % 0x1_0000_0000) as u32;
            let most = Duration::from_millis(LONGEST_SLEEP);
            self.table.shared.park_timeout(rt, 0, low, most);
        }
        turn.leave();
    }

    /// The bells that a try rings, asked while the turn is held: a call that was answered is last in the history.
    pub(crate) fn rung_by(&self, core: &Core<O>, tried: &Tried<O>) -> Rung {
        match (tried, core.history.last()) {
            (Tried::Replied(_), Some(entry)) => self.bells.rung_by(&core.object, entry),
            _ => Rung::none(),
        }
    }

    /// Wakes those that may go on, once the turn was given back.
    pub(crate) fn wake(&self, rung: Rung) {
        self.bells.ring(rung);
        if self.bells.turn.has_sleepers() {
            self.table.shared.wake_one(0);
        }
    }
}
