//! One thread that hands numbers to another, which waits for each.
ghost use Rattle.std.specs.Prelude.{◌≡◌};
ghost use Rattle.turn_cell.specs.Calls.{IsOf};

use std::alloc::Global;
use std::sync::{Condvar, Mutex, Wait};
use std::thread::Threads;
use std::time::{Clock, Duration, Instant};
use std::{io, thread};
use turn_cell::{Hatch, HatchCall, Seat, TurnCell};

/// The numbers that are handed over.
const NUMBERS: u64 = 40_000;

/// Puts all numbers, up to the first call that fails.
fn put_all<R: Wait>(rt: &R, cell: &TurnCell<Hatch>, mut seat: Seat<Hatch>)
    requires { IsOf cell.now seat }
{
    for number in 0..NUMBERS {
        if cell.call(rt, &mut seat, HatchCall::Put(number)).is_err() {
            return;
        }
    }
}

/// Takes as many numbers, up to the first call that fails.
fn take_all<R: Wait>(rt: &R, cell: &TurnCell<Hatch>, mut seat: Seat<Hatch>)
    requires { IsOf cell.now seat }
{
    for _ in 0..NUMBERS {
        if cell.call(rt, &mut seat, HatchCall::Take).is_err() {
            return;
        }
    }
}

/// How long it takes through a turn cell; None when out of memory.
pub fn time_cell<R: Wait + Clock + Threads + Sync>(
    rt: &R,
    alloc: Global,
) -> io::Result<Option<Duration>> {
    let Ok((cell, mut first)) = TurnCell::new(alloc, Hatch { held: None }, 100_000) else {
        return Ok(None);
    };
    let Ok(second) = cell.split(&mut first) else {
        return Ok(None);
    };
    let cell = &cell;
    let start = Instant::now(rt)?;
    thread::join(
        rt,
        move ||
            requires { IsOf cell.now first }
        { put_all(rt, cell, first) },
        move ||
            requires { IsOf cell.now second }
        { take_all(rt, cell, second) },
    );
    Ok(Some(start.elapsed(rt)?))
}

/// A hatch under a plain lock.
#[derive(Drop)]
struct Plain {
    held: Mutex<Option<u64>>,
    changed: Condvar,
}

impl Plain {
    /// Waits until the hatch is empty, and puts a number.
    fn put<R: Wait>(&self, rt: &R, number: u64) {
        let mut held = self.held.lock(rt);
        for _ in rt.forever() {
            if held.is_none() {
                break;
            }
            held = self.changed.wait(rt, held);
        }
        *held = Some(number);
        drop(held);
        self.changed.notify_one();
    }

    /// Waits until the hatch holds a number, and takes it.
    fn take<R: Wait>(&self, rt: &R) {
        let mut held = self.held.lock(rt);
        for _ in rt.forever() {
            if held.is_some() {
                break;
            }
            held = self.changed.wait(rt, held);
        }
        *held = None;
        drop(held);
        self.changed.notify_one();
    }
}

/// How long it takes under a mutex with a condition variable.
pub fn time_mutex<R: Wait + Clock + Threads + Sync>(rt: &R) -> io::Result<Duration> {
    let hatch = Plain {
        held: Mutex::new(None),
        changed: Condvar::new(),
    };
    let start = Instant::now(rt)?;
    thread::join(
        rt,
        || {
            for number in 0..NUMBERS {
                hatch.put(rt, number);
            }
        },
        || {
            for _ in 0..NUMBERS {
                hatch.take(rt);
            }
        },
    );
    start.elapsed(rt)
}
