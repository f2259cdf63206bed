//! Threads that put into one register.
ghost use Rattle.std.specs.Prelude.{◌≡◌, ◌<◌, ◌+◌};
ghost use Rattle.turn_cell.specs.Calls.{IsOf};

use std::alloc::Global;
use std::sync::{Mutex, Wait};
use std::thread::Threads;
use std::time::{Clock, Duration, Instant};
use std::{io, thread};
use turn_cell::{Register, RegisterCall, Seat, TurnCell};

/// The puts of all threads.
const PUTS: u64 = 1_600_000;

/// The puts of one of eight threads, of which the first ones alone put.
fn share(threads: u64, at: u64) -> u64 {
    if at < threads { PUTS / threads } else { 0 }
}

/// The first seat's next heir.
fn next(cell: &TurnCell<Register>, first: &mut Seat<Register>) -> Seat<Register>
    requires of { IsOf cell.now first.old }
    requires first { (first.old.number ≡ 0) × (first.old.splits < 8) }
    ensures of { IsOf cell.now first.new × IsOf cell.now result }
    ensures first { (first.new.number ≡ 0) × (first.new.splits ≡ first.old.splits + 1) }
{
    match cell.split(first) {
        Ok(seat) => seat,
        Err(_) => unreachable!(),
    }
}

/// Puts so many numbers, up to the first call that fails.
fn put<R: Wait>(rt: &R, cell: &TurnCell<Register>, mut seat: Seat<Register>, n: u64)
    requires { IsOf cell.now seat }
{
    for number in 0..n {
        if cell.call(rt, &mut seat, RegisterCall::Put(number)).is_err() {
            return;
        }
    }
}

/// The seats of two threads.
type Two = (Seat<Register>, Seat<Register>);

/// Two threads that put, of the places `at` and the next.
fn put_by_two<R: Wait + Threads + Sync>(
    rt: &R,
    cell: &TurnCell<Register>,
    seats: Two,
    threads: u64,
    at: u8,
)
    requires { IsOf cell.now seats.0 × IsOf cell.now seats.1 }
{
    let (a, b) = seats;
    thread::join(
        rt,
        move ||
            requires { IsOf cell.now a }
        { put(rt, cell, a, share(threads, at as u64)) },
        move ||
            requires { IsOf cell.now b }
        { put(rt, cell, b, share(threads, at as u64 + 1)) },
    );
}

/// Four threads that put, of the places from `at` on.
fn put_by_four<R: Wait + Threads + Sync>(
    rt: &R,
    cell: &TurnCell<Register>,
    low: Two,
    high: Two,
    threads: u64,
    at: u8,
)
    requires low { IsOf cell.now low.0 × IsOf cell.now low.1 }
    requires high { IsOf cell.now high.0 × IsOf cell.now high.1 }
    requires at { at < 8 }
{
    thread::join(
        rt,
        move ||
            requires { IsOf cell.now low.0 × IsOf cell.now low.1 }
        { put_by_two(rt, cell, low, threads, at) },
        move ||
            requires { (IsOf cell.now high.0 × IsOf cell.now high.1) × (at < 8) }
        { put_by_two(rt, cell, high, threads, at + 2) },
    );
}

/// How long the puts take through a turn cell, by 1 to 8 threads; None when out of memory.
pub fn time_cell<R: Wait + Clock + Threads + Sync>(
    rt: &R,
    alloc: Global,
    threads: u64,
) -> io::Result<Option<Duration>> {
    let Ok((cell, mut first)) = TurnCell::new(alloc, Register { value: 0 }, 2_000_000) else {
        return Ok(None);
    };
    let b = next(&cell, &mut first);
    let c = (next(&cell, &mut first), next(&cell, &mut first));
    let e = (next(&cell, &mut first), next(&cell, &mut first));
    let g = (next(&cell, &mut first), next(&cell, &mut first));
    let a = (first, b);
    let cell = &cell;
    let start = Instant::now(rt)?;
    thread::join(
        rt,
        move ||
            requires { IsOf cell.now a.0 × IsOf cell.now a.1 × IsOf cell.now c.0 × IsOf cell.now c.1 }
        { put_by_four(rt, cell, a, c, threads, 0) },
        move ||
            requires { IsOf cell.now e.0 × IsOf cell.now e.1 × IsOf cell.now g.0 × IsOf cell.now g.1 }
        { put_by_four(rt, cell, e, g, threads, 4) },
    );
    Ok(Some(start.elapsed(rt)?))
}

/// How long the puts take under a mutex.
pub fn time_mutex<R: Wait + Clock + Threads + Sync>(rt: &R, threads: u64) -> io::Result<Duration> {
    let register = Mutex::new(0u64);
    let mut done = [0u64; 8];
    let start = Instant::now(rt)?;
    thread::for_each_mut(
        rt,
        &mut done,
        8,
        &|at, done: &mut u64| {
            let n = share(threads, at as u64);
            for number in 0..n {
                *register.lock(rt) = number;
            }
            *done = n;
        },
    );
    start.elapsed(rt)
}
