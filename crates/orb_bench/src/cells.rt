//! Times a turn cell against a mutex with a condition variable.

mod hatches;
mod registers;

use std::io;
use std::sync::Wait;
use std::thread::Threads;
use std::time::Clock;

/// Times puts into a register by 1 to 8 threads, and then numbers that one thread hands to another.
pub fn bench<R: Wait + Clock + Threads + Sync + Print + AllocGlobal>(rt: &R) -> io::Result<()> {
    for threads in [1, 2, 4, 8] {
        let cell = registers::time_cell(rt, rt.alloc(), threads)?;
        let mutex = registers::time_mutex(rt, threads)?;
        println!(rt; "{threads} threads, 1,600,000 puts: turn cell {cell:?}, mutex {mutex:?}")?;
    }
    let cell = hatches::time_cell(rt, rt.alloc())?;
    let mutex = hatches::time_mutex(rt)?;
    println!(rt; "40,000 numbers put to a waiting take: turn cell {cell:?}, mutex {mutex:?}")
}
