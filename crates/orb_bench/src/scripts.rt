//! Times the servants of a script.

mod calls;

use crate::asked::number_at;
use std::io;
use std::time::Clock;

/// Times so many calls of a method as the first word says; without a number it writes nothing.
pub fn bench<R: Clock + Print + AllocGlobal>(rt: &R, words: &[String]) -> io::Result<()> {
    let Some(calls) = number_at(words, 0) else {
        return Ok(());
    };
    match calls::time_calls(rt, rt.alloc(), calls)? {
        Some(time) => println!(rt; "{calls} calls of a method of 50 statements: {time:?}"),
        None => println!(rt; "the servants could not be had"),
    }
}
