//! Times the JSON of a sequence and of a struct of octets.

mod rounds;
mod shapes;

use crate::asked::number_at;
use rounds::Times;
use shapes::Shape;
use std::alloc::Global;
use std::io;
use std::time::Clock;

/// How long rounds over a shape take; `None` without one, or out of memory.
fn timed<R: Clock>(
    rt: &R,
    alloc: Global,
    shape: Option<Shape>,
    rounds: u32,
) -> io::Result<Option<Times>> {
    match shape {
        Some(shape) => rounds::time_rounds(rt, alloc, &shape, rounds),
        None => Ok(None),
    }
}

/// The times in words.
fn in_words(alloc: Global, times: Option<Times>) -> Option<String> {
    let Times {
        reads,
        values,
        prints,
        shows,
    } = times?;
    let read = format!(in alloc; "read as JSON {reads:?}, as a value {values:?}").ok()?;
    let read = read.as_str();
    format!(in alloc; "{read}; printed from JSON {prints:?}, from a value {shows:?}").ok()
}

/// Times the JSON by the words: how many octets the sequence has, how many members the struct, and how many rounds to
/// make. Without these numbers it writes nothing.
pub fn bench<R: Clock + Print + AllocGlobal>(rt: &R, words: &[String]) -> io::Result<()> {
    let (Some(count), Some(members), Some(rounds)) = (
        number_at(words, 0),
        number_at(words, 1),
        number_at(words, 2),
    ) else {
        return Ok(());
    };
    let alloc = rt.alloc();
    let times = timed(rt, alloc, shapes::sequence(alloc, count), rounds)?;
    if let Some(line) = in_words(alloc, times) {
        println!(rt; "a sequence of {count} octets, {rounds} rounds: {line}")?;
    }
    let times = timed(rt, alloc, shapes::structure(alloc, members), rounds)?;
    if let Some(line) = in_words(alloc, times) {
        println!(rt; "a struct of {members} octets, {rounds} rounds: {line}")?;
    }
    Ok(())
}
