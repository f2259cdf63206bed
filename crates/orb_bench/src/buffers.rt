//! Times the buffer of requests that wait.

mod rounds;

use crate::asked::number_at;
use rounds::Times;
use std::io;
use std::time::Clock;

/// Times the buffer by the words: how many wait, and how many rounds to make. Without these numbers it writes nothing.
pub fn bench<R: Clock + Print + AllocGlobal>(rt: &R, words: &[String]) -> io::Result<()> {
    let (Some(waiting), Some(rounds)) = (number_at(words, 0), number_at(words, 1)) else {
        return Ok(());
    };
    match rounds::time_rounds(rt, rt.alloc(), waiting, rounds)? {
        Some(
            Times {
                looks,
                found,
                turns,
            },
        ) => {
            println!(rt;
                "{waiting} wait, {rounds} rounds: best_for {looks:?}, {found} found; best_for, take and put {turns:?}"
            )
        }
        None => println!(rt; "so many can't wait"),
    }
}
