//! The words of a program.

use std::alloc::Global;
use std::rt::Env;
use std::{env, io};

/// The words after the program's name, in their order. An error of the kind `OutOfMemory` where memory runs out, and of another where a
/// word isn't UTF-8. Memory grows with the length of the words.
pub fn words<R: Env + AllocGlobal>(rt: &R, alloc: Global) -> io::Result<Vec<String>> {
    let mut words = Vec::new(alloc);
    for word in env::args(rt)?.skip(1) {
        words.push(word)?;
    }
    Ok(words)
}
