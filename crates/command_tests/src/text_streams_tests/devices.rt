//! Devices in memory, built from what they hold and from where they are cut and fail.

use orb_base::{List, MemFile, MemFiles, MemSink, MemSource, NoMemory, Octets, Text};
use std::alloc::Global;

/// Whether these are the same bytes.
pub fn same(got: &[u8], want: &[u8]) -> bool {
    got == want
}

pub fn list<T: Copy>(alloc: Global, items: &[T]) -> Result<List<T>, NoMemory> {
    Ok(List::from_vec(Vec::from_slice(alloc, items)?))
}

/// Bytes, after them an octet so many times, and after that other bytes.
pub fn spelled(
    alloc: Global,
    front: &[u8],
    octet: u8,
    times: usize,
    back: &[u8],
) -> Result<Octets, NoMemory> {
    let mut bytes = Vec::from_slice(alloc, front)?;
    for _ in 0..times {
        bytes.push(octet)?;
    }
    bytes.extend_from_slice(back)?;
    Ok(List::from_vec(bytes))
}

/// A source of these bytes, whose reads are cut and fail as said.
pub fn source(
    alloc: Global,
    bytes: Octets,
    cuts: &[usize],
    failing: &[u64],
) -> Result<MemSource, NoMemory> {
    let cuts = list(alloc, cuts)?;
    Ok(MemSource::new(bytes, cuts, list(alloc, failing)?))
}

/// A sink whose writes are cut and fail as said.
pub fn sink(alloc: Global, cuts: &[usize], failing: &[u64]) -> Result<MemSink, NoMemory> {
    let cuts = list(alloc, cuts)?;
    Ok(MemSink::new(alloc, cuts, list(alloc, failing)?))
}

/// A file of these bytes, with so many blanks after them.
fn file(alloc: Global, name: &str, bytes: &[u8], blanks: usize) -> Result<MemFile, NoMemory> {
    let bytes = spelled(alloc, bytes, b' ', blanks, b"")?;
    match Text::new(alloc, name.as_bytes()) {
        Ok(name) => Ok(MemFile { name, bytes }),
        Err(_) => Err(NoMemory),
    }
}

/// Whether a file could be put after others.
fn puts_file(
    alloc: Global,
    all: &mut List<MemFile>,
    name: &str,
    bytes: &[u8],
    blanks: usize,
) -> bool {
    match file(alloc, name, bytes, blanks) {
        Ok(file) => all.push(file).is_ok(),
        Err(_) => false,
    }
}

fn puts_files(
    alloc: Global,
    all: &mut List<MemFile>,
    files: &[(&str, &[u8])],
    blanks: usize,
) -> bool {
    for (name, bytes) in files {
        if !puts_file(alloc, all, name, bytes, blanks) {
            return false;
        }
    }
    true
}

/// A store of these files, each with so many blanks after its bytes, whose reads fail as said.
pub fn store(
    alloc: Global,
    files: &[(&str, &[u8])],
    blanks: usize,
    failing: &[u64],
) -> Result<MemFiles, NoMemory> {
    let mut all = List::new(alloc);
    if !puts_files(alloc, &mut all, files, blanks) {
        return Err(NoMemory);
    }
    Ok(MemFiles::new(all, list(alloc, failing)?))
}

/// Whether a word could be put after others.
pub fn puts_word(alloc: Global, all: &mut Vec<String>, word: &str) -> bool {
    match String::from_str(alloc, word) {
        Ok(word) => all.push(word).is_ok(),
        Err(_) => false,
    }
}

/// Whether the words of a command line could be put after others.
pub fn puts_words(alloc: Global, all: &mut Vec<String>, words: &[&str]) -> bool {
    for word in words {
        if !puts_word(alloc, all, word) {
            return false;
        }
    }
    true
}
