//! The lane machine itself over traces by hand, of which one line is another: whether it answers each call as the lines say.

use crate::replay::count_followed;
use crate::trace_audit_tests::{CHANGES, Comes, EVERY, changed};
use std::alloc::Global;
use trace_runs::{Run, RunRead, read_run};

/// The run whose text this is. None where it is no run.
fn run_of(alloc: Global, text: &[u8]) -> Option<Run> {
    match read_run(alloc, text) {
        Ok(RunRead::Run { run, len }) if len == text.len() => Some(run),
        _ => None,
    }
}

/// How many entries of a text the machine follows. None where the text is no run.
fn count_of(alloc: Global, text: &[u8]) -> Option<usize> {
    match run_of(alloc, text) {
        Some(run) => count_followed(alloc, &run),
        None => None,
    }
}

/// The same of the run of which one line is another.
fn count_changed(alloc: Global, at: usize, other: &[u8]) -> Option<usize> {
    match changed(alloc, at, other, 0) {
        Ok((text, _)) => count_of(alloc, text.as_slice()),
        Err(_) => None,
    }
}

/// How many entries have to be followed by the table of the audit. None for what is no trace.
fn want(comes: Comes) -> Option<usize> {
    match comes {
        Comes::Fault => None,
        Comes::Later(_) => None,
        Comes::Wrong(entry) => Some(entry as usize),
        Comes::Unfit => Some(32),
        Comes::Fit => Some(32),
    }
}

/// Whether the machine's verdict on a changed run is that of the table.
fn is_agreed(alloc: Global, change: &(usize, &[u8], Comes)) -> bool {
    let (at, other, comes) = *change;
    count_changed(alloc, at, other) == want(comes)
}

/// The number of the first change on which the machine's verdict is another, or that of all changes.
fn first_other(alloc: Global, changes: &[(usize, &[u8], Comes)]) -> usize {
    for (i, change) in changes.iter().enumerate() {
        if !is_agreed(alloc, change) {
            return i;
        }
    }
    changes.len()
}

#[test]
fn the_machine_gives_the_same_verdicts(rt: HostRuntime) {
    assert_eq!(rt; first_other(rt.alloc(), CHANGES), CHANGES.len());
}

/// Whether the machine follows each entry of the run in which no line is another.
fn follows_all(alloc: Global) -> bool {
    count_changed(alloc, EVERY.len(), b"") == Some(32)
}

#[test]
fn the_machine_follows_every_line(rt: HostRuntime) {
    assert!(rt; follows_all(rt.alloc()));
}
