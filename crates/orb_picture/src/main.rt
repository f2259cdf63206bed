//! The program: real devices, one call of `picture_main`, its note and its status.
#![tactic(auto)]

use picture_runs::{Note, picture_main, status_of};
use std::io;
use std::process::ExitCode;
use std_devices::{StdSink, StdSource, words};

/// What is said where the words can't be had: out of memory, or one of them isn't UTF-8.
fn without_words(fault: &io::Error) -> Note {
    match fault.kind() {
        io::ErrorKind::OutOfMemory => Note::Memory,
        _ => Note::Usage,
    }
}

fn main(rt: HostRuntime) -> ExitCode {
    let note = match words(&rt, rt.alloc()) {
        Ok(words) => {
            let mut input = StdSource::new(rt.stdin());
            let mut out = StdSink::new(rt.stdout());
            picture_main(rt.alloc(), words.as_slice(), &mut input, &mut out)
        }
        Err(fault) => without_words(&fault),
    };
    if !matches!(note, Note::Nothing) {
        // A note that can't be printed changes nothing.
        let _ = rt.eprintln(note);
    }
    ExitCode::from(status_of(note))
}
