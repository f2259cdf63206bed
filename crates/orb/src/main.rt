//! The program: real devices, one call of `orb_main`, its note and its status.
#![tactic(auto)]

use orb_command::{Note, orb_main, without_words};
use std::process::ExitCode;
use std_devices::{StdSink, StdSource, words};
use system_devices::{DoorSink, RunDoor, StdFiles, StdNet, end_listening};

fn main(rt: HostRuntime) -> ExitCode {
    let door = RunDoor::new();
    let answered = match words(&rt, rt.alloc()) {
        Ok(words) => {
            let mut net = StdNet::new(&rt, rt.alloc(), &door);
            let mut files = StdFiles::new(&rt, rt.alloc());
            let mut input = StdSource::new(rt.stdin());
            let mut out = DoorSink {
                out: StdSink::new(rt.stdout()),
                door: &door,
            };
            orb_main(
                &rt,
                rt.alloc(),
                words.as_slice(),
                &mut net,
                &mut files,
                &mut input,
                &mut out,
            )
        }
        Err(fault) => without_words(rt.alloc(), &fault),
    };
    // Before the histories are given back, so that peers wait as little as they can for a server that has ended.
    end_listening(rt.alloc(), answered.acceptors);
    if !matches!(answered.note, Note::Nothing) {
        // A note that can't be printed changes nothing.
        let _ = rt.eprintln(&answered.note);
    }
    ExitCode::from(answered.status)
}
