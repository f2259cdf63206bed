//! Words and what they mean.

use crate::text_streams_tests::devices::puts_words;
use client_runs::{ArgumentText, CallWords};
use command_words::*;
use load_runs::FragmentLen;
use object_lines::Address;
use orb_base::{Priority, Text};
use pipe_runs::Shown;
use server_runs::RunPlan;
use std::alloc::Global;

/// What words mean.
#[derive(Clone, Copy)]
enum Said {
    /// The configuration, the batch, and what is shown.
    Pipe(Option<&'static str>, u8, Shown),
    /// The configuration, the host and port, how many runs, and whether they are traced.
    Serve(&'static str, &'static str, u16, u8, bool),
    /// The host and port.
    Names(&'static str, u16),
    Dump,
    Audit,
    Refs,
    /// The host and port, and the configuration.
    RefsAt(&'static str, u16, Option<&'static str>),
    /// The file.
    Idl(&'static str),
    Call(CallSaid),
    /// The call, and how many callers make it over one link.
    SharedCall(CallSaid, u8),
    Load(LoadSaid),
    Unread,
}

/// The options of `call`.
#[derive(Clone, Copy)]
struct CallSaid {
    remote: &'static str,
    name: &'static str,
    arguments: Option<&'static str>,
    priority: Option<i16>,
    idl: Option<&'static str>,
    interface: Option<&'static str>,
}

/// The items of `load`.
#[derive(Clone, Copy)]
struct LoadSaid {
    seed: u32,
    count: u32,
    config: Option<&'static str>,
    batch: u8,
    fragment: Option<usize>,
}

/// The call of an operation without further options.
const CALL: CallSaid = CallSaid {
    remote: "r",
    name: "o",
    arguments: None,
    priority: None,
    idl: None,
    interface: None,
};

/// The call with all its options.
const WHOLE_CALL: CallSaid = CallSaid {
    remote: "r",
    name: "o",
    arguments: Some("[1, 2]"),
    priority: Some(7),
    idl: Some("f"),
    interface: Some("i"),
};

/// A load of one request, without options.
const LOAD: LoadSaid = LoadSaid {
    seed: 0,
    count: 1,
    config: None,
    batch: 1,
    fragment: None,
};

/// A load with all its options.
const WHOLE_LOAD: LoadSaid = LoadSaid {
    seed: 5,
    count: 9,
    config: Some("c"),
    batch: 3,
    fragment: Some(32),
};

fn is_text(text: &Text, want: &str) -> bool {
    text.as_slice() == want.as_bytes()
}

fn is_name(name: Option<&Text>, want: Option<&str>) -> bool {
    match (name, want) {
        (Some(name), Some(want)) => is_text(name, want),
        (None, None) => true,
        _ => false,
    }
}

fn is_place(at: &Address, host: &str, port: u16) -> bool {
    is_text(&at.host, host) && at.port == port
}

fn is_pipe(words: &PipeWords, config: Option<&str>, batch: u8, shown: Shown) -> bool {
    is_name(words.config.as_ref(), config) && words.batch.calls() == batch && words.shown == shown
}

fn is_plan(plan: &RunPlan, runs: u8, trace: bool) -> bool {
    plan.runs.count() == runs && plan.trace == trace
}

fn is_argument(text: Option<&ArgumentText>, want: Option<&str>) -> bool {
    match (text, want) {
        (Some(text), Some(want)) => text.as_str() == want,
        (None, None) => true,
        _ => false,
    }
}

fn is_level(priority: Option<Priority>, want: Option<i16>) -> bool {
    match (priority, want) {
        (Some(priority), Some(want)) => priority.get() == want,
        (None, None) => true,
        _ => false,
    }
}

fn is_call(words: &CallWords, want: CallSaid) -> bool {
    is_text(&words.reference, want.remote)
        && is_text(&words.operation, want.name)
        && is_argument(words.arguments.as_ref(), want.arguments)
        && is_level(words.priority, want.priority)
        && is_name(words.idl.as_ref(), want.idl)
        && is_name(words.interface.as_ref(), want.interface)
}

fn is_len(fragment: Option<FragmentLen>, want: Option<usize>) -> bool {
    match (fragment, want) {
        (Some(fragment), Some(want)) => fragment.bytes() == want,
        (None, None) => true,
        _ => false,
    }
}

fn is_load(words: &LoadWords, want: LoadSaid) -> bool {
    let plan = words.plan;
    plan.seed == want.seed
        && plan.count.requests() == want.count
        && plan.batch.calls() == want.batch
        && is_len(plan.fragment, want.fragment)
        && is_name(words.config.as_ref(), want.config)
}

fn is_said(meaning: &Meaning, want: Said) -> bool {
    match (meaning, want) {
        (Meaning::Pipe(words), Said::Pipe(config, batch, shown)) => {
            is_pipe(words, config, batch, shown)
        }
        (Meaning::Serve(words), Said::Serve(config, host, port, runs, trace)) => {
            is_text(&words.config, config)
                && is_place(&words.at, host, port)
                && is_plan(&words.plan, runs, trace)
        }
        (Meaning::Names(at), Said::Names(host, port)) => is_place(at, host, port),
        (Meaning::RefsAt(at, name), Said::RefsAt(host, port, config)) => {
            is_place(at, host, port) && is_name(name.as_ref(), config)
        }
        (Meaning::Idl(name), Said::Idl(want)) => is_text(name, want),
        (Meaning::Call(words), Said::Call(want)) => is_call(words, want),
        (Meaning::SharedCall { words, callers }, Said::SharedCall(want, count)) => {
            is_call(words, want) && callers.count() == count
        }
        (Meaning::Load(words), Said::Load(want)) => is_load(words, want),
        (Meaning::Dump, Said::Dump)
        | (Meaning::Audit, Said::Audit)
        | (Meaning::Refs, Said::Refs)
        | (Meaning::Unread, Said::Unread) => true,
        _ => false,
    }
}

/// Whether the words mean this.
fn means(alloc: Global, words: &[String], want: Said) -> bool {
    match read_words(alloc, words) {
        Ok(meaning) => is_said(&meaning, want),
        Err(_) => false,
    }
}

fn is_meant(alloc: Global, words: &[&str], want: Said) -> bool {
    let mut all = Vec::new(alloc);
    puts_words(alloc, &mut all, words) && means(alloc, all.as_slice(), want)
}

/// Words, and what they mean.
type Row = (&'static [&'static str], Said);

fn all_mean(alloc: Global, rows: &[Row]) -> bool {
    for (words, want) in rows {
        if !is_meant(alloc, words, *want) {
            return false;
        }
    }
    true
}

const PIPES: &[Row] = &[
    // Nothing, and all in any order and in both forms.
    (&["pipe"], Said::Pipe(None, 1, Shown::Bytes)),
    (
        &["pipe", "--config", "c", "--batch", "3", "--history"],
        Said::Pipe(Some("c"), 3, Shown::Text),
    ),
    (
        &["pipe", "--config=c", "--batch=3", "--history"],
        Said::Pipe(Some("c"), 3, Shown::Text),
    ),
    (
        &["pipe", "--history", "--batch", "3", "--config", "c"],
        Said::Pipe(Some("c"), 3, Shown::Text),
    ),
    (
        &["pipe", "--batch=3", "--history", "--config", "c"],
        Said::Pipe(Some("c"), 3, Shown::Text),
    ),
    (
        &["pipe", "--batch", "3", "--config=c", "--history"],
        Said::Pipe(Some("c"), 3, Shown::Text),
    ),
    // Each alone, in both forms.
    (
        &["pipe", "--config", "c"],
        Said::Pipe(Some("c"), 1, Shown::Bytes),
    ),
    (
        &["pipe", "--config=c"],
        Said::Pipe(Some("c"), 1, Shown::Bytes),
    ),
    (&["pipe", "--batch", "3"], Said::Pipe(None, 3, Shown::Bytes)),
    (&["pipe", "--batch=3"], Said::Pipe(None, 3, Shown::Bytes)),
    (&["pipe", "--history"], Said::Pipe(None, 1, Shown::Text)),
    (&["pipe", "--trace"], Said::Pipe(None, 1, Shown::Trace)),
    // The trace with all others, and with the text of the history, which it excludes.
    (
        &["pipe", "--trace", "--batch=3", "--config", "c"],
        Said::Pipe(Some("c"), 3, Shown::Trace),
    ),
    (&["pipe", "--history", "--trace"], Said::Unread),
    (&["pipe", "--trace", "--history"], Said::Unread),
    (
        &["pipe", "--trace", "--batch", "3", "--history"],
        Said::Unread,
    ),
    (&["pipe", "--trace", "--trace"], Said::Unread),
    (&["pipe", "--trace="], Said::Unread),
    (&["pipe", "--trace", "true"], Said::Unread),
    // Each left out.
    (
        &["pipe", "--history", "--batch=3"],
        Said::Pipe(None, 3, Shown::Text),
    ),
    (
        &["pipe", "--history", "--config", "c"],
        Said::Pipe(Some("c"), 1, Shown::Text),
    ),
    (
        &["pipe", "--batch", "3", "--config", "c"],
        Said::Pipe(Some("c"), 3, Shown::Bytes),
    ),
    // Each twice.
    (&["pipe", "--config", "c", "--config", "c"], Said::Unread),
    (
        &["pipe", "--config=c", "--batch", "3", "--config", "d"],
        Said::Unread,
    ),
    (&["pipe", "--batch", "3", "--batch=3"], Said::Unread),
    (
        &["pipe", "--history", "--config", "c", "--history"],
        Said::Unread,
    ),
    // Without a value, with an empty one, and a switch with one.
    (&["pipe", "--config"], Said::Unread),
    (&["pipe", "--history", "--batch"], Said::Unread),
    (
        &["pipe", "--config="],
        Said::Pipe(Some(""), 1, Shown::Bytes),
    ),
    (
        &["pipe", "--config", ""],
        Said::Pipe(Some(""), 1, Shown::Bytes),
    ),
    (&["pipe", "--batch="], Said::Unread),
    (&["pipe", "--batch", ""], Said::Unread),
    (&["pipe", "--history="], Said::Unread),
    (&["pipe", "--history=true"], Said::Unread),
    (&["pipe", "--history", "true"], Said::Unread),
    // A value that begins with a dash.
    (&["pipe", "--config", "-c"], Said::Unread),
    (&["pipe", "--config", "--history"], Said::Unread),
    (
        &["pipe", "--config=-c"],
        Said::Pipe(Some("-c"), 1, Shown::Bytes),
    ),
    (
        &["pipe", "--config=--history"],
        Said::Pipe(Some("--history"), 1, Shown::Bytes),
    ),
    (
        &["pipe", "--config=a=b"],
        Said::Pipe(Some("a=b"), 1, Shown::Bytes),
    ),
    (&["pipe", "--batch", "-5"], Said::Unread),
    (&["pipe", "--batch=-5"], Said::Unread),
    // Numbers.
    (&["pipe", "--batch", "0"], Said::Unread),
    (&["pipe", "--batch", "1"], Said::Pipe(None, 1, Shown::Bytes)),
    (
        &["pipe", "--batch", "64"],
        Said::Pipe(None, 64, Shown::Bytes),
    ),
    (&["pipe", "--batch", "65"], Said::Unread),
    (&["pipe", "--batch=65"], Said::Unread),
    (
        &["pipe", "--batch", "007"],
        Said::Pipe(None, 7, Shown::Bytes),
    ),
    (
        &["pipe", "--batch=0000000064"],
        Said::Pipe(None, 64, Shown::Bytes),
    ),
    (&["pipe", "--batch", "00000000064"], Said::Unread),
    (&["pipe", "--batch", "9999999999"], Said::Unread),
    (&["pipe", "--batch=65537"], Said::Unread),
    (&["pipe", "--batch", "+7"], Said::Unread),
    (&["pipe", "--batch=+7"], Said::Unread),
    (&["pipe", "--batch", "7 "], Said::Unread),
    (&["pipe", "--batch", "x"], Said::Unread),
    // Words that the pipe does not take.
    (&["pipe", "c"], Said::Unread),
    (&["pipe", ""], Said::Unread),
    (&["pipe", "--config", "c", "d"], Said::Unread),
    (&["pipe", "--fragment", "24"], Said::Unread),
    (&["pipe", "--conf", "c"], Said::Unread),
    (&["pipe", "--listen", "h:1"], Said::Unread),
    (&["pipe", "--file=f"], Said::Unread),
    (&["pipe", "pipe"], Said::Unread),
    (&["pipe", "--help"], Said::Unread),
    (&["pipe", "-h"], Said::Unread),
    (&["pipe", "--version"], Said::Unread),
    (&["pipe", "-"], Said::Unread),
    (&["pipe", "--"], Said::Unread),
    (&["pipe", "--", "--history"], Said::Unread),
    (&["pipe", "--history", "--"], Said::Unread),
    (&["pipe", "-history"], Said::Unread),
    // A word with a NUL.
    (&["pipe", "--config", "c\0"], Said::Unread),
    (&["pipe", "--config=\0"], Said::Unread),
    (&["pipe", "--batch", "3\0"], Said::Unread),
    (&["pipe", "--history\0"], Said::Unread),
];

#[test]
fn the_words_of_pipe(rt: HostRuntime) {
    assert!(rt; all_mean(rt.alloc(), PIPES));
}

const SERVES: &[Row] = &[
    // Nothing, and all in any order and in both forms.
    (&["serve"], Said::Unread),
    (
        &["serve", "--config", "c", "--listen", "h:1"],
        Said::Serve("c", "h", 1, 1, false),
    ),
    (
        &["serve", "--config=c", "--listen=h:1"],
        Said::Serve("c", "h", 1, 1, false),
    ),
    (
        &["serve", "--listen", "h:1", "--config", "c"],
        Said::Serve("c", "h", 1, 1, false),
    ),
    (
        &["serve", "--listen=h:1", "--config", "c"],
        Said::Serve("c", "h", 1, 1, false),
    ),
    // Each alone, which leaves out the other.
    (&["serve", "--config", "c"], Said::Unread),
    (&["serve", "--config=c"], Said::Unread),
    (&["serve", "--listen", "h:1"], Said::Unread),
    (&["serve", "--listen=h:1"], Said::Unread),
    // Each twice.
    (
        &["serve", "--config", "c", "--listen", "h:1", "--config", "c"],
        Said::Unread,
    ),
    (
        &["serve", "--listen=h:1", "--config", "c", "--listen", "h:1"],
        Said::Unread,
    ),
    // Without a value, with an empty one, and with a dash.
    (&["serve", "--config", "c", "--listen"], Said::Unread),
    (
        &["serve", "--config=", "--listen=h:1"],
        Said::Serve("", "h", 1, 1, false),
    ),
    (&["serve", "--config=c", "--listen="], Said::Unread),
    (
        &["serve", "--config", "-c", "--listen", "h:1"],
        Said::Unread,
    ),
    (
        &["serve", "--config=-c", "--listen=-h:1"],
        Said::Serve("-c", "-h", 1, 1, false),
    ),
    (
        &["serve", "--config", "c", "--listen", "-h:1"],
        Said::Unread,
    ),
    // Addresses.
    (&["serve", "--config", "c", "--listen", "h"], Said::Unread),
    (&["serve", "--config", "c", "--listen", "h:"], Said::Unread),
    (&["serve", "--config", "c", "--listen", ":1"], Said::Unread),
    (&["serve", "--config", "c", "--listen", "h:0"], Said::Unread),
    (
        &["serve", "--config", "c", "--listen", "h:65535"],
        Said::Serve("c", "h", 65535, 1, false),
    ),
    (
        &["serve", "--config", "c", "--listen", "h:65536"],
        Said::Unread,
    ),
    (
        &["serve", "--config", "c", "--listen", "h:0000000080"],
        Said::Serve("c", "h", 80, 1, false),
    ),
    (
        &["serve", "--config", "c", "--listen=h:00000000080"],
        Said::Unread,
    ),
    (
        &["serve", "--config", "c", "--listen", "h:+1"],
        Said::Unread,
    ),
    (&["serve", "--config", "c", "--listen=h:-1"], Said::Unread),
    (
        &["serve", "--config", "c", "--listen", "h:1:1"],
        Said::Unread,
    ),
    (
        &["serve", "--config", "c", "--listen", "h: 1"],
        Said::Unread,
    ),
    // The number of runs, and the trace.
    (
        &[
            "serve", "--config", "c", "--listen", "h:1", "--runs", "3", "--trace",
        ],
        Said::Serve("c", "h", 1, 3, true),
    ),
    (
        &["serve", "--trace", "--runs=3", "--listen=h:1", "--config=c"],
        Said::Serve("c", "h", 1, 3, true),
    ),
    (
        &["serve", "--config=c", "--listen=h:1", "--trace"],
        Said::Serve("c", "h", 1, 1, true),
    ),
    (
        &["serve", "--config=c", "--listen=h:1", "--runs", "1"],
        Said::Serve("c", "h", 1, 1, false),
    ),
    (
        &["serve", "--config=c", "--listen=h:1", "--runs", "16"],
        Said::Serve("c", "h", 1, 16, false),
    ),
    (
        &["serve", "--config=c", "--listen=h:1", "--runs=0000000016"],
        Said::Serve("c", "h", 1, 16, false),
    ),
    (
        &["serve", "--config=c", "--listen=h:1", "--runs=00000000016"],
        Said::Unread,
    ),
    (
        &["serve", "--config=c", "--listen=h:1", "--runs", "0"],
        Said::Unread,
    ),
    (
        &["serve", "--config=c", "--listen=h:1", "--runs", "17"],
        Said::Unread,
    ),
    (
        &["serve", "--config=c", "--listen=h:1", "--runs=65537"],
        Said::Unread,
    ),
    (
        &["serve", "--config=c", "--listen=h:1", "--runs=x"],
        Said::Unread,
    ),
    (
        &["serve", "--config=c", "--listen=h:1", "--runs="],
        Said::Unread,
    ),
    (
        &[
            "serve",
            "--config=c",
            "--listen=h:1",
            "--runs=2",
            "--runs=2",
        ],
        Said::Unread,
    ),
    (
        &["serve", "--config=c", "--listen=h:1", "--runs"],
        Said::Unread,
    ),
    (
        &["serve", "--config=c", "--listen=h:1", "--runs", ""],
        Said::Unread,
    ),
    (
        &["serve", "--config=c", "--listen=h:1", "--runs", "-3"],
        Said::Unread,
    ),
    (
        &["serve", "--config=c", "--listen=h:1", "--runs=-3"],
        Said::Unread,
    ),
    (
        &["serve", "--config=c", "--listen=h:1", "--runs=+3"],
        Said::Unread,
    ),
    (
        &["serve", "--listen=h:1", "--runs=2", "--trace"],
        Said::Unread,
    ),
    (
        &["serve", "--config=c", "--runs=2", "--trace"],
        Said::Unread,
    ),
    (
        &["serve", "--config=c", "--listen=h:1", "--trace", "--trace"],
        Said::Unread,
    ),
    (
        &["serve", "--config=c", "--listen=h:1", "--trace="],
        Said::Unread,
    ),
    (
        &["serve", "--config=c", "--listen=h:1", "--trace", "true"],
        Said::Unread,
    ),
    (
        &[
            "serve",
            "--config=c",
            "--listen=h:1",
            "--trace",
            "--history",
        ],
        Said::Unread,
    ),
    // Words that the server does not take.
    (
        &["serve", "--config", "c", "--listen", "h:1", "d"],
        Said::Unread,
    ),
    (&["serve", "--config", "c", "h:1"], Said::Unread),
    (
        &["serve", "--config", "c", "--listen", "h:1", "--history"],
        Said::Unread,
    ),
    (
        &["serve", "--config", "c", "--listen", "h:1", "--at=h:1"],
        Said::Unread,
    ),
    (
        &["serve", "--config", "c", "--listen", "h:1", "--callers=2"],
        Said::Unread,
    ),
    (
        &["serve", "--config", "c", "--listen", "h:1", "--help"],
        Said::Unread,
    ),
    (
        &["serve", "--config", "c", "--listen", "h:1", "-h"],
        Said::Unread,
    ),
    (
        &["serve", "--config", "c", "--listen", "h:1", "--"],
        Said::Unread,
    ),
    (
        &["serve", "--", "--config", "c", "--listen", "h:1"],
        Said::Unread,
    ),
    (&["serve", "--help"], Said::Unread),
    (&["serve", "--version"], Said::Unread),
    // A word with a NUL.
    (
        &["serve", "--config", "c\0", "--listen", "h:1"],
        Said::Unread,
    ),
    (
        &["serve", "--config", "c", "--listen", "h\0:1"],
        Said::Unread,
    ),
];

#[test]
fn the_words_of_serve(rt: HostRuntime) {
    assert!(rt; all_mean(rt.alloc(), SERVES));
}

const REFS: &[Row] = &[
    (&["refs"], Said::Refs),
    (
        &["refs", "--at", "h:1", "--config", "c"],
        Said::RefsAt("h", 1, Some("c")),
    ),
    (
        &["refs", "--config", "c", "--at", "h:1"],
        Said::RefsAt("h", 1, Some("c")),
    ),
    (
        &["refs", "--config=c", "--at=h:1"],
        Said::RefsAt("h", 1, Some("c")),
    ),
    (&["refs", "--at", "h:1"], Said::RefsAt("h", 1, None)),
    (&["refs", "--at=h:65535"], Said::RefsAt("h", 65535, None)),
    // A configuration without an address.
    (&["refs", "--config", "c"], Said::Unread),
    (&["refs", "--config=c"], Said::Unread),
    // Each twice.
    (&["refs", "--at", "h:1", "--at", "h:1"], Said::Unread),
    (
        &["refs", "--config=c", "--at=h:1", "--config=c"],
        Said::Unread,
    ),
    // Without a value, with an empty one, and with a dash.
    (&["refs", "--at"], Said::Unread),
    (&["refs", "--at", "h:1", "--config"], Said::Unread),
    (&["refs", "--at="], Said::Unread),
    (
        &["refs", "--at=h:1", "--config="],
        Said::RefsAt("h", 1, Some("")),
    ),
    (&["refs", "--at", "-h:1"], Said::Unread),
    (&["refs", "--at=-h:1"], Said::RefsAt("-h", 1, None)),
    (&["refs", "--at", "h:1", "--config", "-c"], Said::Unread),
    // Addresses.
    (&["refs", "--at", "h:0"], Said::Unread),
    (&["refs", "--at", "h:65536"], Said::Unread),
    (&["refs", "--at=h:0000000001"], Said::RefsAt("h", 1, None)),
    (&["refs", "--at", "h:00000000001"], Said::Unread),
    (&["refs", "--at", "h"], Said::Unread),
    // Words that are no options of it.
    (&["refs", "h:1"], Said::Unread),
    (&["refs", "--at", "h:1", "c"], Said::Unread),
    (&["refs", "--at", "h:1", "--listen", "h:1"], Said::Unread),
    (&["refs", "--at", "h:1", "--history"], Said::Unread),
    (&["refs", "--help"], Said::Unread),
    (&["refs", "-h"], Said::Unread),
    (&["refs", "--version"], Said::Unread),
    (&["refs", "--"], Said::Unread),
    (&["refs", "-"], Said::Unread),
    (&["refs", "--at", "h:1", "--config", "c\0"], Said::Unread),
];

#[test]
fn the_words_of_refs(rt: HostRuntime) {
    assert!(rt; all_mean(rt.alloc(), REFS));
}

const DUMPS: &[Row] = &[
    (&["dump"], Said::Dump),
    (&["dump", "x"], Said::Unread),
    (&["dump", ""], Said::Unread),
    (&["dump", "\0"], Said::Unread),
    (&["dump", "--config", "c"], Said::Unread),
    (&["dump", "--history"], Said::Unread),
    (&["dump", "--help"], Said::Unread),
    (&["dump", "-h"], Said::Unread),
    (&["dump", "--version"], Said::Unread),
    (&["dump", "-"], Said::Unread),
    (&["dump", "--"], Said::Unread),
];

#[test]
fn the_words_of_dump(rt: HostRuntime) {
    assert!(rt; all_mean(rt.alloc(), DUMPS));
}

const NAMES: &[Row] = &[
    (&["names", "--listen", "h:1"], Said::Names("h", 1)),
    (
        &["names", "--listen=127.0.0.1:65535"],
        Said::Names("127.0.0.1", 65_535),
    ),
    (&["names", "--listen", "h:0"], Said::Unread),
    (&["names", "--listen", "h:65536"], Said::Unread),
    (&["names", "--listen", "h"], Said::Unread),
    (&["names", "--listen", ":1"], Said::Unread),
    (&["names", "--listen"], Said::Unread),
    (&["names"], Said::Unread),
    (&["names", "h:1"], Said::Unread),
    (
        &["names", "--listen", "h:1", "--listen", "h:1"],
        Said::Unread,
    ),
    (&["names", "--listen", "h:1", "--config", "c"], Said::Unread),
    (&["names", "--listen", "h:1", "--runs", "2"], Said::Unread),
    (&["names", "--listen", "h:1", "x"], Said::Unread),
    (&["names", "--listen", "h\0:1"], Said::Unread),
    (&["names", "--help"], Said::Unread),
];

#[test]
fn the_words_of_names(rt: HostRuntime) {
    assert!(rt; all_mean(rt.alloc(), NAMES));
}

const AUDITS: &[Row] = &[
    (&["audit"], Said::Audit),
    (&["audit", "x"], Said::Unread),
    (&["audit", ""], Said::Unread),
    (&["audit", "\0"], Said::Unread),
    (&["audit", "--config", "c"], Said::Unread),
    (&["audit", "--history"], Said::Unread),
    (&["audit", "--trace"], Said::Unread),
    (&["audit", "--file=f"], Said::Unread),
    (&["audit", "--help"], Said::Unread),
    (&["audit", "-h"], Said::Unread),
    (&["audit", "--version"], Said::Unread),
    (&["audit", "-"], Said::Unread),
    (&["audit", "--"], Said::Unread),
    (&["audit", "audit"], Said::Unread),
];

#[test]
fn the_words_of_audit(rt: HostRuntime) {
    assert!(rt; all_mean(rt.alloc(), AUDITS));
}

const IDLS: &[Row] = &[
    (&["idl"], Said::Unread),
    (&["idl", "--file", "f"], Said::Idl("f")),
    (&["idl", "--file=f"], Said::Idl("f")),
    (&["idl", "--file="], Said::Idl("")),
    (&["idl", "--file", ""], Said::Idl("")),
    (&["idl", "--file=-f"], Said::Idl("-f")),
    (&["idl", "--file", "-f"], Said::Unread),
    (&["idl", "--file"], Said::Unread),
    (&["idl", "--file", "f", "--file=f"], Said::Unread),
    (&["idl", "--file", "f", "g"], Said::Unread),
    (&["idl", "f"], Said::Unread),
    (&["idl", "--file", "f", "--config", "c"], Said::Unread),
    (&["idl", "--idl=f"], Said::Unread),
    (&["idl", "--help"], Said::Unread),
    (&["idl", "-h"], Said::Unread),
    (&["idl", "--version"], Said::Unread),
    (&["idl", "--"], Said::Unread),
    (&["idl", "--", "--file", "f"], Said::Unread),
    (&["idl", "--file", "f\0"], Said::Unread),
];

#[test]
fn the_words_of_idl(rt: HostRuntime) {
    assert!(rt; all_mean(rt.alloc(), IDLS));
}

const CALLS: &[Row] = &[
    (&["call"], Said::Unread),
    (&["call", "--ref", "r", "--op", "o"], Said::Call(CALL)),
    (&["call", "--op=o", "--ref=r"], Said::Call(CALL)),
    // Each that is due left out.
    (&["call", "--ref", "r"], Said::Unread),
    (&["call", "--op", "o"], Said::Unread),
    // All, in both forms and in another order.
    (
        &[
            "call",
            "--ref",
            "r",
            "--op",
            "o",
            "--args",
            "[1, 2]",
            "--priority",
            "7",
            "--idl",
            "f",
            "--interface",
            "i",
        ],
        Said::Call(WHOLE_CALL),
    ),
    (
        &[
            "call",
            "--interface=i",
            "--idl=f",
            "--priority=7",
            "--args=[1, 2]",
            "--op=o",
            "--ref=r",
        ],
        Said::Call(WHOLE_CALL),
    ),
    // Each other option alone beside these two, in both forms.
    (
        &["call", "--ref=r", "--op=o", "--args", "[]"],
        Said::Call(CallSaid {
            arguments: Some("[]"),
            ..CALL
        }),
    ),
    (
        &["call", "--ref=r", "--op=o", "--args=[]"],
        Said::Call(CallSaid {
            arguments: Some("[]"),
            ..CALL
        }),
    ),
    (
        &["call", "--ref=r", "--op=o", "--priority", "7"],
        Said::Call(CallSaid {
            priority: Some(7),
            ..CALL
        }),
    ),
    (
        &["call", "--ref=r", "--op=o", "--priority=7"],
        Said::Call(CallSaid {
            priority: Some(7),
            ..CALL
        }),
    ),
    (
        &["call", "--ref=r", "--op=o", "--idl", "f"],
        Said::Call(CallSaid {
            idl: Some("f"),
            ..CALL
        }),
    ),
    (
        &["call", "--ref=r", "--op=o", "--idl=f"],
        Said::Call(CallSaid {
            idl: Some("f"),
            ..CALL
        }),
    ),
    (
        &["call", "--ref=r", "--op=o", "--interface", "i"],
        Said::Call(CallSaid {
            interface: Some("i"),
            ..CALL
        }),
    ),
    (
        &["call", "--ref=r", "--op=o", "--interface=i"],
        Said::Call(CallSaid {
            interface: Some("i"),
            ..CALL
        }),
    ),
];

/// Calls with options left out, last without a value, and twice.
const CALL_PARTS: &[Row] = &[
    // Each left out of all.
    (
        &[
            "call",
            "--op=o",
            "--args=[1, 2]",
            "--priority=7",
            "--idl=f",
            "--interface=i",
        ],
        Said::Unread,
    ),
    (
        &[
            "call",
            "--ref=r",
            "--args=[1, 2]",
            "--priority=7",
            "--idl=f",
            "--interface=i",
        ],
        Said::Unread,
    ),
    (
        &[
            "call",
            "--ref=r",
            "--op=o",
            "--priority=7",
            "--idl=f",
            "--interface=i",
        ],
        Said::Call(CallSaid {
            arguments: None,
            ..WHOLE_CALL
        }),
    ),
    (
        &[
            "call",
            "--ref=r",
            "--op=o",
            "--args=[1, 2]",
            "--idl=f",
            "--interface=i",
        ],
        Said::Call(CallSaid {
            priority: None,
            ..WHOLE_CALL
        }),
    ),
    (
        &[
            "call",
            "--ref=r",
            "--op=o",
            "--args=[1, 2]",
            "--priority=7",
            "--interface=i",
        ],
        Said::Call(CallSaid {
            idl: None,
            ..WHOLE_CALL
        }),
    ),
    (
        &[
            "call",
            "--ref=r",
            "--op=o",
            "--args=[1, 2]",
            "--priority=7",
            "--idl=f",
        ],
        Said::Call(CallSaid {
            interface: None,
            ..WHOLE_CALL
        }),
    ),
    // Each last, without a value.
    (&["call", "--op=o", "--ref"], Said::Unread),
    (&["call", "--ref=r", "--op"], Said::Unread),
    (&["call", "--ref=r", "--op=o", "--args"], Said::Unread),
    (&["call", "--ref=r", "--op=o", "--priority"], Said::Unread),
    (&["call", "--ref=r", "--op=o", "--idl"], Said::Unread),
    (&["call", "--ref=r", "--op=o", "--interface"], Said::Unread),
    // Each twice.
    (&["call", "--ref=r", "--op=o", "--ref=r"], Said::Unread),
    (&["call", "--ref=r", "--op=o", "--op", "o"], Said::Unread),
    (
        &["call", "--ref=r", "--op=o", "--args=[]", "--args=[]"],
        Said::Unread,
    ),
    (
        &["call", "--ref=r", "--op=o", "--priority=1", "--priority=1"],
        Said::Unread,
    ),
    (
        &["call", "--ref=r", "--op=o", "--idl=f", "--idl=f"],
        Said::Unread,
    ),
    (
        &[
            "call",
            "--ref=r",
            "--op=o",
            "--interface=i",
            "--interface=i",
        ],
        Said::Unread,
    ),
];

/// Calls with numbers, and with values that are empty or begin with a dash.
const CALL_VALUES: &[Row] = &[
    // Priorities: both ends and one past, digits, a sign, zeros before.
    (
        &["call", "--ref=r", "--op=o", "--priority=0"],
        Said::Call(CallSaid {
            priority: Some(0),
            ..CALL
        }),
    ),
    (
        &["call", "--ref=r", "--op=o", "--priority=32767"],
        Said::Call(CallSaid {
            priority: Some(32767),
            ..CALL
        }),
    ),
    (
        &["call", "--ref=r", "--op=o", "--priority=0000000007"],
        Said::Call(CallSaid {
            priority: Some(7),
            ..CALL
        }),
    ),
    (
        &["call", "--ref=r", "--op=o", "--priority=32768"],
        Said::Unread,
    ),
    (
        &["call", "--ref=r", "--op=o", "--priority=00000000007"],
        Said::Unread,
    ),
    (
        &["call", "--ref=r", "--op=o", "--priority=+7"],
        Said::Unread,
    ),
    (
        &["call", "--ref=r", "--op=o", "--priority=-7"],
        Said::Unread,
    ),
    (
        &["call", "--ref=r", "--op=o", "--priority", "-7"],
        Said::Unread,
    ),
    (&["call", "--ref=r", "--op=o", "--priority="], Said::Unread),
    (
        &["call", "--ref=r", "--op=o", "--priority=4294967296"],
        Said::Unread,
    ),
    // An empty value, and one with a dash.
    (
        &["call", "--ref=", "--op=o"],
        Said::Call(CallSaid { remote: "", ..CALL }),
    ),
    (
        &["call", "--ref=r", "--op=-o"],
        Said::Call(CallSaid { name: "-o", ..CALL }),
    ),
    (&["call", "--ref=r", "--op", "-o"], Said::Unread),
    (
        &["call", "--ref=r", "--op="],
        Said::Call(CallSaid { name: "", ..CALL }),
    ),
    (
        &["call", "--ref=r", "--op=o", "--args="],
        Said::Call(CallSaid {
            arguments: Some(""),
            ..CALL
        }),
    ),
    (
        &["call", "--ref=r", "--op=o", "--idl="],
        Said::Call(CallSaid {
            idl: Some(""),
            ..CALL
        }),
    ),
    (
        &["call", "--ref=r", "--op=o", "--interface="],
        Said::Call(CallSaid {
            interface: Some(""),
            ..CALL
        }),
    ),
    (
        &["call", "--ref=r", "--op=o", "--args", ""],
        Said::Call(CallSaid {
            arguments: Some(""),
            ..CALL
        }),
    ),
    (
        &["call", "--ref=r", "--op=o", "--priority", ""],
        Said::Unread,
    ),
    (&["call", "--ref=r", "--op=o", "--args", "-1"], Said::Unread),
    (
        &["call", "--ref=r", "--op=o", "--args=-1"],
        Said::Call(CallSaid {
            arguments: Some("-1"),
            ..CALL
        }),
    ),
    (&["call", "--ref=r", "--op=o", "--idl", "-f"], Said::Unread),
    (
        &["call", "--ref=r", "--op=o", "--idl=-f"],
        Said::Call(CallSaid {
            idl: Some("-f"),
            ..CALL
        }),
    ),
    (
        &["call", "--ref=r", "--op=o", "--interface", "-i"],
        Said::Unread,
    ),
    (
        &["call", "--ref=r", "--op=o", "--interface=-i"],
        Said::Call(CallSaid {
            interface: Some("-i"),
            ..CALL
        }),
    ),
    (&["call", "--op=o", "--ref", "-r"], Said::Unread),
    (
        &["call", "--op=o", "--ref=-r"],
        Said::Call(CallSaid {
            remote: "-r",
            ..CALL
        }),
    ),
];

/// Calls with a number of callers.
const CALL_CALLERS: &[Row] = &[
    // Alone beside what is due, in both forms; with all other options, last and first.
    (
        &["call", "--ref=r", "--op=o", "--callers", "16"],
        Said::SharedCall(CALL, 16),
    ),
    (
        &["call", "--ref=r", "--op=o", "--callers=3"],
        Said::SharedCall(CALL, 3),
    ),
    (
        &[
            "call",
            "--ref",
            "r",
            "--op",
            "o",
            "--args",
            "[1, 2]",
            "--priority",
            "7",
            "--idl",
            "f",
            "--interface",
            "i",
            "--callers",
            "2",
        ],
        Said::SharedCall(WHOLE_CALL, 2),
    ),
    (
        &[
            "call",
            "--callers=2",
            "--interface=i",
            "--idl=f",
            "--priority=7",
            "--args=[1, 2]",
            "--op=o",
            "--ref=r",
        ],
        Said::SharedCall(WHOLE_CALL, 2),
    ),
    // What is due left out.
    (&["call", "--ref=r", "--callers=2"], Said::Unread),
    (&["call", "--op=o", "--callers=2"], Said::Unread),
    // Twice, and last without a value.
    (
        &["call", "--ref=r", "--op=o", "--callers=2", "--callers=2"],
        Said::Unread,
    ),
    (&["call", "--ref=r", "--op=o", "--callers"], Said::Unread),
    // Numbers: both ends and one past, digits, a sign, zeros before.
    (
        &["call", "--ref=r", "--op=o", "--callers", "1"],
        Said::SharedCall(CALL, 1),
    ),
    (
        &["call", "--ref=r", "--op=o", "--callers", "0"],
        Said::Unread,
    ),
    (
        &["call", "--ref=r", "--op=o", "--callers", "17"],
        Said::Unread,
    ),
    (
        &["call", "--ref=r", "--op=o", "--callers=0000000016"],
        Said::SharedCall(CALL, 16),
    ),
    (
        &["call", "--ref=r", "--op=o", "--callers=00000000016"],
        Said::Unread,
    ),
    (
        &["call", "--ref=r", "--op=o", "--callers=65537"],
        Said::Unread,
    ),
    (
        &["call", "--ref=r", "--op=o", "--callers", "-1"],
        Said::Unread,
    ),
    (&["call", "--ref=r", "--op=o", "--callers=-1"], Said::Unread),
    (&["call", "--ref=r", "--op=o", "--callers=+1"], Said::Unread),
    (&["call", "--ref=r", "--op=o", "--callers="], Said::Unread),
    (
        &["call", "--ref=r", "--op=o", "--callers", "x"],
        Said::Unread,
    ),
    // Another number that is none that it may be.
    (
        &["call", "--ref=r", "--op=o", "--callers=2", "--priority=x"],
        Said::Unread,
    ),
    // A word with a NUL.
    (
        &["call", "--ref=r", "--op=o", "--callers=2\0"],
        Said::Unread,
    ),
];

/// Calls with other words.
const CALL_STRANGERS: &[Row] = &[
    // Words that are no options of it.
    (&["call", "r", "--ref=r", "--op=o"], Said::Unread),
    (&["call", "--ref=r", "--op=o", "--config=c"], Said::Unread),
    (&["call", "--ref=r", "--op=o", "x"], Said::Unread),
    (&["call", "--ref=r", "--op=o", "--history"], Said::Unread),
    (&["call", "--ref=r", "--op=o", "--trace"], Said::Unread),
    (&["call", "--ref=r", "--op=o", "--listen=h:1"], Said::Unread),
    (&["call", "--ref=r", "--op=o", "--file=f"], Said::Unread),
    (
        &["call", "--ref=r", "--op=o", "--fragment=24"],
        Said::Unread,
    ),
    (&["call", "--help"], Said::Unread),
    (&["call", "--version"], Said::Unread),
    (&["call", "--ref=r", "--op=o", "--version"], Said::Unread),
    (&["call", "--ref=r", "--op=o", "-"], Said::Unread),
    (&["call", "--ref=r", "--op=o", "-h"], Said::Unread),
    (&["call", "--ref=r", "--op=o", "--"], Said::Unread),
    (&["call", "--", "--ref=r", "--op=o"], Said::Unread),
    (&["call", "--ref=r", "--op=o", "--args=[]\0"], Said::Unread),
];

#[test]
fn the_words_of_call(rt: HostRuntime) {
    assert!(rt; all_mean(rt.alloc(), CALLS));
}

#[test]
fn each_option_of_call_may_be_left_out_and_has_one_value(rt: HostRuntime) {
    assert!(rt; all_mean(rt.alloc(), CALL_PARTS));
}

#[test]
fn the_values_of_call(rt: HostRuntime) {
    assert!(rt; all_mean(rt.alloc(), CALL_VALUES));
}

#[test]
fn the_callers_of_call(rt: HostRuntime) {
    assert!(rt; all_mean(rt.alloc(), CALL_CALLERS));
}

#[test]
fn other_words_of_call(rt: HostRuntime) {
    assert!(rt; all_mean(rt.alloc(), CALL_STRANGERS));
}

const LOADS: &[Row] = &[
    (&["load"], Said::Unread),
    (&["load", "0"], Said::Unread),
    (&["load", "0", "1"], Said::Load(LOAD)),
    (&["load", "0", "1", "2"], Said::Unread),
    // All, in both forms; the two numbers may come among the options.
    (
        &[
            "load",
            "5",
            "9",
            "--config",
            "c",
            "--batch",
            "3",
            "--fragment",
            "32",
        ],
        Said::Load(WHOLE_LOAD),
    ),
    (
        &["load", "--fragment=32", "5", "--batch=3", "9", "--config=c"],
        Said::Load(WHOLE_LOAD),
    ),
    // Each option alone, in both forms.
    (
        &["load", "0", "1", "--config", "c"],
        Said::Load(LoadSaid {
            config: Some("c"),
            ..LOAD
        }),
    ),
    (
        &["load", "0", "1", "--config=c"],
        Said::Load(LoadSaid {
            config: Some("c"),
            ..LOAD
        }),
    ),
    (
        &["load", "0", "1", "--batch", "3"],
        Said::Load(LoadSaid { batch: 3, ..LOAD }),
    ),
    (
        &["load", "0", "1", "--batch=3"],
        Said::Load(LoadSaid { batch: 3, ..LOAD }),
    ),
    (
        &["load", "0", "1", "--fragment", "32"],
        Said::Load(LoadSaid {
            fragment: Some(32),
            ..LOAD
        }),
    ),
    (
        &["load", "0", "1", "--fragment=32"],
        Said::Load(LoadSaid {
            fragment: Some(32),
            ..LOAD
        }),
    ),
    // Each left out of all.
    (
        &["load", "5", "9", "--batch=3", "--fragment=32"],
        Said::Load(LoadSaid {
            config: None,
            ..WHOLE_LOAD
        }),
    ),
    (
        &["load", "5", "9", "--config=c", "--fragment=32"],
        Said::Load(LoadSaid {
            batch: 1,
            ..WHOLE_LOAD
        }),
    ),
    (
        &["load", "5", "9", "--config=c", "--batch=3"],
        Said::Load(LoadSaid {
            fragment: None,
            ..WHOLE_LOAD
        }),
    ),
    (
        &["load", "9", "--config=c", "--batch=3", "--fragment=32"],
        Said::Unread,
    ),
    // Each last, without a value.
    (&["load", "0", "1", "--config"], Said::Unread),
    (&["load", "0", "1", "--batch"], Said::Unread),
    (&["load", "0", "1", "--fragment"], Said::Unread),
    // Each option twice.
    (
        &["load", "0", "1", "--config=c", "--config=c"],
        Said::Unread,
    ),
    (&["load", "0", "1", "--batch=2", "--batch=2"], Said::Unread),
    (
        &["load", "0", "1", "--fragment=24", "--fragment=24"],
        Said::Unread,
    ),
    // Empty values, and ones with a dash.
    (
        &["load", "0", "1", "--config="],
        Said::Load(LoadSaid {
            config: Some(""),
            ..LOAD
        }),
    ),
    (
        &["load", "0", "1", "--config", ""],
        Said::Load(LoadSaid {
            config: Some(""),
            ..LOAD
        }),
    ),
    (&["load", "0", "1", "--batch="], Said::Unread),
    (&["load", "0", "1", "--batch", ""], Said::Unread),
    (&["load", "0", "1", "--fragment="], Said::Unread),
    (&["load", "0", "1", "--fragment", ""], Said::Unread),
    (&["load", "0", "1", "--config", "-c"], Said::Unread),
    (
        &["load", "0", "1", "--config=-c"],
        Said::Load(LoadSaid {
            config: Some("-c"),
            ..LOAD
        }),
    ),
    (&["load", "0", "1", "--batch", "-3"], Said::Unread),
    (&["load", "0", "1", "--batch=-3"], Said::Unread),
    (&["load", "0", "1", "--fragment", "-32"], Said::Unread),
    (&["load", "0", "1", "--fragment=-32"], Said::Unread),
    // Seeds.
    (
        &["load", "4294967295", "1"],
        Said::Load(LoadSaid {
            seed: 4_294_967_295,
            ..LOAD
        }),
    ),
    (&["load", "4294967296", "1"], Said::Unread),
    (&["load", "0000000000", "1"], Said::Load(LOAD)),
    (&["load", "00000000000", "1"], Said::Unread),
    (&["load", "+0", "1"], Said::Unread),
    (&["load", "-1", "1"], Said::Unread),
    (&["load", "", "1"], Said::Unread),
    (&["load", "0x1", "1"], Said::Unread),
    // Counts.
    (
        &["load", "0", "65536"],
        Said::Load(LoadSaid {
            count: 65_536,
            ..LOAD
        }),
    ),
    (&["load", "0", "65537"], Said::Unread),
    (&["load", "0", "0"], Said::Unread),
    (
        &["load", "0", "009"],
        Said::Load(LoadSaid { count: 9, ..LOAD }),
    ),
    (
        &["load", "0", "0000000009"],
        Said::Load(LoadSaid { count: 9, ..LOAD }),
    ),
    (&["load", "0", "00000000009"], Said::Unread),
    (&["load", "0", "4294967297"], Said::Unread),
    (&["load", "0", "9999999999"], Said::Unread),
    (&["load", "0", "+9"], Said::Unread),
    (&["load", "0", "-9"], Said::Unread),
    (&["load", "0", ""], Said::Unread),
    (&["load", "0", "x"], Said::Unread),
    // Batches.
    (
        &["load", "0", "1", "--batch", "64"],
        Said::Load(LoadSaid { batch: 64, ..LOAD }),
    ),
    (&["load", "0", "1", "--batch", "65"], Said::Unread),
    (&["load", "0", "1", "--batch", "0"], Said::Unread),
    (
        &["load", "0", "1", "--batch=003"],
        Said::Load(LoadSaid { batch: 3, ..LOAD }),
    ),
    (
        &["load", "0", "1", "--batch=0000000003"],
        Said::Load(LoadSaid { batch: 3, ..LOAD }),
    ),
    (&["load", "0", "1", "--batch=00000000003"], Said::Unread),
    (&["load", "0", "1", "--batch=65537"], Said::Unread),
    (&["load", "0", "1", "--batch=4294967297"], Said::Unread),
    (&["load", "0", "1", "--batch=+3"], Said::Unread),
    (&["load", "0", "1", "--batch=x"], Said::Unread),
    // Lengths of pieces.
    (
        &["load", "0", "1", "--fragment=24"],
        Said::Load(LoadSaid {
            fragment: Some(24),
            ..LOAD
        }),
    ),
    (
        &["load", "0", "1", "--fragment=262144"],
        Said::Load(LoadSaid {
            fragment: Some(262_144),
            ..LOAD
        }),
    ),
    (&["load", "0", "1", "--fragment=16"], Said::Unread),
    (&["load", "0", "1", "--fragment=28"], Said::Unread),
    (&["load", "0", "1", "--fragment=262152"], Said::Unread),
    (
        &["load", "0", "1", "--fragment=032"],
        Said::Load(LoadSaid {
            fragment: Some(32),
            ..LOAD
        }),
    ),
    (
        &["load", "0", "1", "--fragment=0000000032"],
        Said::Load(LoadSaid {
            fragment: Some(32),
            ..LOAD
        }),
    ),
    (&["load", "0", "1", "--fragment=00000000032"], Said::Unread),
    (&["load", "0", "1", "--fragment=0"], Said::Unread),
    (&["load", "0", "1", "--fragment=4294967328"], Said::Unread),
    (&["load", "0", "1", "--fragment=+32"], Said::Unread),
    (&["load", "0", "1", "--fragment=x"], Said::Unread),
    // Words that are no items of it.
    (&["load", "0", "1", "--history"], Said::Unread),
    (&["load", "0", "1", "--trace"], Said::Unread),
    (&["load", "0", "1", "--listen=h:1"], Said::Unread),
    (&["load", "0", "1", "--runs=2"], Said::Unread),
    (&["load", "--", "0", "1"], Said::Unread),
    (&["load", "0", "1", "--help"], Said::Unread),
    (&["load", "--help"], Said::Unread),
    (&["load", "--version"], Said::Unread),
    (&["load", "0", "1", "--version"], Said::Unread),
    (&["load", "0", "1", "-h"], Said::Unread),
    (&["load", "0", "1", "-"], Said::Unread),
    (&["load", "0", "1", "--"], Said::Unread),
    (&["load", "0", "1\0"], Said::Unread),
];

#[test]
fn the_words_of_load(rt: HostRuntime) {
    assert!(rt; all_mean(rt.alloc(), LOADS));
}

const FIRSTS: &[Row] = &[
    (&[], Said::Unread),
    (&[""], Said::Unread),
    (&["pipes"], Said::Unread),
    (&["Pipe"], Said::Unread),
    (&["pip"], Said::Unread),
    (&[" pipe"], Said::Unread),
    (&["pipe\0"], Said::Unread),
    (&["--history", "pipe"], Said::Unread),
    (&["--"], Said::Unread),
    (&["--", "pipe"], Said::Unread),
    (&["--pipe"], Said::Unread),
    (&["help"], Said::Unread),
    (&["--help"], Said::Unread),
    (&["-h"], Said::Unread),
    (&["--version"], Said::Unread),
    (&["calls", "--ref=r", "--op=o"], Said::Unread),
    (&["Load", "0", "1"], Said::Unread),
];

#[test]
fn the_first_word_is_a_command(rt: HostRuntime) {
    assert!(rt; all_mean(rt.alloc(), FIRSTS));
}
