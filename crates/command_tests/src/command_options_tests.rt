//! The words after a command's name, and what they give.

use command_options::*;
use orb_base::NoMemory;
use std::alloc::Global;

/// The commands.
#[derive(Clone, Copy)]
enum Command {
    Pipe,
    Serve,
    Refs,
    Dump,
    Idl,
}

/// A name, and the text that the words give it.
type Given = (&'static str, Option<&'static str>);

/// Words, and what they give; none where they have no reading.
type Row = (&'static [&'static str], Option<&'static [Given]>);

fn read(
    alloc: Global,
    command: Command,
    words: &'static [&'static str],
) -> Result<Option<Options<'static>>, NoMemory> {
    match command {
        Command::Pipe => read_pipe(alloc, words),
        Command::Serve => read_serve(alloc, words),
        Command::Refs => read_refs(alloc, words),
        Command::Dump => read_dump(alloc, words),
        Command::Idl => read_idl(alloc, words),
    }
}

fn is_text(text: Option<&str>, want: Option<&str>) -> bool {
    match (text, want) {
        (Some(text), Some(want)) => text == want,
        (None, None) => true,
        _ => false,
    }
}

/// Whether each name has its text.
fn gives(options: &Options<'static>, want: &[Given]) -> bool {
    for (name, text) in want {
        if !is_text(options.value(name), *text) || options.has(name) != text.is_some() {
            return false;
        }
    }
    true
}

fn is_read(alloc: Global, command: Command, row: Row) -> bool {
    let (words, want) = row;
    match (read(alloc, command, words), want) {
        (Ok(Some(options)), Some(want)) => gives(&options, want),
        (Ok(None), None) => true,
        _ => false,
    }
}

fn all_read(alloc: Global, command: Command, rows: &[Row]) -> bool {
    for row in rows {
        if !is_read(alloc, command, *row) {
            return false;
        }
    }
    true
}

const PIPE_ROWS: &[Row] = &[
    (
        &[],
        Some(&[("config", None), ("batch", None), ("history", None)]),
    ),
    (
        &["--config", "c", "--batch", "3", "--history"],
        Some(&[
            ("config", Some("c")),
            ("batch", Some("3")),
            ("history", Some("true")),
        ]),
    ),
    (
        &["--history", "--batch=3", "--config=c"],
        Some(&[
            ("config", Some("c")),
            ("batch", Some("3")),
            ("history", Some("true")),
        ]),
    ),
    (
        &["--batch", "3", "--history", "--config=c"],
        Some(&[
            ("config", Some("c")),
            ("batch", Some("3")),
            ("history", Some("true")),
        ]),
    ),
    // Each alone, in both forms.
    (
        &["--config", "c"],
        Some(&[("config", Some("c")), ("batch", None), ("history", None)]),
    ),
    (&["--config=c"], Some(&[("config", Some("c"))])),
    (
        &["--batch", "64"],
        Some(&[("config", None), ("batch", Some("64")), ("history", None)]),
    ),
    (&["--batch=64"], Some(&[("batch", Some("64"))])),
    (
        &["--history"],
        Some(&[("config", None), ("batch", None), ("history", Some("true"))]),
    ),
    // Each left out.
    (
        &["--batch", "3", "--history"],
        Some(&[
            ("config", None),
            ("batch", Some("3")),
            ("history", Some("true")),
        ]),
    ),
    (
        &["--config", "c", "--history"],
        Some(&[
            ("config", Some("c")),
            ("batch", None),
            ("history", Some("true")),
        ]),
    ),
    (
        &["--config", "c", "--batch", "3"],
        Some(&[
            ("config", Some("c")),
            ("batch", Some("3")),
            ("history", None),
        ]),
    ),
    // Each twice.
    (&["--config", "c", "--config", "c"], None),
    (&["--config=c", "--batch", "3", "--config", "d"], None),
    (&["--batch", "3", "--batch=3"], None),
    (&["--history", "--history"], None),
    (&["--trace", "--trace"], None),
    (&["--trace="], None),
    (
        &["--trace", "--config=c"],
        Some(&[("config", Some("c")), ("trace", Some("true"))]),
    ),
    (
        &["--history", "--trace"],
        Some(&[("history", Some("true")), ("trace", Some("true"))]),
    ),
    // What a value may be.
    (&["--config="], Some(&[("config", Some(""))])),
    (&["--config", ""], Some(&[("config", Some(""))])),
    (&["--config=-5"], Some(&[("config", Some("-5"))])),
    (&["--config=--"], Some(&[("config", Some("--"))])),
    (
        &["--config=--history"],
        Some(&[("config", Some("--history")), ("history", None)]),
    ),
    (&["--config=a=b"], Some(&[("config", Some("a=b"))])),
    (&["--config=a b"], Some(&[("config", Some("a b"))])),
    (&["--config", "false"], Some(&[("config", Some("false"))])),
    (&["--batch", "none"], Some(&[("batch", Some("none"))])),
    (&["--batch", "-5"], None),
    (&["--config", "--"], None),
    (&["--config", "-"], None),
    (&["--config", "--history"], None),
    (&["--config"], None),
    (&["--history", "--batch"], None),
    (&["--history="], None),
    (&["--history=true"], None),
    (&["--history", "true"], None),
    // Other words.
    (&["c"], None),
    (&[""], None),
    (&["--config", "c", "d"], None),
    (&["--listen", "h:1"], None),
    (&["--file=f"], None),
    (&["--conf", "c"], None),
    (&["--Config", "c"], None),
    (&["-config", "c"], None),
    (&["-c", "c"], None),
    (&["---config", "c"], None),
    (&["--=c"], None),
    (&["--help"], None),
    (&["--help=c"], None),
    (&["help"], None),
    (&["-h"], None),
    (&["--version"], None),
    (&["-V"], None),
    (&["-"], None),
    (&["--"], None),
    (&["--", "--config", "c"], None),
    (&["--history", "--"], None),
    (&["--config", "c", "--", "d"], None),
];

#[test]
fn the_words_of_pipe(rt: HostRuntime) {
    assert!(rt; all_read(rt.alloc(), Command::Pipe, PIPE_ROWS));
}

const SERVE_ROWS: &[Row] = &[
    (&[], None),
    (
        &["--config", "c", "--listen", "h:1"],
        Some(&[("config", Some("c")), ("listen", Some("h:1"))]),
    ),
    (
        &["--listen=h:1", "--config=c"],
        Some(&[("config", Some("c")), ("listen", Some("h:1"))]),
    ),
    (
        &["--listen", "h:1", "--config=c"],
        Some(&[("config", Some("c")), ("listen", Some("h:1"))]),
    ),
    (
        &["--config=", "--listen="],
        Some(&[("config", Some("")), ("listen", Some(""))]),
    ),
    (
        &["--config=-c", "--listen=--"],
        Some(&[("config", Some("-c")), ("listen", Some("--"))]),
    ),
    // The runs and the trace, together and alone.
    (
        &["--config", "c", "--listen", "h:1", "--runs", "3", "--trace"],
        Some(&[
            ("config", Some("c")),
            ("listen", Some("h:1")),
            ("runs", Some("3")),
            ("trace", Some("true")),
        ]),
    ),
    (
        &["--trace", "--runs=3", "--listen=h:1", "--config=c"],
        Some(&[
            ("config", Some("c")),
            ("listen", Some("h:1")),
            ("runs", Some("3")),
            ("trace", Some("true")),
        ]),
    ),
    (
        &["--runs=", "--config=c", "--listen=h:1"],
        Some(&[("runs", Some("")), ("trace", None)]),
    ),
    (
        &["--config=c", "--trace", "--listen=h:1"],
        Some(&[("runs", None), ("trace", Some("true"))]),
    ),
    (&["--runs", "3", "--trace"], None),
    (
        &["--config=c", "--listen=h:1", "--runs=2", "--runs", "2"],
        None,
    ),
    (&["--config=c", "--listen=h:1", "--runs"], None),
    (&["--config=c", "--listen=h:1", "--runs", "-2"], None),
    (&["--config=c", "--listen=h:1", "--trace", "--trace"], None),
    (&["--config=c", "--listen=h:1", "--trace="], None),
    (&["--config=c", "--listen=h:1", "--trace", "2"], None),
    // One is left out.
    (&["--config", "c"], None),
    (&["--config=c"], None),
    (&["--listen", "h:1"], None),
    (&["--listen=h:1"], None),
    (&["--config", "c", "--listen"], None),
    // One is given twice.
    (&["--config", "c", "--listen", "h:1", "--config", "c"], None),
    (&["--listen=h:1", "--config", "c", "--listen", "h:1"], None),
    // A value begins with a dash.
    (&["--config", "-c", "--listen", "h:1"], None),
    (&["--config", "c", "--listen", "--config"], None),
    // Other words.
    (&["--config", "c", "--listen", "h:1", "d"], None),
    (&["--config", "c", "h:1"], None),
    (&["--config", "c", "--listen", "h:1", "--history"], None),
    (&["--config", "c", "--listen", "h:1", "--batch=2"], None),
    (&["--config", "c", "--listen", "h:1", "--at=h:1"], None),
    (&["--config", "c", "--listen", "h:1", "--help"], None),
    (&["--config", "c", "--listen", "h:1", "--version"], None),
    (&["--config", "c", "--listen", "h:1", "-h"], None),
    (&["--config", "c", "--listen", "h:1", "--"], None),
    (&["--", "--config", "c", "--listen", "h:1"], None),
    (&["--help"], None),
    (&["-h"], None),
    (&["--version"], None),
    (&["--"], None),
];

#[test]
fn the_words_of_serve(rt: HostRuntime) {
    assert!(rt; all_read(rt.alloc(), Command::Serve, SERVE_ROWS));
}

const REFS_ROWS: &[Row] = &[
    (&[], Some(&[("at", None), ("config", None)])),
    (
        &["--at", "h:1", "--config", "c"],
        Some(&[("at", Some("h:1")), ("config", Some("c"))]),
    ),
    (
        &["--config=c", "--at=h:1"],
        Some(&[("at", Some("h:1")), ("config", Some("c"))]),
    ),
    (
        &["--at", "h:1"],
        Some(&[("at", Some("h:1")), ("config", None)]),
    ),
    (&["--at=h:1"], Some(&[("at", Some("h:1"))])),
    (
        &["--config", "c"],
        Some(&[("at", None), ("config", Some("c"))]),
    ),
    (
        &["--at=", "--config="],
        Some(&[("at", Some("")), ("config", Some(""))]),
    ),
    (&["--at=-h"], Some(&[("at", Some("-h"))])),
    (&["--at", "-h"], None),
    (&["--at"], None),
    (&["--at", "h:1", "--at", "h:1"], None),
    (&["--config=c", "--config=c", "--at=h:1"], None),
    (&["h:1"], None),
    (&["--at", "h:1", "--listen", "h:1"], None),
    (&["--at", "h:1", "--history"], None),
    (&["--help"], None),
    (&["-h"], None),
    (&["--version"], None),
    (&["--"], None),
];

#[test]
fn the_words_of_refs(rt: HostRuntime) {
    assert!(rt; all_read(rt.alloc(), Command::Refs, REFS_ROWS));
}

const DUMP_ROWS: &[Row] = &[
    (&[], Some(&[("config", None), ("", None)])),
    (&["x"], None),
    (&[""], None),
    (&["--config", "c"], None),
    (&["--config=c"], None),
    (&["--history"], None),
    (&["--help"], None),
    (&["-h"], None),
    (&["--version"], None),
    (&["-"], None),
    (&["--"], None),
];

#[test]
fn the_words_of_dump(rt: HostRuntime) {
    assert!(rt; all_read(rt.alloc(), Command::Dump, DUMP_ROWS));
}

const IDL_ROWS: &[Row] = &[
    (&[], None),
    (&["--file", "f"], Some(&[("file", Some("f"))])),
    (&["--file=f"], Some(&[("file", Some("f"))])),
    (&["--file="], Some(&[("file", Some(""))])),
    (&["--file=-f"], Some(&[("file", Some("-f"))])),
    (&["--file", "-f"], None),
    (&["--file"], None),
    (&["--file", "f", "--file", "f"], None),
    (&["--file", "f", "g"], None),
    (&["f"], None),
    (&["--file", "f", "--config", "c"], None),
    (&["--file", "f", "--idl=f"], None),
    (&["--help"], None),
    (&["-h"], None),
    (&["--version"], None),
    (&["--"], None),
    (&["--", "--file", "f"], None),
];

#[test]
fn the_words_of_idl(rt: HostRuntime) {
    assert!(rt; all_read(rt.alloc(), Command::Idl, IDL_ROWS));
}

const MOVE: [Item<'static>; 4] = [
    Item {
        name: "from",
        kind: Kind::Positional(1),
        is_due: true,
    },
    Item {
        name: "fast",
        kind: Kind::Switch,
        is_due: false,
    },
    Item {
        name: "to",
        kind: Kind::Positional(2),
        is_due: false,
    },
    Item {
        name: "by",
        kind: Kind::Valued,
        is_due: false,
    },
];

const MOVE_ROWS: &[Row] = &[
    (&["a"], Some(&[("from", Some("a")), ("to", None)])),
    (
        &["--by", "x", "a", "--fast", "b"],
        Some(&[
            ("from", Some("a")),
            ("to", Some("b")),
            ("by", Some("x")),
            ("fast", Some("true")),
        ]),
    ),
    (
        &["a", "", "--by=-"],
        Some(&[("from", Some("a")), ("to", Some("")), ("by", Some("-"))]),
    ),
    (&[], None),
    (&["--fast"], None),
    (&["a", "b", "c"], None),
    (&["a", "-1"], None),
    (&["--from", "a"], None),
    (&["a", "--to=b"], None),
];

/// Whether the words of a command with plain words give this.
fn moves(alloc: Global, row: Row) -> bool {
    let (words, want) = row;
    match (read_options(alloc, MOVE.as_slice(), words), want) {
        (Ok(Some(options)), Some(want)) => gives(&options, want),
        (Ok(None), None) => true,
        _ => false,
    }
}

fn all_move(alloc: Global, rows: &[Row]) -> bool {
    for row in rows {
        if !moves(alloc, *row) {
            return false;
        }
    }
    true
}

#[test]
fn plain_words_are_among_the_options(rt: HostRuntime) {
    assert!(rt; all_move(rt.alloc(), MOVE_ROWS));
}
