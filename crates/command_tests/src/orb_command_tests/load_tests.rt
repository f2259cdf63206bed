//! Loads: their lines and their statuses.

use super::rows::{EMPTY, Left, Row, first_wrong};

/// Three lanes of one thread each, with lending and room for all that waits.
const DAY: &[u8] =
    b"pool = { borrowing = true, buffering = true, max_buffered_requests = 4096, max_request_buffer_size = 16777216, lanes = [{ priority = 10, static = 1, dynamic = 0 }, { priority = 20, static = 1, dynamic = 0 }, { priority = 30, static = 1, dynamic = 0 }] }\nadapter = [{ name = \"main\", model = \"CLIENT_PROPAGATED\", priority = 10 }]\nobject = [{ key = \"ping\", adapter = \"main\", interface = \"IDL:Orb/Ping:1.0\" }]\n";

/// One thread, and at most three calls.
const THREE: &[u8] =
    b"server = { max_calls = 3 }\npool = { static = 1, dynamic = 0, default_priority = 100 }\nadapter = [{ name = \"main\", model = \"CLIENT_PROPAGATED\", priority = 100 }]\nobject = [{ key = \"ping\", adapter = \"main\", interface = \"IDL:Orb/Ping:1.0\" }]\n";

/// A request has 68 bytes and its reply 25.
const ONE: Row<'static> = Row {
    story: "one request to the built-in object",
    words: &["load", "1", "1"],
    input: b"which isn't read",
    output: b"requests 1 run 1 lent 0 kept 0 full 0 replies 1 in 68 out 25\n",
    left: Left::NoPipe,
    ..EMPTY
};

const ROWS: &[Row<'static>] = &[
    ONE,
    Row {
        story: "the same in pieces of 32 bytes: 32, 32, 32 and 20",
        words: &["load", "--fragment=32", "1", "1"],
        output: b"requests 1 run 1 lent 0 kept 0 full 0 replies 1 in 116 out 25\n",
        ..ONE
    },
    Row {
        story: "a limit of three calls",
        words: &["load", "1", "5", "--config", "c"],
        files: &[("c", THREE)],
        status: 13,
        note: "Limit",
        output: b"requests 3 run 3 lent 0 kept 0 full 0 replies 3 in 340 out 87\n",
        ..ONE
    },
    Row {
        story: "a line that can't be written goes before the limit",
        words: &["load", "1", "5", "--config", "c"],
        files: &[("c", THREE)],
        failed_writes: &[0],
        status: 4,
        note: "WriteFault",
        output: &[],
        ..ONE
    },
    Row {
        story: "the greatest seed",
        words: &["load", "4294967295", "1"],
        ..ONE
    },
    Row {
        story: "pieces that are as long as a message may be",
        words: &["load", "0", "1", "--fragment", "262144"],
        ..ONE
    },
    Row {
        story: "a configuration that is no TOML",
        words: &["load", "1", "1", "--config", "c"],
        files: &[("c", b"\xff")],
        status: 2,
        note: "Config(NotToml at )",
        output: &[],
        ..ONE
    },
    Row {
        story: "a configuration that is too long",
        words: &["load", "1", "1", "--config", "c"],
        files: &[("c", b"")],
        blanks: 1_048_577,
        status: 2,
        note: "TooLong(Config)",
        output: &[],
        ..ONE
    },
    Row {
        story: "a configuration that can't be read",
        words: &["load", "1", "1", "--config", "c"],
        files: &[("c", THREE)],
        failed_files: &[0],
        status: 3,
        note: "ReadFault",
        output: &[],
        ..ONE
    },
    Row {
        story: "no such configuration",
        words: &["load", "1", "1", "--config", "none"],
        status: 10,
        note: "Absent(Config)",
        output: &[],
        ..ONE
    },
];

#[test]
fn loads_are_counted_in_one_line(rt: HostRuntime) {
    assert_eq!(rt; first_wrong(&rt, rt.alloc(), ROWS), "");
}

/// Groups of ten over three lanes: of each the first ones run, on their own thread or on a lent one, and the others wait.
const GROUPS: &[Row<'static>] = &[Row {
    story: "500 requests in groups of ten",
    words: &["load", "1", "500", "--config", "c", "--batch", "10"],
    files: &[("c", DAY)],
    output: b"requests 500 run 83 lent 67 kept 350 full 0 replies 500 in 34000 out 12500\n",
    ..ONE
}];

#[test]
fn a_load_in_groups_lends_and_keeps(rt: HostRuntime) {
    assert_eq!(rt; first_wrong(&rt, rt.alloc(), GROUPS), "");
}
