//! The server over a net in memory: what it reads, writes and answers.

use super::rows::{EMPTY, Left, Row, first_wrong};

/// One slot of one connection, one thread, and room for two requests of 1,024 bytes.
const ONE: &[u8] =
    b"server = { slots = 1, per_slot = 1 }\npool = { static = 1, dynamic = 0, default_priority = 100, buffering = true, max_buffered_requests = 2, max_request_buffer_size = 1024 }\nadapter = [{ name = \"main\", model = \"CLIENT_PROPAGATED\", priority = 100 }]\nobject = [{ key = \"ping\", adapter = \"main\", interface = \"IDL:Orb/Ping:1.0\" }]\n";

/// The request of id 1 for `current` of `ping` at priority 5, and its reply, a short: CORBA 3.0.3, sections 15.4.2 and 15.4.3.
const PING: &[u8] =
    b"GIOP\x01\x02\0\0\0\0\0\x30\0\0\0\x01\x03\0\0\0\0\0\0\0\0\0\0\x04ping\0\0\0\x08current\0\0\0\0\x01\0\0\0\x0a\0\0\0\x04\0\0\0\x05";

const REPLY: &[u8] = b"GIOP\x01\x02\0\x01\0\0\0\x0e\0\0\0\x01\0\0\0\0\0\0\0\0\0\x05";

const LINE: &[u8] = b"calls 1 run 1 lent 0 kept 0 full 0 removed 0 connections 1\n";

const TWICE: &[u8] =
    b"calls 1 run 1 lent 0 kept 0 full 0 removed 0 connections 1\ncalls 1 run 1 lent 0 kept 0 full 0 removed 0 connections 1\n";

/// The line of a run that serves, and that of one to which no client comes.
const ALONE: &[u8] =
    b"calls 1 run 1 lent 0 kept 0 full 0 removed 0 connections 1\ncalls 0 run 0 lent 0 kept 0 full 0 removed 0 connections 0\n";

/// The trace of a run to which no client comes, and its line.
const TRACE: &[u8] =
    b"pool 0 0 1 2 1024 65536 67108864 1 1\nlane 100 1 0\n1 leave 0\n2 take 0 ended\nentries 2\ncalls 0 run 0 lent 0 kept 0 full 0 removed 0 connections 0\n";

/// The server by the configuration `c`, whose one client sends the ping.
const SERVED: Row<'static> = Row {
    story: "a run",
    words: &["serve", "--config", "c", "--listen", "h:7"],
    files: &[("c", ONE)],
    sent: PING,
    output: LINE,
    left: Left::Sent(&[REPLY]),
    ..EMPTY
};

const ROWS: &[Row<'static>] = &[
    SERVED,
    Row {
        story: "a run by options in another order",
        words: &["serve", "--listen=h:7", "--config", "c"],
        ..SERVED
    },
    Row {
        story: "words without an address",
        words: &["serve", "--config", "c"],
        status: 1,
        note: "Usage",
        output: &[],
        left: Left::NoServer,
        ..SERVED
    },
    Row {
        story: "a run whose summary can't be written",
        failed_writes: &[0],
        status: 4,
        note: "WriteFault",
        output: &[],
        left: Left::Server(1),
        ..SERVED
    },
    Row {
        story: "two runs for two clients",
        words: &["serve", "--config", "c", "--listen", "h:7", "--runs", "2"],
        clients: 2,
        output: TWICE,
        left: Left::Sent(&[REPLY, REPLY]),
        ..SERVED
    },
    Row {
        story: "one run for two clients",
        clients: 2,
        ..SERVED
    },
    Row {
        story: "one client of three runs: none follows the one that found no link",
        words: &["serve", "--runs=3", "--config", "c", "--listen", "h:7"],
        output: ALONE,
        left: Left::Sent(&[REPLY, b""]),
        ..SERVED
    },
    Row {
        story: "a second summary that can't be written",
        words: &["serve", "--config", "c", "--listen", "h:7", "--runs", "3"],
        clients: 3,
        failed_writes: &[1],
        status: 4,
        note: "WriteFault",
        left: Left::Sent(&[REPLY, REPLY]),
        ..SERVED
    },
    Row {
        story: "the trace of a run",
        words: &["serve", "--config", "c", "--listen", "h:7", "--trace"],
        clients: 0,
        output: TRACE,
        left: Left::Sent(&[b""]),
        ..SERVED
    },
    Row {
        story: "a trace that can't be written",
        words: &["serve", "--trace", "--config", "c", "--listen", "h:7"],
        failed_writes: &[0],
        status: 4,
        note: "WriteFault",
        output: &[],
        ..SERVED
    },
    Row {
        story: "a net that refuses several runs",
        words: &["serve", "--config", "c", "--listen", "h:7", "--runs", "2"],
        failed_calls: &[0],
        status: 5,
        note: "NetFault",
        output: &[],
        left: Left::NoServer,
        ..SERVED
    },
    Row {
        story: "more runs than there may be",
        words: &["serve", "--config", "c", "--listen", "h:7", "--runs", "17"],
        status: 1,
        note: "Usage",
        output: &[],
        left: Left::NoServer,
        ..SERVED
    },
    Row {
        story: "a net that refuses",
        failed_calls: &[0],
        status: 5,
        note: "NetFault",
        output: &[],
        left: Left::NoServer,
        ..SERVED
    },
    Row {
        story: "a configuration that isn't there",
        words: &["serve", "--config", "d", "--listen", "h:7"],
        status: 10,
        note: "Absent(Config)",
        output: &[],
        left: Left::NoServer,
        ..SERVED
    },
];

#[test]
fn a_server_writes_its_summary_and_tells_its_faults(rt: HostRuntime) {
    assert_eq!(rt; first_wrong(&rt, rt.alloc(), ROWS), "");
}
