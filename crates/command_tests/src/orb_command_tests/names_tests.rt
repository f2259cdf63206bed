//! The name service over a net in memory: what it reads, writes and answers.

use super::rows::{EMPTY, Left, Row, first_wrong};

/// Requests of ids 1 to 3: `bind` of `a` to `x`, `resolve` of `a`, and `bind` of `a` to `x` again: CORBA 3.0.3, section 15.4.2.
const ASKED: &[u8] =
    b"GIOP\x01\x02\0\0\0\0\0\x3a\0\0\0\x01\x03\0\0\0\0\0\0\0\0\0\0\x0bNameService\0\0\0\0\x05bind\0\0\0\0\0\0\0\0\0\0\0\x02a\0\0\0\0\0\0\x02x\0\
GIOP\x01\x02\0\0\0\0\0\x32\0\0\0\x02\x03\0\0\0\0\0\0\0\0\0\0\x0bNameService\0\0\0\0\x08resolve\0\0\0\0\0\0\0\0\x02a\0\
GIOP\x01\x02\0\0\0\0\0\x3a\0\0\0\x03\x03\0\0\0\0\0\0\0\0\0\0\x0bNameService\0\0\0\0\x05bind\0\0\0\0\0\0\0\0\0\0\0\x02a\0\0\0\0\0\0\x02x\0";

/// Their replies: nothing is returned, the text `x`, and AlreadyBound: section 15.4.3.
const TOLD: &[u8] = b"GIOP\x01\x02\0\x01\0\0\0\x0c\0\0\0\x01\0\0\0\0\0\0\0\0\
GIOP\x01\x02\0\x01\0\0\0\x12\0\0\0\x02\0\0\0\0\0\0\0\0\0\0\0\x02x\0\
GIOP\x01\x02\0\x01\0\0\0\x29\0\0\0\x03\0\0\0\x01\0\0\0\0\0\0\0\x19IDL:Orb/AlreadyBound:1.0\0";

/// The name service, whose one client asks three times.
const SERVED: Row<'static> = Row {
    story: "a run",
    words: &["names", "--listen", "h:7"],
    sent: ASKED,
    output: b"names 1 calls 3 connections 1\n",
    left: Left::Named(TOLD),
    ..EMPTY
};

const ROWS: &[Row<'static>] = &[
    SERVED,
    Row {
        story: "three clients, one after another: the first alone finds the key free",
        clients: 3,
        output: b"names 1 calls 9 connections 3\n",
        ..SERVED
    },
    Row {
        story: "a run without a client",
        clients: 0,
        output: b"names 0 calls 0 connections 0\n",
        left: Left::Any,
        ..SERVED
    },
    Row {
        story: "words without an address",
        words: &["names"],
        status: 1,
        note: "Usage",
        output: &[],
        left: Left::Unnamed,
        ..SERVED
    },
    Row {
        story: "a line that can't be written",
        failed_writes: &[0],
        status: 4,
        note: "WriteFault",
        output: &[],
        ..SERVED
    },
    Row {
        story: "a net that refuses",
        failed_calls: &[0],
        status: 5,
        note: "NetFault",
        output: &[],
        left: Left::Unnamed,
        ..SERVED
    },
    Row {
        story: "a client whose stream breaks a rule is sent MessageError, and the next one is served",
        clients: 2,
        sent: b"GIOP\x01\x02\0\x07\0\0\0\x04\0\0\0\x09",
        output: b"names 0 calls 0 connections 2\n",
        left: Left::Named(b"GIOP\x01\x02\0\x06\0\0\0\0"),
        ..SERVED
    },
];

#[test]
fn a_name_service_answers_its_clients_and_writes_its_line(rt: HostRuntime) {
    assert_eq!(rt; first_wrong(&rt, rt.alloc(), ROWS), "");
}
