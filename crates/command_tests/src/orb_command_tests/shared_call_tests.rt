//! Calls of several callers over one link in memory, whose peer never waits for them: what is answered where no call can succeed.

use super::rows::{EMPTY, Left, Row, first_wrong};
use std::alloc::Global;

/// The reference of `ping` at 127.0.0.1, port 2809, under the priority 100 of CLIENT_PROPAGATED, with bands from 0 to 200.
const BANDED: &str =
    "IOR:000000000000001149444c3a4f72622f50696e673a312e300000000000000001000000000000005c000102000000000a3132372e302e302e31000af90000000470696e670000000100000002000000340000000000000002000000280000000a0000000000000000006400000000002d00000010000000000000000200000063006400c8";

/// Three callers of `current` over a link that ends at once: each is answered that the peer ended it.
const SHARED: Row<'static> = Row {
    story: "a peer that ends at once",
    words: &[
        "call",
        "--ref=corbaloc::1.2@127.0.0.1/ping",
        "--interface=IDL:Orb/Ping:1.0",
        "--op=current",
        "--callers=3",
    ],
    answered: &[],
    status: 9,
    note: "Closed",
    output: &[],
    left: Left::Shared(3),
    ..EMPTY
};

/// The same where no link is asked for.
const UNASKED: Row<'static> = Row {
    status: 11,
    left: Left::NoCall,
    ..SHARED
};

const ROWS: &[Row<'static>] = &[
    SHARED,
    Row {
        story: "one caller, and a reply to an id that nobody started",
        words: &[
            "call",
            "--callers=1",
            "--ref=corbaloc::1.2@127.0.0.1/ping",
            "--interface=IDL:Orb/Ping:1.0",
            "--op=current",
        ],
        // The reply of id 9: CORBA 3.0.3, section 15.4.3.
        answered: b"GIOP\x01\x02\0\x01\0\0\0\x0e\0\0\0\x09\0\0\0\0\0\0\0\0\0\x64",
        left: Left::Shared(1),
        ..SHARED
    },
    Row {
        story: "24 bytes of noise",
        answered: b"abcdefghijklmnopqrstuvwx",
        status: 7,
        note: "Peer(0, Frame(BadMagic))",
        ..SHARED
    },
    Row {
        story: "a CancelRequest from the peer",
        answered: b"GIOP\x01\x02\0\x02\0\0\0\x04\0\0\0\x01",
        status: 7,
        note: "Peer(0, WrongWay)",
        ..SHARED
    },
    Row {
        story: "a CloseConnection, and bytes after it",
        answered: b"GIOP\x01\x02\0\x05\0\0\0\0abcd",
        ..SHARED
    },
    Row {
        story: "a net that fails",
        failed_calls: &[0],
        status: 5,
        note: "NetFault",
        left: Left::NoCall,
        ..SHARED
    },
    Row {
        story: "a text that is no reference",
        words: &["call", "--ref=IOR:0", "--op=none", "--callers=16"],
        note: "Local(BadReference)",
        ..UNASKED
    },
    Row {
        story: "arguments that don't fit, by a reference with bands",
        words: &[
            "call",
            "--op=current",
            "--args=[1]",
            "--callers=2",
            "--ref",
            BANDED,
        ],
        note: "Local(BadArguments)",
        ..UNASKED
    },
    Row {
        story: "a band that would be bound",
        words: &["call", "--op=current", "--callers=2", "--ref", BANDED],
        note: "Local(SharedBand)",
        ..UNASKED
    },
    Row {
        story: "a file of IDL that isn't there",
        words: &[
            "call",
            "--ref=none",
            "--op=none",
            "--idl=none.idl",
            "--callers=2",
        ],
        status: 10,
        note: "Absent(Idl)",
        ..UNASKED
    },
];

#[test]
fn shared_calls_answer_with_their_causes(rt: HostRuntime) {
    assert_eq!(rt; first_wrong(&rt, rt.alloc(), ROWS), "");
}
