//! `orb refs --at` over memory: each status with its note, and what is written then.

use super::rows::{EMPTY, Row, first_wrong};

/// The line of the built-in object at 127.0.0.1:2809.
const PING: &[u8] =
    b"ping IOR:000000000000001149444c3a4f72622f50696e673a312e3000000000000000010000000000000042000102000000000a3132372e302e302e31000af90000000470696e6700000001000000020000001a0000000000000001000000280000000a00000000000000000064\n";

/// A configuration of an object of an interface, and what goes before its table.
const OBJECT: &[u8] =
    b"pool = { static = 1, dynamic = 0, default_priority = 100 }\nadapter = [{ name = \"a\", model = \"CLIENT_PROPAGATED\", priority = 100 }]\nobject = [{ key = \"ping\", adapter = \"a\", interface = \"IDL:Orb/Ping:1.0\" }]\n";

pub const UNSERVED: &[u8] =
    b"pool = { static = 1, dynamic = 0, default_priority = 1 }\nadapter = [{ name = \"a\", model = \"SERVER_DECLARED\", priority = 1 }]\nobject = [{ key = \"k\", adapter = \"a\", interface = \"IDL:M/V:1.0\" }]\n";

pub const FILED: &[u8] =
    b"idl = \"m.idl\"\nscripts = \"m.srv\"\npool = { static = 1, dynamic = 0, default_priority = 1 }\nadapter = [{ name = \"a\", model = \"SERVER_DECLARED\", priority = 1 }]\nobject = [{ key = \"v\", adapter = \"a\", interface = \"IDL:M/V:1.0\" }]\n";

/// The references of the built-in setup, written in pieces.
const BUILT_IN: Row<'static> = Row {
    words: &["refs", "--at", "127.0.0.1:2809"],
    writes: &[9, 5],
    ..EMPTY
};

/// The references of the configuration `c`.
const CONFIGURED: Row<'static> = Row {
    words: &["refs", "--at", "127.0.0.1:2809", "--config", "c"],
    ..BUILT_IN
};

const ROWS: &[Row<'static>] = &[
    Row {
        story: "the built-in setup, which no file has",
        files: &[("c", OBJECT)],
        failed_files: &[0],
        output: PING,
        ..BUILT_IN
    },
    Row {
        story: "the same as a configuration",
        files: &[("c", OBJECT)],
        output: PING,
        ..CONFIGURED
    },
    Row {
        story: "the same by options in another order",
        words: &["refs", "--config=c", "--at", "127.0.0.1:2809"],
        files: &[("c", OBJECT)],
        output: PING,
        ..CONFIGURED
    },
    Row {
        story: "a configuration without an address",
        words: &["refs", "--config", "c"],
        files: &[("c", OBJECT)],
        status: 1,
        note: "Usage",
        ..CONFIGURED
    },
    Row {
        story: "a configuration that can't be read",
        files: &[("c", OBJECT)],
        failed_files: &[0],
        status: 3,
        note: "ReadFault",
        ..CONFIGURED
    },
    Row {
        story: "a failed second write",
        files: &[("c", OBJECT)],
        failed_writes: &[1],
        status: 4,
        note: "WriteFault",
        output: b"ping IOR:",
        ..CONFIGURED
    },
    Row {
        story: "a configuration that isn't there",
        words: &["refs", "--at", "127.0.0.1:2809", "--config", "d"],
        files: &[("c", OBJECT)],
        status: 10,
        note: "Absent(Config)",
        ..CONFIGURED
    },
    Row {
        story: "IDL that isn't there",
        files: &[("c", FILED)],
        status: 10,
        note: "Absent(Idl)",
        ..CONFIGURED
    },
    Row {
        story: "a pool that is no table",
        files: &[("c", b"pool = 1")],
        status: 2,
        note: "Config(WrongKind at pool)",
        ..CONFIGURED
    },
    Row {
        story: "bytes that are no text",
        files: &[("c", b"\xff")],
        status: 2,
        note: "Config(NotToml at )",
        ..CONFIGURED
    },
    Row {
        story: "an interface without a servant",
        files: &[("c", UNSERVED)],
        status: 2,
        note: "Config(UnknownInterface at object[0].interface)",
        ..CONFIGURED
    },
];

const LONGER: &[Row<'static>] = &[Row {
    story: "a configuration of one byte more than there may be",
    files: &[("c", b"")],
    blanks: 1_048_577,
    status: 2,
    note: "TooLong(Config)",
    ..CONFIGURED
}];

#[test]
fn references_at_an_address_have_their_status(rt: HostRuntime) {
    assert_eq!(rt; first_wrong(&rt, rt.alloc(), ROWS), "");
    assert_eq!(rt; first_wrong(&rt, rt.alloc(), LONGER), "");
}
