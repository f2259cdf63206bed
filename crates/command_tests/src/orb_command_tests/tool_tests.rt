//! `orb dump`, `orb refs`, `orb idl --file` and `orb audit` over memory: each status with its note, and what is written then.

use super::rows::{EMPTY, Left, Row, first_wrong};

/// The request of id 1 for `current` of `ping`.
const PING: &[u8] =
    b"GIOP\x01\x02\0\0\0\0\0\x24\0\0\0\x01\x03\0\0\0\0\0\0\0\0\0\0\x04ping\0\0\0\x08current\0\0\0\0\0";

/// The same, and after it a reply of a status that there isn't.
const BAD_STATUS: &[u8] =
    b"GIOP\x01\x02\0\0\0\0\0\x24\0\0\0\x01\x03\0\0\0\0\0\0\0\0\0\0\x04ping\0\0\0\x08current\0\0\0\0\0GIOP\x01\x02\0\x01\0\0\0\x0c\0\0\0\x01\0\0\0\x06\0\0\0\0";

/// The request of id 1 in three pieces, with that of id 2 between them.
const INTERLEAVED: &[u8] =
    b"GIOP\x01\x02\x02\0\0\0\0\x0c\0\0\0\x01\x03\0\0\0\0\0\0\0GIOP\x01\x02\0\0\0\0\0\x24\0\0\0\x02\x03\0\0\0\0\0\0\0\0\0\0\x04ping\0\0\0\x08current\0\0\0\0\0GIOP\x01\x02\x02\x07\0\0\0\x14\0\0\0\x01\0\0\0\x04ping\0\0\0\x08currGIOP\x01\x02\0\x07\0\0\0\x0c\0\0\0\x01ent\0\0\0\0\0";

/// The answer that an object is here.
const HERE: &[u8] = b"GIOP\x01\x02\0\x04\0\0\0\x08\0\0\0\x05\0\0\0\x01";

/// A reference to `ping` at 127.0.0.1, port 2809, whose objects run at the client's priority, or else at 100.
const REFERENCE: &[u8] =
    b"IOR:000000000000001149444c3a4f72622f50696e673a312e3000000000000000010000000000000042000102000000000a3132372e302e302e31000af90000000470696e6700000001000000020000001a0000000000000001000000280000000a00000000000000000064";

/// The same with one digit less.
const ODD_REFERENCE: &[u8] =
    b"IOR:000000000000001149444c3a4f72622f50696e673a312e3000000000000000010000000000000042000102000000000a3132372e302e302e31000af90000000470696e6700000001000000020000001a0000000000000001000000280000000a0000000000000000006";

const LINES: &[u8] =
    b"type IDL:Orb/Ping:1.0\nhost 127.0.0.1\nport 2809\nkey ping\nmodel CLIENT_PROPAGATED 100\n";

/// A listing of messages, read and written in pieces.
const DUMP: Row<'static> = Row {
    words: &["dump"],
    reads: &[40, 24],
    writes: &[9, 5],
    ..EMPTY
};

/// The parts of a reference, read and written in pieces.
const REFS: Row<'static> = Row {
    words: &["refs"],
    reads: &[40, 24],
    writes: &[9, 5],
    ..EMPTY
};

const TOLD: &[Row<'static>] = &[
    Row {
        story: "a request",
        input: PING,
        output: b"0 Request big 48 id 1 flags 3 key ping op current contexts 0 body 0\n",
        ..DUMP
    },
    Row {
        story: "pieces with a request between them",
        input: INTERLEAVED,
        output: b"24 Request big 48 id 2 flags 3 key ping op current contexts 0 body 0\n104 Request big 48 id 1 flags 3 key ping op current contexts 0 body 0\n",
        ..DUMP
    },
    Row {
        story: "a LocateReply",
        input: HERE,
        output: b"0 LocateReply big 20 id 5 status 1\n",
        ..DUMP
    },
    Row {
        story: "a header that is cut",
        input: b"GIOP\x01\x02\0\0\0\0\0",
        status: 8,
        note: "Input(0, Cut)",
        ..DUMP
    },
    Row {
        story: "a reply of no status behind a request",
        input: BAD_STATUS,
        status: 8,
        note: "Input(48, BadStatus)",
        output: b"0 Request big 48 id 1 flags 3 key ping op current contexts 0 body 0\n",
        ..DUMP
    },
    Row {
        story: "messages whose second read fails",
        input: PING,
        failed_reads: &[1],
        status: 3,
        note: "ReadFault",
        ..DUMP
    },
    Row {
        story: "messages whose second write fails",
        input: PING,
        failed_writes: &[1],
        status: 4,
        note: "WriteFault",
        output: b"0 Request",
        ..DUMP
    },
    Row {
        story: "a reference in hexadecimal digits",
        input: REFERENCE,
        output: LINES,
        ..REFS
    },
    Row {
        story: "a reference as a URL",
        input: b"corbaloc::1.2@h/a%2Fb\n",
        output: b"host h\nport 2809\nkey a/b\n",
        ..REFS
    },
    Row {
        story: "a URL of a version that is not spoken",
        input: b"corbaloc:iiop:1.1@h/a",
        status: 8,
        note: "Reference(RefFault { cause: BadVersion, place: 14 })",
        ..REFS
    },
    Row {
        story: "a digit less",
        input: ODD_REFERENCE,
        status: 8,
        note: "Reference(RefFault { cause: OddHex, place: 215 })",
        ..REFS
    },
    Row {
        story: "a reference whose third read fails",
        input: REFERENCE,
        failed_reads: &[2],
        status: 3,
        note: "ReadFault",
        ..REFS
    },
    Row {
        story: "a reference whose third write fails",
        input: REFERENCE,
        failed_writes: &[2],
        status: 4,
        note: "WriteFault",
        output: b"type IDL:Orb/P",
        ..REFS
    },
];

const TWICE: &[u8] = b"module M { interface V { long twice(in long x); }; };";

const ATTRIBUTES: &[u8] = b"interface S { attribute long a; readonly attribute short b; };";

/// A listing of the IDL of the file `c`, written in pieces.
const IDL: Row<'static> = Row {
    words: &["idl", "--file", "c"],
    writes: &[6, 5],
    ..EMPTY
};

const LISTED: &[Row<'static>] = &[
    Row {
        story: "an operation",
        files: &[("c", TWICE)],
        output: b"interface IDL:M/V:1.0\nop twice in 1 out 0 raises 0\n",
        ..IDL
    },
    Row {
        story: "attributes",
        files: &[("c", ATTRIBUTES)],
        output: b"interface IDL:S:1.0\nop _get_a in 0 out 0 raises 0\nop _set_a in 1 out 0 raises 0\nop _get_b in 0 out 0 raises 0\n",
        ..IDL
    },
    Row {
        story: "an empty file",
        files: &[("c", b"")],
        ..IDL
    },
    Row {
        story: "a name that clashes",
        files: &[("c", b"module Orb { const long x = 1; };")],
        status: 2,
        note: "Idl(IdlFault { cause: Clash, line: 1, column: 8 })",
        ..IDL
    },
    Row {
        story: "a file that can't be read",
        files: &[("c", TWICE)],
        failed_files: &[0],
        status: 3,
        note: "ReadFault",
        ..IDL
    },
    Row {
        story: "a listing whose second write fails",
        files: &[("c", TWICE)],
        failed_writes: &[1],
        status: 4,
        note: "WriteFault",
        output: b"interf",
        ..IDL
    },
    Row {
        story: "a file that isn't there",
        words: &["idl", "--file", "m.idl"],
        files: &[("c", TWICE)],
        status: 10,
        note: "Absent(Idl)",
        ..IDL
    },
    Row {
        story: "a name with a dash after a blank",
        words: &["idl", "--file", "-c"],
        files: &[("c", TWICE)],
        status: 1,
        note: "Usage",
        ..IDL
    },
    Row {
        story: "a name with a dash, which no file has",
        words: &["idl", "--file=-c"],
        files: &[("c", TWICE)],
        status: 10,
        note: "Absent(Idl)",
        ..IDL
    },
];

/// The trace of one ping through a pipe, and the same without its last line.
const PING_TRACE: &[u8] =
    b"pool 0 0 0 0 0 65536 67108864 1 128\nlane 100 1 0\n0 offer 0.0 0 1 2 100 0 48 run 0\n0 take 0 0\n0 finish 0 0 2\n0 collect 0.0 answered 0\n0 end 0.0 quiet\n0 collect 0.0 done\nentries 6\n";

const CUT_TRACE: &[u8] =
    b"pool 0 0 0 0 0 65536 67108864 1 128\nlane 100 1 0\n0 offer 0.0 0 1 2 100 0 48 run 0\n0 take 0 0\n0 finish 0 0 2\n0 collect 0.0 answered 0\n0 end 0.0 quiet\n0 collect 0.0 done\n";

/// The trace of three urgent requests over two lanes: the second is lent the thread of the lower lane, and the third waits.
const URGENT: &[u8] =
    b"pool 1 1 1 3 120 65536 67108864 4 32\nlane 10 1 0\nlane 20 1 0\n0 offer 0.0 0 1 2 20 1 60 run 1\n0 offer 0.0 1 2 2 20 1 60 lent 0\n0 offer 0.0 2 3 2 20 1 60 kept\n0 take 0 1\n0 finish 0 1 0\n0 take 0 2\n0 finish 0 2 0\n0 take 1 0\n0 finish 1 0 0\n0 collect 0.0 answered 1\n0 collect 0.0 answered 2\n0 collect 0.0 answered 0\n0 end 0.0 quiet\n0 collect 0.0 done\nentries 14\n";

/// The same, but the second is answered that it waits, though it has to be lent that thread.
const URGENT_KEPT: &[u8] =
    b"pool 1 1 1 3 120 65536 67108864 4 32\nlane 10 1 0\nlane 20 1 0\n0 offer 0.0 0 1 2 20 1 60 run 1\n0 offer 0.0 1 2 2 20 1 60 kept\n0 offer 0.0 2 3 2 20 1 60 kept\n0 take 0 1\n0 finish 0 1 0\n0 take 0 2\n0 finish 0 2 0\n0 take 1 0\n0 finish 1 0 0\n0 collect 0.0 answered 1\n0 collect 0.0 answered 2\n0 collect 0.0 answered 0\n0 end 0.0 quiet\n0 collect 0.0 done\nentries 14\n";

/// An audit, read and written in pieces.
const AUDIT: Row<'static> = Row {
    words: &["audit"],
    reads: &[40, 24],
    writes: &[9, 5],
    left: Left::NoPipe,
    ..EMPTY
};

const AUDITED: &[Row<'static>] = &[
    Row {
        story: "no trace at all",
        ..AUDIT
    },
    Row {
        story: "a ping",
        input: PING_TRACE,
        output: b"run 0 legal yes fit no entries 6 lent 0 longest 0\n",
        ..AUDIT
    },
    Row {
        story: "a thread that is lent",
        input: URGENT,
        output: b"run 0 legal yes fit no entries 14 lent 1 longest 3\n",
        ..AUDIT
    },
    Row {
        story: "a request that waits and has to be lent a thread",
        input: URGENT_KEPT,
        status: 15,
        note: "Audit(0, 1)",
        output: b"run 0 legal no fit no entries 14 lent 0 longest 0\n",
        ..AUDIT
    },
    Row {
        story: "a trace without its last line",
        input: CUT_TRACE,
        status: 8,
        note: "Trace(168)",
        ..AUDIT
    },
    Row {
        story: "a trace whose second read fails",
        input: PING_TRACE,
        failed_reads: &[1],
        status: 3,
        note: "ReadFault",
        ..AUDIT
    },
    Row {
        story: "a read that fails after a line at fault, which the first two reads give",
        input: b"calls 1 run 1 lent 0 kept 0 full 0 removed 0 connections 1\n",
        failed_reads: &[2],
        status: 8,
        note: "Trace(0)",
        ..AUDIT
    },
    Row {
        story: "a wrong entry, but the second write fails",
        input: URGENT_KEPT,
        failed_writes: &[1],
        status: 4,
        note: "WriteFault",
        output: b"run 0 leg",
        ..AUDIT
    },
];

/// The URL has 16 bytes before its key.
const LONGER: &[Row<'static>] = &[Row {
    story: "a reference that is longer than one may be",
    input: b"corbaloc::1.2@h/",
    times: 65_521,
    status: 8,
    note: "Input(65536, Cut)",
    ..REFS
}];

#[test]
fn each_tool_writes_its_lines_and_has_its_status(rt: HostRuntime) {
    assert_eq!(rt; first_wrong(&rt, rt.alloc(), TOLD), "");
    assert_eq!(rt; first_wrong(&rt, rt.alloc(), LISTED), "");
    assert_eq!(rt; first_wrong(&rt, rt.alloc(), LONGER), "");
    assert_eq!(rt; first_wrong(&rt, rt.alloc(), AUDITED), "");
}
