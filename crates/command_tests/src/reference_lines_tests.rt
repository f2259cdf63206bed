//! `orb refs` over memory: the lines of references and object URLs, what is refused, and what a failing device gives.

use crate::text_streams_tests::devices::{sink, source, spelled};
use cdr_core::CdrCause;
use object_refs::{RefCause, RefFault};
use orb_base::Octets;
use reference_lines::*;
use std::alloc::Global;

/// What is written.
#[derive(Clone, Copy)]
enum Written {
    /// These lines.
    Lines(&'static str),
    /// So many bytes.
    Bytes(usize),
}

/// One run over devices whose reads and writes are cut and fail as said, and what comes of it.
struct Row {
    name: &'static str,
    input: &'static [u8],
    /// How many times `a` is after the input.
    key: usize,
    /// What is after that.
    behind: &'static [u8],
    reads: &'static [usize],
    failed_reads: &'static [u64],
    writes: &'static [usize],
    failed_writes: &'static [u64],
    end: RefsEnd,
    output: Written,
}

/// No byte, over devices that cut nothing and never fail.
const PLAIN: Row = Row {
    name: "no byte",
    input: b"",
    key: 0,
    behind: b"",
    reads: &[],
    failed_reads: &[],
    writes: &[],
    failed_writes: &[],
    end: RefsEnd::Done,
    output: Written::Lines(""),
};

fn is_written(bytes: &[u8], output: Written) -> bool {
    match output {
        Written::Lines(lines) => bytes == lines.as_bytes(),
        Written::Bytes(len) => bytes.len() == len,
    }
}

/// Whether a run over these bytes comes out, and writes, as a row says.
fn prints(alloc: Global, bytes: Octets, row: &Row) -> bool {
    let Ok(mut input) = source(alloc, bytes, row.reads, row.failed_reads) else {
        return false;
    };
    let Ok(mut out) = sink(alloc, row.writes, row.failed_writes) else {
        return false;
    };
    match refs_run(alloc, &mut input, &mut out) {
        Ok(end) => end == row.end && is_written(out.held(), row.output),
        Err(_) => false,
    }
}

fn holds(alloc: Global, row: &Row) -> bool {
    match spelled(alloc, row.input, b'a', row.key, row.behind) {
        Ok(bytes) => prints(alloc, bytes, row),
        Err(_) => false,
    }
}

/// The name of the first row that doesn't hold, or nothing.
fn first_wrong(alloc: Global, rows: &[Row]) -> &'static str {
    for row in rows {
        if !holds(alloc, row) {
            return row.name;
        }
    }
    ""
}

/// A reference to `ping` at 127.0.0.1, port 2809, whose objects run at the client's priority, or else at 100.
const PING: &[u8] =
    b"IOR:000000000000001149444c3a4f72622f50696e673a312e3000000000000000010000000000000042000102000000000a3132372e302e302e31000af90000000470696e6700000001000000020000001a0000000000000001000000280000000a00000000000000000064";

/// Inputs, and the lines that come of them.
const READ: &[Row] = &[
    Row {
        name: "a reference with a model",
        input: PING,
        output: Written::Lines(
            "type IDL:Orb/Ping:1.0\nhost 127.0.0.1\nport 2809\nkey ping\nmodel CLIENT_PROPAGATED 100\n",
        ),
        ..PLAIN
    },
    Row {
        name: "with a line feed behind it",
        input: b"IOR:000000000000001149444c3a4f72622f50696e673a312e3000000000000000010000000000000042000102000000000a3132372e302e302e31000af90000000470696e6700000001000000020000001a0000000000000001000000280000000a00000000000000000064\n",
        output: Written::Lines(
            "type IDL:Orb/Ping:1.0\nhost 127.0.0.1\nport 2809\nkey ping\nmodel CLIENT_PROPAGATED 100\n",
        ),
        ..PLAIN
    },
    Row {
        name: "a prefix and digits of the other case",
        input: b"iOr:000000000000001149444C3A4F72622F50696E673A312E3000000000000000010000000000000042000102000000000A3132372E302E302E31000AF90000000470696E6700000001000000020000001A0000000000000001000000280000000A00000000000000000064",
        output: Written::Lines(
            "type IDL:Orb/Ping:1.0\nhost 127.0.0.1\nport 2809\nkey ping\nmodel CLIENT_PROPAGATED 100\n",
        ),
        ..PLAIN
    },
    Row {
        name: "a model whose encapsulation has a byte order of 2",
        input: b"IOR:000000000000001149444c3a4f72622f50696e673a312e3000000000000000010000000000000042000102000000000a3132372e302e302e31000af90000000470696e6700000001000000020000001a0000000000000001000000280000000a02000000000000000064",
        output: Written::Lines("type IDL:Orb/Ping:1.0\nhost 127.0.0.1\nport 2809\nkey ping\n"),
        ..PLAIN
    },
    Row {
        name: "a component of another tag before the policies",
        input: b"IOR:000000000000001149444c3a4f72622f50696e673a312e3000000000000000010000000000000052000102000000000a3132372e302e302e31000af90000000470696e670000000200000001000000080000000000010001000000020000001a0000000000000001000000280000000a00000000000000000064",
        output: Written::Lines(
            "type IDL:Orb/Ping:1.0\nhost 127.0.0.1\nport 2809\nkey ping\nmodel CLIENT_PROPAGATED 100\n",
        ),
        ..PLAIN
    },
    Row {
        name: "bands in no order, and a key that isn't plain",
        input: b"IOR:000000000000000a49444c3a543a312e3000000000000001000000000000005400010200000000026800000100000003006b25000000000100000002000000340000000000000002000000280000000a00000000000000017fff00000000002d000000100000000000000002006400c800000063",
        output: Written::Lines(
            "type IDL:T:1.0\nhost h\nport 1\nkey %00k%25\nmodel SERVER_DECLARED 32767\nband 100 200\nband 0 99\n",
        ),
        ..PLAIN
    },
    Row {
        name: "little endian, the second of three profiles, version 1.3",
        input: b"IOR:010000000a00000049444c3a543a312e3000000003000000010000000100000001000000000000005600000001010300020000006800ffff010000006b00000001000000020000003600000001000000030000002c000000000000002d0000000c000000010000000100000005000500280000000a0000000100000001000000000000000000000000000000",
        output: Written::Lines(
            "type IDL:T:1.0\nhost h\nport 65535\nkey k\nmodel SERVER_DECLARED 0\nband 5 5\n",
        ),
        ..PLAIN
    },
    Row {
        name: "bands of which two share an end",
        input: b"IOR:000000000000000a49444c3a543a312e30000000000000010000000000000056000102000000000268000001000000016b00000000000001000000020000003600000000000000020000002d000000140000000000000003000700090000000300030004000000280000000a00000000000000000007",
        output: Written::Lines(
            "type IDL:T:1.0\nhost h\nport 1\nkey k\nmodel CLIENT_PROPAGATED 7\n",
        ),
        ..PLAIN
    },
    Row {
        name: "a policy without bands",
        input: b"IOR:000000000000000a49444c3a543a312e3000000000000001000000000000004a000102000000000268000001000000016b00000000000001000000020000002a00000000000000020000002d000000080000000000000000000000280000000a00000000000000000007",
        output: Written::Lines(
            "type IDL:T:1.0\nhost h\nport 1\nkey k\nmodel CLIENT_PROPAGATED 7\n",
        ),
        ..PLAIN
    },
    Row {
        name: "several policies of a type, and several components of policies",
        input: b"IOR:000000000000000a49444c3a543a312e300000000000000100000000000000a2000102000000000268000001000000016b000000000000030000000300000000000000020000005600000000000000040000002d0000000c000000000000000100000001000000280000000a0000000000000001000700000000002d0000000c000000000000000100020003000000280000000a000000000000000000080000000000020000001a0000000000000001000000280000000a00000000000000000009",
        output: Written::Lines(
            "type IDL:T:1.0\nhost h\nport 1\nkey k\nmodel SERVER_DECLARED 7\nband 0 1\n",
        ),
        ..PLAIN
    },
    Row {
        name: "policies cut short, and others behind them",
        input: b"IOR:000000000000000a49444c3a543a312e3000000000000001000000000000005e000102000000000268000001000000016b0000000000000200000002000000190000000000000001000000280000000a000000000000000000000000000000020000001a0000000000000001000000280000000a00000000000000000009",
        output: Written::Lines("type IDL:T:1.0\nhost h\nport 1\nkey k\n"),
        ..PLAIN
    },
    Row {
        name: "policies without a reading before others of their type",
        input: b"IOR:000000000000000a49444c3a543a312e30000000000000010000000000000078000102000000000268000001000000016b0000000000000100000002000000580000000000000004000000280000000a000000000000000200070000000000280000000a0000000000000000000900000000002d0000000c0000000000000001000400030000002d0000000c000000000000000100010002",
        output: Written::Lines("type IDL:T:1.0\nhost h\nport 1\nkey k\n"),
        ..PLAIN
    },
    Row {
        name: "no component, key or type",
        input: b"IOR:0000000000000001000000000000000100000000000000140001020000000002680000000000000000000000",
        output: Written::Lines("type \nhost h\nport 0\nkey \n"),
        ..PLAIN
    },
    Row {
        name: "an object URL",
        input: b"corbaloc::1.2@h/a%2Fb",
        output: Written::Lines("host h\nport 2809\nkey a/b\n"),
        ..PLAIN
    },
    Row {
        name: "an object URL with a line feed behind it",
        input: b"corbaloc::1.2@h/a%2Fb\n",
        output: Written::Lines("host h\nport 2809\nkey a/b\n"),
        ..PLAIN
    },
    Row {
        name: "an object URL with a port, and octets that aren't plain",
        input: b"corbaloc:iiop:1.2@a b:1/%25%00%FF~\r\n",
        output: Written::Lines("host a%20b\nport 1\nkey %25%00%FF~%0D\n"),
        ..PLAIN
    },
    Row {
        name: "two line feeds",
        input: b"corbaloc::1.2@h/a\n\n",
        output: Written::Lines("host h\nport 2809\nkey a%0A\n"),
        ..PLAIN
    },
];

#[test]
fn a_reference_is_printed_line_by_line(rt: HostRuntime) {
    assert_eq!(rt; first_wrong(rt.alloc(), READ), "");
}

/// Inputs without a reading, with the cause and its place.
const REFUSED: &[Row] = &[
    Row {
        name: "no byte",
        input: b"",
        end: RefsEnd::Refused(RefFault {
            cause: RefCause::NoPrefix,
            place: 0,
        }),
        ..PLAIN
    },
    Row {
        name: "a line feed alone",
        input: b"\n",
        end: RefsEnd::Refused(RefFault {
            cause: RefCause::NoPrefix,
            place: 0,
        }),
        ..PLAIN
    },
    Row {
        name: "another scheme",
        input: b"corbaname::1.2@h/a",
        end: RefsEnd::Refused(RefFault {
            cause: RefCause::NoPrefix,
            place: 0,
        }),
        ..PLAIN
    },
    Row {
        name: "a scheme of the other case",
        input: b"CORBALOC::1.2@h/a",
        end: RefsEnd::Refused(RefFault {
            cause: RefCause::NoPrefix,
            place: 0,
        }),
        ..PLAIN
    },
    Row {
        name: "an object URL of version 1.1",
        input: b"corbaloc:iiop:1.1@h/a",
        end: RefsEnd::Refused(RefFault {
            cause: RefCause::BadVersion,
            place: 14,
        }),
        ..PLAIN
    },
    Row {
        name: "an object URL with half an escape",
        input: b"corbaloc::1.2@h/a%2",
        end: RefsEnd::Refused(RefFault {
            cause: RefCause::BadEscape,
            place: 16,
        }),
        ..PLAIN
    },
    Row {
        name: "one digit less",
        input: b"IOR:000000000000001149444c3a4f72622f50696e673a312e3000000000000000010000000000000042000102000000000a3132372e302e302e31000af90000000470696e6700000001000000020000001a0000000000000001000000280000000a0000000000000000006",
        end: RefsEnd::Refused(RefFault {
            cause: RefCause::OddHex,
            place: 215,
        }),
        ..PLAIN
    },
    Row {
        name: "one digit less, and a line feed",
        input: b"IOR:000000000000001149444c3a4f72622f50696e673a312e3000000000000000010000000000000042000102000000000a3132372e302e302e31000af90000000470696e6700000001000000020000001a0000000000000001000000280000000a0000000000000000006\n",
        end: RefsEnd::Refused(RefFault {
            cause: RefCause::OddHex,
            place: 215,
        }),
        ..PLAIN
    },
    Row {
        name: "a carriage return, and a line feed before the last one",
        input: b"IOR:000000000000001149444c3a4f72622f50696e673a312e3000000000000000010000000000000042000102000000000a3132372e302e302e31000af90000000470696e6700000001000000020000001a0000000000000001000000280000000a00000000000000000064\r\n\n",
        end: RefsEnd::Refused(RefFault {
            cause: RefCause::BadHex,
            place: 216,
        }),
        ..PLAIN
    },
    Row {
        name: "a carriage return before the line feed",
        input: b"IOR:000000000000001149444c3a4f72622f50696e673a312e3000000000000000010000000000000042000102000000000a3132372e302e302e31000af90000000470696e6700000001000000020000001a0000000000000001000000280000000a00000000000000000064\r\n",
        end: RefsEnd::Refused(RefFault {
            cause: RefCause::OddHex,
            place: 217,
        }),
        ..PLAIN
    },
    Row {
        name: "no digit",
        input: b"IOR:",
        end: RefsEnd::Refused(RefFault {
            cause: RefCause::Cdr(CdrCause::Short),
            place: 0,
        }),
        ..PLAIN
    },
    Row {
        name: "one byte less",
        input: b"IOR:000000000000001149444c3a4f72622f50696e673a312e3000000000000000010000000000000042000102000000000a3132372e302e302e31000af90000000470696e6700000001000000020000001a0000000000000001000000280000000a000000000000000000",
        end: RefsEnd::Refused(RefFault {
            cause: RefCause::Cdr(CdrCause::TooMany),
            place: 36,
        }),
        ..PLAIN
    },
    Row {
        name: "a profile cut short",
        input: b"IOR:000000000000001149444c3a4f72622f50696e673a312e300000000000000001000000000000001f000102000000000a3132372e302e302e31000af90000000470696e67000000",
        end: RefsEnd::Refused(RefFault {
            cause: RefCause::Cdr(CdrCause::Short),
            place: 28,
        }),
        ..PLAIN
    },
    Row {
        name: "no profile of the tag",
        input: b"IOR:000000000000001149444c3a4f72622f50696e673a312e3000000000000000010000000100000020000102000000000a3132372e302e302e31000af90000000470696e6700000000",
        end: RefsEnd::Refused(RefFault {
            cause: RefCause::NoIiop,
            place: 0,
        }),
        ..PLAIN
    },
    Row {
        name: "a profile of version 1.1",
        input: b"IOR:000000000000001149444c3a4f72622f50696e673a312e3000000000000000010000000000000020000101000000000a3132372e302e302e31000af90000000470696e6700000000",
        end: RefsEnd::Refused(RefFault {
            cause: RefCause::BadVersion,
            place: 0,
        }),
        ..PLAIN
    },
    Row {
        name: "a profile of version 2.2",
        input: b"IOR:000000000000001149444c3a4f72622f50696e673a312e3000000000000000010000000000000020000202000000000a3132372e302e302e31000af90000000470696e6700000000",
        end: RefsEnd::Refused(RefFault {
            cause: RefCause::BadVersion,
            place: 0,
        }),
        ..PLAIN
    },
];

#[test]
fn a_text_without_a_reading_is_refused(rt: HostRuntime) {
    assert_eq!(rt; first_wrong(rt.alloc(), REFUSED), "");
}

/// An object URL up to its key, of 16 bytes, so that one with a key of 65,520 bytes has 65,536.
const URL: &[u8] = b"corbaloc::1.2@h/";

/// "host h", "port 2809" and "key " are 21 bytes with their line feeds.
const LONG: &[Row] = &[
    Row {
        name: "as many bytes as there may be",
        input: URL,
        key: 65_520,
        behind: b"",
        end: RefsEnd::Done,
        output: Written::Bytes(65_542),
        ..PLAIN
    },
    Row {
        name: "a line feed behind them",
        input: URL,
        key: 65_520,
        behind: b"\n",
        end: RefsEnd::Done,
        output: Written::Bytes(65_542),
        ..PLAIN
    },
    Row {
        name: "two line feeds behind them",
        input: URL,
        key: 65_520,
        behind: b"\n\n",
        end: RefsEnd::TooLong,
        output: Written::Bytes(0),
        ..PLAIN
    },
    Row {
        name: "one byte more",
        input: URL,
        key: 65_521,
        behind: b"",
        end: RefsEnd::TooLong,
        output: Written::Bytes(0),
        ..PLAIN
    },
    Row {
        name: "one byte more, and a line feed",
        input: URL,
        key: 65_521,
        behind: b"\n",
        end: RefsEnd::TooLong,
        output: Written::Bytes(0),
        ..PLAIN
    },
    Row {
        name: "sixteen bytes more",
        input: URL,
        key: 65_536,
        behind: b"",
        end: RefsEnd::TooLong,
        output: Written::Bytes(0),
        ..PLAIN
    },
];

#[test]
fn a_text_has_at_most_65536_bytes(rt: HostRuntime) {
    assert_eq!(rt; first_wrong(rt.alloc(), LONG), "");
}

/// Of the text 65,536 bytes come in 64 reads, one byte in the next one, and then a read fails.
const CUT: &[Row] = &[
    Row {
        name: "one byte more, and a failed read behind it",
        input: URL,
        key: 65_521,
        behind: b"",
        failed_reads: &[65],
        end: RefsEnd::TooLong,
        output: Written::Bytes(0),
        ..PLAIN
    },
    Row {
        name: "a line feed, and a failed read behind it",
        input: URL,
        key: 65_520,
        behind: b"\n",
        failed_reads: &[65],
        end: RefsEnd::ReadFault,
        output: Written::Bytes(0),
        ..PLAIN
    },
    Row {
        name: "a failed read behind as many bytes as there may be",
        input: URL,
        key: 65_520,
        behind: b"",
        failed_reads: &[64],
        end: RefsEnd::ReadFault,
        output: Written::Bytes(0),
        ..PLAIN
    },
    Row {
        name: "a failed read before one byte more",
        input: URL,
        key: 65_521,
        behind: b"",
        failed_reads: &[64],
        end: RefsEnd::ReadFault,
        output: Written::Bytes(0),
        ..PLAIN
    },
];

#[test]
fn a_text_that_is_too_long_is_cut_whatever_comes_next(rt: HostRuntime) {
    assert_eq!(rt; first_wrong(rt.alloc(), CUT), "");
}

const DEVICES: &[Row] = &[
    Row {
        name: "reads and writes of one byte each",
        input: b"corbaloc::1.2@h/a\n",
        reads: &[1; 20],
        writes: &[1; 30],
        end: RefsEnd::Done,
        output: Written::Lines("host h\nport 2809\nkey a\n"),
        ..PLAIN
    },
    Row {
        name: "a failed read within the text",
        input: b"corbaloc::1.2@h/a\n",
        reads: &[10],
        failed_reads: &[1],
        end: RefsEnd::ReadFault,
        output: Written::Lines(""),
        ..PLAIN
    },
    Row {
        name: "a failed read in place of the end",
        input: b"corbaloc::1.2@h/a\n",
        failed_reads: &[1],
        end: RefsEnd::ReadFault,
        output: Written::Lines(""),
        ..PLAIN
    },
    Row {
        name: "a failed first write",
        input: b"corbaloc::1.2@h/a\n",
        failed_writes: &[0],
        end: RefsEnd::WriteFault,
        output: Written::Lines(""),
        ..PLAIN
    },
    Row {
        name: "a failed third write",
        input: b"corbaloc::1.2@h/a\n",
        writes: &[5, 4],
        failed_writes: &[2],
        end: RefsEnd::WriteFault,
        output: Written::Lines("host h\npo"),
        ..PLAIN
    },
];

#[test]
fn devices_cut_and_fail(rt: HostRuntime) {
    assert_eq!(rt; first_wrong(rt.alloc(), DEVICES), "");
}
