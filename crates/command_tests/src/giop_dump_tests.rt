//! The dump over memory: the line of each kind of message, where it stops, and what it does when a device fails.
ghost use Rattle.std.specs.Prelude.{None};

use crate::text_streams_tests::devices::{sink, source, spelled};
use cdr_core::CdrCause;
use giop_dump::*;
use giop_frames::FrameCause;
use giop_messages::Fault;
use orb_base::{CountingSink, Got, Octets, Source};
use std::alloc::Global;

/// The request of id 1 for `current` of `ping`, and its reply.
const PING: &[u8] =
    b"GIOP\x01\x02\0\0\0\0\0$\0\0\0\x01\x03\0\0\0\0\0\0\0\0\0\0\x04ping\0\0\0\x08current\0\0\0\0\0";

const PING_REPLY: &[u8] = b"GIOP\x01\x02\0\x01\0\0\0\x0e\0\0\0\x01\0\0\0\0\0\0\0\0\0d";

/// The same request in the other byte order, with one service context.
const LITTLE_PING: &[u8] =
    b"GIOP\x01\x02\x01\0\x30\0\0\0\x01\0\0\0\x03\0\0\0\0\0\0\0\x04\0\0\0ping\x08\0\0\0current\0\x01\0\0\0\x0a\0\0\0\x04\0\0\0\x01\0\x07\0";

/// A request with a body.
const TWICE: &[u8] =
    b"GIOP\x01\x02\0\0\0\0\0(\0\0\0\x01\x03\0\0\0\0\0\0\0\0\0\0\x01v\0\0\0\0\0\0\x06twice\0\0\0\0\0\0\0\0\0\0\x15";

/// Requests whose target is a profile, and a reference.
const BY_PROFILE: &[u8] =
    b"GIOP\x01\x02\0\0\0\0\0$\0\0\0\x02\x01\0\0\0\0\x01\0\0\0\0\0\0\0\0\0\x03abc\0\0\0\0\x03op\0\0\0\0\0\0";

const BY_REFERENCE: &[u8] =
    b"GIOP\x01\x02\x01\0Y\0\0\0\x03\0\0\0\0\0\0\0\x02\0\0\0\x01\0\0\0\x02\0\0\0A\0\0\0\x02\0\0\0\0\0\0\0\x01\0\0\0z\0\0\0\x07\0\0\0\0\0\0\0\x03\0\0\0go\0\0\x02\0\0\0\x01\0\0\0\0\0\0\0\x02\0\0\0\x02\0\0\0xy\0\0\0\0\0\0\x312345";

/// A request for a key, and an operation, with octets that are not shown as they are; and one for empty ones.
const HIDDEN_OCTETS: &[u8] =
    b"GIOP\x01\x02\0\0\0\0\0(\0\0\0\x09\x03\0\0\0\0\0\0\0\0\0\0\x07\0 %!~\x7f\xff\0\0\0\0\x05a b%\0\0\0\0\0\0\0\0";

const EMPTY_NAMES: &[u8] =
    b"GIOP\x01\x02\0\0\0\0\0\x1c\0\0\0\x0a\x03\0\0\0\0\0\0\0\0\0\0\0\0\0\0\x01\0\0\0\0\0\0\0\0";

const LITTLE_REPLY: &[u8] =
    b"GIOP\x01\x02\x01\x01\x1f\0\0\0\xff\xff\xff\xff\x03\0\0\0\x01\0\0\0\x0b\0\0\0\x01\0\0\0\x31\0\0\0\0\0\0\0abc";

const CANCEL: &[u8] = b"GIOP\x01\x02\0\x02\0\0\0\x04\0\0\0\x07";

/// A question where `ping` is, and the answer that it is here; questions with the two other targets.
const LOCATE: &[u8] = b"GIOP\x01\x02\0\x03\0\0\0\x10\0\0\0\x05\0\0\0\0\0\0\0\x04ping";

const HERE: &[u8] = b"GIOP\x01\x02\0\x04\0\0\0\x08\0\0\0\x05\0\0\0\x01";

const LOCATE_BY_PROFILE: &[u8] =
    b"GIOP\x01\x02\x01\x03\x11\0\0\0\x06\0\0\0\x01\0\0\0\x03\0\0\0\x01\0\0\0q";

const LOCATE_BY_REFERENCE: &[u8] =
    b"GIOP\x01\x02\0\x03\0\0\0\x18\0\0\0\x08\0\x02\0\0\0\0\0\0\0\0\0\x02A\0\0\0\0\0\0\0";

const CLOSE: &[u8] = b"GIOP\x01\x02\0\x05\0\0\0\0";

const ERROR: &[u8] = b"GIOP\x01\x02\x01\x06\0\0\0\0";

/// The request of id 1 in three pieces, with that of id 2 between them.
const INTERLEAVED: &[u8] =
    b"GIOP\x01\x02\x02\0\0\0\0\x0c\0\0\0\x01\x03\0\0\0\0\0\0\0GIOP\x01\x02\0\0\0\0\0$\0\0\0\x02\x03\0\0\0\0\0\0\0\0\0\0\x04ping\0\0\0\x08current\0\0\0\0\0GIOP\x01\x02\x02\x07\0\0\0\x14\0\0\0\x01\0\0\0\x04ping\0\0\0\x08currGIOP\x01\x02\0\x07\0\0\0\x0c\0\0\0\x01ent\0\0\0\0\0";

/// What omniORB 4.2.5's `nameclt list` wrote to its naming service: a question of the type, `list`, a question where the
/// list is, and `next_one` with a context of its own.
const NAMES_REQUESTS: &[u8] =
    b"GIOP\x01\x02\x01\0X\0\0\0\x02\0\0\0\x03\0\0\0\0\0\x05\0\x0b\0\0\0NameService\0\x06\0\0\0_is_a\0\0\0\0\0\0\0(\0\0\0IDL:omg.org/CosNaming/NamingContext:1.0\0GIOP\x01\x02\x01\00\0\0\0\x04\0\0\0\x03\0\0\0\0\0\x05\0\x0b\0\0\0NameService\0\x05\0\0\0list\0\0\0\0\0\0\0\0\0\0\0\0GIOP\x01\x02\x01\x03\x1a\0\0\0\x06\0\0\0\0\0\0\0\x0e\0\0\0\xff\0\xb9:\x09k\x01\0%u\0\0\0\x05GIOP\x01\x02\x01\0H\0\0\0\x08\0\0\0\x03\0\0\0\0\0\0\0\x0e\0\0\0\xff\0\xb9:\x09k\x01\0%u\0\0\0\x05\0\0\x09\0\0\0next_one\0\0\0\0\x01\0\0\0\x01\0\0\0\x0c\0\0\0\x01\0\0\0\x01\0\x01\0\x09\x01\x01\0";

/// What the service answered to the first three.
const NAMES_REPLIES: &[u8] =
    b"GIOP\x01\x02\x01\x01\x0d\0\0\0\x02\0\0\0\0\0\0\0\0\0\0\0\x01GIOP\x01\x02\x01\x01\xbc\0\0\0\x04\0\0\0\0\0\0\0\0\0\0\0\0\0\0\0*\0\0\0IDL:omg.org/CosNaming/BindingIterator:1.0\0nn\x01\0\0\0\0\0\0\0p\0\0\0\x01\x01\x02\0\x0a\0\0\0127.0.0.1\0\x0a2\x0e\0\0\0\xff\0\xb9:\x09k\x01\0%u\0\0\0\x05\0\0\x03\0\0\0\0\0\0\0\x08\0\0\0\x01\0\0\0\0TTA\x01\0\0\0\x1c\0\0\0\x01\0\0\0\x01\0\x01\0\x01\0\0\0\x01\0\x01\x05\x09\x01\x01\0\x01\0\0\0\x09\x01\x01\0\x03TTA\x08\0\0\0\xb9:\x09k\x01\0%uGIOP\x01\x02\x01\x04\x08\0\0\0\x06\0\0\0\x01\0\0\0";

/// What it answered to `nameclt resolve` for a name that isn't there: a user exception.
const NAMES_NOT_FOUND: &[u8] =
    b"GIOP\x01\x02\x01\x01\x0d\0\0\0\x02\0\0\0\0\0\0\0\0\0\0\0\x01GIOP\x01\x02\x01\x01^\0\0\0\x04\0\0\0\x01\0\0\0\0\0\0\01\0\0\0IDL:omg.org/CosNaming/NamingContext/NotFound:1.0\0nnn\0\0\0\0\x01\0\0\0\x08\0\0\0nothere\0\x02\0\0\0x\0";

/// What `nameclt bind` wrote before and after a name of 8,100 times `n`: the request comes in a first piece of 8,192 bytes
/// and a Fragment.
const BIND_HEAD: &[u8] =
    b"GIOP\x01\x02\x01\0X\0\0\0\x02\0\0\0\x03\0\0\0\0\0\x05\0\x0b\0\0\0NameService\0\x06\0\0\0_is_a\0\0\0\0\0\0\0(\0\0\0IDL:omg.org/CosNaming/NamingContext:1.0\0GIOP\x01\x02\x03\0\xf4\x1f\0\0\x04\0\0\0\x03\0\0\0\0\0\x05\0\x0b\0\0\0NameService\0\x05\0\0\0bind\0\0\0\0\0\0\0\0\x01\0\0\0\xa5\x1f\0\0";

const BIND_TAIL: &[u8] =
    b"\0\0\0\0\x01\0\0\0\0\0\0\0+\0\0\0IDL:omg.org/GIOP\x01\x02\x01\x07\x9c\0\0\0\x04\0\0\0CosNaming/NamingContextExt:1.0\0d\x01\0\0\0\0\0\0\0l\0\0\0\x01\x01\x02\0\x0a\0\0\0127.0.0.1\0\x0a2\x0b\0\0\0NameService\0\x03\0\0\0\0\0\0\0\x08\0\0\0\x01\0\0\0\0TTA\x01\0\0\0\x1c\0\0\0\x01\0\0\0\x01\0\x01\0\x01\0\0\0\x01\0\x01\x05\x09\x01\x01\0\x01\0\0\0\x09\x01\x01\0\x03TTA\x08\0\0\0\xb9:\x09k\x01\0%uGIOP\x01\x02\x01\x05\0\0\0\0";

/// One dump: the input with its cuts and failing reads, the sink's cuts and failing writes, and what comes.
struct Row {
    name: &'static str,
    input: &'static [u8],
    /// How many times `n` is after the input.
    times: usize,
    /// What is after that.
    tail: &'static [u8],
    reads: &'static [usize],
    failed_reads: &'static [u64],
    writes: &'static [usize],
    failed_writes: &'static [u64],
    end: DumpEnd,
    output: &'static [u8],
}

/// A dump of no message over devices that never fail, read at once.
const PLAIN: Row = Row {
    name: "no message",
    input: b"",
    times: 0,
    tail: b"",
    reads: &[],
    failed_reads: &[],
    writes: &[],
    failed_writes: &[],
    end: DumpEnd::Done,
    output: b"",
};

/// Reads of one byte each.
const ONES: &[usize] = &[1; 128];

/// Whether a dump of these bytes comes out, and writes, as a row says.
fn dumps(alloc: Global, bytes: Octets, row: &Row) -> bool {
    let Ok(mut input) = source(alloc, bytes, row.reads, row.failed_reads) else {
        return false;
    };
    let Ok(mut out) = sink(alloc, row.writes, row.failed_writes) else {
        return false;
    };
    match dump_run(alloc, &mut input, &mut out) {
        Ok(end) => end == row.end && out.held() == row.output,
        Err(_) => false,
    }
}

fn holds(alloc: Global, row: &Row) -> bool {
    match spelled(alloc, row.input, b'n', row.times, row.tail) {
        Ok(bytes) => dumps(alloc, bytes, row),
        Err(_) => false,
    }
}

/// The name of the first row that doesn't hold, or nothing.
fn first_wrong(alloc: Global, rows: &[Row]) -> &'static str {
    for row in rows {
        if !holds(alloc, row) {
            return row.name;
        }
    }
    ""
}

const LINES: &[Row] = &[
    Row {
        name: "a request",
        input: PING,
        output: b"0 Request big 48 id 1 flags 3 key ping op current contexts 0 body 0\n",
        ..PLAIN
    },
    Row {
        name: "a request of the other byte order",
        input: LITTLE_PING,
        output: b"0 Request little 60 id 1 flags 3 key ping op current contexts 1 body 0\n",
        ..PLAIN
    },
    Row {
        name: "a request with a body",
        input: TWICE,
        output: b"0 Request big 52 id 1 flags 3 key v op twice contexts 0 body 4\n",
        ..PLAIN
    },
    Row {
        name: "a request by a profile",
        input: BY_PROFILE,
        output: b"0 Request big 48 id 2 flags 1 profile op op contexts 0 body 0\n",
        ..PLAIN
    },
    Row {
        name: "a request by a reference",
        input: BY_REFERENCE,
        output: b"0 Request little 101 id 3 flags 0 addressing op go contexts 2 body 5\n",
        ..PLAIN
    },
    Row {
        name: "a request with octets that are not shown as they are",
        input: HIDDEN_OCTETS,
        output: b"0 Request big 52 id 9 flags 3 key %00%20%25!~%7F%FF op a%20b%25 contexts 0 body 0\n",
        ..PLAIN
    },
    Row {
        name: "a request for empty names",
        input: EMPTY_NAMES,
        output: b"0 Request big 40 id 10 flags 3 key  op  contexts 0 body 0\n",
        ..PLAIN
    },
    Row {
        name: "a reply",
        input: PING_REPLY,
        output: b"0 Reply big 26 id 1 status 0 contexts 0 body 2\n",
        ..PLAIN
    },
    Row {
        name: "a reply of the other byte order",
        input: LITTLE_REPLY,
        output: b"0 Reply little 43 id 4294967295 status 3 contexts 1 body 3\n",
        ..PLAIN
    },
    Row {
        name: "a CancelRequest",
        input: CANCEL,
        output: b"0 CancelRequest big 16 id 7\n",
        ..PLAIN
    },
    Row {
        name: "a LocateRequest",
        input: LOCATE,
        output: b"0 LocateRequest big 28 id 5 key ping\n",
        ..PLAIN
    },
    Row {
        name: "a LocateRequest by a profile",
        input: LOCATE_BY_PROFILE,
        output: b"0 LocateRequest little 29 id 6 profile\n",
        ..PLAIN
    },
    Row {
        name: "a LocateRequest by a reference",
        input: LOCATE_BY_REFERENCE,
        output: b"0 LocateRequest big 36 id 8 addressing\n",
        ..PLAIN
    },
    Row {
        name: "a LocateReply",
        input: HERE,
        output: b"0 LocateReply big 20 id 5 status 1\n",
        ..PLAIN
    },
    Row {
        name: "a CloseConnection",
        input: CLOSE,
        output: b"0 CloseConnection big 12\n",
        ..PLAIN
    },
    Row {
        name: "a MessageError",
        input: ERROR,
        output: b"0 MessageError little 12\n",
        ..PLAIN
    },
    Row {
        name: "no message",
        input: b"",
        output: b"",
        ..PLAIN
    },
];

#[test]
fn each_kind_of_message_has_its_line(rt: HostRuntime) {
    assert_eq!(rt; first_wrong(rt.alloc(), LINES), "");
}

const FAULTS: &[Row] = &[
    Row {
        name: "a header cut short",
        input: b"GIOP\x01\x02\0\0\0\0\0",
        end: DumpEnd::Refused(Refusal {
            offset: 0,
            fault: Fault::Cut,
        }),
        ..PLAIN
    },
    Row {
        name: "fragments without the last one",
        input: b"GIOP\x01\x02\0\x05\0\0\0\0GIOP\x01\x02\x02\0\0\0\0\x0c\0\0\0\x01\x03\0\0\0\0\0\0\0",
        end: DumpEnd::Refused(Refusal {
            offset: 12,
            fault: Fault::Cut,
        }),
        output: b"0 CloseConnection big 12\n",
        ..PLAIN
    },
    Row {
        name: "a first piece of 25 bytes",
        input: b"GIOP\x01\x02\x02\0\0\0\0\x0d\0\0\0\0\0\0\0\0\0\0\0\0\0",
        end: DumpEnd::Refused(Refusal {
            offset: 0,
            fault: Fault::Frame(FrameCause::BadPiece),
        }),
        ..PLAIN
    },
    Row {
        name: "a size of 262,133",
        input: b"GIOP\x01\x02\0\0\0\x03\xff\xf5",
        end: DumpEnd::Refused(Refusal {
            offset: 0,
            fault: Fault::Frame(FrameCause::TooLong),
        }),
        ..PLAIN
    },
    Row {
        name: "a size of 262,132",
        input: b"GIOP\x01\x02\0\0\0\x03\xff\xf4",
        end: DumpEnd::Refused(Refusal {
            offset: 0,
            fault: Fault::Cut,
        }),
        ..PLAIN
    },
    Row {
        name: "other magic behind a message",
        input: b"GIOP\x01\x02\0\x05\0\0\0\0GIOX\x01\x02\0\0\0\0\0\0",
        end: DumpEnd::Refused(Refusal {
            offset: 12,
            fault: Fault::Frame(FrameCause::BadMagic),
        }),
        output: b"0 CloseConnection big 12\n",
        ..PLAIN
    },
    Row {
        name: "a reply of status 6, and a message behind it",
        input: b"GIOP\x01\x02\x01\x06\0\0\0\0GIOP\x01\x02\0\x01\0\0\0\x0c\0\0\0\x01\0\0\0\x06\0\0\0\0GIOP\x01\x02\0\x05\0\0\0\0",
        end: DumpEnd::Refused(Refusal {
            offset: 12,
            fault: Fault::BadStatus,
        }),
        output: b"0 MessageError little 12\n",
        ..PLAIN
    },
    Row {
        name: "a CancelRequest of two bytes",
        input: b"GIOP\x01\x02\0\x02\0\0\0\x02\0\x01",
        end: DumpEnd::Refused(Refusal {
            offset: 0,
            fault: Fault::Message(CdrCause::Short),
        }),
        ..PLAIN
    },
    Row {
        name: "a target of form 3, and other magic behind it",
        input: b"GIOP\x01\x02\0\x03\0\0\0\x06\0\0\0\x05\0\x03GIOX\x01\x02\0\0\0\0\0\0",
        end: DumpEnd::Refused(Refusal {
            offset: 0,
            fault: Fault::BadTarget,
        }),
        ..PLAIN
    },
];

#[test]
fn a_fault_ends_the_lines_at_its_offset(rt: HostRuntime) {
    assert_eq!(rt; first_wrong(rt.alloc(), FAULTS), "");
}

const DEVICES: &[Row] = &[
    Row {
        name: "interleaved fragments read byte by byte",
        input: INTERLEAVED,
        reads: ONES,
        output: b"24 Request big 48 id 2 flags 3 key ping op current contexts 0 body 0\n104 Request big 48 id 1 flags 3 key ping op current contexts 0 body 0\n",
        ..PLAIN
    },
    Row {
        name: "a line written in three writes",
        input: LOCATE,
        writes: &[1, 5],
        output: b"0 LocateRequest big 28 id 5 key ping\n",
        ..PLAIN
    },
    Row {
        name: "a failed read within a message",
        input: b"GIOP\x01\x02\0\x05\0\0\0\0GIOP\x01\x02\0\x02\0\0\0\x04\0\0\0\x07",
        reads: &[20],
        failed_reads: &[1],
        end: DumpEnd::ReadFault,
        output: b"0 CloseConnection big 12\n",
        ..PLAIN
    },
    Row {
        name: "a failed read behind a refused message",
        input: b"GIOP\x01\x02\0\x02\0\0\0\x02\0\x01",
        reads: &[14],
        failed_reads: &[1],
        end: DumpEnd::Refused(Refusal {
            offset: 0,
            fault: Fault::Message(CdrCause::Short),
        }),
        ..PLAIN
    },
    Row {
        name: "a failed first write",
        input: LOCATE,
        failed_writes: &[0],
        end: DumpEnd::WriteFault,
        ..PLAIN
    },
    Row {
        name: "a failed write within the second line",
        input: b"GIOP\x01\x02\0\x05\0\0\0\0GIOP\x01\x02\0\x02\0\0\0\x04\0\0\0\x07",
        reads: &[12],
        writes: &[25, 3],
        failed_writes: &[2],
        end: DumpEnd::WriteFault,
        output: b"0 CloseConnection big 12\n12 ",
        ..PLAIN
    },
];

#[test]
fn devices_cut_and_fail(rt: HostRuntime) {
    assert_eq!(rt; first_wrong(rt.alloc(), DEVICES), "");
}

/// Lengths, ids and operations are those that the analyser tshark tells of the same bytes.
const OTHERS: &[Row] = &[
    Row {
        name: "requests to a naming service",
        input: NAMES_REQUESTS,
        output: b"0 Request little 100 id 2 flags 3 key NameService op _is_a contexts 0 body 44\n100 Request little 60 id 4 flags 3 key NameService op list contexts 0 body 4\n160 LocateRequest little 38 id 6 key %FF%00%B9:%09k%01%00%25u%00%00%00%05\n198 Request little 84 id 8 flags 3 key %FF%00%B9:%09k%01%00%25u%00%00%00%05 op next_one contexts 1 body 0\n",
        ..PLAIN
    },
    Row {
        name: "its replies",
        input: NAMES_REPLIES,
        output: b"0 Reply little 25 id 2 status 0 contexts 0 body 1\n25 Reply little 200 id 4 status 0 contexts 0 body 176\n225 LocateReply little 20 id 6 status 1\n",
        ..PLAIN
    },
    Row {
        name: "its user exception",
        input: NAMES_NOT_FOUND,
        output: b"0 Reply little 25 id 2 status 0 contexts 0 body 1\n25 Reply little 106 id 4 status 1 contexts 0 body 82\n",
        ..PLAIN
    },
];

#[test]
fn messages_of_another_broker_are_shown(rt: HostRuntime) {
    assert_eq!(rt; first_wrong(rt.alloc(), OTHERS), "");
}

const CUT: &[Row] = &[Row {
    name: "a bind in two pieces",
    input: BIND_HEAD,
    times: 8_100,
    tail: BIND_TAIL,
    output: b"0 Request little 100 id 2 flags 3 key NameService op _is_a contexts 0 body 44\n8292 Request little 8344 id 4 flags 3 key NameService op bind contexts 0 body 8288\n8460 CloseConnection little 12\n",
    ..PLAIN
}];

#[test]
fn a_message_that_another_broker_cut_is_shown(rt: HostRuntime) {
    assert_eq!(rt; first_wrong(rt.alloc(), CUT), "");
}

/// A source that never ends, of CloseConnections of 262,144 bytes each, whose trailing bytes are 0.
#[derive(Drop)]
struct LongMessages {
    at: usize,
}

/// A header with a size of 262,132.
const LONG_HEADER: [u8; 12] = *b"GIOP\x01\x02\0\x05\0\x03\xff\xf4";

impl Source for LongMessages {
    ghost state = { λ _. record { left = None; taken = None; faults = 0; ends = 0 } };

    fn read(&mut self, into: &mut [u8]) -> Got {
        let at = self.at % 262_144;
        let n = if at < LONG_HEADER.len() {
            into[0] = LONG_HEADER[at];
            1
        } else {
            let n = into.len().min(262_144 - at);
            into[..n].fill(0);
            n
        };
        self.at = (at + n) % 262_144;
        Got::Bytes(n)
    }
}

/// 256 messages of 262,144 bytes are 67,108,864 bytes, after which nothing is read.
fn ends_at_the_limit(alloc: Global) -> bool {
    let mut input = LongMessages { at: 0 };
    let mut out = CountingSink::new();
    match dump_run(alloc, &mut input, &mut out) {
        // "<offset> CloseConnection big 262144" and a line feed: one offset of 1 digit, 3 of 6, 35 of 7 and 217 of 8.
        Ok(end) => end == DumpEnd::Spent && input.at == 0 && out.bytes() == 9_168,
        Err(_) => false,
    }
}

#[test]
fn as_many_bytes_as_are_taken_are_the_limit(rt: HostRuntime) {
    assert!(rt; ends_at_the_limit(rt.alloc()));
}
