//! The pipe of the built-in setup over memory: what it reads, writes and answers, and what it does when a device fails.

use super::rows::{EMPTY, Left, Row, first_wrong};

/// The request of id 1 for `current` of `ping`, and its reply: the priority 100.
const PING_REQUEST: &[u8] =
    b"GIOP\x01\x02\0\0\0\0\0\x24\0\0\0\x01\x03\0\0\0\0\0\0\0\0\0\0\x04ping\0\0\0\x08current\0\0\0\0\0";

const PING_REPLY: &[u8] = b"GIOP\x01\x02\0\x01\0\0\0\x0e\0\0\0\x01\0\0\0\0\0\0\0\0\0\x64";

/// The requests of ids 1 and 2 in the other byte order, and their replies.
const LITTLE_PING: &[u8] =
    b"GIOP\x01\x02\x01\0\x24\0\0\0\x01\0\0\0\x03\0\0\0\0\0\0\0\x04\0\0\0ping\x08\0\0\0current\0\0\0\0\0";

const LITTLE_REPLY: &[u8] = b"GIOP\x01\x02\x01\x01\x0e\0\0\0\x01\0\0\0\0\0\0\0\0\0\0\0\x64\0";

/// A big-endian ping of id 1, and after it a little-endian one of id 1, and their replies.
const TWO_ORDERS: &[u8] =
    b"GIOP\x01\x02\0\0\0\0\0\x24\0\0\0\x01\x03\0\0\0\0\0\0\0\0\0\0\x04ping\0\0\0\x08current\0\0\0\0\0GIOP\x01\x02\x01\0\x24\0\0\0\x01\0\0\0\x03\0\0\0\0\0\0\0\x04\0\0\0ping\x08\0\0\0current\0\0\0\0\0";

const TWO_ORDERS_REPLIES: &[u8] =
    b"GIOP\x01\x02\0\x01\0\0\0\x0e\0\0\0\x01\0\0\0\0\0\0\0\0\0\x64GIOP\x01\x02\x01\x01\x0e\0\0\0\x01\0\0\0\0\0\0\0\0\0\0\0\x64\0";

/// A request of id 1 in three pieces, with the request of id 2 between them, and the replies of ids 2 and 1.
const INTERLEAVED: &[u8] =
    b"GIOP\x01\x02\x02\0\0\0\0\x0c\0\0\0\x01\x03\0\0\0\0\0\0\0GIOP\x01\x02\0\0\0\0\0\x24\0\0\0\x02\x03\0\0\0\0\0\0\0\0\0\0\x04ping\0\0\0\x08current\0\0\0\0\0GIOP\x01\x02\x02\x07\0\0\0\x14\0\0\0\x01\0\0\0\x04ping\0\0\0\x08currGIOP\x01\x02\0\x07\0\0\0\x0c\0\0\0\x01ent\0\0\0\0\0";

const INTERLEAVED_REPLIES: &[u8] =
    b"GIOP\x01\x02\0\x01\0\0\0\x0e\0\0\0\x02\0\0\0\0\0\0\0\0\0\x64GIOP\x01\x02\0\x01\0\0\0\x0e\0\0\0\x01\0\0\0\0\0\0\0\0\0\x64";

/// The first piece of a request alone; a ping and then a CloseConnection; a piece whose length is no multiple of 8.
const UNFINISHED: &[u8] = b"GIOP\x01\x02\x02\0\0\0\0\x0c\0\0\0\x01\x03\0\0\0\0\0\0\0";

const PING_AND_CLOSE: &[u8] =
    b"GIOP\x01\x02\0\0\0\0\0\x24\0\0\0\x01\x03\0\0\0\0\0\0\0\0\0\0\x04ping\0\0\0\x08current\0\0\0\0\0GIOP\x01\x02\0\x05\0\0\0\0";

const ODD_PIECE: &[u8] = b"GIOP\x01\x02\x02\0\0\0\0\x0d\0\0\0\x01\x03\0\0\0\0\0\0\0\0";

/// A ping with response flags of 1, and one whose reserved octets and pads are not 0.
const EARLY_PING: &[u8] =
    b"GIOP\x01\x02\0\0\0\0\0\x24\0\0\0\x01\x01\0\0\0\0\0\0\0\0\0\0\x04ping\0\0\0\x08current\0\0\0\0\0";

const ODD_RESERVED: &[u8] =
    b"GIOP\x01\x02\0\0\0\0\0\x24\0\0\0\x01\x03\x07\x08\x09\0\0\x0a\x0b\0\0\0\x04ping\0\0\0\x08current\0\0\0\0\0";

/// The request for an unknown key, with a byte too many, and in the other byte order with a priority of 7.
const PONG_REQUEST: &[u8] =
    b"GIOP\x01\x02\0\0\0\0\0\x24\0\0\0\x01\x03\0\0\0\0\0\0\0\0\0\0\x04pong\0\0\0\x08current\0\0\0\0\0";

const TRAILING_REQUEST: &[u8] =
    b"GIOP\x01\x02\0\0\0\0\0\x24\0\0\0\x01\x03\0\0\0\0\0\0\0\0\0\0\x04ping\0\0\0\x08current\0\0\0\0\0\0";

const LITTLE_REQUEST: &[u8] =
    b"GIOP\x01\x02\x01\0\x30\0\0\0\x01\0\0\0\x03\0\0\0\0\0\0\0\x04\0\0\0ping\x08\0\0\0current\0\x01\0\0\0\x0a\0\0\0\x04\0\0\0\x01\0\x07\0";

/// The reply of id 1 with OBJECT_NOT_EXIST, minor 1, completed NO.
const NO_OBJECT: &[u8] =
    b"GIOP\x01\x02\0\x01\0\0\0\x40\0\0\0\x01\0\0\0\x02\0\0\0\0\0\0\0\x27IDL:omg.org/CORBA/OBJECT_NOT_EXIST:1.0\0\0\0\0\0\x01\0\0\0\x01";

/// The reply of id 1 without a body, and the one of the other byte order with the priority 7.
const BARE_REPLY: &[u8] = b"GIOP\x01\x02\0\x01\0\0\0\x0c\0\0\0\x01\0\0\0\0\0\0\0\0";

const LITTLE_SEVEN: &[u8] = b"GIOP\x01\x02\x01\x01\x0e\0\0\0\x01\0\0\0\0\0\0\0\0\0\0\0\x07\0";

const ERROR: &[u8] = b"GIOP\x01\x02\0\x06\0\0\0\0";

/// Reads of one byte each.
const ONES: &[usize] = &[1; 64];

const PINGS: &[Row<'static>] = &[
    Row {
        story: "a ping",
        input: PING_REQUEST,
        output: PING_REPLY,
        ..EMPTY
    },
    Row {
        story: "the trace of a ping",
        words: &["pipe", "--trace"],
        input: PING_REQUEST,
        output: b"pool 0 0 0 0 0 65536 67108864 1 128\nlane 100 1 0\n0 offer 0.0 0 1 2 100 0 48 run 0\n0 take 0 0\n0 finish 0 0 2\n0 collect 0.0 answered 0\n0 end 0.0 quiet\n0 collect 0.0 done\nentries 6\n",
        ..EMPTY
    },
    Row {
        story: "a ping read byte by byte",
        input: PING_REQUEST,
        reads: ONES,
        output: PING_REPLY,
        ..EMPTY
    },
    Row {
        story: "an empty input",
        input: b"",
        ..EMPTY
    },
    Row {
        story: "a little-endian ping",
        input: LITTLE_PING,
        output: LITTLE_REPLY,
        ..EMPTY
    },
    Row {
        story: "two pings of two orders",
        input: TWO_ORDERS,
        output: TWO_ORDERS_REPLIES,
        ..EMPTY
    },
    Row {
        story: "interleaved fragments in one read",
        input: INTERLEAVED,
        writes: &[1; 64],
        output: INTERLEAVED_REPLIES,
        ..EMPTY
    },
    Row {
        story: "reserved octets and pads of any content",
        input: ODD_RESERVED,
        output: PING_REPLY,
        ..EMPTY
    },
    Row {
        story: "a failed write between two replies",
        input: TWO_ORDERS,
        failed_writes: &[1],
        status: 4,
        note: "WriteFault",
        output: PING_REPLY,
        ..EMPTY
    },
    Row {
        story: "an unfinished request",
        input: UNFINISHED,
        status: 8,
        note: "Input(0, Cut)",
        ..EMPTY
    },
    Row {
        story: "a ping and a CloseConnection",
        input: PING_AND_CLOSE,
        output: PING_REPLY,
        ..EMPTY
    },
    Row {
        story: "a piece of odd length",
        input: ODD_PIECE,
        status: 8,
        note: "Input(0, Frame(BadPiece))",
        output: ERROR,
        ..EMPTY
    },
    Row {
        story: "a ping whose reply is due early",
        input: EARLY_PING,
        output: BARE_REPLY,
        ..EMPTY
    },
    Row {
        story: "a little-endian request with a priority",
        input: LITTLE_REQUEST,
        output: LITTLE_SEVEN,
        ..EMPTY
    },
];

/// A run whose history has its entries: Offer, Take, Finish, Collect, End, Collect.
const ONE_PING: Row<'static> = Row {
    left: Left::Entries(6),
    ..EMPTY
};

/// Pings of ids of many forms.
const IDS: &[Row<'static>] = &[
    Row {
        story: "the id 0",
        input: b"GIOP\x01\x02\0\0\0\0\0\x24\0\0\0\0\x03\0\0\0\0\0\0\0\0\0\0\x04ping\0\0\0\x08current\0\0\0\0\0",
        output: b"GIOP\x01\x02\0\x01\0\0\0\x0e\0\0\0\0\0\0\0\0\0\0\0\0\0\x64",
        ..ONE_PING
    },
    Row {
        story: "the id 255",
        input: b"GIOP\x01\x02\0\0\0\0\0\x24\0\0\0\xff\x03\0\0\0\0\0\0\0\0\0\0\x04ping\0\0\0\x08current\0\0\0\0\0",
        output: b"GIOP\x01\x02\0\x01\0\0\0\x0e\0\0\0\xff\0\0\0\0\0\0\0\0\0\x64",
        ..ONE_PING
    },
    Row {
        story: "the id 0xfedc_ba98",
        input: b"GIOP\x01\x02\0\0\0\0\0\x24\xfe\xdc\xba\x98\x03\0\0\0\0\0\0\0\0\0\0\x04ping\0\0\0\x08current\0\0\0\0\0",
        output: b"GIOP\x01\x02\0\x01\0\0\0\x0e\xfe\xdc\xba\x98\0\0\0\0\0\0\0\0\0\x64",
        ..ONE_PING
    },
    Row {
        story: "the greatest id",
        input: b"GIOP\x01\x02\0\0\0\0\0\x24\xff\xff\xff\xff\x03\0\0\0\0\0\0\0\0\0\0\x04ping\0\0\0\x08current\0\0\0\0\0",
        output: b"GIOP\x01\x02\0\x01\0\0\0\x0e\xff\xff\xff\xff\0\0\0\0\0\0\0\0\0\x64",
        ..ONE_PING
    },
];

/// Ample memory gives neither out of memory nor NO_MEMORY.
#[test]
fn the_pipe_answers_each_ping(rt: HostRuntime) {
    assert_eq!(rt; first_wrong(&rt, rt.alloc(), PINGS), "");
    assert_eq!(rt; first_wrong(&rt, rt.alloc(), IDS), "");
}

const FAULTS: &[Row<'static>] = &[
    Row {
        story: "an unknown key",
        input: PONG_REQUEST,
        output: NO_OBJECT,
        ..EMPTY
    },
    Row {
        story: "a trailing byte",
        input: TRAILING_REQUEST,
        status: 8,
        note: "Input(48, Cut)",
        output: PING_REPLY,
        ..EMPTY
    },
    Row {
        story: "a header of zeros",
        input: b"\0\0\0\0\0\0\0\0\0\0\0\0",
        status: 8,
        note: "Input(0, Frame(BadMagic))",
        output: ERROR,
        ..EMPTY
    },
    Row {
        story: "a failed first read",
        input: PING_REQUEST,
        failed_reads: &[0],
        status: 3,
        note: "ReadFault",
        ..EMPTY
    },
    Row {
        story: "a failed later read",
        input: PING_REQUEST,
        reads: &[40],
        failed_reads: &[1],
        status: 3,
        note: "ReadFault",
        ..EMPTY
    },
    Row {
        story: "a failed read in place of the end",
        input: PING_REQUEST,
        reads: &[48],
        failed_reads: &[1],
        status: 3,
        note: "ReadFault",
        output: PING_REPLY,
        ..EMPTY
    },
    Row {
        story: "a failed first write",
        input: PING_REQUEST,
        failed_writes: &[0],
        status: 4,
        note: "WriteFault",
        ..EMPTY
    },
    Row {
        story: "a failed write behind four bytes",
        input: PING_REQUEST,
        writes: &[3, 1],
        failed_writes: &[2],
        status: 4,
        note: "WriteFault",
        output: b"GIOP",
        ..EMPTY
    },
];

/// A word that isn't known is misuse.
const MISREAD: &[Row<'static>] = &[
    Row {
        story: "no words",
        words: &[],
        input: PING_REQUEST,
        status: 1,
        note: "Usage",
        ..EMPTY
    },
    Row {
        story: "no command",
        words: &["--history", "pipe"],
        input: PING_REQUEST,
        status: 1,
        note: "Usage",
        ..EMPTY
    },
    Row {
        story: "no word that serve must have",
        words: &["serve"],
        input: PING_REQUEST,
        status: 1,
        note: "Usage",
        ..EMPTY
    },
    Row {
        story: "a batch of 65",
        words: &["pipe", "--batch", "65"],
        input: PING_REQUEST,
        status: 1,
        note: "Usage",
        ..EMPTY
    },
    Row {
        story: "an option twice",
        words: &["pipe", "--batch", "2", "--batch=2"],
        input: PING_REQUEST,
        status: 1,
        note: "Usage",
        ..EMPTY
    },
    Row {
        story: "the text of the history and the trace at once",
        words: &["pipe", "--history", "--trace"],
        input: PING_REQUEST,
        status: 1,
        note: "Usage",
        ..EMPTY
    },
    Row {
        story: "a call without a reference",
        words: &["call", "--op", "current"],
        input: PING_REQUEST,
        status: 1,
        note: "Usage",
        ..EMPTY
    },
];

/// Words without a command, what the pipe can't answer, and a failed read or write.
#[test]
fn the_pipe_tells_its_faults(rt: HostRuntime) {
    assert_eq!(rt; first_wrong(&rt, rt.alloc(), MISREAD), "");
    assert_eq!(rt; first_wrong(&rt, rt.alloc(), FAULTS), "");
}
