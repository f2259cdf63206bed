//! Calls over a net in memory: what is sent, written and answered, in the order of work.

use super::rows::{EMPTY, Left, Row, first_wrong, holds};
use crate::text_streams_tests::devices::spelled;
use std::alloc::Global;
use std::sync::Wait;
use std::thread::Threads;

/// The request of id 1 for `current` of `ping`, and its reply, a short: CORBA 3.0.3, sections 15.4.2 and 15.4.3.
const CURRENT: &[u8] =
    b"GIOP\x01\x02\0\0\0\0\0\x24\0\0\0\x01\x03\0\0\0\0\0\0\0\0\0\0\x04ping\0\0\0\x08current\0\0\0\0\0";

const REPLY: &[u8] = b"GIOP\x01\x02\0\x01\0\0\0\x0e\0\0\0\x01\0\0\0\0\0\0\0\0\0\x64";

/// The same request at priority 7, in a context of id 10.
const AT_SEVEN: &[u8] =
    b"GIOP\x01\x02\0\0\0\0\0\x30\0\0\0\x01\x03\0\0\0\0\0\0\0\0\0\0\x04ping\0\0\0\x08current\0\0\0\0\x01\0\0\0\x0a\0\0\0\x04\0\0\0\x07";

/// A reply with the system exception OBJECT_NOT_EXIST, minor 1, completed NO: CORBA 3.0.3, section 15.4.3.2.
const NOT_THERE: &[u8] =
    b"GIOP\x01\x02\0\x01\0\0\0\x40\0\0\0\x01\0\0\0\x02\0\0\0\0\0\0\0\x27IDL:omg.org/CORBA/OBJECT_NOT_EXIST:1.0\0\0\0\0\0\x01\0\0\0\x01";

/// A call of `current` whose peer replies.
const CALLED: Row<'static> = Row {
    story: "a call",
    words: &[
        "call",
        "--ref",
        "corbaloc::1.2@127.0.0.1/ping",
        "--interface",
        "IDL:Orb/Ping:1.0",
        "--op",
        "current",
    ],
    answered: REPLY,
    output: b"[100]\n",
    left: Left::Called(CURRENT),
    ..EMPTY
};

/// The same where the words ask for no call.
const UNASKED: Row<'static> = Row {
    status: 11,
    output: &[],
    left: Left::NoCall,
    ..CALLED
};

const ROWS: &[Row<'static>] = &[
    CALLED,
    Row {
        story: "a call at a priority, by a reference without a model",
        words: &[
            "call",
            "--priority=7",
            "--op=current",
            "--interface=IDL:Orb/Ping:1.0",
            "--ref=corbaloc::1.2@127.0.0.1/ping",
        ],
        left: Left::Called(AT_SEVEN),
        ..CALLED
    },
    Row {
        story: "an exception",
        answered: NOT_THERE,
        status: 6,
        note: "System(IDL:omg.org/CORBA/OBJECT_NOT_EXIST:1.0 minor 1 completed 1)",
        output: &[],
        ..CALLED
    },
    Row {
        story: "the object is elsewhere",
        answered: b"GIOP\x01\x02\0\x01\0\0\0\x0c\0\0\0\x01\0\0\0\x03\0\0\0\0",
        status: 6,
        note: "Forward(3)",
        output: &[],
        ..CALLED
    },
    Row {
        story: "a request from the peer",
        answered: CURRENT,
        status: 7,
        note: "Peer(0, WrongWay)",
        output: &[],
        ..CALLED
    },
    Row {
        story: "a body that is a byte short",
        answered: b"GIOP\x01\x02\0\x01\0\0\0\x0d\0\0\0\x01\0\0\0\0\0\0\0\0\0",
        status: 7,
        note: "PeerBody",
        output: &[],
        ..CALLED
    },
    Row {
        story: "a peer that ends at once",
        answered: &[],
        status: 9,
        note: "Closed",
        output: &[],
        ..CALLED
    },
    Row {
        story: "a peer that ends within its reply",
        answered: b"GIOP\x01\x02\0\x01\0\0\0\x0e\0\0\0\x01",
        status: 9,
        note: "Closed",
        output: &[],
        ..CALLED
    },
    Row {
        story: "a line that can't be written",
        failed_writes: &[0],
        status: 4,
        note: "WriteFault",
        output: &[],
        ..CALLED
    },
    Row {
        story: "a net that fails",
        failed_calls: &[0],
        status: 5,
        note: "NetFault",
        output: &[],
        left: Left::NoCall,
        ..CALLED
    },
    Row {
        story: "a text that is no reference",
        words: &["call", "--ref", "IOR:0", "--op", "none"],
        note: "Local(BadReference)",
        ..UNASKED
    },
    Row {
        story: "a reference without a type, and no interface",
        words: &["call", "--ref", "corbaloc::1.2@h/ping", "--op", "none"],
        note: "Local(NoInterface)",
        ..UNASKED
    },
    Row {
        story: "an operation that the interface doesn't have",
        words: &[
            "call",
            "--ref=corbaloc::1.2@h/ping",
            "--interface=IDL:Orb/Ping:1.0",
            "--op=none",
            "--args=no JSON",
        ],
        note: "Local(NoOperation)",
        ..UNASKED
    },
    Row {
        story: "arguments that don't fit",
        words: &[
            "call",
            "--ref=corbaloc::1.2@h/ping",
            "--interface=IDL:Orb/Ping:1.0",
            "--op=current",
            "--args=[1]",
        ],
        note: "Local(BadArguments)",
        ..UNASKED
    },
    Row {
        story: "a file of IDL that isn't there, before the reference is looked at",
        words: &["call", "--ref=none", "--op=none", "--idl=none.idl"],
        status: 10,
        note: "Absent(Idl)",
        ..UNASKED
    },
    Row {
        story: "a file of IDL that is refused",
        words: &["call", "--ref=none", "--op=none", "--idl=i"],
        files: &[("i", b"module M { module M")],
        status: 2,
        note: "Idl(IdlFault { cause: Clash, line: 1, column: 19 })",
        ..UNASKED
    },
    Row {
        story: "a file of IDL of as many bytes as there may be, before the reference is looked at",
        words: &["call", "--ref=none", "--op=none", "--idl=i"],
        files: &[("i", b"")],
        blanks: 1_048_576,
        note: "Local(BadReference)",
        ..UNASKED
    },
    Row {
        story: "a file of IDL of one byte more",
        words: &["call", "--ref=none", "--op=none", "--idl=i"],
        files: &[("i", b"")],
        blanks: 1_048_577,
        status: 2,
        note: "TooLong(Idl)",
        ..UNASKED
    },
    Row {
        story: "a file of IDL whose read fails",
        words: &["call", "--ref=none", "--op=none", "--idl=i"],
        files: &[("i", b"")],
        failed_files: &[0],
        status: 3,
        note: "ReadFault",
        ..UNASKED
    },
];

/// A oneway call writes the empty line once its request was sent: an interface of a file, and an object of another key.
const ONEWAYS: &[Row<'static>] = &[Row {
    story: "a oneway call",
    words: &[
        "call",
        "--ref=corbaloc::1.2@h:7/k",
        "--interface=IDL:T:1.0",
        "--op=go",
        "--idl=i",
        "--args=[258]",
    ],
    files: &[(
        "i",
        b"interface T { oneway void go(in unsigned short n); };",
    )],
    answered: &[],
    output: b"[]\n",
    left: Left::Called(
        b"GIOP\x01\x02\0\0\0\0\0\x26\0\0\0\x01\0\0\0\0\0\0\0\0\0\0\0\x01k\0\0\0\0\0\0\x03go\0\0\0\0\0\0\0\0\0\0\x01\x02",
    ),
    ..EMPTY
}];

#[test]
fn calls_answer_with_their_causes(rt: HostRuntime) {
    assert_eq!(rt; first_wrong(&rt, rt.alloc(), ROWS), "");
}

#[test]
fn a_oneway_call_awaits_nothing(rt: HostRuntime) {
    assert_eq!(rt; first_wrong(&rt, rt.alloc(), ONEWAYS), "");
}

/// A oneway call of `go` with so many letters `a` in one of its words, and in what is sent where a call is asked for.
#[derive(Clone, Copy)]
struct Long {
    /// What is before and after the letters in the word.
    word: (&'static [u8], &'static [u8]),
    letters: usize,
    /// What is before and after the letters in what is sent.
    sent: Option<(&'static [u8], &'static [u8])>,
    row: Row<'static>,
}

/// The words of such a call but for the long one: the arguments, or the reference.
const TO_K: &[&str] = &[
    "call",
    "--idl=i",
    "--interface=IDL:T:1.0",
    "--op=go",
    "--ref=corbaloc::1.2@h/k",
];

const OF_B: &[&str] = &[
    "call",
    "--idl=i",
    "--interface=IDL:T:1.0",
    "--op=go",
    "--args=[\"b\"]",
];

const WROTE: Row<'static> = Row {
    files: &[("i", b"interface T { oneway void go(in string s); };")],
    output: b"[]\n",
    ..EMPTY
};

const REFUSED: Row<'static> = Row {
    status: 11,
    output: &[],
    ..WROTE
};

/// The argument begins at byte 48 of its request, with its length of four bytes, and ends with a NUL. The URL has 16 bytes before its key.
const LONGEST: &[Long] = &[
    Long {
        word: (b"--args=[\"", b"\"]"),
        letters: 262_091,
        sent: Some((
            b"GIOP\x01\x02\0\0\0\x03\xff\xf4\0\0\0\x01\0\0\0\0\0\0\0\0\0\0\0\x01k\0\0\0\0\0\0\x03go\0\0\0\0\0\0\0\0\0\0\0\x03\xff\xcc",
            b"\0",
        )),
        row: Row {
            story: "a request of 262,144 bytes",
            words: TO_K,
            ..WROTE
        },
    },
    Long {
        word: (b"--args=[\"", b"\"]"),
        letters: 262_092,
        sent: None,
        row: Row {
            story: "a request of one byte more",
            words: TO_K,
            note: "Local(BadArguments)",
            ..REFUSED
        },
    },
    Long {
        word: (b"--ref=corbaloc::1.2@h/", b""),
        letters: 65_520,
        sent: Some((
            b"GIOP\x01\x02\0\0\0\x01\0\x12\0\0\0\x01\0\0\0\0\0\0\0\0\0\0\xff\xf0",
            b"\0\0\0\x03go\0\0\0\0\0\0\0\0\0\x02b\0",
        )),
        row: Row {
            story: "a reference of 65,536 bytes",
            words: OF_B,
            ..WROTE
        },
    },
    Long {
        word: (b"--ref=corbaloc::1.2@h/", b""),
        letters: 65_521,
        sent: None,
        row: Row {
            story: "a reference of one byte more",
            words: OF_B,
            note: "Local(BadReference)",
            ..REFUSED
        },
    },
];

/// Whether a row holds with this word, where this is left.
fn holds_with<'a, R: Wait + Threads + Sync>(
    rt: &R,
    alloc: Global,
    long: &Long,
    word: &'a [u8],
    left: Left<'a>,
) -> bool {
    let Ok(word) = str::from_utf8(word) else {
        return false;
    };
    let row = Row {
        last: Some(word),
        left,
        ..long.row
    };
    holds(rt, alloc, &row)
}

/// The same where what is sent is made, if a call is asked for.
fn holds_over<R: Wait + Threads + Sync>(rt: &R, alloc: Global, long: &Long, word: &[u8]) -> bool {
    let Some((front, back)) = long.sent else {
        return holds_with(rt, alloc, long, word, Left::NoCall);
    };
    match spelled(alloc, front, b'a', long.letters, back) {
        Ok(sent) => holds_with(rt, alloc, long, word, Left::Called(sent.as_slice())),
        Err(_) => false,
    }
}

fn is_so<R: Wait + Threads + Sync>(rt: &R, alloc: Global, long: &Long) -> bool {
    let (front, back) = long.word;
    match spelled(alloc, front, b'a', long.letters, back) {
        Ok(word) => holds_over(rt, alloc, long, word.as_slice()),
        Err(_) => false,
    }
}

/// The story of the first of these that isn't so, or nothing.
fn first_other<R: Wait + Threads + Sync>(rt: &R, alloc: Global, all: &[Long]) -> &'static str {
    for long in all {
        if !is_so(rt, alloc, long) {
            return long.row.story;
        }
    }
    ""
}

#[test]
fn the_longest_calls_are_sent_and_longer_ones_refused(rt: HostRuntime) {
    assert_eq!(rt; first_other(&rt, rt.alloc(), LONGEST), "");
}
