//! What lies about its length, breaks off or comes in no order is answered by `orb pipe` as far as it goes, and refused where it
//! stops: counts, texts, pads, headers, pieces and limits. The story of each row names its rule: CORBA 3.0.3, sections 15.3 (CDR) and 15.4
//! (GIOP messages), or own profile.

use super::rows::{EMPTY, Row, first_wrong, holds};
use orb_base::{List, Octets};
use std::alloc::Global;
use std::sync::Wait;
use std::thread::Threads;

/// The reply of id 1 with the priority 100.
const PING_REPLY: &[u8] = b"GIOP\x01\x02\0\x01\0\0\0\x0e\0\0\0\x01\0\0\0\0\0\0\0\0\0\x64";

/// The reply of id 1 with MARSHAL, minor 2, completed NO.
const MARSHAL_2: &[u8] =
    b"GIOP\x01\x02\0\x01\0\0\0\x38\0\0\0\x01\0\0\0\x02\0\0\0\0\0\0\0\x1eIDL:omg.org/CORBA/MARSHAL:1.0\0\0\0\0\0\0\x02\0\0\0\x01";

const ERROR: &[u8] = b"GIOP\x01\x02\0\x06\0\0\0\0";

/// The pipe of the built-in setup, whose input is refused at its first byte and answered with a MessageError.
const REFUSED: Row<'static> = Row {
    status: 8,
    output: ERROR,
    ..EMPTY
};

/// Counts, texts and pads of one message that have no reading, and those of a context, which cost the request alone.
const VALUES: &[Row<'static>] = &[
    Row {
        story: "a count above the bytes after it is TooMany: of contexts, 2^32 - 1",
        input: b"GIOP\x01\x02\0\0\0\0\0\x24\0\0\0\x01\x03\0\0\0\0\0\0\0\0\0\0\x04ping\0\0\0\x08current\0\xff\xff\xff\xff",
        note: "Input(0, Message(TooMany))",
        ..REFUSED
    },
    Row {
        story: "a count above the bytes after it is TooMany: of profiles, nine before eight bytes",
        input: b"GIOP\x01\x02\0\0\0\0\0\x24\0\0\0\x01\x03\0\0\0\0\x02\0\0\0\0\0\0\0\0\0\x02A\0\0\0\0\0\0\x09\0\0\0\0\0\0\0\0",
        note: "Input(0, Message(TooMany))",
        ..REFUSED
    },
    Row {
        story: "a count above the bytes after it is TooMany: of a key, 2^31 - 1",
        input: b"GIOP\x01\x02\0\0\0\0\0\x24\0\0\0\x01\x03\0\0\0\0\0\0\0\x7f\xff\xff\xffping\0\0\0\x08current\0\0\0\0\0",
        note: "Input(0, Message(TooMany))",
        ..REFUSED
    },
    Row {
        story: "a string ends with a NUL, or is BadString",
        input: b"GIOP\x01\x02\0\0\0\0\0\x24\0\0\0\x01\x03\0\0\0\0\0\0\0\0\0\0\x04ping\0\0\0\x08current!\0\0\0\0",
        note: "Input(0, Message(BadString))",
        ..REFUSED
    },
    Row {
        story: "a string has no NUL inside, or is BadString",
        input: b"GIOP\x01\x02\0\0\0\0\0\x24\0\0\0\x01\x03\0\0\0\0\0\0\0\0\0\0\x04ping\0\0\0\x08cur\0ent\0\0\0\0\0",
        note: "Input(0, Message(BadString))",
        ..REFUSED
    },
    Row {
        story: "the length of a string counts its NUL, so that 0 is BadString",
        input: b"GIOP\x01\x02\0\0\0\0\0\x1c\0\0\0\x01\x03\0\0\0\0\0\0\0\0\0\0\x04ping\0\0\0\0\0\0\0\0",
        note: "Input(0, Message(BadString))",
        ..REFUSED
    },
    Row {
        story: "an end in the pad before a count is Short",
        input: b"GIOP\x01\x02\0\0\0\0\0\x0b\0\0\0\x01\x03\0\0\0\0\0\0",
        note: "Input(0, Message(Short))",
        ..REFUSED
    },
    Row {
        story: "an end in the pad before the body leaves the body empty",
        input: b"GIOP\x01\x02\0\0\0\0\0\x32\0\0\0\x01\x03\0\0\0\0\0\0\0\0\0\0\x04ping\0\0\0\x08current\0\0\0\0\x01\0\0\0\x0a\0\0\0\x04\0\0\0\x07\0\0",
        output: b"GIOP\x01\x02\0\x01\0\0\0\x0e\0\0\0\x01\0\0\0\0\0\0\0\0\0\x07",
        ..EMPTY
    },
    Row {
        story: "a CancelRequest without its id is Short",
        input: b"GIOP\x01\x02\0\x02\0\0\0\0",
        note: "Input(0, Message(Short))",
        ..REFUSED
    },
    Row {
        story: "a reply's status goes before its way",
        input: b"GIOP\x01\x02\0\x01\0\0\0\x0c\0\0\0\x07\0\0\0\x06\0\0\0\0",
        note: "Input(0, BadStatus)",
        ..REFUSED
    },
    Row {
        story: "the order byte of a context is a boolean: 2 in a priority, MARSHAL, minor 2, for this request alone",
        input: b"GIOP\x01\x02\0\0\0\0\0\x30\0\0\0\x01\x03\0\0\0\0\0\0\0\0\0\0\x04ping\0\0\0\x08current\0\0\0\0\x01\0\0\0\x0a\0\0\0\x04\x02\0\0\x07",
        output: MARSHAL_2,
        ..EMPTY
    },
    Row {
        story: "the order byte of a context is a boolean: 255 in a band, MARSHAL, minor 2, for this request alone",
        input: b"GIOP\x01\x02\0\0\0\0\0\x32\0\0\0\x01\x03\0\0\0\0\0\0\0\0\0\0\x04ping\0\0\0\x08current\0\0\0\0\x01\0\0\0\x0b\0\0\0\x06\xff\0\0\x05\0\x0a",
        output: MARSHAL_2,
        ..EMPTY
    },
];

/// Headers and pieces that break a rule of framing, each at its own offset, and pieces that break none.
const PIECES: &[Row<'static>] = &[
    Row {
        story: "a header is judged alone: the greatest message by a byte more is TooLong",
        input: b"GIOP\x01\x02\0\0\0\x03\xff\xf5",
        note: "Input(0, Frame(TooLong))",
        ..REFUSED
    },
    Row {
        story: "a header is judged alone: the same in the other byte order",
        input: b"GIOP\x01\x02\x01\0\xf5\xff\x03\0",
        note: "Input(0, Frame(TooLong))",
        ..REFUSED
    },
    Row {
        story: "a header is judged alone: a size of 2^32 - 1 is TooLong",
        input: b"GIOP\x01\x02\0\0\xff\xff\xff\xff",
        note: "Input(0, Frame(TooLong))",
        ..REFUSED
    },
    Row {
        story: "a kind above 7 is BadType",
        input: b"GIOP\x01\x02\0\x08\0\0\0\0",
        note: "Input(0, Frame(BadType))",
        ..REFUSED
    },
    Row {
        story: "eleven bytes of anything are no header yet, and cut",
        input: b"rubbish 123",
        note: "Input(0, Cut)",
        output: b"",
        ..REFUSED
    },
    Row {
        story: "a Fragment continues an open message: none is",
        input: b"GIOP\x01\x02\0\x07\0\0\0\x04\0\0\0\x01",
        note: "Input(0, Frame(BadPiece))",
        ..REFUSED
    },
    Row {
        story: "a Fragment continues an open message: the last Fragment has closed it",
        input: b"GIOP\x01\x02\x02\0\0\0\0\x0c\0\0\0\x01\x03\0\0\0\0\0\0\0GIOP\x01\x02\0\0\0\0\0\x24\0\0\0\x02\x03\0\0\0\0\0\0\0\0\0\0\x04ping\0\0\0\x08current\0\0\0\0\0GIOP\x01\x02\x02\x07\0\0\0\x14\0\0\0\x01\0\0\0\x04ping\0\0\0\x08currGIOP\x01\x02\0\x07\0\0\0\x0c\0\0\0\x01ent\0\0\0\0\0GIOP\x01\x02\0\x07\0\0\0\x04\0\0\0\x01",
        note: "Input(128, Frame(BadPiece))",
        output: b"GIOP\x01\x02\0\x01\0\0\0\x0e\0\0\0\x02\0\0\0\0\0\0\0\0\0\x64GIOP\x01\x02\0\x01\0\0\0\x0e\0\0\0\x01\0\0\0\0\0\0\0\0\0\x64GIOP\x01\x02\0\x06\0\0\0\0",
        ..REFUSED
    },
    Row {
        story: "a Fragment continues an open message: a CancelRequest has dropped it",
        input: b"GIOP\x01\x02\x02\0\0\0\0\x0c\0\0\0\x01\x03\0\0\0\0\0\0\0GIOP\x01\x02\0\x02\0\0\0\x04\0\0\0\x01GIOP\x01\x02\0\x07\0\0\0\x0c\0\0\0\x01ent\0\0\0\0\0",
        note: "Input(40, Frame(BadPiece))",
        ..REFUSED
    },
    Row {
        story: "a CancelRequest drops the unfinished message of its id, whose id may come again",
        input: b"GIOP\x01\x02\x02\0\0\0\0\x0c\0\0\0\x01\x03\0\0\0\0\0\0\0GIOP\x01\x02\0\x02\0\0\0\x04\0\0\0\x01GIOP\x01\x02\0\0\0\0\0\x24\0\0\0\x01\x03\0\0\0\0\0\0\0\0\0\0\x04ping\0\0\0\x08current\0\0\0\0\0",
        output: PING_REPLY,
        ..EMPTY
    },
    Row {
        story: "a Fragment is in the order of its first piece, or BadPiece",
        input: b"GIOP\x01\x02\x02\0\0\0\0\x0c\0\0\0\x01\x03\0\0\0\0\0\0\0GIOP\x01\x02\x01\x07\x04\0\0\0\x01\0\0\0",
        note: "Input(24, Frame(BadPiece))",
        ..REFUSED
    },
    Row {
        story: "a Fragment has 16 bytes at least, or is BadPiece",
        input: b"GIOP\x01\x02\0\x07\0\0\0\x03\0\0\0",
        note: "Input(0, Frame(BadPiece))",
        ..REFUSED
    },
    Row {
        story: "a first piece of an open id is BadPiece",
        input: b"GIOP\x01\x02\x02\0\0\0\0\x0c\0\0\0\x01\x03\0\0\0\0\0\0\0GIOP\x01\x02\x02\0\0\0\0\x0c\0\0\0\x01\x03\0\0\0\0\0\0\0",
        note: "Input(24, Frame(BadPiece))",
        ..REFUSED
    },
    Row {
        story: "a whole message of an open id is answered, and leaves it open",
        input: b"GIOP\x01\x02\x02\0\0\0\0\x0c\0\0\0\x01\x03\0\0\0\0\0\0\0GIOP\x01\x02\0\0\0\0\0\x24\0\0\0\x01\x03\0\0\0\0\0\0\0\0\0\0\x04ping\0\0\0\x08current\0\0\0\0\0",
        note: "Input(0, Cut)",
        output: PING_REPLY,
        ..REFUSED
    },
    Row {
        story: "a CancelRequest comes whole, or is BadPiece",
        input: b"GIOP\x01\x02\x02\x02\0\0\0\x04\0\0\0\x01",
        note: "Input(0, Frame(BadPiece))",
        ..REFUSED
    },
    Row {
        story: "a CloseConnection comes whole, or is BadPiece",
        input: b"GIOP\x01\x02\x02\x05\0\0\0\x04\0\0\0\0",
        note: "Input(0, Frame(BadPiece))",
        ..REFUSED
    },
    Row {
        story: "a MessageError comes whole, or is BadPiece",
        input: b"GIOP\x01\x02\x02\x06\0\0\0\x04\0\0\0\0",
        note: "Input(0, Frame(BadPiece))",
        ..REFUSED
    },
    Row {
        story: "a fault goes before an unfinished message that is before it",
        input: b"GIOP\x01\x02\x02\0\0\0\0\x0c\0\0\0\x01\x03\0\0\0\0\0\0\0GIOX\x01\x02\0\0\0\0\0\0",
        note: "Input(24, Frame(BadMagic))",
        ..REFUSED
    },
];

#[test]
fn a_lie_is_refused_at_its_own_offset(rt: HostRuntime) {
    assert_eq!(rt; first_wrong(&rt, rt.alloc(), VALUES), "");
    assert_eq!(rt; first_wrong(&rt, rt.alloc(), PIECES), "");
}

/// An input that is made.
#[derive(Clone, Copy)]
enum Made {
    /// So many first pieces of 24 bytes each, of ids from 1 on, after none of which a Fragment comes; and bytes after them.
    Firsts(u8, &'static [u8]),
    /// So many requests of 262,144 bytes each.
    Longest(u16),
    /// A request whose first piece has so many bytes after 48, and a Fragment of it, of these flags, so many after 16.
    Joined(u32, u8, u32),
}

/// What comes of an input that is made.
struct Long {
    made: Made,
    row: Row<'static>,
}

fn put_letters(bytes: &mut Octets, count: u32) -> bool {
    for _ in 0..count {
        if bytes.push(b'a').is_err() {
            return false;
        }
    }
    true
}

/// Puts a request for `x`, which no object has as its key, and to which no reply is due, or its first piece: 48 bytes and so many letters.
fn put_request(bytes: &mut Octets, flags: u8, letters: u32) -> bool {
    bytes.append(b"GIOP\x01\x02").is_ok()
        && bytes.append(&[flags, 0]).is_ok()
        && bytes
            .append(&letters.wrapping_add(36).to_be_bytes())
            .is_ok()
        && bytes
            .append(b"\0\0\0\x01\0\0\0\0\0\0\0\0\0\0\0\x01x\0\0\0\0\0\0\x08current\0\0\0\0\0")
            .is_ok()
        && put_letters(bytes, letters)
}

/// Puts a Fragment of id 1, with these flags and so many letters.
fn put_fragment(bytes: &mut Octets, flags: u8, letters: u32) -> bool {
    bytes.append(b"GIOP\x01\x02").is_ok()
        && bytes.append(&[flags, 7]).is_ok()
        && bytes.append(&letters.wrapping_add(4).to_be_bytes()).is_ok()
        && bytes.append(b"\0\0\0\x01").is_ok()
        && put_letters(bytes, letters)
}

fn put_firsts(bytes: &mut Octets, count: u8) -> bool {
    for n in 0..count {
        if bytes.append(b"GIOP\x01\x02\x02\0\0\0\0\x0c\0\0\0").is_err()
            || bytes.push(n.wrapping_add(1)).is_err()
            || bytes.append(b"\x03\0\0\0\0\0\0\0").is_err()
        {
            return false;
        }
    }
    true
}

fn put_each(bytes: &mut Octets, message: &[u8], count: u16) -> bool {
    for _ in 0..count {
        if bytes.append(message).is_err() {
            return false;
        }
    }
    true
}

/// Puts so many requests of 48 and 262,096 bytes.
fn put_longest(alloc: Global, bytes: &mut Octets, count: u16) -> bool {
    let mut message = List::new(alloc);
    put_request(&mut message, 0, 262_096) && put_each(bytes, message.as_slice(), count)
}

fn put_made(alloc: Global, bytes: &mut Octets, made: Made) -> bool {
    match made {
        Made::Firsts(count, after) => put_firsts(bytes, count) && bytes.append(after).is_ok(),
        Made::Longest(count) => put_longest(alloc, bytes, count),
        Made::Joined(first, flags, more) => {
            put_request(bytes, 2, first) && put_fragment(bytes, flags, more)
        }
    }
}

const LONG: &[Long] = &[
    Long {
        made: Made::Firsts(16, b""),
        row: Row {
            story: "sixteen unfinished messages are held",
            note: "Input(0, Cut)",
            output: b"",
            ..REFUSED
        },
    },
    Long {
        made: Made::Firsts(17, b""),
        row: Row {
            story: "a seventeenth unfinished message is TooManyPartials, at its own offset",
            note: "Input(384, Frame(TooManyPartials))",
            ..REFUSED
        },
    },
    Long {
        made: Made::Joined(262_088, 0, 8),
        row: Row {
            story: "pieces of 262,136 and 8 bytes are the greatest message",
            ..EMPTY
        },
    },
    Long {
        made: Made::Joined(262_096, 0, 1),
        row: Row {
            story: "pieces that are joined to a byte more are TooLong, at the last of them",
            note: "Input(262144, Frame(TooLong))",
            ..REFUSED
        },
    },
    Long {
        made: Made::Firsts(
            16,
            b"GIOP\x01\x02\x02\0\0\0\0\x0c\0\0\0\x01\x03\0\0\0\0\0\0\0",
        ),
        row: Row {
            story: "a first piece of an open id is BadPiece before it is one too many",
            note: "Input(384, Frame(BadPiece))",
            ..REFUSED
        },
    },
    Long {
        made: Made::Firsts(
            16,
            b"GIOP\x01\x02\0\x02\0\0\0\x04\0\0\0\x01GIOP\x01\x02\x02\0\0\0\0\x0c\0\0\0\x11\x03\0\0\0\0\0\0\0",
        ),
        row: Row {
            story: "a CancelRequest drops one of sixteen unfinished messages, and another may begin: the second is the first that is cut",
            note: "Input(24, Cut)",
            output: b"",
            ..REFUSED
        },
    },
    Long {
        made: Made::Firsts(
            16,
            b"GIOP\x01\x02\0\0\0\0\0\x24\0\0\0\x01\x03\0\0\0\0\0\0\0\0\0\0\x04ping\0\0\0\x08current\0\0\0\0\0",
        ),
        row: Row {
            story: "a whole message beside sixteen unfinished ones is answered",
            note: "Input(0, Cut)",
            output: PING_REPLY,
            ..REFUSED
        },
    },
    Long {
        made: Made::Joined(262_096, 2, 1),
        row: Row {
            story: "a piece's own length goes before that of what it is joined to: 17 bytes that aren't the last are BadPiece, not TooLong",
            note: "Input(262144, Frame(BadPiece))",
            ..REFUSED
        },
    },
    Long {
        made: Made::Longest(255),
        row: Row {
            story: "255 of the greatest requests are heard, and none is answered",
            ..EMPTY
        },
    },
    Long {
        made: Made::Longest(256),
        row: Row {
            story: "256 of them are 67,108,864 bytes, after which the connection is closed",
            status: 13,
            note: "Limit",
            output: b"GIOP\x01\x02\0\x05\0\0\0\0",
            ..EMPTY
        },
    },
];

/// Whether a row holds with these bytes as its input.
fn holds_over<R: Wait + Threads + Sync>(
    rt: &R,
    alloc: Global,
    row: Row<'static>,
    input: &[u8],
) -> bool {
    let row = Row { input, ..row };
    holds(rt, alloc, &row)
}

fn is_so<R: Wait + Threads + Sync>(rt: &R, alloc: Global, long: &Long) -> bool {
    let mut bytes = List::new(alloc);
    put_made(alloc, &mut bytes, long.made) && holds_over(rt, alloc, long.row, bytes.as_slice())
}

/// The story of the first of these that isn't so, or nothing.
fn first_other<R: Wait + Threads + Sync>(rt: &R, alloc: Global, all: &[Long]) -> &'static str {
    for long in all {
        if !is_so(rt, alloc, long) {
            return long.row.story;
        }
    }
    ""
}

#[test]
fn long_inputs_are_answered_up_to_a_limit(rt: HostRuntime) {
    assert_eq!(rt; first_other(&rt, rt.alloc(), LONG), "");
}

/// A request of id 1 in three pieces, with the request of id 2 between them, whose 72nd byte is its last.
const INTERLEAVED: &[u8] =
    b"GIOP\x01\x02\x02\0\0\0\0\x0c\0\0\0\x01\x03\0\0\0\0\0\0\0GIOP\x01\x02\0\0\0\0\0\x24\0\0\0\x02\x03\0\0\0\0\0\0\0\0\0\0\x04ping\0\0\0\x08current\0\0\0\0\0GIOP\x01\x02\x02\x07\0\0\0\x14\0\0\0\x01\0\0\0\x04ping\0\0\0\x08currGIOP\x01\x02\0\x07\0\0\0\x0c\0\0\0\x01ent\0\0\0\0\0";

/// An input that is cut within the message whose first piece is at its head.
const CUT: Row<'static> = Row {
    status: 8,
    note: "Input(0, Cut)",
    ..EMPTY
};

/// The same where a message of id 2 is whole.
const CUT_LATER: Row<'static> = Row {
    output: b"GIOP\x01\x02\0\x01\0\0\0\x0e\0\0\0\x02\0\0\0\0\0\0\0\0\0\x64",
    ..CUT
};

/// Whether each prefix of these bytes, but for none and all of them, is cut at 0, with the reply of id 2 from 72 bytes on.
fn each_is_cut<R: Wait + Threads + Sync>(rt: &R, alloc: Global, bytes: &[u8]) -> bool {
    if bytes.len() != 128 {
        return false;
    }
    for n in 1..128 {
        let row = if n < 72 { CUT } else { CUT_LATER };
        if !holds_over(rt, alloc, row, &bytes[..n]) {
            return false;
        }
    }
    true
}

#[test]
fn what_is_whole_in_a_prefix_is_answered_and_the_rest_is_cut(rt: HostRuntime) {
    assert!(&rt; each_is_cut(&rt, rt.alloc(), INTERLEAVED));
}
