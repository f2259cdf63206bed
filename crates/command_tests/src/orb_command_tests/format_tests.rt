//! What the formats say of a message and no other table has a row of: the order in which a header is judged, pieces at their least, heads
//! that end too soon, and lies in contexts and arguments. The story of each row names its rule: CORBA 3.0.3, sections 15.3 (CDR) and 15.4
//! (GIOP messages), or own profile. The rows were written by an encoder of their own, from the rules.

use super::rows::{EMPTY, Row, first_wrong};

/// The reply of id 1 with the priority 100.
const PING_REPLY: &[u8] = b"GIOP\x01\x02\0\x01\0\0\0\x0e\0\0\0\x01\0\0\0\0\0\0\0\0\0\x64";

const ERROR: &[u8] = b"GIOP\x01\x02\0\x06\0\0\0\0";

/// The pipe of the built-in setup, whose input is refused and answered with a MessageError.
const REFUSED: Row<'static> = Row {
    status: 8,
    output: ERROR,
    ..EMPTY
};

/// In which order a header is judged, what is ignored in a message, and where an end is cut.
const HEADERS: &[Row<'static>] = &[
    Row {
        story: "a header is judged in order: the magic before the version",
        input: b"GIOX\x01\x01\0\x63\xff\xff\xff\xff",
        note: "Input(0, Frame(BadMagic))",
        ..REFUSED
    },
    Row {
        story: "a header is judged in order: the version before the kind; 1.3 isn't spoken",
        input: b"GIOP\x01\x03\0\x63\xff\xff\xff\xff",
        note: "Input(0, Frame(BadVersion))",
        ..REFUSED
    },
    Row {
        story: "a header is judged in order: the version before the kind; 2.2 isn't spoken",
        input: b"GIOP\x02\x02\0\x63\xff\xff\xff\xff",
        note: "Input(0, Frame(BadVersion))",
        ..REFUSED
    },
    Row {
        story: "a header is judged in order: the kind before the length",
        input: b"GIOP\x01\x02\0\x08\xff\xff\xff\xff",
        note: "Input(0, Frame(BadType))",
        ..REFUSED
    },
    Row {
        story: "a header is judged before its message is there: a Fragment of 2^32 - 1 bytes is TooLong, no BadPiece",
        input: b"GIOP\x01\x02\x02\x07\xff\xff\xff\xff",
        note: "Input(0, Frame(TooLong))",
        ..REFUSED
    },
    Row {
        story: "flag bits other than 0 and 1 are ignored, and written 0",
        input: b"GIOP\x01\x02\xfc\0\0\0\0\x24\0\0\0\x01\x03\0\0\0\0\0\0\0\0\0\0\x04ping\0\0\0\x08current\0\0\0\0\0",
        output: PING_REPLY,
        ..EMPTY
    },
    Row {
        story: "bytes after the id of a CancelRequest are ignored",
        input: b"GIOP\x01\x02\0\x02\0\0\0\x09\0\0\0\x09\xff\xff\xff\xff\xffGIOP\x01\x02\0\0\0\0\0\x24\0\0\0\x01\x03\0\0\0\0\0\0\0\0\0\0\x04ping\0\0\0\x08current\0\0\0\0\0",
        output: PING_REPLY,
        ..EMPTY
    },
    Row {
        story: "bytes after the target of a LocateRequest are ignored",
        input: b"GIOP\x01\x02\0\x03\0\0\0\x13\0\0\0\x05\0\0\0\0\0\0\0\x04ping\xff\xff\xff",
        output: b"GIOP\x01\x02\0\x04\0\0\0\x08\0\0\0\x05\0\0\0\x01",
        ..EMPTY
    },
    Row {
        story: "bytes in a CloseConnection are ignored",
        input: b"GIOP\x01\x02\0\0\0\0\0\x24\0\0\0\x01\x03\0\0\0\0\0\0\0\0\0\0\x04ping\0\0\0\x08current\0\0\0\0\0GIOP\x01\x02\0\x05\0\0\0\x03\xff\xff\xffrubbish that is no GIOP",
        output: PING_REPLY,
        ..EMPTY
    },
    Row {
        story: "bytes in a MessageError are ignored",
        input: b"GIOP\x01\x02\0\x06\0\0\0\x03\xff\xff\xffGIOP\x01\x02\0\0\0\0\0\x24\0\0\0\x01\x03\0\0\0\0\0\0\0\0\0\0\x04ping\0\0\0\x08current\0\0\0\0\0",
        ..EMPTY
    },
    Row {
        story: "what is unfinished is cut at its own offset, after what is whole",
        input: b"GIOP\x01\x02\0\0\0\0\0\x24\0\0\0\x01\x03\0\0\0\0\0\0\0\0\0\0\x04ping\0\0\0\x08current\0\0\0\0\0GIOP\x01\x02\0\0\0\0\0\x24\0\0\0\x01\x03\0\0\0\0\0\0\0\0\0\0\x04ping\0\0\0\x08current\0\0\0\0",
        note: "Input(48, Cut)",
        output: PING_REPLY,
        ..REFUSED
    },
];

/// Pieces at their least, of each kind that may come in pieces, and messages that are judged once they are joined.
const FRAGMENTS: &[Row<'static>] = &[
    Row {
        story: "a first piece of 16 bytes has its id alone, and is one",
        input: b"GIOP\x01\x02\x02\0\0\0\0\x04\0\0\0\x01GIOP\x01\x02\0\x07\0\0\0\x24\0\0\0\x01\x03\0\0\0\0\0\0\0\0\0\0\x04ping\0\0\0\x08current\0\0\0\0\0",
        output: PING_REPLY,
        ..EMPTY
    },
    Row {
        story: "a first piece of 12 bytes has no id, and its length is no multiple of 8: BadPiece",
        input: b"GIOP\x01\x02\x02\0\0\0\0\0",
        note: "Input(0, Frame(BadPiece))",
        ..REFUSED
    },
    Row {
        story: "a Fragment that isn't the last has a length of a multiple of 8, or is BadPiece",
        input: b"GIOP\x01\x02\x02\0\0\0\0\x0c\0\0\0\x01\x03\0\0\0\0\0\0\0GIOP\x01\x02\x02\x07\0\0\0\x09\0\0\0\x01\0\0\0\x04p",
        note: "Input(24, Frame(BadPiece))",
        ..REFUSED
    },
    Row {
        story: "a Fragment of no byte continues a message by none",
        input: b"GIOP\x01\x02\x02\0\0\0\0\x0c\0\0\0\x01\x03\0\0\0\0\0\0\0GIOP\x01\x02\x02\x07\0\0\0\x04\0\0\0\x01GIOP\x01\x02\x02\x07\0\0\0\x04\0\0\0\x01GIOP\x01\x02\0\x07\0\0\0\x1c\0\0\0\x01\0\0\0\x04ping\0\0\0\x08current\0\0\0\0\0",
        output: PING_REPLY,
        ..EMPTY
    },
    Row {
        story: "the last Fragment may be empty",
        input: b"GIOP\x01\x02\x02\0\0\0\0\x24\0\0\0\x01\x03\0\0\0\0\0\0\0\0\0\0\x04ping\0\0\0\x08current\0\0\0\0\0GIOP\x01\x02\0\x07\0\0\0\x04\0\0\0\x01",
        output: PING_REPLY,
        ..EMPTY
    },
    Row {
        story: "a LocateRequest may come in pieces",
        input: b"GIOP\x01\x02\x02\x03\0\0\0\x04\0\0\0\x05GIOP\x01\x02\0\x07\0\0\0\x10\0\0\0\x05\0\0\0\0\0\0\0\x04ping",
        output: b"GIOP\x01\x02\0\x04\0\0\0\x08\0\0\0\x05\0\0\0\x01",
        ..EMPTY
    },
    Row {
        story: "a Reply in pieces is the wrong way, at the offset of its last piece",
        input: b"GIOP\x01\x02\x02\x01\0\0\0\x04\0\0\0\x07GIOP\x01\x02\0\0\0\0\0\x24\0\0\0\x01\x03\0\0\0\0\0\0\0\0\0\0\x04ping\0\0\0\x08current\0\0\0\0\0GIOP\x01\x02\0\x07\0\0\0\x0c\0\0\0\x07\0\0\0\0\0\0\0\0",
        note: "Input(64, WrongWay)",
        output: b"GIOP\x01\x02\0\x01\0\0\0\x0e\0\0\0\x01\0\0\0\0\0\0\0\0\0\x64GIOP\x01\x02\0\x06\0\0\0\0",
        ..REFUSED
    },
    Row {
        story: "a LocateReply in pieces is the wrong way, at the offset of its last piece",
        input: b"GIOP\x01\x02\x02\x04\0\0\0\x04\0\0\0\x07GIOP\x01\x02\0\x07\0\0\0\x08\0\0\0\x07\0\0\0\x01",
        note: "Input(16, WrongWay)",
        ..REFUSED
    },
    Row {
        story: "what is joined is judged as a whole: Short, at the offset of the last piece",
        input: b"GIOP\x01\x02\x02\0\0\0\0\x0c\0\0\0\x01\x03\0\0\0\0\0\0\0GIOP\x01\x02\0\x07\0\0\0\x0c\0\0\0\x01\0\0\0\x04ping",
        note: "Input(24, Message(Short))",
        ..REFUSED
    },
    Row {
        story: "an id is read in the order of its piece: 1 and 2^24, of the same bytes, are two",
        input: b"GIOP\x01\x02\x02\0\0\0\0\x0c\0\0\0\x01\x03\0\0\0\0\0\0\0GIOP\x01\x02\x03\0\x0c\0\0\0\0\0\0\x01\x03\0\0\0\0\0\0\0GIOP\x01\x02\x01\x07\x1c\0\0\0\0\0\0\x01\x04\0\0\0ping\x08\0\0\0\x63urrent\0\0\0\0\0GIOP\x01\x02\0\x07\0\0\0\x1c\0\0\0\x01\0\0\0\x04ping\0\0\0\x08current\0\0\0\0\0",
        output: b"GIOP\x01\x02\x01\x01\x0e\0\0\0\0\0\0\x01\0\0\0\0\0\0\0\0\x64\0GIOP\x01\x02\0\x01\0\0\0\x0e\0\0\0\x01\0\0\0\0\0\0\0\0\0\x64",
        ..EMPTY
    },
];

/// Heads of messages that have no reading, by each kind of message and by each count and text in them.
const HEADS: &[Row<'static>] = &[
    Row {
        story: "a message ends in its head: Short, of a Request of no byte",
        input: b"GIOP\x01\x02\0\0\0\0\0\0",
        note: "Input(0, Message(Short))",
        ..REFUSED
    },
    Row {
        story: "a message ends in its head: Short, of a Request that ends in its reserved octets",
        input: b"GIOP\x01\x02\0\0\0\0\0\x06\0\0\0\x01\x03\0",
        note: "Input(0, Message(Short))",
        ..REFUSED
    },
    Row {
        story: "a message ends in its head: Short, of a Request without contexts",
        input: b"GIOP\x01\x02\0\0\0\0\0 \0\0\0\x01\x03\0\0\0\0\0\0\0\0\0\0\x04ping\0\0\0\x08current\0",
        note: "Input(0, Message(Short))",
        ..REFUSED
    },
    Row {
        story: "a message ends in its head: Short, of a LocateRequest without its target",
        input: b"GIOP\x01\x02\0\x03\0\0\0\x04\0\0\0\x05",
        note: "Input(0, Message(Short))",
        ..REFUSED
    },
    Row {
        story: "a message ends in its head: Short, of a Reply without its status, before its way",
        input: b"GIOP\x01\x02\0\x01\0\0\0\x04\0\0\0\x07",
        note: "Input(0, Message(Short))",
        ..REFUSED
    },
    Row {
        story: "a message ends in its head: Short, of a LocateReply without its status, before its way",
        input: b"GIOP\x01\x02\0\x04\0\0\0\x04\0\0\0\x07",
        note: "Input(0, Message(Short))",
        ..REFUSED
    },
    Row {
        story: "a count within the bytes after it is one of elements: the second context is Short",
        input: b"GIOP\x01\x02\0\0\0\0\0,\0\0\0\x01\x03\0\0\0\0\0\0\0\0\0\0\x04ping\0\0\0\x08current\0\0\0\0\x02\0\0\0\x63\0\0\0\0",
        note: "Input(0, Message(Short))",
        ..REFUSED
    },
    Row {
        story: "a count above the bytes after it is TooMany: of a context's data, five before four bytes",
        input: b"GIOP\x01\x02\0\0\0\0\00\0\0\0\x01\x03\0\0\0\0\0\0\0\0\0\0\x04ping\0\0\0\x08current\0\0\0\0\x01\0\0\0\x0a\0\0\0\x05\0\0\0\x07",
        note: "Input(0, Message(TooMany))",
        ..REFUSED
    },
    Row {
        story: "a count above the bytes after it is TooMany: of an operation, 2^32 - 1",
        input: b"GIOP\x01\x02\0\0\0\0\0\x24\0\0\0\x01\x03\0\0\0\0\0\0\0\0\0\0\x04ping\xff\xff\xff\xffcurrent\0\0\0\0\0",
        note: "Input(0, Message(TooMany))",
        ..REFUSED
    },
    Row {
        story: "a count above the bytes after it is TooMany: of an operation, before its last byte is looked at",
        input: b"GIOP\x01\x02\0\0\0\0\0 \0\0\0\x01\x03\0\0\0\0\0\0\0\0\0\0\x04ping\0\0\0\x09current!",
        note: "Input(0, Message(TooMany))",
        ..REFUSED
    },
    Row {
        story: "a count above the bytes after it is TooMany: of a profile",
        input: b"GIOP\x01\x02\0\0\0\0\0\x24\0\0\0\x01\x03\0\0\0\0\x01\0\0\0\0\0\0\x7f\xff\xff\xff\0\0\0\x08current\0\0\0\0\0",
        note: "Input(0, Message(TooMany))",
        ..REFUSED
    },
    Row {
        story: "a count above the bytes after it is TooMany: of a LocateRequest's key",
        input: b"GIOP\x01\x02\0\x03\0\0\0\x10\0\0\0\x05\0\0\0\0\0\0\0\x05ping",
        note: "Input(0, Message(TooMany))",
        ..REFUSED
    },
    Row {
        story: "a count above the bytes after it is TooMany: of a Reply's contexts, before its way",
        input: b"GIOP\x01\x02\0\x01\0\0\0\x0c\0\0\0\x07\0\0\0\0\xff\xff\xff\xff",
        note: "Input(0, Message(TooMany))",
        ..REFUSED
    },
    Row {
        story: "a string ends with a NUL, or is BadString: the type in a target's reference",
        input: b"GIOP\x01\x02\0\0\0\0\0,\0\0\0\x01\x03\0\0\0\0\x02\0\0\0\0\0\0\0\0\0\x02AB\0\0\0\0\0\0\0\0\0\x08current\0\0\0\0\0",
        note: "Input(0, Message(BadString))",
        ..REFUSED
    },
    Row {
        story: "a target has one of three forms, or is BadTarget: 2^16 - 1",
        input: b"GIOP\x01\x02\0\0\0\0\0\x24\0\0\0\x01\x03\0\0\0\xff\xff\0\0\0\0\0\x04ping\0\0\0\x08current\0\0\0\0\0",
        note: "Input(0, BadTarget)",
        ..REFUSED
    },
    Row {
        story: "a target has one of three forms, or is BadTarget: 3 in a LocateRequest",
        input: b"GIOP\x01\x02\0\x03\0\0\0\x10\0\0\0\x05\0\x03\0\0\0\0\0\x04ping",
        note: "Input(0, BadTarget)",
        ..REFUSED
    },
    Row {
        story: "a reply's status of 5 is one, and the reply the wrong way",
        input: b"GIOP\x01\x02\0\x01\0\0\0\x0e\0\0\0\x07\0\0\0\x05\0\0\0\0\0\0",
        note: "Input(0, WrongWay)",
        ..REFUSED
    },
    Row {
        story: "a LocateReply's status is any number, and the reply the wrong way",
        input: b"GIOP\x01\x02\0\x04\0\0\0\x08\0\0\0\x07\xff\xff\xff\xff",
        note: "Input(0, WrongWay)",
        ..REFUSED
    },
];

/// Contexts and arguments without a reading, which cost their own request alone, and those that have one though they look odd.
const ARGUMENTS: &[Row<'static>] = &[
    Row {
        story: "bytes after the short of a context are ignored",
        input: b"GIOP\x01\x02\0\0\0\0\04\0\0\0\x01\x03\0\0\0\0\0\0\0\0\0\0\x04ping\0\0\0\x08current\0\0\0\0\x01\0\0\0\x0a\0\0\0\x08\0\0\0\x14\xff\xff\xff\xff",
        output: b"GIOP\x01\x02\0\x01\0\0\0\x0e\0\0\0\x01\0\0\0\0\0\0\0\0\0\x14",
        ..EMPTY
    },
    Row {
        story: "a context in its own order, between others of odd lengths and pads of any content",
        input: b"GIOP\x01\x02\0\0\0\0\0D\0\0\0\x01\x03\0\0\0\0\0\0\0\0\0\0\x04ping\0\0\0\x08current\0\0\0\0\x03\0\0\0\x63\0\0\0\x01x\xff\xff\xff\0\0\0\x0a\0\0\0\x04\x01\xff\x14\0\0\0\0b\0\0\0\0",
        output: b"GIOP\x01\x02\0\x01\0\0\0\x0e\0\0\0\x01\0\0\0\0\0\0\0\0\0\x14",
        ..EMPTY
    },
    Row {
        story: "a context that ends in its short has no reading: MARSHAL, minor 2, for this request alone",
        input: b"GIOP\x01\x02\0\0\0\0\0/\0\0\0\x01\x03\0\0\0\0\0\0\0\0\0\0\x04ping\0\0\0\x08current\0\0\0\0\x01\0\0\0\x0a\0\0\0\x03\0\0\0GIOP\x01\x02\0\0\0\0\0\x24\0\0\0\x02\x03\0\0\0\0\0\0\0\0\0\0\x04ping\0\0\0\x08current\0\0\0\0\0",
        output: b"GIOP\x01\x02\0\x01\0\0\08\0\0\0\x01\0\0\0\x02\0\0\0\0\0\0\0\x1eIDL:omg.org/CORBA/MARSHAL:1.0\0\0\0\0\0\0\x02\0\0\0\x01GIOP\x01\x02\0\x01\0\0\0\x0e\0\0\0\x02\0\0\0\0\0\0\0\0\0\x64",
        ..EMPTY
    },
    Row {
        story: "a band without its high end has no reading: MARSHAL, minor 2, for this request alone",
        input: b"GIOP\x01\x02\0\0\0\0\00\0\0\0\x01\x03\0\0\0\0\0\0\0\0\0\0\x04ping\0\0\0\x08current\0\0\0\0\x01\0\0\0\x0b\0\0\0\x04\0\0\0\x05GIOP\x01\x02\0\0\0\0\0\x24\0\0\0\x02\x03\0\0\0\0\0\0\0\0\0\0\x04ping\0\0\0\x08current\0\0\0\0\0",
        output: b"GIOP\x01\x02\0\x01\0\0\08\0\0\0\x01\0\0\0\x02\0\0\0\0\0\0\0\x1eIDL:omg.org/CORBA/MARSHAL:1.0\0\0\0\0\0\0\x02\0\0\0\x01GIOP\x01\x02\0\x01\0\0\0\x0e\0\0\0\x02\0\0\0\0\0\0\0\0\0\x64",
        ..EMPTY
    },
    Row {
        story: "a text without its NUL has no reading: MARSHAL, minor 1, for this request alone",
        input: b"GIOP\x01\x02\0\0\0\0\0,\0\0\0\x01\x03\0\0\0\0\0\0\0\0\0\0\x04ping\0\0\0\x05echo\0\0\0\0\0\0\0\0\0\0\0\x02hi\0\0GIOP\x01\x02\0\0\0\0\0\x24\0\0\0\x02\x03\0\0\0\0\0\0\0\0\0\0\x04ping\0\0\0\x08current\0\0\0\0\0",
        output: b"GIOP\x01\x02\0\x01\0\0\08\0\0\0\x01\0\0\0\x02\0\0\0\0\0\0\0\x1eIDL:omg.org/CORBA/MARSHAL:1.0\0\0\0\0\0\0\x01\0\0\0\x01GIOP\x01\x02\0\x01\0\0\0\x0e\0\0\0\x02\0\0\0\0\0\0\0\0\0\x64",
        ..EMPTY
    },
    Row {
        story: "a text with a NUL inside has no reading: MARSHAL, minor 1, for this request alone",
        input: b"GIOP\x01\x02\0\0\0\0\0,\0\0\0\x01\x03\0\0\0\0\0\0\0\0\0\0\x04ping\0\0\0\x05echo\0\0\0\0\0\0\0\0\0\0\0\x04h\0i\0GIOP\x01\x02\0\0\0\0\0\x24\0\0\0\x02\x03\0\0\0\0\0\0\0\0\0\0\x04ping\0\0\0\x08current\0\0\0\0\0",
        output: b"GIOP\x01\x02\0\x01\0\0\08\0\0\0\x01\0\0\0\x02\0\0\0\0\0\0\0\x1eIDL:omg.org/CORBA/MARSHAL:1.0\0\0\0\0\0\0\x01\0\0\0\x01GIOP\x01\x02\0\x01\0\0\0\x0e\0\0\0\x02\0\0\0\0\0\0\0\0\0\x64",
        ..EMPTY
    },
    Row {
        story: "a text of length 0 has no reading: MARSHAL, minor 1, for this request alone",
        input: b"GIOP\x01\x02\0\0\0\0\0(\0\0\0\x01\x03\0\0\0\0\0\0\0\0\0\0\x04ping\0\0\0\x05echo\0\0\0\0\0\0\0\0\0\0\0\0GIOP\x01\x02\0\0\0\0\0\x24\0\0\0\x02\x03\0\0\0\0\0\0\0\0\0\0\x04ping\0\0\0\x08current\0\0\0\0\0",
        output: b"GIOP\x01\x02\0\x01\0\0\08\0\0\0\x01\0\0\0\x02\0\0\0\0\0\0\0\x1eIDL:omg.org/CORBA/MARSHAL:1.0\0\0\0\0\0\0\x01\0\0\0\x01GIOP\x01\x02\0\x01\0\0\0\x0e\0\0\0\x02\0\0\0\0\0\0\0\0\0\x64",
        ..EMPTY
    },
    Row {
        story: "a text that passes its message has no reading: MARSHAL, minor 1, for this request alone",
        input: b"GIOP\x01\x02\0\0\0\0\0,\0\0\0\x01\x03\0\0\0\0\0\0\0\0\0\0\x04ping\0\0\0\x05echo\0\0\0\0\0\0\0\0\xff\xff\xff\xffhi\0\0GIOP\x01\x02\0\0\0\0\0\x24\0\0\0\x02\x03\0\0\0\0\0\0\0\0\0\0\x04ping\0\0\0\x08current\0\0\0\0\0",
        output: b"GIOP\x01\x02\0\x01\0\0\08\0\0\0\x01\0\0\0\x02\0\0\0\0\0\0\0\x1eIDL:omg.org/CORBA/MARSHAL:1.0\0\0\0\0\0\0\x01\0\0\0\x01GIOP\x01\x02\0\x01\0\0\0\x0e\0\0\0\x02\0\0\0\0\0\0\0\0\0\x64",
        ..EMPTY
    },
    Row {
        story: "an id in `_is_a` that passes its message: MARSHAL, minor 1, for this request alone",
        input: b"GIOP\x01\x02\0\0\0\0\0,\0\0\0\x01\x03\0\0\0\0\0\0\0\0\0\0\x04ping\0\0\0\x06_is_a\0\0\0\0\0\0\0\0\0\0\x05IDL\0GIOP\x01\x02\0\0\0\0\0\x24\0\0\0\x02\x03\0\0\0\0\0\0\0\0\0\0\x04ping\0\0\0\x08current\0\0\0\0\0",
        output: b"GIOP\x01\x02\0\x01\0\0\08\0\0\0\x01\0\0\0\x02\0\0\0\0\0\0\0\x1eIDL:omg.org/CORBA/MARSHAL:1.0\0\0\0\0\0\0\x01\0\0\0\x01GIOP\x01\x02\0\x01\0\0\0\x0e\0\0\0\x02\0\0\0\0\0\0\0\0\0\x64",
        ..EMPTY
    },
    Row {
        story: "response flags of other bits: an even number asks for no reply, 255 for one with its answer",
        input: b"GIOP\x01\x02\0\0\0\0\0\x24\0\0\0\x01\xfe\0\0\0\0\0\0\0\0\0\0\x04ping\0\0\0\x08current\0\0\0\0\0GIOP\x01\x02\0\0\0\0\0\x24\0\0\0\x02\xff\0\0\0\0\0\0\0\0\0\0\x04ping\0\0\0\x08current\0\0\0\0\0",
        output: b"GIOP\x01\x02\0\x01\0\0\0\x0e\0\0\0\x02\0\0\0\0\0\0\0\0\0\x64",
        ..EMPTY
    },
];

#[test]
fn a_message_is_judged_in_order(rt: HostRuntime) {
    assert_eq!(rt; first_wrong(&rt, rt.alloc(), HEADERS), "");
    assert_eq!(rt; first_wrong(&rt, rt.alloc(), FRAGMENTS), "");
}

#[test]
fn a_lie_in_a_head_is_refused_and_one_in_a_value_costs_its_request(rt: HostRuntime) {
    assert_eq!(rt; first_wrong(&rt, rt.alloc(), HEADS), "");
    assert_eq!(rt; first_wrong(&rt, rt.alloc(), ARGUMENTS), "");
}
