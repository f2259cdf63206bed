//! `orb pipe --config` over memory: what is answered by the setup of a configuration, and each status with its note.

use super::at_tests::{FILED, UNSERVED};
use super::rows::{EMPTY, Row, first_wrong};

/// `ping` under CLIENT_PROPAGATED at 7; under SERVER_DECLARED at 30 `decl` at its own priority of 32767, and `down` at 30.
const TWO: &[u8] =
    b"pool = { static = 1, dynamic = 0, default_priority = 5 }\nadapter = [{ name = \"prop\", model = \"CLIENT_PROPAGATED\", priority = 7 }, { name = \"decl\", model = \"SERVER_DECLARED\", priority = 30 }]\nobject = [{ key = \"ping\", adapter = \"prop\", interface = \"IDL:Orb/Ping:1.0\" }, { key = \"decl\", adapter = \"decl\", interface = \"IDL:Orb/Ping:1.0\", priority = 32767 }, { key = \"down\", adapter = \"decl\", interface = \"IDL:Orb/Ping:1.0\" }]\n";

/// Requests for `current` of `ping`, `decl` and `down`, of ids 1, 2 and 3, and their replies: the priorities 7, 32767 and 30.
const PING: &[u8] =
    b"GIOP\x01\x02\0\0\0\0\0\x24\0\0\0\x01\x03\0\0\0\0\0\0\0\0\0\0\x04ping\0\0\0\x08current\0\0\0\0\0";

const THREE: &[u8] =
    b"GIOP\x01\x02\0\0\0\0\0\x24\0\0\0\x01\x03\0\0\0\0\0\0\0\0\0\0\x04ping\0\0\0\x08current\0\0\0\0\0GIOP\x01\x02\0\0\0\0\0\x24\0\0\0\x02\x03\0\0\0\0\0\0\0\0\0\0\x04decl\0\0\0\x08current\0\0\0\0\0GIOP\x01\x02\0\0\0\0\0\x24\0\0\0\x03\x03\0\0\0\0\0\0\0\0\0\0\x04down\0\0\0\x08current\0\0\0\0\0";

const THREE_REPLIES: &[u8] =
    b"GIOP\x01\x02\0\x01\0\0\0\x0e\0\0\0\x01\0\0\0\0\0\0\0\0\0\x07GIOP\x01\x02\0\x01\0\0\0\x0e\0\0\0\x02\0\0\0\0\0\0\0\0\x7f\xffGIOP\x01\x02\0\x01\0\0\0\x0e\0\0\0\x03\0\0\0\0\0\0\0\0\0\x1e";

const PONG: &[u8] =
    b"GIOP\x01\x02\0\0\0\0\0\x24\0\0\0\x01\x03\0\0\0\0\0\0\0\0\0\0\x04pong\0\0\0\x08current\0\0\0\0\0";

/// The reply of id 1 with OBJECT_NOT_EXIST, minor 1, completed NO.
const NO_OBJECT: &[u8] =
    b"GIOP\x01\x02\0\x01\0\0\0\x40\0\0\0\x01\0\0\0\x02\0\0\0\0\0\0\0\x27IDL:omg.org/CORBA/OBJECT_NOT_EXIST:1.0\0\0\0\0\0\x01\0\0\0\x01";

/// The reply 7 to the request of id 1.
const PING_REPLY: &[u8] = b"GIOP\x01\x02\0\x01\0\0\0\x0e\0\0\0\x01\0\0\0\0\0\0\0\0\0\x07";

/// Lanes 10 and 20 of one static thread each, with borrowing, and a buffer of three requests; `ping` under CLIENT_PROPAGATED at 10.
const LANES: &[u8] =
    b"pool = { borrowing = true, buffering = true, max_buffered_requests = 3, max_request_buffer_size = 120, lanes = [{ priority = 10, static = 1, dynamic = 0 }, { priority = 20, static = 1, dynamic = 0 }] }\nadapter = [{ name = \"prop\", model = \"CLIENT_PROPAGATED\", priority = 10 }]\nobject = [{ key = \"ping\", adapter = \"prop\", interface = \"IDL:Orb/Ping:1.0\" }]\n";

/// Requests for `current` of `ping` at priority 20, of ids 1, 2 and 3.
const URGENT: &[u8] =
    b"GIOP\x01\x02\0\0\0\0\0\x30\0\0\0\x01\x03\0\0\0\0\0\0\0\0\0\0\x04ping\0\0\0\x08current\0\0\0\0\x01\0\0\0\x0a\0\0\0\x04\0\0\0\x14GIOP\x01\x02\0\0\0\0\0\x30\0\0\0\x02\x03\0\0\0\0\0\0\0\0\0\0\x04ping\0\0\0\x08current\0\0\0\0\x01\0\0\0\x0a\0\0\0\x04\0\0\0\x14GIOP\x01\x02\0\0\0\0\0\x30\0\0\0\x03\x03\0\0\0\0\0\0\0\0\0\0\x04ping\0\0\0\x08current\0\0\0\0\x01\0\0\0\x0a\0\0\0\x04\0\0\0\x14";

/// The replies in the order in which they are done: the second request is lent the thread of the lower lane, the third waits for
/// that thread, and the first is taken last.
const URGENT_REPLIES: &[u8] =
    b"GIOP\x01\x02\0\x01\0\0\0\x0e\0\0\0\x02\0\0\0\0\0\0\0\0\0\x14GIOP\x01\x02\0\x01\0\0\0\x0e\0\0\0\x03\0\0\0\0\0\0\0\0\0\x14GIOP\x01\x02\0\x01\0\0\0\x0e\0\0\0\x01\0\0\0\0\0\0\0\0\0\x14";

const URGENT_HISTORY: &[u8] =
    b"offer c0.0 #1 p20 l1 run t1\noffer c0.0 #2 p20 l1 lent t0\noffer c0.0 #3 p20 l1 kept\ntake t0 #2\nfinish t0 #2 returned\ntake t0 #3\nfinish t0 #3 returned\ntake t1 #1\nfinish t1 #1 returned\ncollect c0.0 #2\ncollect c0.0 #3\ncollect c0.0 #1\nend c0.0 quiet\ncollect c0.0 done\n";

/// The pipe by the configuration `c`, which writes in pieces.
const PIPE: Row<'static> = Row {
    words: &["pipe", "--config", "c"],
    writes: &[26, 5],
    ..EMPTY
};

/// Each object answers the priority that its adapter mandates; a key of no object is refused. The files, the input and the output
/// fail, each in its turn.
const OBJECTS: &[Row<'static>] = &[
    Row {
        story: "three objects",
        files: &[("c", TWO)],
        input: THREE,
        output: THREE_REPLIES,
        ..PIPE
    },
    Row {
        story: "an empty input",
        files: &[("c", TWO)],
        ..PIPE
    },
    Row {
        story: "a key of no object",
        files: &[("c", TWO)],
        input: PONG,
        output: NO_OBJECT,
        ..PIPE
    },
    Row {
        story: "IDL that isn't there",
        files: &[("c", FILED)],
        input: PING,
        status: 10,
        note: "Absent(Idl)",
        ..PIPE
    },
    Row {
        story: "a configuration that isn't there",
        words: &["pipe", "--config", "d"],
        files: &[("c", TWO)],
        input: THREE,
        status: 10,
        note: "Absent(Config)",
        ..PIPE
    },
    Row {
        story: "a name with a dash after a blank",
        words: &["pipe", "--config", "-c"],
        files: &[("c", TWO)],
        input: THREE,
        status: 1,
        note: "Usage",
        ..PIPE
    },
    Row {
        story: "a name with a dash, which no file has",
        words: &["pipe", "--config=-c"],
        files: &[("c", TWO)],
        input: THREE,
        status: 10,
        note: "Absent(Config)",
        ..PIPE
    },
    Row {
        story: "a configuration that can't be read",
        files: &[("c", TWO)],
        failed_files: &[0],
        input: THREE,
        status: 3,
        note: "ReadFault",
        ..PIPE
    },
    Row {
        story: "a failed first read",
        files: &[("c", TWO)],
        input: THREE,
        failed_reads: &[0],
        status: 3,
        note: "ReadFault",
        ..PIPE
    },
    Row {
        story: "a failed second write",
        files: &[("c", TWO)],
        input: THREE,
        failed_writes: &[1],
        status: 4,
        note: "WriteFault",
        output: PING_REPLY,
        ..PIPE
    },
];

/// Any pool runs.
const POOLS: &[Row<'static>] = &[
    Row {
        story: "slots, and a limit that isn't passed",
        files: &[(
            "c",
            b"pool = { static = 1, dynamic = 0, default_priority = 1 }\nserver = { slots = 2, max_calls = 1 }\nadapter = [{ name = \"a\", model = \"CLIENT_PROPAGATED\", priority = 7 }]\nobject = [{ key = \"ping\", adapter = \"a\", interface = \"IDL:Orb/Ping:1.0\" }]\n",
        )],
        input: PING,
        output: PING_REPLY,
        ..PIPE
    },
    Row {
        story: "threads that are made when they are wanted",
        files: &[(
            "c",
            b"pool = { static = 1, dynamic = 1, default_priority = 1 }\nadapter = [{ name = \"a\", model = \"CLIENT_PROPAGATED\", priority = 7 }]\nobject = [{ key = \"ping\", adapter = \"a\", interface = \"IDL:Orb/Ping:1.0\" }]\n",
        )],
        input: PING,
        output: PING_REPLY,
        ..PIPE
    },
    Row {
        story: "lanes",
        files: &[(
            "c",
            b"pool = { lanes = [{ priority = 7, static = 1, dynamic = 0 }] }\nadapter = [{ name = \"a\", model = \"CLIENT_PROPAGATED\", priority = 7 }]\nobject = [{ key = \"ping\", adapter = \"a\", interface = \"IDL:Orb/Ping:1.0\" }]\n",
        )],
        input: PING,
        output: PING_REPLY,
        ..PIPE
    },
    Row {
        story: "a buffer",
        files: &[(
            "c",
            b"pool = { static = 1, dynamic = 0, default_priority = 1, buffering = true, max_buffered_requests = 1, max_request_buffer_size = 100 }\nadapter = [{ name = \"a\", model = \"CLIENT_PROPAGATED\", priority = 7 }]\nobject = [{ key = \"ping\", adapter = \"a\", interface = \"IDL:Orb/Ping:1.0\" }]\n",
        )],
        input: PING,
        output: PING_REPLY,
        ..PIPE
    },
];

/// A group of three requests over two lanes: the bytes of its replies, and the text of its history.
const OVERTAKEN: &[Row<'static>] = &[
    Row {
        story: "an urgent request overtakes",
        words: &["pipe", "--config", "c", "--batch", "3"],
        files: &[("c", LANES)],
        input: URGENT,
        output: URGENT_REPLIES,
        ..PIPE
    },
    Row {
        story: "the history of an urgent request",
        words: &["pipe", "--config", "c", "--batch", "3", "--history"],
        files: &[("c", LANES)],
        input: URGENT,
        output: URGENT_HISTORY,
        ..PIPE
    },
    Row {
        story: "the same history by options in another order",
        words: &["pipe", "--history", "--batch=3", "--config=c"],
        files: &[("c", LANES)],
        input: URGENT,
        output: URGENT_HISTORY,
        ..PIPE
    },
];

/// The first fault of a configuration is given.
const REFUSED: &[Row<'static>] = &[
    Row {
        story: "a pool that is no table",
        files: &[("c", b"pool = 1")],
        input: PING,
        status: 2,
        note: "Config(WrongKind at pool)",
        ..PIPE
    },
    Row {
        story: "bytes that are no text",
        files: &[("c", b"\xff")],
        input: PING,
        status: 2,
        note: "Config(NotToml at )",
        ..PIPE
    },
    Row {
        story: "a transform under SERVER_DECLARED, before an interface that nobody serves",
        files: &[(
            "c",
            b"pool = { static = 1, dynamic = 0, default_priority = 1 }\nadapter = [{ name = \"prop\", model = \"CLIENT_PROPAGATED\", priority = 7, inbound = [{ low = 0, high = 9, to = 7 }] }, { name = \"decl\", model = \"SERVER_DECLARED\", priority = 20, inbound = [{ low = 0, high = 9, to = 7 }] }]\nobject = [{ key = \"ping\", adapter = \"prop\", interface = \"IDL:M/V:1.0\" }]\n",
        )],
        input: PING,
        status: 2,
        note: "Config(TransformNotAllowed at adapter[1].inbound)",
        ..PIPE
    },
    Row {
        story: "a transform to a priority of no lane",
        files: &[(
            "c",
            b"pool = { lanes = [{ priority = 10, static = 1, dynamic = 0 }, { priority = 20, static = 1, dynamic = 0 }] }\nadapter = [{ name = \"prop\", model = \"CLIENT_PROPAGATED\", priority = 10, inbound = [{ low = 0, high = 49, to = 10 }, { low = 50, high = 100, to = 15 }] }]\nobject = [{ key = \"ping\", adapter = \"prop\", interface = \"IDL:Orb/Ping:1.0\" }]\n",
        )],
        input: PING,
        status: 2,
        note: "Config(PriorityNotALane at adapter[0].inbound[1].to)",
        ..PIPE
    },
    Row {
        story: "an interface without a servant",
        files: &[("c", UNSERVED)],
        input: PING,
        status: 2,
        note: "Config(UnknownInterface at object[0].interface)",
        ..PIPE
    },
];

#[test]
fn the_setup_is_that_of_the_configuration(rt: HostRuntime) {
    assert_eq!(rt; first_wrong(&rt, rt.alloc(), OBJECTS), "");
    assert_eq!(rt; first_wrong(&rt, rt.alloc(), POOLS), "");
    assert_eq!(rt; first_wrong(&rt, rt.alloc(), OVERTAKEN), "");
    assert_eq!(rt; first_wrong(&rt, rt.alloc(), REFUSED), "");
}
