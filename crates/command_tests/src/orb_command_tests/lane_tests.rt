//! `orb pipe` over pools of many kinds: which requests are lent a thread, kept, refused or cancelled, by the bytes that are written and
//! by the text of the history. Expected values are worked by hand from the rules of threadpools (Real-time CORBA 1.2, section 5.9).

use super::rows::{EMPTY, Row, holds};
use orb_base::{List, NoMemory, Octets};
use std::alloc::Global;
use std::sync::Wait;
use std::thread::Threads;

/// Lanes 10 and 20 of one static thread each; three requests of 120 bytes together wait; a lower lane lends its thread. `ping` is under
/// CLIENT_PROPAGATED, and `decl` under SERVER_DECLARED at 20.
const TWO_LANES: &[u8] =
    b"pool = { borrowing = true, buffering = true, max_buffered_requests = 3, max_request_buffer_size = 120, lanes = [{ priority = 10, static = 1, dynamic = 0 }, { priority = 20, static = 1, dynamic = 0 }] }\nadapter = [{ name = \"prop\", model = \"CLIENT_PROPAGATED\", priority = 10 }, { name = \"decl\", model = \"SERVER_DECLARED\", priority = 20 }]\nobject = [{ key = \"ping\", adapter = \"prop\", interface = \"IDL:Orb/Ping:1.0\" }, { key = \"decl\", adapter = \"decl\", interface = \"IDL:Orb/Ping:1.0\" }]\n";

/// The same where requests of 119 bytes together wait, which are one of 60 bytes.
const ONE_BYTE_LESS: &[u8] =
    b"pool = { borrowing = true, buffering = true, max_buffered_requests = 3, max_request_buffer_size = 119, lanes = [{ priority = 10, static = 1, dynamic = 0 }, { priority = 20, static = 1, dynamic = 0 }] }\nadapter = [{ name = \"prop\", model = \"CLIENT_PROPAGATED\", priority = 10 }, { name = \"decl\", model = \"SERVER_DECLARED\", priority = 20 }]\nobject = [{ key = \"ping\", adapter = \"prop\", interface = \"IDL:Orb/Ping:1.0\" }, { key = \"decl\", adapter = \"decl\", interface = \"IDL:Orb/Ping:1.0\" }]\n";

/// The same where none waits.
const UNBUFFERED: &[u8] =
    b"pool = { borrowing = true, buffering = false, lanes = [{ priority = 10, static = 1, dynamic = 0 }, { priority = 20, static = 1, dynamic = 0 }] }\nadapter = [{ name = \"prop\", model = \"CLIENT_PROPAGATED\", priority = 10 }, { name = \"decl\", model = \"SERVER_DECLARED\", priority = 20 }]\nobject = [{ key = \"ping\", adapter = \"prop\", interface = \"IDL:Orb/Ping:1.0\" }, { key = \"decl\", adapter = \"decl\", interface = \"IDL:Orb/Ping:1.0\" }]\n";

/// The lowest and the highest priority that there are, and `ping` alone.
const EXTREME_LANES: &[u8] =
    b"pool = { lanes = [{ priority = 0, static = 1, dynamic = 0 }, { priority = 32767, static = 1, dynamic = 0 }] }\nadapter = [{ name = \"prop\", model = \"CLIENT_PROPAGATED\", priority = 0 }]\nobject = [{ key = \"ping\", adapter = \"prop\", interface = \"IDL:Orb/Ping:1.0\" }]\n";

/// One thread, a buffer of two requests, and `ping` alone.
const ONE_THREAD: &[u8] =
    b"pool = { static = 1, dynamic = 0, default_priority = 1, buffering = true, max_buffered_requests = 2, max_request_buffer_size = 1000 }\nadapter = [{ name = \"prop\", model = \"CLIENT_PROPAGATED\", priority = 1 }]\nobject = [{ key = \"ping\", adapter = \"prop\", interface = \"IDL:Orb/Ping:1.0\" }]\n";

/// The same, in a run that hears three calls.
const THREE_CALLS: &[u8] =
    b"server = { max_calls = 3 }\npool = { static = 1, dynamic = 0, default_priority = 1, buffering = true, max_buffered_requests = 2, max_request_buffer_size = 1000 }\nadapter = [{ name = \"prop\", model = \"CLIENT_PROPAGATED\", priority = 1 }]\nobject = [{ key = \"ping\", adapter = \"prop\", interface = \"IDL:Orb/Ping:1.0\" }]\n";

/// One static thread, two that are made when they are wanted, and `ping` alone.
const DYNAMIC: &[u8] =
    b"pool = { static = 1, dynamic = 2, default_priority = 1 }\nadapter = [{ name = \"prop\", model = \"CLIENT_PROPAGATED\", priority = 1 }]\nobject = [{ key = \"ping\", adapter = \"prop\", interface = \"IDL:Orb/Ping:1.0\" }]\n";

/// Lanes 10 and 20 of one static thread each. `ping` is under CLIENT_PROPAGATED at 10, and its clients speak of 0 to 100: 0 to 49 is
/// served at 10, and 50 to 100 at 20. `decl` is under SERVER_DECLARED at 20.
const TRANSFORMED: &[u8] =
    b"pool = { lanes = [{ priority = 10, static = 1, dynamic = 0 }, { priority = 20, static = 1, dynamic = 0 }] }\nadapter = [{ name = \"prop\", model = \"CLIENT_PROPAGATED\", priority = 10, inbound = [{ low = 0, high = 49, to = 10 }, { low = 50, high = 100, to = 20 }] }, { name = \"decl\", model = \"SERVER_DECLARED\", priority = 20 }]\nobject = [{ key = \"ping\", adapter = \"prop\", interface = \"IDL:Orb/Ping:1.0\" }, { key = \"decl\", adapter = \"decl\", interface = \"IDL:Orb/Ping:1.0\" }]\n";

/// A message of the client, by its request id and the priority that its context asks for.
#[derive(Clone, Copy)]
enum Ask {
    /// `current` of `ping`, with a reply.
    Ping(u32, u16),
    /// `current` of `ping` in a request that sends no priority, with a reply.
    Plain(u32),
    /// `current` of `ping`, without one.
    Oneway(u32, u16),
    /// `current` of `decl`, with a reply.
    Decl(u32, u16),
    /// A CancelRequest of that id.
    Cancel(u32),
}

/// What is written: a message of the server, by the request id, or lines.
#[derive(Clone, Copy)]
enum Said {
    /// The reply with this priority.
    Reply(u32, u16),
    /// TRANSIENT, minor 1, completed NO.
    Transient(u32),
    /// DATA_CONVERSION, minor 2, completed NO, in 76 bytes.
    Conversion(u32),
    /// INV_POLICY, minor 3, completed NO.
    Policy(u32),
    /// CloseConnection.
    Close,
    /// These lines of the history, in place of messages.
    Lines(&'static str),
}

fn spell_ask(bytes: &mut List<u8>, message: Ask) -> Result<(), NoMemory> {
    let (id, flags, key, priority) = match message {
        Ask::Ping(id, priority) => (id, 3, b"ping", priority),
        Ask::Oneway(id, priority) => (id, 0, b"ping", priority),
        Ask::Decl(id, priority) => (id, 3, b"decl", priority),
        Ask::Plain(id) => {
            bytes.append(b"GIOP\x01\x02\0\0\0\0\0\x24")?;
            bytes.append(&id.to_be_bytes())?;
            return bytes.append(b"\x03\0\0\0\0\0\0\0\0\0\0\x04ping\0\0\0\x08current\0\0\0\0\0");
        }
        Ask::Cancel(id) => {
            bytes.append(b"GIOP\x01\x02\0\x02\0\0\0\x04")?;
            return bytes.append(&id.to_be_bytes());
        }
    };
    // A request for `current`, of 60 bytes.
    bytes.append(b"GIOP\x01\x02\0\0\0\0\0\x30")?;
    bytes.append(&id.to_be_bytes())?;
    bytes.append(&[flags, 0, 0, 0, 0, 0, 0, 0, 0, 0, 0, 4])?;
    bytes.append(key)?;
    bytes.append(b"\0\0\0\x08current\0\0\0\0\x01\0\0\0\x0a\0\0\0\x04\0\0")?;
    bytes.append(&priority.to_be_bytes())
}

fn spell_said(bytes: &mut List<u8>, message: Said) -> Result<(), NoMemory> {
    match message {
        Said::Reply(id, priority) => {
            bytes.append(b"GIOP\x01\x02\0\x01\0\0\0\x0e")?;
            bytes.append(&id.to_be_bytes())?;
            bytes.append(b"\0\0\0\0\0\0\0\0")?;
            bytes.append(&priority.to_be_bytes())
        }
        Said::Transient(id) => {
            bytes.append(b"GIOP\x01\x02\0\x01\0\0\0\x38")?;
            bytes.append(&id.to_be_bytes())?;
            bytes.append(
                b"\0\0\0\x02\0\0\0\0\0\0\0\x20IDL:omg.org/CORBA/TRANSIENT:1.0\0\0\0\0\x01\0\0\0\x01",
            )
        }
        Said::Conversion(id) => {
            bytes.append(b"GIOP\x01\x02\0\x01\0\0\0\x40")?;
            bytes.append(&id.to_be_bytes())?;
            bytes.append(
                b"\0\0\0\x02\0\0\0\0\0\0\0\x26IDL:omg.org/CORBA/DATA_CONVERSION:1.0\0\0\0\0\0\0\x02\0\0\0\x01",
            )
        }
        Said::Policy(id) => {
            bytes.append(b"GIOP\x01\x02\0\x01\0\0\0\x3c")?;
            bytes.append(&id.to_be_bytes())?;
            bytes.append(
                b"\0\0\0\x02\0\0\0\0\0\0\0\x21IDL:omg.org/CORBA/INV_POLICY:1.0\0\0\0\0\0\0\0\x03\0\0\0\x01",
            )
        }
        Said::Close => bytes.append(b"GIOP\x01\x02\0\x05\0\0\0\0"),
        Said::Lines(text) => bytes.append(text.as_bytes()),
    }
}

/// A row by the messages that are asked and said in it.
struct Scene<'a> {
    asks: &'a [Ask],
    said: &'a [Said],
    row: Row<'a>,
}

/// The pipe by a configuration, one call in a group.
const SINGLY: Row<'static> = Row {
    words: &["pipe", "--config", "c", "--batch", "1"],
    files: &[("c", TWO_LANES)],
    ..EMPTY
};

/// The same with four calls in a group.
const IN_FOURS: Row<'static> = Row {
    words: &["pipe", "--config", "c", "--batch", "4"],
    ..SINGLY
};

const FOUR_AT_10: &[Ask] = &[
    Ask::Ping(1, 10),
    Ask::Ping(2, 10),
    Ask::Ping(3, 10),
    Ask::Ping(4, 10),
];

/// A waiting request is taken back, one that has a thread isn't, and one that isn't there is nothing.
const CANCELLED: &str =
    "offer c0.0 #1 p1 l0 run t0\noffer c0.0 #2 p1 l0 kept\ncancel c0.0 #2 removed\ncancel c0.0 #1 nothing\ncancel c0.0 #9 nothing\ntake t0 #1\nfinish t0 #1 returned\ncollect c0.0 #1\nend c0.0 quiet\ncollect c0.0 done\n";

/// The second request has a thread made for it; the third thread isn't made.
const MADE: &str =
    "offer c0.0 #1 p1 l0 run t0\noffer c0.0 #2 p2 l0 run t1\ntake t0 #1\nfinish t0 #1 returned\ntake t1 #2\nfinish t1 #2 returned\ncollect c0.0 #1\ncollect c0.0 #2\nend c0.0 quiet\ncollect c0.0 done\n";

const CANCELLING: &[Ask] = &[
    Ask::Ping(1, 1),
    Ask::Ping(2, 1),
    Ask::Cancel(2),
    Ask::Cancel(1),
    Ask::Cancel(9),
];

const SCENES: &[Scene<'static>] = &[
    Scene {
        asks: &[Ask::Decl(1, 5)],
        said: &[Said::Reply(1, 20)],
        row: Row {
            story: "an object's own priority goes before the client's",
            ..SINGLY
        },
    },
    Scene {
        asks: &[Ask::Ping(1, 0), Ask::Ping(2, 32_767)],
        said: &[Said::Reply(1, 0), Said::Reply(2, 32_767)],
        row: Row {
            story: "the extreme lanes",
            files: &[("c", EXTREME_LANES)],
            ..SINGLY
        },
    },
    Scene {
        asks: &[Ask::Ping(1, 15)],
        said: &[Said::Policy(1)],
        row: Row {
            story: "no lane of the priority",
            ..SINGLY
        },
    },
    Scene {
        asks: &[
            Ask::Ping(1, 20),
            Ask::Ping(2, 20),
            Ask::Ping(3, 20),
            Ask::Oneway(4, 20),
        ],
        said: &[Said::Transient(3), Said::Reply(2, 20), Said::Reply(1, 20)],
        row: Row {
            story: "without a buffer what finds no thread is refused, and a oneway is dropped",
            files: &[("c", UNBUFFERED)],
            ..IN_FOURS
        },
    },
    Scene {
        asks: FOUR_AT_10,
        said: &[
            Said::Transient(4),
            Said::Reply(1, 10),
            Said::Reply(2, 10),
            Said::Reply(3, 10),
        ],
        row: Row {
            story: "refused by the bytes that wait",
            ..IN_FOURS
        },
    },
    Scene {
        asks: FOUR_AT_10,
        said: &[
            Said::Transient(3),
            Said::Transient(4),
            Said::Reply(1, 10),
            Said::Reply(2, 10),
        ],
        row: Row {
            story: "refused by one byte",
            files: &[("c", ONE_BYTE_LESS)],
            ..IN_FOURS
        },
    },
    Scene {
        asks: &[
            Ask::Ping(1, 10),
            Ask::Ping(2, 10),
            Ask::Ping(3, 20),
            Ask::Ping(4, 20),
        ],
        said: &[
            Said::Reply(1, 10),
            Said::Reply(4, 20),
            Said::Reply(2, 10),
            Said::Reply(3, 20),
        ],
        row: Row {
            story: "an urgent request overtakes one that waits",
            ..IN_FOURS
        },
    },
    Scene {
        asks: &[
            Ask::Ping(1, 1),
            Ask::Ping(2, 1),
            Ask::Ping(3, 1),
            Ask::Ping(4, 2),
        ],
        said: &[
            Said::Transient(4),
            Said::Reply(1, 1),
            Said::Reply(2, 1),
            Said::Reply(3, 1),
        ],
        row: Row {
            story: "refused by the number that waits",
            files: &[("c", ONE_THREAD)],
            ..IN_FOURS
        },
    },
    Scene {
        asks: &[
            Ask::Ping(1, 1),
            Ask::Ping(2, 1),
            Ask::Ping(3, 1),
            Ask::Ping(4, 1),
        ],
        said: &[
            Said::Reply(1, 1),
            Said::Reply(2, 1),
            Said::Reply(3, 1),
            Said::Close,
        ],
        row: Row {
            story: "a run closes at the fourth of three calls",
            files: &[("c", THREE_CALLS)],
            status: 13,
            note: "Limit",
            ..SINGLY
        },
    },
    Scene {
        asks: CANCELLING,
        said: &[Said::Reply(1, 1)],
        row: Row {
            story: "a cancelled request has no reply",
            words: &["pipe", "--config", "c", "--batch", "5"],
            files: &[("c", ONE_THREAD)],
            ..SINGLY
        },
    },
    Scene {
        asks: CANCELLING,
        said: &[Said::Lines(CANCELLED)],
        row: Row {
            story: "the history of cancelled requests",
            words: &["pipe", "--config", "c", "--batch", "5", "--history"],
            files: &[("c", ONE_THREAD)],
            ..SINGLY
        },
    },
    Scene {
        asks: &[Ask::Ping(1, 1), Ask::Ping(2, 2)],
        said: &[Said::Lines(MADE)],
        row: Row {
            story: "the history of threads that are made",
            words: &["pipe", "--config", "c", "--batch", "2", "--history"],
            files: &[("c", DYNAMIC)],
            ..SINGLY
        },
    },
];

/// What clients send, by the transform of their adapter.
const MAPPED: &[Scene<'static>] = &[Scene {
    asks: &[
        Ask::Ping(1, 70),
        Ask::Ping(2, 101),
        Ask::Plain(3),
        Ask::Oneway(4, 101),
        Ask::Ping(5, 20),
        Ask::Decl(6, 101),
    ],
    said: &[
        Said::Reply(1, 20),
        Said::Conversion(2),
        Said::Reply(3, 10),
        Said::Reply(5, 10),
        Said::Reply(6, 20),
    ],
    row: Row {
        story: "a transform maps what is sent, and refuses what no row holds",
        files: &[("c", TRANSFORMED)],
        ..SINGLY
    },
}];

fn asked_bytes(alloc: Global, messages: &[Ask]) -> Result<Octets, NoMemory> {
    let mut bytes = List::new(alloc);
    for message in messages {
        spell_ask(&mut bytes, *message)?;
    }
    Ok(bytes)
}

fn said_bytes(alloc: Global, messages: &[Said]) -> Result<Octets, NoMemory> {
    let mut bytes = List::new(alloc);
    for message in messages {
        spell_said(&mut bytes, *message)?;
    }
    Ok(bytes)
}

/// Whether a scene's row holds with these bytes as its input and its output.
fn plays<R: Wait + Threads + Sync>(
    rt: &R,
    alloc: Global,
    scene: &Scene<'_>,
    input: &[u8],
    output: &[u8],
) -> bool {
    let row = Row {
        input,
        output,
        ..scene.row
    };
    holds(rt, alloc, &row)
}

fn is_so<R: Wait + Threads + Sync>(rt: &R, alloc: Global, scene: &Scene<'_>) -> bool {
    let Ok(asked) = asked_bytes(alloc, scene.asks) else {
        return false;
    };
    match said_bytes(alloc, scene.said) {
        Ok(said) => plays(rt, alloc, scene, asked.as_slice(), said.as_slice()),
        Err(_) => false,
    }
}

/// The story of the first scene that isn't so, or nothing.
fn first_other<R: Wait + Threads + Sync>(
    rt: &R,
    alloc: Global,
    scenes: &[Scene<'_>],
) -> &'static str {
    for scene in scenes {
        if !is_so(rt, alloc, scene) {
            return scene.row.story;
        }
    }
    ""
}

#[test]
fn pools_lend_keep_refuse_and_cancel(rt: HostRuntime) {
    assert_eq!(rt; first_other(&rt, rt.alloc(), SCENES), "");
}

#[test]
fn a_transform_maps_what_clients_send(rt: HostRuntime) {
    assert_eq!(rt; first_other(&rt, rt.alloc(), MAPPED), "");
}
