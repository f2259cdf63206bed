//! One connection in a hall with ample memory, over memory: what is written, how it comes out, and what the hand has left.
use crate::echo::*;
use giop_frames::FrameCause;
use giop_messages::Fault;
use halls::*;
use heard_messages::ReadEnd;
use orb_base::{ConnId, MemSink};
use std::alloc::Global;
use std::sync::Wait;
use std::test::*;

/// An input in reads of so many bytes, the invocations that the hand may make, and which reads and writes fail; then what is written, how
/// the connection comes out, and how many invocations the hand has left.
struct Row {
    config: &'static [u8],
    input: &'static [&'static [u8]],
    cut: usize,
    spare: u32,
    reads: &'static [u64],
    writes: &'static [u64],
    output: &'static [&'static [u8]],
    ends: (HallRead, HallWrite),
    left: u32,
}

/// Priorities above 100 have no native one.
const LINEAR: &[u8] =
    b"map = { kind = \"linear\", corba_low = 0, corba_high = 100, native_low = 0, native_high = 100 }\npool = { static = 1, dynamic = 0, default_priority = 10 }\nadapter = [{ name = \"prop\", model = \"CLIENT_PROPAGATED\", priority = 10 }]\nobject = [{ key = \"ping\", adapter = \"prop\", interface = \"i\" }]\n";

/// A request of id 4 for `_bind_priority_band` of `ping`, without a body, and the reply that a hall gives it.
const BIND_4: &[u8] =
    b"GIOP\x01\x02\0\0\0\0\0\x30\0\0\0\x04\x03\0\0\0\0\0\0\0\0\0\0\x04ping\0\0\0\x14_bind_priority_band\0\0\0\0\0";

const REPLY_4: &[u8] = b"GIOP\x01\x02\0\x01\0\0\0\x0c\0\0\0\x04\0\0\0\0\0\0\0\0";

/// Requests of id 3 for an unknown key, the second of which no reply is due.
const UNKNOWN_3: &[u8] =
    b"GIOP\x01\x02\0\0\0\0\0\x24\0\0\0\x03\x03\0\0\0\0\0\0\0\0\0\0\x04pong\0\0\0\x05echo\0\0\0\0\0\0\0\0";

const UNKNOWN_QUIET: &[u8] =
    b"GIOP\x01\x02\0\0\0\0\0\x24\0\0\0\x03\0\0\0\0\0\0\0\0\0\0\0\x04pong\0\0\0\x05echo\0\0\0\0\0\0\0\0";

/// OBJECT_NOT_EXIST, minor 1, completed NO, to id 3: CORBA 3.0.3, section 4.12.
const NOT_EXIST_3: &[u8] =
    b"GIOP\x01\x02\0\x01\0\0\0\x40\0\0\0\x03\0\0\0\x02\0\0\0\0\0\0\0\x27IDL:omg.org/CORBA/OBJECT_NOT_EXIST:1.0\0\0\0\0\0\x01\0\0\0\x01";

/// A LocateRequest of id 4 for `ping`, and OBJECT_HERE.
const LOCATE_4: &[u8] = b"GIOP\x01\x02\0\x03\0\0\0\x10\0\0\0\x04\0\0\0\0\0\0\0\x04ping";

const HERE_4: &[u8] = b"GIOP\x01\x02\0\x04\0\0\0\x08\0\0\0\x04\0\0\0\x01";

/// A request of id 5 whose target is a profile, and NEEDS_ADDRESSING_MODE for a key.
const PROFILE_5: &[u8] =
    b"GIOP\x01\x02\0\0\0\0\0\x24\0\0\0\x05\x03\0\0\0\0\x01\0\0\0\0\0\0\0\0\0\0\0\0\0\x05echo\0\0\0\0\0\0\0\0";

const ADDRESSING_5: &[u8] = b"GIOP\x01\x02\0\x01\0\0\0\x0e\0\0\0\x05\0\0\0\x05\0\0\0\0\0\0";

/// A request of id 6 whose context of a priority is cut short, one of id 7 whose context of a range has its low end above the high one, and
/// MARSHAL, minor 2, completed NO, to both.
const SHORT_6: &[u8] =
    b"GIOP\x01\x02\0\0\0\0\0\x2d\0\0\0\x06\x03\0\0\0\0\0\0\0\0\0\0\x04ping\0\0\0\x05echo\0\0\0\0\0\0\0\x01\0\0\0\x0a\0\0\0\x01\0";

const TURNED_7: &[u8] =
    b"GIOP\x01\x02\0\0\0\0\0\x32\0\0\0\x07\x03\0\0\0\0\0\0\0\0\0\0\x04ping\0\0\0\x05echo\0\0\0\0\0\0\0\x01\0\0\0\x0b\0\0\0\x06\0\0\0\x05\0\x04";

const MARSHAL_6: &[u8] =
    b"GIOP\x01\x02\0\x01\0\0\0\x38\0\0\0\x06\0\0\0\x02\0\0\0\0\0\0\0\x1eIDL:omg.org/CORBA/MARSHAL:1.0\0\0\0\0\0\0\x02\0\0\0\x01";

const MARSHAL_7: &[u8] =
    b"GIOP\x01\x02\0\x01\0\0\0\x38\0\0\0\x07\0\0\0\x02\0\0\0\0\0\0\0\x1eIDL:omg.org/CORBA/MARSHAL:1.0\0\0\0\0\0\0\x02\0\0\0\x01";

/// A request of id 8 at the priority 200, and DATA_CONVERSION, minor 1, completed NO.
const AT_200: &[u8] =
    b"GIOP\x01\x02\0\0\0\0\0\x30\0\0\0\x08\x03\0\0\0\0\0\0\0\0\0\0\x04ping\0\0\0\x05echo\0\0\0\0\0\0\0\x01\0\0\0\x0a\0\0\0\x04\0\0\0\xc8";

const CONVERSION_8: &[u8] =
    b"GIOP\x01\x02\0\x01\0\0\0\x40\0\0\0\x08\0\0\0\x02\0\0\0\0\0\0\0\x26IDL:omg.org/CORBA/DATA_CONVERSION:1.0\0\0\0\0\0\0\x01\0\0\0\x01";

/// A reply to a client, a CancelRequest of id 2, a header with another magic, and the start of a request.
const REPLY_9: &[u8] = b"GIOP\x01\x02\0\x01\0\0\0\x0c\0\0\0\x09\0\0\0\0\0\0\0\0";

const CANCEL_2: &[u8] = b"GIOP\x01\x02\0\x02\0\0\0\x04\0\0\0\x02";

const BROKEN: &[u8] = b"GIOX\x01\x02\0\0\0\0\0\0";

const UNFINISHED: &[u8] = b"GIOP\x01\x02\0\0\0\0\0";

const ENDED: (HallRead, HallWrite) = (HallRead::Read(ReadEnd::Ended), HallWrite::Done);

/// A row of `PLAIN` in one read, of a hand with nine invocations, where nothing fails and the input ends well.
const WELL: Row = Row {
    config: PLAIN,
    input: &[],
    cut: 4096,
    spare: 9,
    reads: &[],
    writes: &[],
    output: &[],
    ends: ENDED,
    left: 9,
};

const REQUESTS: &[Row] = &[
    // Nothing.
    WELL,
    // A reply at once is written before its invocation, another one after it, and none where none is due.
    Row {
        input: &[EARLY_1, LATE_2, QUIET_3],
        output: &[REPLY_1, REPLY_2],
        left: 6,
        ..WELL
    },
    // The write of a reply at once fails: its invocation isn't made, and nothing after it.
    Row {
        input: &[EARLY_1, LATE_2],
        writes: &[0],
        ends: (HallRead::Stopped, HallWrite::WriteFault),
        ..WELL
    },
    // The write of a reply after its invocation fails: that was made.
    Row {
        input: &[LATE_2, EARLY_1],
        writes: &[0],
        ends: (HallRead::Stopped, HallWrite::WriteFault),
        left: 8,
        ..WELL
    },
    // The hand has two invocations for three requests.
    Row {
        input: &[EARLY_1, LATE_2, QUIET_3],
        spare: 2,
        output: &[REPLY_1, REPLY_2, CLOSE],
        ends: (HallRead::RunClosed, HallWrite::Closed),
        left: 0,
        ..WELL
    },
    // CloseConnection can't be written.
    Row {
        input: &[QUIET_3],
        spare: 0,
        writes: &[0],
        ends: (HallRead::RunClosed, HallWrite::WriteFault),
        left: 0,
        ..WELL
    },
    // The second read fails.
    Row {
        input: &[LATE_2, EARLY_1],
        cut: 52,
        reads: &[1],
        output: &[REPLY_2],
        ends: (HallRead::Read(ReadEnd::ReadFault), HallWrite::Done),
        left: 8,
        ..WELL
    },
    // To bind a band is an operation like others.
    Row {
        input: &[BIND_4],
        output: &[REPLY_4],
        left: 8,
        ..WELL
    },
];

const REFUSED: &[Row] = &[
    Row {
        input: &[UNKNOWN_3, UNKNOWN_QUIET, LOCATE_4],
        output: &[NOT_EXIST_3, HERE_4],
        ..WELL
    },
    Row {
        input: &[PROFILE_5],
        output: &[ADDRESSING_5],
        ..WELL
    },
    Row {
        input: &[SHORT_6, TURNED_7],
        output: &[MARSHAL_6, MARSHAL_7],
        ..WELL
    },
    Row {
        config: LINEAR,
        input: &[AT_200, LATE_2],
        output: &[CONVERSION_8, REPLY_2],
        left: 8,
        ..WELL
    },
    // The write of an answer without an invocation fails.
    Row {
        input: &[UNKNOWN_3, LATE_2],
        writes: &[0],
        ends: (HallRead::Stopped, HallWrite::WriteFault),
        ..WELL
    },
];

const ENDS: &[Row] = &[
    // A CancelRequest means nothing.
    Row {
        input: &[CANCEL_2, LATE_2],
        output: &[REPLY_2],
        left: 8,
        ..WELL
    },
    // What is after a CloseConnection isn't looked at.
    Row {
        input: &[CLOSE, LATE_2],
        ..WELL
    },
    Row {
        input: &[LATE_2, REPLY_9, EARLY_1],
        output: &[REPLY_2, ERROR],
        ends: (
            HallRead::Read(ReadEnd::Broken {
                offset: 52,
                fault: Fault::WrongWay,
            }),
            HallWrite::Error,
        ),
        left: 8,
        ..WELL
    },
    Row {
        input: &[BROKEN],
        output: &[ERROR],
        ends: (
            HallRead::Read(ReadEnd::Broken {
                offset: 0,
                fault: Fault::Frame(FrameCause::BadMagic),
            }),
            HallWrite::Error,
        ),
        ..WELL
    },
    // MessageError can't be written.
    Row {
        input: &[BROKEN],
        writes: &[0],
        ends: (
            HallRead::Read(ReadEnd::Broken {
                offset: 0,
                fault: Fault::Frame(FrameCause::BadMagic),
            }),
            HallWrite::WriteFault,
        ),
        ..WELL
    },
    Row {
        input: &[UNFINISHED],
        ends: (HallRead::Read(ReadEnd::Cut(0)), HallWrite::Done),
        ..WELL
    },
];

/// How a connection came out, its sink, and its hand.
type Came = (HallRead, HallWrite, MemSink, Tally);

fn run_row<R: Wait>(rt: &R, alloc: Global, row: &Row, cut: usize) -> Option<Came> {
    let setup = setup_of(alloc, row.config)?;
    let mut source = source_of(alloc, row.input, cut, row.reads)?;
    let mut sink = sink_of(alloc, row.writes)?;
    let mut hand = Tally::new(0, row.spare);
    let hall = Echo {
        rt,
        alloc,
        setup: &setup,
    };
    let conn = ConnId { slot: 0, nth: 0 };
    let (read, write) = hall_side(alloc, &mut source, &mut sink, &hall, &mut hand, conn);
    Some((read, write, sink, hand))
}

/// Whether a connection whose reads give so many bytes at most comes out as its row says, and its sink is closed, once.
fn comes_out<R: Wait>(rt: &R, alloc: Global, row: &Row, cut: usize) -> bool {
    match (run_row(rt, alloc, row, cut), joined(alloc, row.output)) {
        (Some((read, write, sink, hand)), Some(output)) => {
            sink.held() == output.as_slice()
                && (read, write) == row.ends
                && hand.left == row.left
                && sink.closes == 1
        }
        _ => false,
    }
}

fn all_come_out<R: Wait>(rt: &R, alloc: Global, rows: &[Row]) -> bool {
    for row in rows {
        if !comes_out(rt, alloc, row, row.cut) {
            return false;
        }
    }
    true
}

/// Whether a row comes out so at each of the first cuts.
fn comes_out_at_each_cut<R: Wait>(rt: &R, alloc: Global, row: &Row) -> bool {
    for cut in 1..60 {
        if !comes_out(rt, alloc, row, cut) {
            return false;
        }
    }
    true
}

#[test]
fn invocations_and_replies_have_their_order(rt: HostRuntime) {
    assert!(rt; all_come_out(&rt, rt.alloc(), REQUESTS));
}

#[test]
fn requests_are_refused_before_they_run(rt: HostRuntime) {
    assert!(rt; all_come_out(&rt, rt.alloc(), REFUSED));
}

#[test]
fn connections_end_as_their_bytes_say(rt: HostRuntime) {
    assert!(rt; all_come_out(&rt, rt.alloc(), ENDS));
}

#[test]
fn bytes_mean_the_same_wherever_they_are_cut(rt: HostRuntime) {
    assert!(rt; comes_out_at_each_cut(&rt, rt.alloc(), &REQUESTS[1]));
}
