//! Inputs laid out by hand: CORBA 3.0.3, section 15.4.

use crate::samples::join;
use adapter_policies::{Setup, read_setup};
use giop_frames::FrameCause;
use giop_messages::Fault;
use heard_calls::*;
use lane_machine::LaneCall;
use orb_base::{ConnId, Job, Notice, Octets, SysName, What};
use std::alloc::Global;

/// No lanes; `ping` under CLIENT_PROPAGATED at 100.
const CONFIG: &[u8] =
    b"pool = { static = 1, dynamic = 0, default_priority = 100 }\nadapter = [{ name = \"main\", model = \"CLIENT_PROPAGATED\", priority = 100 }]\nobject = [{ key = \"ping\", adapter = \"main\", interface = \"i\" }]\n";

/// A request of id 1 for `current` of `ping`, with a reply due.
const PING: &[u8] =
    b"GIOP\x01\x02\0\0\0\0\0\x24\0\0\0\x01\x03\0\0\0\0\0\0\0\0\0\0\x04ping\0\0\0\x08current\0\0\0\0\0";

/// A request of id 3 for `current` of `pong`, without a reply due.
const SILENT: &[u8] =
    b"GIOP\x01\x02\0\0\0\0\0\x24\0\0\0\x03\0\0\0\0\0\0\0\0\0\0\0\x04pong\0\0\0\x08current\0\0\0\0\0";

/// A request of id 1 to bind 100 to 200, and one of id 2 at priority 99.
const BIND: &[u8] =
    b"GIOP\x01\x02\0\0\0\0\0\x3e\0\0\0\x01\x03\0\0\0\0\0\0\0\0\0\0\x04ping\0\0\0\x14_bind_priority_band\0\0\0\0\x01\0\0\0\x0b\0\0\0\x06\0\0\0\x64\0\xc8";

const AT_99: &[u8] =
    b"GIOP\x01\x02\0\0\0\0\0\x30\0\0\0\x02\x03\0\0\0\0\0\0\0\0\0\0\x04ping\0\0\0\x08current\0\0\0\0\x01\0\0\0\x0a\0\0\0\x04\0\0\0\x63";

const CANCEL: &[u8] = b"GIOP\x01\x02\0\x02\0\0\0\x04\0\0\0\x07";

/// A LocateRequest of id 5 for `ping`.
const LOCATE: &[u8] = b"GIOP\x01\x02\0\x03\0\0\0\x10\0\0\0\x05\0\0\0\0\0\0\0\x04ping";

/// A LocateReply of id 5.
const LOCATED: &[u8] = b"GIOP\x01\x02\0\x04\0\0\0\x08\0\0\0\x05\0\0\0\x01";

const CLOSE: &[u8] = b"GIOP\x01\x02\0\x05\0\0\0\0";

const CONN: ConnId = ConnId { slot: 0, nth: 0 };

/// A header with another magic.
const BROKEN: &[u8] = b"GIOX\x01\x02\0\0\0\0\0\0";

/// A call: a request by its number among the calls and its priority, an answer by its id and its system exception's minor code.
#[derive(Clone, Copy)]
enum Call {
    Offer(u32, u16),
    Bound(u32),
    Refused(u32, SysName, u32),
    Located(u32, bool),
    Cancel(u32),
}

/// The parts of an input, one after the other, the calls that they mean, and how the reading ends.
type Row = (&'static [&'static [u8]], &'static [Call], Ending);

fn offers(job: &Job, want: Call) -> bool {
    match want {
        Call::Offer(serial, level) => job.serial == serial && job.priority.level() == level,
        _ => false,
    }
}

fn posts(notice: &Notice, want: Call) -> bool {
    match want {
        Call::Bound(id) => notice.id == id && notice.what == What::Bound,
        Call::Located(id, here) => notice.id == id && notice.what == What::Located(here),
        Call::Refused(id, name, minor) => notice.id == id && refuses(notice.what, name, minor),
        _ => false,
    }
}

fn refuses(what: What, name: SysName, minor: u32) -> bool {
    match what {
        What::System(sys) => sys.name == name && sys.minor == minor,
        _ => false,
    }
}

fn cancels(cancelled: u32, want: Call) -> bool {
    match want {
        Call::Cancel(id) => cancelled == id,
        _ => false,
    }
}

fn is_call(call: &LaneCall, want: Call) -> bool {
    match call {
        LaneCall::Offer(job) => offers(job.get(), want),
        LaneCall::Post(notice) => posts(notice, want),
        LaneCall::Cancel { id, .. } => cancels(*id, want),
        _ => false,
    }
}

fn are_calls(calls: &[LaneCall], want: &[Call]) -> bool {
    let mut left = want;
    for call in calls {
        match left.split_first() {
            Some((first, rest)) if is_call(call, *first) => left = rest,
            _ => return false,
        }
    }
    left.is_empty()
}

/// Whether an input means these calls and ends so.
fn hears(alloc: Global, setup: &Setup, bytes: &[u8], calls: &[Call], ending: Ending) -> bool {
    if bytes.len() > 1024 {
        return false;
    }
    match hear_input(alloc, setup, CONN, bytes) {
        Ok(heard) => are_calls(heard.calls.as_slice(), calls) && heard.ending == ending,
        Err(_) => false,
    }
}

fn holds(alloc: Global, setup: &Setup, row: &Row) -> bool {
    let (parts, calls, ending) = *row;
    let mut bytes = Octets::new(alloc);
    join(&mut bytes, parts) && hears(alloc, setup, bytes.as_slice(), calls, ending)
}

fn each_holds(alloc: Global, setup: &Setup, rows: &[Row]) -> bool {
    for row in rows {
        if !holds(alloc, setup, row) {
            return false;
        }
    }
    true
}

fn all_hold(alloc: Global, rows: &[Row]) -> bool {
    match read_setup(alloc, CONFIG) {
        Ok(setup) => each_holds(alloc, &setup, rows),
        Err(_) => false,
    }
}

const MEANT: &[Row] = &[
    (&[], &[], Ending::Ended),
    (
        &[PING, PING],
        &[Call::Offer(0, 100), Call::Offer(1, 100)],
        Ending::Ended,
    ),
    (
        &[CANCEL, LOCATE],
        &[Call::Cancel(7), Call::Located(5, true)],
        Ending::Ended,
    ),
    // A refusal that nobody is told of is no call, and doesn't count.
    (&[SILENT, PING], &[Call::Offer(0, 100)], Ending::Ended),
    // A bound band holds from the next message on.
    (
        &[AT_99, BIND, AT_99],
        &[
            Call::Offer(0, 99),
            Call::Bound(1),
            Call::Refused(2, SysName::InvPolicy, 4),
        ],
        Ending::Ended,
    ),
];

#[test]
fn messages_mean_their_calls(rt: HostRuntime) {
    laws::messages_mean_one_thing();
    laws::hearing_goes_on();
    assert!(rt; all_hold(rt.alloc(), MEANT));
}

/// The call of one request.
const ONE: &[Call] = &[Call::Offer(0, 100)];

const ENDING: &[Row] = &[
    (&[PING, CLOSE, PING], ONE, Ending::Ended),
    (
        &[PING, LOCATED, PING],
        ONE,
        Ending::Broken {
            offset: 48,
            fault: Fault::WrongWay,
        },
    ),
    // A message goes before a fault of framing after it.
    (&[CLOSE, BROKEN], &[], Ending::Ended),
    (
        &[PING, BROKEN],
        ONE,
        Ending::Broken {
            offset: 48,
            fault: Fault::Frame(FrameCause::BadMagic),
        },
    ),
    (&[PING, b"GIOP"], ONE, Ending::Cut(48)),
];

#[test]
fn a_message_may_end_the_reading(rt: HostRuntime) {
    assert!(rt; all_hold(rt.alloc(), ENDING));
}
