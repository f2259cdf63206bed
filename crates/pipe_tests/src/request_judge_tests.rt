//! Requests by hand: Real-time CORBA 1.2, Priority models and Priority banded connections.

ghost use Rattle.std.specs.Prelude.{IfSome};
ghost use Rattle.orb_base.specs.NulFree.{HasNoNul};
ghost use Rattle.cdr_core.specs.Lists.{IsAtList, context_of};

use adapter_policies::{Setup, read_setup};
use cdr_core::{Reader, Writer, pass_list};
use giop_messages::PartTarget;
use lane_machine::LaneCall;
use orb_base::{
    Band, Completed, ConnId, Due, Job, NoMemory, Notice, Octets, Order, Priority, SysName, Text,
    What,
};
use request_judge::*;
use std::alloc::Global;

/// Lanes 10 and 20; `ping` under CLIENT_PROPAGATED at 10, `decl` under SERVER_DECLARED at 20.
const LANES: &[u8] =
    b"pool = { lanes = [{ priority = 10, static = 1, dynamic = 0 }, { priority = 20, static = 1, dynamic = 0 }] }\nadapter = [{ name = \"prop\", model = \"CLIENT_PROPAGATED\", priority = 10 }, { name = \"decl\", model = \"SERVER_DECLARED\", priority = 20 }]\nobject = [{ key = \"ping\", adapter = \"prop\", interface = \"i\" }, { key = \"decl\", adapter = \"decl\", interface = \"i\" }]\n";

/// No lanes, and native priorities for 0 to 100 alone; `ping` under CLIENT_PROPAGATED at 100.
const MAPPED: &[u8] =
    b"pool = { static = 1, dynamic = 0, default_priority = 100 }\nmap = { kind = \"linear\", corba_low = 0, corba_high = 100, native_low = 1, native_high = 10 }\nadapter = [{ name = \"main\", model = \"CLIENT_PROPAGATED\", priority = 100 }]\nobject = [{ key = \"ping\", adapter = \"main\", interface = \"i\" }]\n";

/// Lanes 10 and 20; `ping` under CLIENT_PROPAGATED at 10, whose clients speak of 0 to 100, `decl` under SERVER_DECLARED at 20.
const TRANSFORMED: &[u8] =
    b"pool = { lanes = [{ priority = 10, static = 1, dynamic = 0 }, { priority = 20, static = 1, dynamic = 0 }] }\nadapter = [{ name = \"prop\", model = \"CLIENT_PROPAGATED\", priority = 10, inbound = [{ low = 0, high = 49, to = 10 }, { low = 50, high = 100, to = 20 }] }, { name = \"decl\", model = \"SERVER_DECLARED\", priority = 20 }]\nobject = [{ key = \"ping\", adapter = \"prop\", interface = \"i\" }, { key = \"decl\", adapter = \"decl\", interface = \"i\" }]\n";

/// A verdict as numbers: target, priority and lane, or the ends of a band.
#[derive(Clone, Copy)]
enum Shape {
    Runs(u16, i16, u8),
    Binds(i16, i16),
    Refused(Refusal),
}

/// The bound band, the key, the operation, the id and bytes of a context, and what the request comes to.
type Row = (
    Option<(i16, i16)>,
    &'static [u8],
    &'static [u8],
    Option<(u32, &'static [u8])>,
    Shape,
);

const CURRENT: &[u8] = b"current";

const BIND: &[u8] = b"_bind_priority_band";

/// Puts a list of this context, or of none.
fn put_contexts(out: &mut Writer, context: Option<(u32, &[u8])>) -> Result<(), NoMemory> {
    match context {
        Some((id, bytes)) => {
            out.put_u32(1)?;
            out.put_u32(id)?;
            // No row has more than 8 octets.
            out.put_octets(&bytes[..bytes.len().min(8)])
        }
        None => out.put_u32(0),
    }
}

/// The list of this context, or of none, as it is spelled in the big order.
fn contexts(alloc: Global, context: Option<(u32, &[u8])>) -> Option<Octets> {
    let mut out = Writer::new(alloc, Order::Big, 0);
    match put_contexts(&mut out, context) {
        Ok(()) => Some(out.finish()),
        Err(_) => None,
    }
}

/// A reader at the list of these bytes, if they are one.
#[tactic(auto, using(cdr_core::proofs::CallerLemmas::passed_list))]
fn at_contexts(bytes: &[u8]) -> Option<Reader<'_>>
    ensures { IfSome result (λ list. IsAtList context_of list) }
{
    let list = Reader::new(Order::Big, 0, bytes);
    let mut copy = list.copy();
    match pass_list(&mut copy) {
        Ok(()) => Some(list),
        Err(_) => None,
    }
}

/// A request of a target, of id 7, without a body.
fn request<'a>(
    flags: u8,
    target: PartTarget<'a>,
    operation: &'a [u8],
    contexts: Reader<'a>,
) -> Asked<'a>
    requires plain { HasNoNul operation.now }
    requires listed { IsAtList context_of contexts }
{
    Asked {
        id: 7,
        flags,
        target,
        operation,
        contexts,
        body: &[],
    }
}

fn band(low: i16, high: i16) -> Option<Band> {
    Band::new(Priority::new(low)?, Priority::new(high)?)
}

fn is_place(place: Place, want: Shape) -> bool {
    match want {
        Shape::Runs(target, level, lane) => {
            place.target == target && place.priority.get() == level && place.lane == lane
        }
        _ => false,
    }
}

fn is_band(band: Band, want: Shape) -> bool {
    match want {
        Shape::Binds(low, high) => band.low().get() == low && band.high().get() == high,
        _ => false,
    }
}

fn is_refused(refusal: Refusal, want: Shape) -> bool {
    match want {
        Shape::Refused(cause) => refusal == cause,
        _ => false,
    }
}

fn is_verdict(verdict: Verdict, want: Shape) -> bool {
    match verdict {
        Verdict::Runs(place) => is_place(place, want),
        Verdict::Binds(band) => is_band(band, want),
    }
}

/// Whether a judgement is this.
fn is_shape(judged: Result<Verdict, Refusal>, want: Shape) -> bool {
    match judged {
        Ok(verdict) => is_verdict(verdict, want),
        Err(refusal) => is_refused(refusal, want),
    }
}

/// Whether a request comes to this where a band of these ends is bound.
fn comes_to(setup: &Setup, bound: Option<(i16, i16)>, request: &Asked<'_>, want: Shape) -> bool {
    match bound {
        None => is_shape(judge(setup, None, request), want),
        Some((low, high)) => match band(low, high) {
            Some(band) => is_shape(judge(setup, Some(band), request), want),
            None => false,
        },
    }
}

/// Whether a request of these parts comes to this.
fn asks(setup: &Setup, row: &Row, operation: &Text, contexts: &[u8]) -> bool {
    let (bound, key, _, _, want) = *row;
    match at_contexts(contexts) {
        Some(list) => {
            let request = request(3, PartTarget::Key(key), operation.as_slice(), list);
            comes_to(setup, bound, &request, want)
        }
        None => false,
    }
}

fn holds(alloc: Global, setup: &Setup, row: &Row) -> bool {
    match (Text::new(alloc, row.2), contexts(alloc, row.3)) {
        (Ok(operation), Some(contexts)) => asks(setup, row, &operation, contexts.as_slice()),
        _ => false,
    }
}

fn each_holds(alloc: Global, setup: &Setup, rows: &[Row]) -> bool {
    for row in rows {
        if !holds(alloc, setup, row) {
            return false;
        }
    }
    true
}

/// Whether the requests of these rows come to what is there.
fn all_hold(alloc: Global, config: &[u8], rows: &[Row]) -> bool {
    match read_setup(alloc, config) {
        Ok(setup) => each_holds(alloc, &setup, rows),
        Err(_) => false,
    }
}

const RUNNING: &[Row] = &[
    (None, b"ping", CURRENT, None, Shape::Runs(0, 10, 0)),
    (
        None,
        b"ping",
        CURRENT,
        Some((10, b"\0\0\0\x14")),
        Shape::Runs(0, 20, 1),
    ),
    // The server's priority holds, whatever is sent.
    (
        None,
        b"decl",
        CURRENT,
        Some((10, b"\0\0\0\x0a")),
        Shape::Runs(1, 20, 1),
    ),
    (
        Some((10, 15)),
        b"ping",
        CURRENT,
        None,
        Shape::Runs(0, 10, 0),
    ),
    // Another context counts for nothing.
    (
        None,
        b"ping",
        CURRENT,
        Some((1, b"\xff")),
        Shape::Runs(0, 10, 0),
    ),
];

const RUNNING_MAPPED: &[Row] = &[(
    None,
    b"ping",
    CURRENT,
    Some((10, b"\x01\0\x32\0")),
    Shape::Runs(0, 50, 0),
)];

#[test]
fn requests_run_at_their_priority_in_its_lane(rt: HostRuntime) {
    assert!(rt; all_hold(rt.alloc(), LANES, RUNNING));
    assert!(rt; all_hold(rt.alloc(), MAPPED, RUNNING_MAPPED));
}

const REFUSED: &[Row] = &[
    (
        None,
        b"pong",
        CURRENT,
        None,
        Shape::Refused(Refusal::UnknownObject),
    ),
    // A context without a reading goes before an unknown key.
    (
        None,
        b"pong",
        CURRENT,
        Some((10, b"\0\0\x80\0")),
        Shape::Refused(Refusal::BadContext),
    ),
    (
        None,
        b"ping",
        CURRENT,
        Some((11, b"\0\0\0\x02\0\x01")),
        Shape::Refused(Refusal::BadContext),
    ),
    (
        None,
        b"ping",
        CURRENT,
        Some((10, b"\0\0\0\x0f")),
        Shape::Refused(Refusal::NoLane),
    ),
    (
        Some((10, 15)),
        b"ping",
        CURRENT,
        Some((10, b"\0\0\0\x14")),
        Shape::Refused(Refusal::OutsideBand),
    ),
    (
        Some((12, 18)),
        b"ping",
        CURRENT,
        Some((10, b"\0\0\0\x0f")),
        Shape::Refused(Refusal::NoLane),
    ),
];

/// 101 has no native priority; a band that doesn't hold it goes before.
const REFUSED_MAPPED: &[Row] = &[
    (
        None,
        b"ping",
        CURRENT,
        Some((10, b"\0\0\0\x65")),
        Shape::Refused(Refusal::NoNative),
    ),
    (
        Some((0, 100)),
        b"ping",
        CURRENT,
        Some((10, b"\0\0\0\x65")),
        Shape::Refused(Refusal::OutsideBand),
    ),
];

#[test]
fn requests_are_refused_for_the_first_cause(rt: HostRuntime) {
    assert!(rt; all_hold(rt.alloc(), LANES, REFUSED));
    assert!(rt; all_hold(rt.alloc(), MAPPED, REFUSED_MAPPED));
}

/// Requests to an adapter with a transform: what is sent counts only by the row that holds it.
const RUNNING_TRANSFORMED: &[Row] = &[
    (
        None,
        b"ping",
        CURRENT,
        Some((10, b"\0\0\0\x46")),
        Shape::Runs(0, 20, 1),
    ),
    (
        None,
        b"ping",
        CURRENT,
        Some((10, b"\0\0\0\x31")),
        Shape::Runs(0, 10, 0),
    ),
    (
        None,
        b"ping",
        CURRENT,
        Some((10, b"\0\0\0\x14")),
        Shape::Runs(0, 10, 0),
    ),
    (None, b"ping", CURRENT, None, Shape::Runs(0, 10, 0)),
    (
        None,
        b"decl",
        CURRENT,
        Some((10, b"\0\0\0\x65")),
        Shape::Runs(1, 20, 1),
    ),
    // The bound band judges what the transform made of the priority.
    (
        Some((20, 30)),
        b"ping",
        CURRENT,
        Some((10, b"\0\0\0\x46")),
        Shape::Runs(0, 20, 1),
    ),
];

/// 101 is in no row, which goes before the band; 30 comes to 10.
const REFUSED_TRANSFORMED: &[Row] = &[
    (
        None,
        b"ping",
        CURRENT,
        Some((10, b"\0\0\0\x65")),
        Shape::Refused(Refusal::NoTransform),
    ),
    (
        Some((20, 30)),
        b"ping",
        CURRENT,
        Some((10, b"\0\0\0\x65")),
        Shape::Refused(Refusal::NoTransform),
    ),
    (
        Some((20, 30)),
        b"ping",
        CURRENT,
        Some((10, b"\0\0\0\x1e")),
        Shape::Refused(Refusal::OutsideBand),
    ),
    (
        Some((20, 30)),
        b"ping",
        CURRENT,
        None,
        Shape::Refused(Refusal::OutsideBand),
    ),
];

/// A bind asks no transform: its band is one of lanes.
const BINDING_TRANSFORMED: &[Row] = &[
    (
        None,
        b"ping",
        BIND,
        Some((11, b"\0\0\0\x14\0\x1e")),
        Shape::Binds(20, 30),
    ),
    (
        None,
        b"ping",
        BIND,
        Some((11, b"\0\0\0\x32\0\x64")),
        Shape::Refused(Refusal::BandWithoutLane),
    ),
];

#[test]
fn a_transform_maps_what_a_client_sends(rt: HostRuntime) {
    assert!(rt; all_hold(rt.alloc(), TRANSFORMED, RUNNING_TRANSFORMED));
    assert!(rt; all_hold(rt.alloc(), TRANSFORMED, REFUSED_TRANSFORMED));
    assert!(rt; all_hold(rt.alloc(), TRANSFORMED, BINDING_TRANSFORMED));
}

/// The contexts of a bind of 20 to 30 that also sends the priority 101, which no row holds.
const BIND_AND_PRIORITY: &[u8] = &[
    0, 0, 0, 2, 0, 0, 0, 10, 0, 0, 0, 4, 0, 0, 0, 101, 0, 0, 0, 11, 0, 0, 0, 6, 0, 0, 0, 20, 0, 30,
];

/// Whether a bind of these contexts comes to this.
fn binds(setup: &Setup, operation: &Text, want: Shape) -> bool {
    match at_contexts(BIND_AND_PRIORITY) {
        Some(list) => {
            let request = request(3, PartTarget::Key(b"ping"), operation.as_slice(), list);
            comes_to(setup, None, &request, want)
        }
        None => false,
    }
}

fn binds_whatever_is_sent(alloc: Global) -> bool {
    match (read_setup(alloc, TRANSFORMED), Text::new(alloc, BIND)) {
        (Ok(setup), Ok(operation)) => binds(&setup, &operation, Shape::Binds(20, 30)),
        _ => false,
    }
}

#[test]
fn a_bind_asks_neither_transform_nor_map(rt: HostRuntime) {
    assert!(rt; binds_whatever_is_sent(rt.alloc()));
}

const BINDING: &[Row] = &[
    (
        None,
        b"ping",
        BIND,
        Some((11, b"\0\0\0\x0a\0\x0f")),
        Shape::Binds(10, 15),
    ),
    (
        None,
        b"ping",
        BIND,
        Some((11, b"\0\0\0\x0b\0\x13")),
        Shape::Refused(Refusal::BandWithoutLane),
    ),
    (None, b"ping", BIND, None, Shape::Refused(Refusal::NoBand)),
    (
        None,
        b"pong",
        BIND,
        None,
        Shape::Refused(Refusal::UnknownObject),
    ),
];

#[test]
fn bands_are_bound_where_a_lane_has_a_priority_of_them(rt: HostRuntime) {
    requests_are_judged_one_way();
    assert!(rt; all_hold(rt.alloc(), LANES, BINDING));
}

/// What a call says: serial, due, target, priority, lane and size of a request, or the id of an answer and what it tells.
#[derive(Clone, Copy)]
enum Said {
    Offered(u32, Due, u16, i16, u8, u32),
    Posted(u32, What),
    Nothing,
}

fn offers(job: &Job, want: Said) -> bool {
    match want {
        Said::Offered(serial, due, target, level, lane, size) => {
            job.serial == serial
                && job.due == due
                && job.target == target
                && job.priority.get() == level
                && job.lane == lane
                && job.size == size
        }
        _ => false,
    }
}

fn posts(notice: &Notice, want: Said) -> bool {
    match want {
        Said::Posted(id, what) => notice.id == id && notice.what == what,
        _ => false,
    }
}

fn says(call: &LaneCall, want: Said) -> bool {
    match call {
        LaneCall::Offer(job) => offers(job.get(), want),
        LaneCall::Post(notice) => posts(notice, want),
        _ => false,
    }
}

/// The verdict of these numbers.
fn verdict(shape: Shape) -> Option<Result<Verdict, Refusal>> {
    match shape {
        Shape::Runs(target, level, lane) => Some(Ok(Verdict::Runs(Place {
            target,
            priority: Priority::new(level)?,
            lane,
        }))),
        Shape::Binds(low, high) => Some(Ok(Verdict::Binds(band(low, high)?))),
        Shape::Refused(refusal) => Some(Err(refusal)),
    }
}

/// Whether a request means this by a verdict, as call 4 of its connection, in a message of 48 bytes.
fn means(
    alloc: Global,
    request: &Asked<'_>,
    verdict: Result<Verdict, Refusal>,
    want: Said,
) -> bool {
    let conn = ConnId { slot: 0, nth: 0 };
    match call_of(alloc, conn, 4, Order::Big, 48, request, verdict) {
        Ok(Some(call)) => says(&call, want),
        Ok(None) => matches!(want, Said::Nothing),
        Err(_) => false,
    }
}

/// The flags of a request, its verdict, and what it means.
const MEANINGS: &[(u8, Shape, Said)] = &[
    (
        3,
        Shape::Runs(1, 20, 1),
        Said::Offered(4, Due::Late, 1, 20, 1, 48),
    ),
    (
        0,
        Shape::Runs(1, 20, 1),
        Said::Offered(4, Due::Nothing, 1, 20, 1, 48),
    ),
    (1, Shape::Binds(0, 1), Said::Posted(7, What::Bound)),
    (0, Shape::Binds(0, 1), Said::Nothing),
    (
        3,
        Shape::Refused(Refusal::NoKey),
        Said::Posted(7, What::Addressing),
    ),
    (0, Shape::Refused(Refusal::NoLane), Said::Nothing),
];

fn is_meant(alloc: Global, flags: u8, shape: Shape, want: Said) -> bool {
    let Some(verdict) = verdict(shape) else {
        return false;
    };
    match (Text::new(alloc, CURRENT), at_contexts(&[0, 0, 0, 0])) {
        (Ok(operation), Some(list)) => {
            let request = request(flags, PartTarget::Key(b"ping"), operation.as_slice(), list);
            means(alloc, &request, verdict, want)
        }
        _ => false,
    }
}

fn all_are_meant(alloc: Global) -> bool {
    for (flags, shape, want) in MEANINGS {
        if !is_meant(alloc, *flags, *shape, *want) {
            return false;
        }
    }
    true
}

#[test]
fn a_refusal_is_told_where_a_reply_is_due(rt: HostRuntime) {
    assert!(rt; all_are_meant(rt.alloc()));
}

/// The refusals with their system exceptions and minor codes, all of which are answered COMPLETED_NO.
const EXCEPTIONS: &[(Refusal, Option<(SysName, u32)>)] = &[
    (Refusal::BadContext, Some((SysName::Marshal, 2))),
    (Refusal::UnknownObject, Some((SysName::ObjectNotExist, 1))),
    (Refusal::NoBand, Some((SysName::Marshal, 2))),
    (Refusal::BandWithoutLane, Some((SysName::InvPolicy, 5))),
    (Refusal::NoTransform, Some((SysName::DataConversion, 2))),
    (Refusal::OutsideBand, Some((SysName::InvPolicy, 4))),
    (Refusal::NoNative, Some((SysName::DataConversion, 1))),
    (Refusal::NoLane, Some((SysName::InvPolicy, 3))),
    (Refusal::NoKey, None),
];

fn told(refusal: Refusal) -> Option<(SysName, u32)> {
    match refusal.answer() {
        What::System(sys) if sys.completed == Completed::No => Some((sys.name, sys.minor)),
        _ => None,
    }
}

fn all_are_told() -> bool {
    for (refusal, want) in EXCEPTIONS {
        if told(*refusal) != *want {
            return false;
        }
    }
    true
}

#[test]
fn each_refusal_has_its_exception(rt: HostRuntime) {
    assert!(rt; all_are_told());
}

/// A priority without a reading.
const NO_PRIORITY: &[u8] = &[0, 0, 0, 1, 0, 0, 0, 10, 0, 0, 0, 0];

/// Whether a request by a profile is refused, since that is no key.
fn refuses_a_profile(alloc: Global, setup: &Setup) -> bool {
    let target = PartTarget::Profile { tag: 0, bytes: &[] };
    match (Text::new(alloc, CURRENT), at_contexts(NO_PRIORITY)) {
        (Ok(operation), Some(list)) => {
            let request = request(3, target, operation.as_slice(), list);
            is_shape(judge(setup, None, &request), Shape::Refused(Refusal::NoKey))
        }
        _ => false,
    }
}

fn serves_by_key(setup: &Setup) -> bool {
    match served_at(setup, b"decl") {
        Some(served) => served.number == 1 && served_at(setup, b"Ping").is_none(),
        None => false,
    }
}

fn refuses_first(alloc: Global) -> bool {
    match read_setup(alloc, LANES) {
        Ok(setup) => refuses_a_profile(alloc, &setup) && serves_by_key(&setup),
        Err(_) => false,
    }
}

#[test]
fn a_target_that_is_no_key_is_refused_first(rt: HostRuntime) {
    assert!(rt; refuses_first(rt.alloc()));
}
