//! Calls over connections in memory, laid out by hand: CORBA 3.0.3, section 15.4.

use cdr_values::{IdlType, IdlValue};
use client_calls::*;
use client_stub::{Asked, Remote, remote_of};
use giop_frames::FrameCause;
use giop_messages::Fault;
use idl_types::{Operation, Param, Way};
use orb_base::{Band, List, MemSink, MemSource, Octets, Priority, Text};
use std::alloc::Global;
use std::test::*;
use value_json::{arguments_from, results_json};

/// What a call comes to.
#[derive(Clone, Copy)]
enum Want {
    /// Results, as the JSON text of them.
    Values(&'static str),
    User(&'static [u8]),
    System(&'static [u8], u32, u32),
    Forward(u32),
    Refused(u64, Fault),
    BadBody,
    Closed,
    ReadFault,
    WriteFault,
}

fn is_fault(fault: &CallFault, want: Want) -> bool {
    match (fault, want) {
        (CallFault::User(id), Want::User(name)) => id.as_slice() == name,
        (CallFault::System(e), Want::System(id, minor, completed)) => {
            e.id.as_slice() == id && e.minor == minor && e.completed == completed
        }
        (CallFault::Forward(status), Want::Forward(n)) => *status == n,
        (CallFault::Refused { offset, fault }, Want::Refused(at, cause)) => *offset == at
            && *fault == cause,
        (CallFault::BadBody, Want::BadBody) => true,
        (CallFault::Closed, Want::Closed) => true,
        (CallFault::ReadFault, Want::ReadFault) => true,
        (CallFault::WriteFault, Want::WriteFault) => true,
        _ => false,
    }
}

fn are_printed(alloc: Global, operation: &Operation, values: &[IdlValue], text: &str) -> bool {
    match results_json(alloc, operation, values) {
        Ok(printed) => printed.as_str() == text,
        Err(_) => false,
    }
}

fn are_results(alloc: Global, operation: &Operation, values: &[IdlValue], want: Want) -> bool {
    match want {
        Want::Values(text) => are_printed(alloc, operation, values, text),
        _ => false,
    }
}

/// An operation that is called at the key `v`.
#[derive(Clone, Copy)]
enum Of {
    /// `twice` of a long, with 21, which gives a long.
    Twice,
    /// The same as a oneway operation, without a result.
    Oneway,
    /// `mixed` of an out boolean, a long, with 7, an inout string, with `x`, and an out sequence of long longs, which gives a long.
    Mixed,
}

fn text_of(of: Of) -> &'static str {
    match of {
        Of::Twice => "[21]",
        Of::Oneway => "[21]",
        Of::Mixed => "[7,\"x\"]",
    }
}

/// What is asked: the operation, the ends of the band that is bound, and the priority.
type Asks = (Of, Option<(i16, i16)>, Option<i16>);

fn priority_of(level: i16) -> Option<Priority> {
    Priority::new(level)
}

fn band_of(ends: (i16, i16)) -> Option<Band> {
    Band::new(Priority::new(ends.0)?, Priority::new(ends.1)?)
}

/// Whether the call comes to that.
fn comes_to(
    alloc: Global,
    asks: Asks,
    remote: &Remote,
    operation: &Operation,
    source: &mut MemSource,
    sink: &mut MemSink,
    want: Want,
) -> bool {
    let Ok(arguments) = arguments_from(alloc, operation.params.as_slice(), text_of(asks.0)) else {
        return false;
    };
    let asked = Asked {
        remote,
        operation,
        arguments: &arguments,
        priority: asks.2.and_then(priority_of),
        band: asks.1.and_then(band_of),
    };
    if !is_sendable(&asked) {
        return false;
    }
    match call(alloc, source, sink, &asked) {
        Ok(values) => are_results(alloc, operation, values.as_slice(), want),
        Err(fault) => is_fault(&fault, want),
    }
}

fn joined(alloc: Global, parts: &[&[u8]]) -> Option<Octets> {
    let mut all = Octets::new(alloc);
    for part in parts {
        all.append(part).ok()?;
    }
    Some(all)
}

fn sizes(alloc: Global, cuts: &[usize]) -> Option<List<usize>> {
    let mut list = List::new(alloc);
    for cut in cuts {
        list.push(*cut).ok()?;
    }
    Some(list)
}

fn numbers(alloc: Global, of: &[u64]) -> Option<List<u64>> {
    let mut list = List::new(alloc);
    for n in of {
        list.push(*n).ok()?;
    }
    Some(list)
}

/// A connection: what the peer sends, how many bytes the first reads and writes move, and which of them fail.
#[derive(Clone, Copy)]
struct Peer {
    input: &'static [&'static [u8]],
    reads: &'static [usize],
    failing_reads: &'static [u64],
    writes: &'static [usize],
    failing_writes: &'static [u64],
}

fn source_of(alloc: Global, peer: &Peer) -> Option<MemSource> {
    let input = joined(alloc, peer.input)?;
    let reads = sizes(alloc, peer.reads)?;
    Some(MemSource::new(input, reads, numbers(alloc, peer.failing_reads)?))
}

fn sink_of(alloc: Global, peer: &Peer) -> Option<MemSink> {
    let writes = sizes(alloc, peer.writes)?;
    Some(MemSink::new(alloc, writes, numbers(alloc, peer.failing_writes)?))
}

fn holds(alloc: Global, sink: &MemSink, sent: &[&[u8]]) -> bool {
    match joined(alloc, sent) {
        Some(due) => sink.held() == due.as_slice(),
        None => false,
    }
}

/// Whether the call comes to that over the connection, where the peer got these bytes.
fn is_so(
    alloc: Global,
    asks: Asks,
    remote: &Remote,
    operation: &Operation,
    peer: &Peer,
    want: Want,
    sent: &[&[u8]],
) -> bool {
    let Some(mut source) = source_of(alloc, peer) else {
        return false;
    };
    let Some(mut sink) = sink_of(alloc, peer) else {
        return false;
    };
    comes_to(alloc, asks, remote, operation, &mut source, &mut sink, want)
        && holds(alloc, &sink, sent)
}

fn long_longs(alloc: Global) -> Option<IdlType> {
    Some(IdlType::Seq(Box::new(alloc, IdlType::LongLong).ok()?, 0))
}

fn param(alloc: Global, way: Way, kind: IdlType) -> Option<Param> {
    Some(Param {
        way,
        name: Text::new(alloc, b"p").ok()?,
        kind,
    })
}

fn add(params: &mut List<Param>, param: Param) -> Option<()> {
    params.push(param).ok()
}

fn params_of(alloc: Global, of: Of) -> Option<List<Param>> {
    let mut params = List::new(alloc);
    if let Of::Mixed = of {
        add(&mut params, param(alloc, Way::Output, IdlType::Boolean)?)?;
    }
    add(&mut params, param(alloc, Way::Input, IdlType::Long)?)?;
    if let Of::Mixed = of {
        add(&mut params, param(alloc, Way::Both, IdlType::Words(0))?)?;
        add(&mut params, param(alloc, Way::Output, long_longs(alloc)?)?)?;
    }
    Some(params)
}

fn name_of(of: Of) -> &'static [u8] {
    match of {
        Of::Twice => b"twice",
        Of::Oneway => b"twice",
        Of::Mixed => b"mixed",
    }
}

fn is_oneway(of: Of) -> bool {
    match of {
        Of::Oneway => true,
        _ => false,
    }
}

fn result_of(of: Of) -> Option<IdlType> {
    match of {
        Of::Oneway => None,
        _ => Some(IdlType::Long),
    }
}

fn operation_of(alloc: Global, of: Of) -> Option<Operation> {
    let params = params_of(alloc, of)?;
    Some(Operation {
        name: Text::new(alloc, name_of(of)).ok()?,
        oneway: is_oneway(of),
        result: result_of(of),
        params,
        raises: List::new(alloc),
    })
}

/// Whether the call comes to that, where the peer got these bytes.
fn call_is_so(alloc: Global, asks: Asks, peer: &Peer, want: Want, sent: &[&[u8]]) -> bool {
    let Ok(remote) = remote_of(alloc, b"corbaloc::1.2@h/v") else {
        return false;
    };
    match operation_of(alloc, asks.0) {
        Some(operation) => is_so(alloc, asks, &remote, &operation, peer, want, sent),
        None => false,
    }
}

const TWICE: &[u8] =
    b"GIOP\x01\x02\0\0\0\0\0\x28\0\0\0\x01\x03\0\0\0\0\0\0\0\0\0\0\x01v\0\0\0\0\0\0\x06twice\0\0\0\0\0\0\0\0\0\0\x15";

const TWICE_2: &[u8] =
    b"GIOP\x01\x02\0\0\0\0\0\x28\0\0\0\x02\x03\0\0\0\0\0\0\0\0\0\0\x01v\0\0\0\0\0\0\x06twice\0\0\0\0\0\0\0\0\0\0\x15";

/// The same of id 1 and of id 2 as a oneway call.
const ONEWAY: &[u8] =
    b"GIOP\x01\x02\0\0\0\0\0\x28\0\0\0\x01\0\0\0\0\0\0\0\0\0\0\0\x01v\0\0\0\0\0\0\x06twice\0\0\0\0\0\0\0\0\0\0\x15";

const ONEWAY_2: &[u8] =
    b"GIOP\x01\x02\0\0\0\0\0\x28\0\0\0\x02\0\0\0\0\0\0\0\0\0\0\0\x01v\0\0\0\0\0\0\x06twice\0\0\0\0\0\0\0\0\0\0\x15";

/// The same of id 2 with the priority 150, in 68 bytes.
const URGENT_2: &[u8] =
    b"GIOP\x01\x02\0\0\0\0\0\x38\0\0\0\x02\x03\0\0\0\0\0\0\0\0\0\0\x01v\0\0\0\0\0\0\x06twice\0\0\0\0\0\0\x01\0\0\0\x0a\0\0\0\x04\0\0\0\x96\0\0\0\0\0\0\0\x15";

/// A bind of the band from 100 to 200, of id 1, and its reply.
const BIND: &[u8] =
    b"GIOP\x01\x02\0\0\0\0\0\x3e\0\0\0\x01\x03\0\0\0\0\0\0\0\0\0\0\x01v\0\0\0\0\0\0\x14_bind_priority_band\0\0\0\0\x01\0\0\0\x0b\0\0\0\x06\0\0\0\x64\0\xc8";

const BOUND: &[u8] = b"GIOP\x01\x02\0\x01\0\0\0\x0c\0\0\0\x01\0\0\0\0\0\0\0\0";

/// Replies with 42: of the ids 1, 2 and 7, in little endian, in two pieces, and with a context.
const ANSWER: &[u8] = b"GIOP\x01\x02\0\x01\0\0\0\x10\0\0\0\x01\0\0\0\0\0\0\0\0\0\0\0\x2a";

const ANSWER_2: &[u8] = b"GIOP\x01\x02\0\x01\0\0\0\x10\0\0\0\x02\0\0\0\0\0\0\0\0\0\0\0\x2a";

const ANSWER_7: &[u8] = b"GIOP\x01\x02\0\x01\0\0\0\x10\0\0\0\x07\0\0\0\0\0\0\0\0\0\0\0\x07";

const LITTLE: &[u8] = b"GIOP\x01\x02\x01\x01\x10\0\0\0\x01\0\0\0\0\0\0\0\0\0\0\0\x2a\0\0\0";

const FIRST: &[u8] = b"GIOP\x01\x02\x02\x01\0\0\0\x0c\0\0\0\x01\0\0\0\0\0\0\0\0";

const LAST: &[u8] = b"GIOP\x01\x02\0\x07\0\0\0\x08\0\0\0\x01\0\0\0\x2a";

const WITH_CONTEXT: &[u8] =
    b"GIOP\x01\x02\0\x01\0\0\0\x20\0\0\0\x01\0\0\0\0\0\0\0\x01\0\0\0\x05\0\0\0\x04\xff\xff\xff\xff\0\0\0\0\0\0\0\x2a";

/// The same with three bytes more, and with one byte less.
const LONGER: &[u8] = b"GIOP\x01\x02\0\x01\0\0\0\x13\0\0\0\x01\0\0\0\0\0\0\0\0\0\0\0\x2a\0\0\0";

const SHORTER: &[u8] = b"GIOP\x01\x02\0\x01\0\0\0\x0f\0\0\0\x01\0\0\0\0\0\0\0\0\0\0\0";

/// A call of `mixed`; a reply with 42, true, `a` and a sequence of 5; and that reply with its last byte cut.
const MIXED: &[u8] =
    b"GIOP\x01\x02\0\0\0\0\0\x2e\0\0\0\x01\x03\0\0\0\0\0\0\0\0\0\0\x01v\0\0\0\0\0\0\x06mixed\0\0\0\0\0\0\0\0\0\0\x07\0\0\0\x02x\0";

const MIXED_ANSWER: &[u8] =
    b"GIOP\x01\x02\0\x01\0\0\0\x2c\0\0\0\x01\0\0\0\0\0\0\0\0\0\0\0\x2a\x01\0\0\0\0\0\0\x02a\0\0\0\0\0\0\x01\0\0\0\0\0\0\0\0\0\0\0\x05";

const MIXED_CUT: &[u8] =
    b"GIOP\x01\x02\0\x01\0\0\0\x2b\0\0\0\x01\0\0\0\0\0\0\0\0\0\0\0\x2a\x01\0\0\0\0\0\0\x02a\0\0\0\0\0\0\x01\0\0\0\0\0\0\0\0\0\0\0";

/// A location forward with five bytes of any content.
const FORWARD: &[u8] =
    b"GIOP\x01\x02\0\x01\0\0\0\x11\0\0\0\x01\0\0\0\x03\0\0\0\0\xff\xff\xff\xff\xff";

/// An exception of an IDL file with a member, and with its id cut.
const USER: &[u8] =
    b"GIOP\x01\x02\0\x01\0\0\0\x20\0\0\0\x01\0\0\0\x01\0\0\0\0\0\0\0\x0cIDL:M/E:1.0\0\0\0\0\x09";

const USER_CUT: &[u8] =
    b"GIOP\x01\x02\0\x01\0\0\0\x1b\0\0\0\x01\0\0\0\x01\0\0\0\0\0\0\0\x0cIDL:M/E:1.0";

/// TRANSIENT, minor 1, not completed; the same with its last byte cut.
const TRANSIENT: &[u8] =
    b"GIOP\x01\x02\0\x01\0\0\0\x38\0\0\0\x01\0\0\0\x02\0\0\0\0\0\0\0\x20IDL:omg.org/CORBA/TRANSIENT:1.0\0\0\0\0\x01\0\0\0\x01";

const TRANSIENT_CUT: &[u8] =
    b"GIOP\x01\x02\0\x01\0\0\0\x37\0\0\0\x01\0\0\0\x02\0\0\0\0\0\0\0\x20IDL:omg.org/CORBA/TRANSIENT:1.0\0\0\0\0\x01\0\0\0";

const TRANSIENT_ID: &[u8] = b"IDL:omg.org/CORBA/TRANSIENT:1.0";

/// A LocateReply of id 1, CloseConnection, MessageError, a CancelRequest, and a header with another magic.
const LOCATED: &[u8] = b"GIOP\x01\x02\0\x04\0\0\0\x08\0\0\0\x01\0\0\0\x01";

const CLOSE: &[u8] = b"GIOP\x01\x02\0\x05\0\0\0\0";

const ERROR: &[u8] = b"GIOP\x01\x02\0\x06\0\0\0\0";

const CANCEL: &[u8] = b"GIOP\x01\x02\0\x02\0\0\0\x04\0\0\0\x07";

const BAD_MAGIC: &[u8] = b"GIOX\x01\x02\0\0\0\0\0\0";

/// The first 20 bytes of a reply.
const PART: &[u8] = b"GIOP\x01\x02\0\x01\0\0\0\x10\0\0\0\x01\0\0\0\0";

/// A reply of the status 6.
const BAD_STATUS: &[u8] = b"GIOP\x01\x02\0\x01\0\0\0\x0c\0\0\0\x07\0\0\0\x06\0\0\0\0";

/// Reads of a byte each, more than any row needs.
const ONE_BY_ONE: &[usize] = &[1; 128];

/// A connection that fails nowhere.
fn sound(input: &'static [&'static [u8]], reads: &'static [usize]) -> Peer {
    Peer {
        input,
        reads,
        failing_reads: &[],
        writes: &[],
        failing_writes: &[],
    }
}

/// What the peer sends, what the call comes to, and what was sent. So it is however the reads are cut.
type Row = (&'static [&'static [u8]], Want, &'static [&'static [u8]]);

fn row_is_so(alloc: Global, asks: Asks, row: &Row) -> bool {
    let (input, want, sent) = row;
    call_is_so(alloc, asks, &sound(input, &[]), *want, sent)
        && call_is_so(alloc, asks, &sound(input, ONE_BY_ONE), *want, sent)
}

fn all_are_so(alloc: Global, asks: Asks, rows: &[Row]) -> bool {
    for row in rows {
        if !row_is_so(alloc, asks, row) {
            return false;
        }
    }
    true
}

const VALUES: Want = Want::Values("[42]");

const BAND: Option<(i16, i16)> = Some((100, 200));

/// A call of `twice` without and with a band, and as a oneway call.
const PLAIN: Asks = (Of::Twice, None, None);

const BINDING: Asks = (Of::Twice, BAND, None);

const ONEWAYS: Asks = (Of::Oneway, None, None);

const ANSWERED: &[Row] = &[
    (&[ANSWER], VALUES, &[TWICE]),
    (&[LITTLE], VALUES, &[TWICE]),
    (&[FIRST, LAST], VALUES, &[TWICE]),
    (&[WITH_CONTEXT], VALUES, &[TWICE]),
    (&[LONGER], VALUES, &[TWICE]),
    (&[ANSWER_7, LOCATED, ANSWER_2, ANSWER], VALUES, &[TWICE]),
    (&[FIRST, ANSWER_7, LAST], VALUES, &[TWICE]),
    (&[ANSWER, CLOSE], VALUES, &[TWICE]),
    (&[ANSWER, BAD_MAGIC], VALUES, &[TWICE]),
    (&[ANSWER, SHORTER], VALUES, &[TWICE]),
];

#[test]
fn the_reply_of_the_calls_id_gives_its_results(rt: HostRuntime) {
    assert!(rt; all_are_so(rt.alloc(), PLAIN, ANSWERED));
}

const RESULTS: Want = Want::Values("[42,true,\"a\",[5]]");

const SEVERAL: &[Row] = &[
    (&[MIXED_ANSWER], RESULTS, &[MIXED]),
    (&[MIXED_CUT], Want::BadBody, &[MIXED]),
];

#[test]
fn a_reply_gives_the_result_and_the_parameters_that_come_back(rt: HostRuntime) {
    assert!(rt; all_are_so(rt.alloc(), (Of::Mixed, None, None), SEVERAL));
}

const EXCEPTIONS: &[Row] = &[
    (&[USER], Want::User(b"IDL:M/E:1.0"), &[TWICE]),
    (&[TRANSIENT], Want::System(TRANSIENT_ID, 1, 1), &[TWICE]),
    (&[FORWARD], Want::Forward(3), &[TWICE]),
    (&[SHORTER], Want::BadBody, &[TWICE]),
    (&[USER_CUT], Want::BadBody, &[TWICE]),
    (&[TRANSIENT_CUT], Want::BadBody, &[TWICE]),
];

#[test]
fn a_reply_without_results_is_why_there_are_none(rt: HostRuntime) {
    assert!(rt; all_are_so(rt.alloc(), PLAIN, EXCEPTIONS));
}

const WRONG_WAY: Fault = Fault::WrongWay;

const BROKEN: &[Row] = &[
    (&[TWICE, ANSWER], Want::Refused(0, WRONG_WAY), &[TWICE]),
    (&[ANSWER_7, CANCEL], Want::Refused(28, WRONG_WAY), &[TWICE]),
    (
        &[LOCATED, BAD_STATUS],
        Want::Refused(20, Fault::BadStatus),
        &[TWICE],
    ),
    (
        &[ANSWER_7, BAD_MAGIC],
        Want::Refused(28, Fault::Frame(FrameCause::BadMagic)),
        &[TWICE],
    ),
];

#[test]
fn what_breaks_a_rule_before_the_reply_is_refused(rt: HostRuntime) {
    assert!(rt; all_are_so(rt.alloc(), PLAIN, BROKEN));
}

const CLOSED: &[Row] = &[
    (&[], Want::Closed, &[TWICE]),
    (&[PART], Want::Closed, &[TWICE]),
    (&[ANSWER_2], Want::Closed, &[TWICE]),
    (&[CLOSE, ANSWER], Want::Closed, &[TWICE]),
    (&[ERROR, ANSWER], Want::Closed, &[TWICE]),
    (&[FIRST], Want::Closed, &[TWICE]),
];

#[test]
fn a_peer_that_ends_before_the_reply_closes_the_call(rt: HostRuntime) {
    assert!(rt; all_are_so(rt.alloc(), PLAIN, CLOSED));
}

const BANDED: &[Row] = &[
    (&[BOUND, ANSWER_2], VALUES, &[BIND, URGENT_2]),
    (
        &[ANSWER_7, BOUND, ANSWER, ANSWER_2],
        VALUES,
        &[BIND, URGENT_2],
    ),
    (&[BOUND, CLOSE], Want::Closed, &[BIND, URGENT_2]),
    (
        &[BOUND, TWICE],
        Want::Refused(24, WRONG_WAY),
        &[BIND, URGENT_2],
    ),
    (&[BOUND], Want::Closed, &[BIND, URGENT_2]),
    (
        &[TRANSIENT, ANSWER_2],
        Want::System(TRANSIENT_ID, 1, 1),
        &[BIND],
    ),
    (&[FORWARD, CLOSE], Want::Forward(3), &[BIND]),
    (&[USER_CUT], Want::BadBody, &[BIND]),
    (&[ANSWER_2], Want::Closed, &[BIND]),
    (&[CLOSE, BOUND], Want::Closed, &[BIND]),
    (&[TWICE], Want::Refused(0, WRONG_WAY), &[BIND]),
];

#[test]
fn a_band_is_bound_first(rt: HostRuntime) {
    assert!(rt; all_are_so(rt.alloc(), (Of::Twice, BAND, Some(150)), BANDED));
}

const BARE_BAND: &[Row] = &[(&[BOUND, ANSWER_2], VALUES, &[BIND, TWICE_2])];

#[test]
fn a_call_after_a_bind_has_no_context_of_the_band(rt: HostRuntime) {
    assert!(rt; all_are_so(rt.alloc(), BINDING, BARE_BAND));
}

const ONEWAY_BANDED: &[Row] = &[
    (&[BOUND], Want::Values("[]"), &[BIND, ONEWAY_2]),
    (&[BOUND, BAD_MAGIC], Want::Values("[]"), &[BIND, ONEWAY_2]),
    (&[TRANSIENT], Want::System(TRANSIENT_ID, 1, 1), &[BIND]),
];

#[test]
fn a_oneway_call_waits_for_its_bind_alone(rt: HostRuntime) {
    assert!(rt; all_are_so(rt.alloc(), (Of::Oneway, BAND, None), ONEWAY_BANDED));
}

/// What fails of a connection that moves 10 bytes and then all that is there: the reads or the writes of these numbers.
#[derive(Clone, Copy)]
enum Fails {
    Reads(&'static [u64]),
    Writes(&'static [u64]),
}

fn failing(input: &'static [&'static [u8]], fails: Fails) -> Peer {
    match fails {
        Fails::Reads(failing_reads) => Peer {
            input,
            reads: &[10],
            failing_reads,
            writes: &[],
            failing_writes: &[],
        },
        Fails::Writes(failing_writes) => Peer {
            input,
            reads: &[],
            failing_reads: &[],
            writes: &[10],
            failing_writes,
        },
    }
}

/// What the peer sends, what fails, what is asked, what the call comes to, and what was sent.
type Failing = (
    &'static [&'static [u8]],
    Fails,
    Asks,
    Want,
    &'static [&'static [u8]],
);

fn fails_so(alloc: Global, row: &Failing) -> bool {
    let (input, fails, asks, want, sent) = row;
    call_is_so(alloc, *asks, &failing(input, *fails), *want, sent)
}

fn all_fail_so(alloc: Global, rows: &[Failing]) -> bool {
    for row in rows {
        if !fails_so(alloc, row) {
            return false;
        }
    }
    true
}

const FAILING: &[Failing] = &[
    (
        &[ANSWER],
        Fails::Reads(&[0]),
        PLAIN,
        Want::ReadFault,
        &[TWICE],
    ),
    (
        &[ANSWER],
        Fails::Reads(&[1]),
        PLAIN,
        Want::ReadFault,
        &[TWICE],
    ),
    (&[ANSWER], Fails::Reads(&[2]), PLAIN, VALUES, &[TWICE]),
    (
        &[BOUND],
        Fails::Reads(&[2]),
        BINDING,
        Want::ReadFault,
        &[BIND, TWICE_2],
    ),
    (
        &[BOUND, ANSWER_2],
        Fails::Reads(&[2]),
        BINDING,
        VALUES,
        &[BIND, TWICE_2],
    ),
    (
        &[ANSWER],
        Fails::Reads(&[0]),
        ONEWAYS,
        Want::Values("[]"),
        &[ONEWAY],
    ),
    (&[ANSWER], Fails::Writes(&[0]), PLAIN, Want::WriteFault, &[]),
    (
        &[ANSWER],
        Fails::Writes(&[1]),
        PLAIN,
        Want::WriteFault,
        &[b"GIOP\x01\x02\0\0\0\0"],
    ),
    (
        &[ANSWER],
        Fails::Writes(&[1]),
        ONEWAYS,
        Want::WriteFault,
        &[b"GIOP\x01\x02\0\0\0\0"],
    ),
    (&[ANSWER], Fails::Writes(&[2]), PLAIN, VALUES, &[TWICE]),
    (
        &[BOUND, ANSWER_2],
        Fails::Writes(&[2]),
        BINDING,
        Want::WriteFault,
        &[BIND],
    ),
];

#[test]
fn a_failed_read_or_write_ends_the_call(rt: HostRuntime) {
    assert!(rt; all_fail_so(rt.alloc(), FAILING));
}
