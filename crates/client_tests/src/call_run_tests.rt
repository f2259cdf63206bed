//! Calls of the command line over a net and files in memory, laid out by hand: CORBA 3.0.3, section 15.4.

use client_calls::CallFault;
use client_runs::*;
use giop_messages::Fault;
use orb_base::{List, MemFile, MemFiles, MemLink, MemSink, MemSource, Octets, Priority, Text};
use orb_nets::MemNet;
use std::alloc::Global;
use std::collections::LinkedList;
use std::test::*;

/// The reference, the operation, the arguments, the priority, the name of a file of IDL and the id of the interface.
type Said = (
    &'static [u8],
    &'static [u8],
    Option<&'static str>,
    Option<i16>,
    Option<&'static [u8]>,
    Option<&'static [u8]>,
);

fn text(alloc: Global, bytes: &[u8]) -> Option<Text> {
    Text::new(alloc, bytes).ok()
}

/// A text where there is one; None where it can't be made.
fn maybe_text(alloc: Global, bytes: Option<&'static [u8]>) -> Option<Option<Text>> {
    match bytes {
        Some(bytes) => Some(Some(text(alloc, bytes)?)),
        None => Some(None),
    }
}

fn maybe_arguments(alloc: Global, json: Option<&str>) -> Option<Option<ArgumentText>> {
    match json {
        Some(json) => Some(Some(ArgumentText::new(alloc, json).ok()?)),
        None => Some(None),
    }
}

fn priority_of(level: i16) -> Option<Priority> {
    Priority::new(level)
}

fn words_of(alloc: Global, said: &Said) -> Option<CallWords> {
    let reference = text(alloc, said.0)?;
    let operation = text(alloc, said.1)?;
    let arguments = maybe_arguments(alloc, said.2)?;
    let idl = maybe_text(alloc, said.4)?;
    Some(CallWords {
        reference,
        operation,
        arguments,
        priority: said.3.and_then(priority_of),
        idl,
        interface: maybe_text(alloc, said.5)?,
    })
}

fn joined(alloc: Global, parts: &[&[u8]]) -> Option<Octets> {
    let mut all = Octets::new(alloc);
    for part in parts {
        all.append(part).ok()?;
    }
    Some(all)
}

fn numbers(alloc: Global, of: &[u64]) -> Option<List<u64>> {
    let mut list = List::new(alloc);
    for n in of {
        list.push(*n).ok()?;
    }
    Some(list)
}

fn sizes(alloc: Global, of: &[usize]) -> Option<List<usize>> {
    let mut list = List::new(alloc);
    for n in of {
        list.push(*n).ok()?;
    }
    Some(list)
}

/// What fails: the calls of these numbers, from 0.
#[derive(Clone, Copy)]
enum Fails {
    Nothing,
    Files,
    Net,
    LinkReads,
    LinkWrites,
    /// The second write of the output; the first takes two bytes.
    Output,
}

fn first_if(alloc: Global, fails: bool) -> Option<List<u64>> {
    if fails {
        numbers(alloc, &[0])
    } else {
        numbers(alloc, &[])
    }
}

fn is_files(fails: Fails) -> bool {
    match fails {
        Fails::Files => true,
        _ => false,
    }
}

fn is_net(fails: Fails) -> bool {
    match fails {
        Fails::Net => true,
        _ => false,
    }
}

fn is_link_reads(fails: Fails) -> bool {
    match fails {
        Fails::LinkReads => true,
        _ => false,
    }
}

fn is_link_writes(fails: Fails) -> bool {
    match fails {
        Fails::LinkWrites => true,
        _ => false,
    }
}

/// A file of IDL, and one that is refused.
const FILES: &[(&[u8], &[u8])] = &[
    (
        b"m.idl",
        b"module M { interface V { long twice(in long x); attribute long a; readonly attribute short b; oneway void tell(in long x); }; };",
    ),
    (b"bad.idl", b"module M { interface V { long twice(; }; };"),
];

fn put_file(alloc: Global, files: &mut List<MemFile>, name: &[u8], bytes: &[u8]) -> Option<()> {
    let file = MemFile {
        name: text(alloc, name)?,
        bytes: joined(alloc, &[bytes])?,
    };
    files.push(file).ok()
}

fn files_of(alloc: Global, fails: Fails) -> Option<MemFiles> {
    let mut files = List::new(alloc);
    for (name, bytes) in FILES {
        put_file(alloc, &mut files, name, bytes)?;
    }
    Some(MemFiles::new(files, first_if(alloc, is_files(fails))?))
}

fn net_of(alloc: Global, input: &[&[u8]], fails: Fails) -> Option<MemNet> {
    let source = MemSource::new(
        joined(alloc, input)?,
        List::new(alloc),
        first_if(alloc, is_link_reads(fails))?,
    );
    let sink = MemSink::new(
        alloc,
        List::new(alloc),
        first_if(alloc, is_link_writes(fails))?,
    );
    let mut peers = LinkedList::new(alloc);
    peers.push_back(MemLink::new(source, sink)).ok()?;
    let failing = first_if(alloc, is_net(fails))?;
    Some(MemNet::new(alloc, LinkedList::new(alloc), peers, failing))
}

fn out_of(alloc: Global, fails: Fails) -> Option<MemSink> {
    match fails {
        Fails::Output => Some(MemSink::new(alloc, sizes(alloc, &[2])?, numbers(alloc, &[1])?)),
        _ => Some(MemSink::new(alloc, List::new(alloc), List::new(alloc))),
    }
}

/// How a call comes out.
#[derive(Clone, Copy)]
enum Want {
    Done,
    /// The file is refused, for any fault.
    Refused,
    Absent,
    FileFault,
    Local(LocalFault),
    NetFault,
    User(&'static [u8]),
    System(&'static [u8], u32, u32),
    Forward(u32),
    WrongWay(u64),
    BadBody,
    Closed,
    ReadFault,
    LinkFault,
    WriteFault,
}

fn is_fault(fault: &CallFault, want: Want) -> bool {
    match (fault, want) {
        (CallFault::User(id), Want::User(name)) => id.as_slice() == name,
        (CallFault::System(e), Want::System(id, minor, completed)) => {
            e.id.as_slice() == id && e.minor == minor && e.completed == completed
        }
        (CallFault::Forward(status), Want::Forward(n)) => *status == n,
        (CallFault::Refused { offset, fault }, Want::WrongWay(at)) => {
            *offset == at && *fault == Fault::WrongWay
        }
        (CallFault::BadBody, Want::BadBody) => true,
        (CallFault::Closed, Want::Closed) => true,
        (CallFault::ReadFault, Want::ReadFault) => true,
        (CallFault::WriteFault, Want::LinkFault) => true,
        _ => false,
    }
}

fn is_end(end: &CallEnd, want: Want) -> bool {
    match (end, want) {
        (CallEnd::Done, Want::Done) => true,
        (CallEnd::File(FileFault::Refused(_)), Want::Refused) => true,
        (CallEnd::File(FileFault::Absent), Want::Absent) => true,
        (CallEnd::File(FileFault::ReadFault), Want::FileFault) => true,
        (CallEnd::Local(fault), Want::Local(cause)) => *fault == cause,
        (CallEnd::NetFault, Want::NetFault) => true,
        (CallEnd::WriteFault, Want::WriteFault) => true,
        (CallEnd::Called(fault), want) => is_fault(fault, want),
        _ => false,
    }
}

/// The bytes that were sent over the connection; None where there was none.
type Sent = Option<&'static [&'static [u8]]>;

fn holds(alloc: Global, sink: &MemSink, parts: &[&[u8]]) -> bool {
    match joined(alloc, parts) {
        Some(due) => sink.held() == due.as_slice(),
        None => false,
    }
}

fn was_sent(alloc: Global, called: &Called<MemSource, MemSink>, sent: Sent) -> bool {
    match (&called.link, sent) {
        (Some((_, sink)), Some(parts)) => holds(alloc, sink, parts),
        (None, None) => true,
        _ => false,
    }
}

/// What the words say, what fails, what the peer sends, how the call comes out, what was sent, and what was written.
type Row = (
    Said,
    Fails,
    &'static [&'static [u8]],
    Want,
    Sent,
    &'static [u8],
);

fn row_is_so(alloc: Global, row: &Row) -> Option<bool> {
    let (said, fails, input, want, sent, line) = row;
    let words = words_of(alloc, said)?;
    let mut files = files_of(alloc, *fails)?;
    let mut net = net_of(alloc, input, *fails)?;
    let mut out = out_of(alloc, *fails)?;
    let called = call_run(alloc, &mut net, &mut files, &words, &mut out);
    Some(is_end(&called.end, *want) && was_sent(alloc, &called, *sent) && out.held() == *line)
}

fn all_are_so(alloc: Global, rows: &[Row]) -> bool {
    for row in rows {
        if row_is_so(alloc, row) != Some(true) {
            return false;
        }
    }
    true
}

const PING: &[u8] = b"corbaloc::1.2@127.0.0.1/ping";

const PING_TYPE: Option<&[u8]> = Some(b"IDL:Orb/Ping:1.0");

/// The reference of `ping` at 127.0.0.1, port 2809, under the priority 100 of CLIENT_PROPAGATED; and with bands from 0 to 99 and from 100
/// to 200.
const PING_IOR: &[u8] =
    b"IOR:000000000000001149444c3a4f72622f50696e673a312e3000000000000000010000000000000042000102000000000a3132372e302e302e31000af90000000470696e6700000001000000020000001a0000000000000001000000280000000a00000000000000000064";

const BANDED_IOR: &[u8] =
    b"IOR:000000000000001149444c3a4f72622f50696e673a312e300000000000000001000000000000005c000102000000000a3132372e302e302e31000af90000000470696e670000000100000002000000340000000000000002000000280000000a0000000000000000006400000000002d00000010000000000000000200000063006400c8";

/// Calls of `current`: of the ids 1 and 2, and with the priorities 20 and 100.
const CURRENT: &[u8] =
    b"GIOP\x01\x02\0\0\0\0\0\x24\0\0\0\x01\x03\0\0\0\0\0\0\0\0\0\0\x04ping\0\0\0\x08current\0\0\0\0\0";

const CURRENT_2: &[u8] =
    b"GIOP\x01\x02\0\0\0\0\0\x24\0\0\0\x02\x03\0\0\0\0\0\0\0\0\0\0\x04ping\0\0\0\x08current\0\0\0\0\0";

const CURRENT_AT_20: &[u8] =
    b"GIOP\x01\x02\0\0\0\0\0\x30\0\0\0\x01\x03\0\0\0\0\0\0\0\0\0\0\x04ping\0\0\0\x08current\0\0\0\0\x01\0\0\0\x0a\0\0\0\x04\0\0\0\x14";

const CURRENT_2_AT_100: &[u8] =
    b"GIOP\x01\x02\0\0\0\0\0\x30\0\0\0\x02\x03\0\0\0\0\0\0\0\0\0\0\x04ping\0\0\0\x08current\0\0\0\0\x01\0\0\0\x0a\0\0\0\x04\0\0\0\x64";

/// A bind of the band from 100 to 200, and its reply.
const BIND: &[u8] =
    b"GIOP\x01\x02\0\0\0\0\0\x3e\0\0\0\x01\x03\0\0\0\0\0\0\0\0\0\0\x04ping\0\0\0\x14_bind_priority_band\0\0\0\0\x01\0\0\0\x0b\0\0\0\x06\0\0\0\x64\0\xc8";

const BOUND: &[u8] = b"GIOP\x01\x02\0\x01\0\0\0\x0c\0\0\0\x01\0\0\0\0\0\0\0\0";

/// Replies with the short 100, of the ids 1 and 2.
const HUNDRED: &[u8] = b"GIOP\x01\x02\0\x01\0\0\0\x0e\0\0\0\x01\0\0\0\0\0\0\0\0\0\x64";

const HUNDRED_2: &[u8] = b"GIOP\x01\x02\0\x01\0\0\0\x0e\0\0\0\x02\0\0\0\0\0\0\0\0\0\x64";

const NOTE: &[u8] =
    b"GIOP\x01\x02\0\0\0\0\0\x24\0\0\0\x01\0\0\0\0\0\0\0\0\0\0\0\x04ping\0\0\0\x05note\0\0\0\0\0\0\0\0";

/// A call of `twice` with 21 at the key `v`, and a reply with 42.
const TWICE: &[u8] =
    b"GIOP\x01\x02\0\0\0\0\0\x28\0\0\0\x01\x03\0\0\0\0\0\0\0\0\0\0\x01v\0\0\0\0\0\0\x06twice\0\0\0\0\0\0\0\0\0\0\x15";

const ANSWER: &[u8] = b"GIOP\x01\x02\0\x01\0\0\0\x10\0\0\0\x01\0\0\0\0\0\0\0\0\0\0\0\x2a";

/// Calls of `_get_a` and of `_set_a` with 21 at the key `v`.
const GET_A: &[u8] =
    b"GIOP\x01\x02\0\0\0\0\0\x24\0\0\0\x01\x03\0\0\0\0\0\0\0\0\0\0\x01v\0\0\0\0\0\0\x07_get_a\0\0\0\0\0\0";

const SET_A: &[u8] =
    b"GIOP\x01\x02\0\0\0\0\0\x28\0\0\0\x01\x03\0\0\0\0\0\0\0\0\0\0\x01v\0\0\0\0\0\0\x07_set_a\0\0\0\0\0\0\0\0\0\x15";

const V: &[u8] = b"corbaloc::1.2@h/v";

const V_TYPE: Option<&[u8]> = Some(b"IDL:M/V:1.0");

const M_IDL: Option<&[u8]> = Some(b"m.idl");

/// TRANSIENT, minor 1, not completed; an exception of an IDL file; a location forward; a short that is cut.
const TRANSIENT: &[u8] =
    b"GIOP\x01\x02\0\x01\0\0\0\x38\0\0\0\x01\0\0\0\x02\0\0\0\0\0\0\0\x20IDL:omg.org/CORBA/TRANSIENT:1.0\0\0\0\0\x01\0\0\0\x01";

const TRANSIENT_ID: &[u8] = b"IDL:omg.org/CORBA/TRANSIENT:1.0";

const USER: &[u8] =
    b"GIOP\x01\x02\0\x01\0\0\0\x1c\0\0\0\x01\0\0\0\x01\0\0\0\0\0\0\0\x0cIDL:M/E:1.0\0";

const FORWARD: &[u8] = b"GIOP\x01\x02\0\x01\0\0\0\x0c\0\0\0\x01\0\0\0\x03\0\0\0\0";

const CUT: &[u8] = b"GIOP\x01\x02\0\x01\0\0\0\x0d\0\0\0\x01\0\0\0\0\0\0\0\0\0";

const DONE: Want = Want::Done;

/// A call of `current` without and with the reference's type, and a call of `twice` with 21.
const CURRENT_AT: Said = (PING, b"current", None, None, None, PING_TYPE);

const CURRENT_OF: Said = (PING_IOR, b"current", None, None, None, None);

const TWICE_21: Said = (V, b"twice", Some("[21]"), None, M_IDL, V_TYPE);

/// What the words say, what the peer sends, what was sent, and the line, of a call that fails nowhere.
type Done = (
    Said,
    &'static [&'static [u8]],
    &'static [&'static [u8]],
    &'static [u8],
);

fn is_done(alloc: Global, row: &Done) -> bool {
    let (said, input, sent, line) = row;
    let row = (*said, Fails::Nothing, *input, DONE, Some(*sent), *line);
    row_is_so(alloc, &row) == Some(true)
}

fn all_are_done(alloc: Global, rows: &[Done]) -> bool {
    for row in rows {
        if !is_done(alloc, row) {
            return false;
        }
    }
    true
}

const CALLS: &[Done] = &[
    (CURRENT_AT, &[HUNDRED], &[CURRENT], b"[100]\n"),
    (CURRENT_OF, &[HUNDRED], &[CURRENT], b"[100]\n"),
    (
        (PING_IOR, b"current", Some("[]"), Some(20), M_IDL, None),
        &[HUNDRED],
        &[CURRENT_AT_20],
        b"[100]\n",
    ),
    (
        (PING, b"note", None, None, None, PING_TYPE),
        &[],
        &[NOTE],
        b"[]\n",
    ),
    (TWICE_21, &[ANSWER], &[TWICE], b"[42]\n"),
    (
        (V, b"_get_a", None, None, M_IDL, V_TYPE),
        &[ANSWER],
        &[GET_A],
        b"[42]\n",
    ),
    (
        (V, b"_set_a", Some("[21]"), None, M_IDL, V_TYPE),
        &[BOUND],
        &[SET_A],
        b"[]\n",
    ),
];

#[test]
fn a_call_prints_its_results_on_one_line(rt: HostRuntime) {
    assert!(rt; all_are_done(rt.alloc(), CALLS));
}

/// Calls over the reference with bands: with the priority 100, whose band is bound, and with the reference's own.
const BANDED_100: Said = (BANDED_IOR, b"current", None, Some(100), None, None);

const BANDED: Said = (BANDED_IOR, b"current", None, None, None, None);

const BINDING: &[Done] = &[
    (
        BANDED_100,
        &[BOUND, HUNDRED_2],
        &[BIND, CURRENT_2_AT_100],
        b"[100]\n",
    ),
    (BANDED, &[BOUND, HUNDRED_2], &[BIND, CURRENT_2], b"[100]\n"),
];

#[test]
fn a_call_binds_the_band_of_its_priority_first(rt: HostRuntime) {
    assert!(rt; all_are_done(rt.alloc(), BINDING));
}

/// What the words say, and the fault for which the net isn't asked, which would fail.
type Unasked = (Said, LocalFault);

fn is_refused(alloc: Global, row: &Unasked) -> bool {
    let (said, fault) = row;
    let row = (
        *said,
        Fails::Net,
        NONE,
        Want::Local(*fault),
        None,
        b"".as_slice(),
    );
    row_is_so(alloc, &row) == Some(true)
}

fn all_are_refused(alloc: Global, rows: &[Unasked]) -> bool {
    for row in rows {
        if !is_refused(alloc, row) {
            return false;
        }
    }
    true
}

const NONE: &[&[u8]] = &[];

const BAD_REFERENCE: LocalFault = LocalFault::BadReference;

const NO_INTERFACE: LocalFault = LocalFault::NoInterface;

const NO_OPERATION: LocalFault = LocalFault::NoOperation;

const BAD_ARGUMENTS: LocalFault = LocalFault::BadArguments;

const NO_BAND: LocalFault = LocalFault::NoBand;

const REFUSED: &[Unasked] = &[
    (
        (b"corbaloc:", b"x", Some("x"), None, None, None),
        BAD_REFERENCE,
    ),
    (
        (b"IOR:0", b"current", None, None, None, PING_TYPE),
        BAD_REFERENCE,
    ),
    ((PING, b"x", Some("x"), None, None, None), NO_INTERFACE),
    (
        (V, b"twice", Some("[21]"), None, None, V_TYPE),
        NO_INTERFACE,
    ),
    (
        (PING_IOR, b"current", None, None, None, V_TYPE),
        NO_INTERFACE,
    ),
    ((PING, b"x", Some("x"), None, None, PING_TYPE), NO_OPERATION),
    ((V, b"a", None, None, M_IDL, V_TYPE), NO_OPERATION),
    (
        (V, b"_set_b", Some("[1]"), None, M_IDL, V_TYPE),
        NO_OPERATION,
    ),
    ((V, b"twice", None, None, M_IDL, V_TYPE), BAD_ARGUMENTS),
    (
        (V, b"twice", Some("[2147483648]"), None, M_IDL, V_TYPE),
        BAD_ARGUMENTS,
    ),
    (
        (V, b"twice", Some("[21"), None, M_IDL, V_TYPE),
        BAD_ARGUMENTS,
    ),
    (
        (BANDED_IOR, b"current", Some("[1]"), Some(201), None, None),
        BAD_ARGUMENTS,
    ),
    (
        (BANDED_IOR, b"current", None, Some(201), None, None),
        NO_BAND,
    ),
];

#[test]
fn words_that_ask_for_no_call_are_refused_before_the_net_is_asked(rt: HostRuntime) {
    assert!(rt; all_are_refused(rt.alloc(), REFUSED));
}

const ABSENT: Said = (b"IOR:", b"x", None, None, Some(b"none.idl"), None);

const BAD_IDL: Said = (b"IOR:", b"x", None, None, Some(b"bad.idl"), None);

const FILED: &[Row] = &[
    (ABSENT, Fails::Net, &[], Want::Absent, None, b""),
    (BAD_IDL, Fails::Net, &[], Want::Refused, None, b""),
    (
        TWICE_21,
        Fails::Files,
        &[ANSWER],
        Want::FileFault,
        None,
        b"",
    ),
];

#[test]
fn a_file_that_gives_no_interfaces_is_told_first(rt: HostRuntime) {
    assert!(rt; all_are_so(rt.alloc(), FILED));
}

/// What fails, what the peer sends, how a call of `current` comes out, what was sent, and what was written.
type Failing = (Fails, &'static [&'static [u8]], Want, Sent, &'static [u8]);

fn fails_so(alloc: Global, row: &Failing) -> bool {
    let (fails, input, want, sent, line) = row;
    let row = (CURRENT_AT, *fails, *input, *want, *sent, *line);
    row_is_so(alloc, &row) == Some(true)
}

fn all_fail_so(alloc: Global, rows: &[Failing]) -> bool {
    for row in rows {
        if !fails_so(alloc, row) {
            return false;
        }
    }
    true
}

const NO_FAULT: Fails = Fails::Nothing;

const ASKED: Sent = Some(&[CURRENT]);

const FAILED: &[Failing] = &[
    (Fails::Net, &[HUNDRED], Want::NetFault, None, b""),
    (Fails::LinkReads, &[HUNDRED], Want::ReadFault, ASKED, b""),
    (
        Fails::LinkWrites,
        &[HUNDRED],
        Want::LinkFault,
        Some(&[]),
        b"",
    ),
    (Fails::Output, &[HUNDRED], Want::WriteFault, ASKED, b"[1"),
    (NO_FAULT, &[], Want::Closed, ASKED, b""),
    (
        NO_FAULT,
        &[TRANSIENT],
        Want::System(TRANSIENT_ID, 1, 1),
        ASKED,
        b"",
    ),
    (NO_FAULT, &[USER], Want::User(b"IDL:M/E:1.0"), ASKED, b""),
    (NO_FAULT, &[FORWARD], Want::Forward(3), ASKED, b""),
    (NO_FAULT, &[CUT], Want::BadBody, ASKED, b""),
    (NO_FAULT, &[CURRENT], Want::WrongWay(0), ASKED, b""),
];

#[test]
fn a_call_without_results_prints_nothing(rt: HostRuntime) {
    assert!(rt; all_fail_so(rt.alloc(), FAILED));
}
