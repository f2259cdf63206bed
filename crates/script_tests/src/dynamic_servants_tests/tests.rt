//! What objects answer. The bytes were laid out by hand by the rules of CORBA 3.0.3, section 15.3; a body begins at place 24.

use super::samples::*;
use dynamic_servants::*;
use orb_base::{Completed, NoMemory, Order, Sys, SysName};
use script_checks::{CheckCause, CheckError};
use std::alloc::Global;
use std::test::*;

/// A request's way, its body, and what is answered.
type Row = (To, &'static [u8], Answer);

fn each_answers(alloc: Global, servants: &Servants, rows: &[Row]) -> bool {
    for (to, body, want) in rows {
        if !answers(alloc, servants, to, body, want) {
            return false;
        }
    }
    true
}

fn all_answer(alloc: Global, rows: &[Row]) -> bool {
    match servants(alloc, SCRIPT) {
        Ok(servants) => each_answers(alloc, &servants, rows),
        Err(_) => false,
    }
}

/// Operations of the derived interface that return.
const RETURNED: &[Row] = &[
    (
        (DERIVED, Order::Big, "twice"),
        b"\x00\x00\x00\x15",
        Answer::Returned(b"\x00\x00\x00\x2a"),
    ),
    (
        (DERIVED, Order::Big, "twice"),
        b"\x00\x00\x00\x15\xff\xff",
        Answer::Returned(b"\x00\x00\x00\x2a"),
    ),
    (
        (DERIVED, Order::Big, "_get_a"),
        b"",
        Answer::Returned(b"\x00\x00\x00\x07"),
    ),
    (
        (DERIVED, Order::Big, "_set_a"),
        b"\x00\x00\x00\x01",
        Answer::Returned(b""),
    ),
    (
        (DERIVED, Order::Big, "mix"),
        b"\x00\x00\x00\x01\x00\x00\x00\x02a\x00",
        Answer::Returned(
            b"\x01\x00\x00\x00\x00\x00\x00\x05\x00\x00\x00\x03hi\x00\x00\x00\x00\x00\x00\x00\x00\x00\x01\x00",
        ),
    ),
    (
        (DERIVED, Order::Big, "mix"),
        b"\x00\x00\x00\x02\x00\x00\x00\x02a\x00",
        Answer::Returned(
            b"\x00\x00\x00\x00\x00\x00\x00\x00\x00\x00\x00\x02a\x00\x00\x00\x00\x00\x00\x00\x00\x00\x00\x01\x00",
        ),
    ),
    (
        (DERIVED, Order::Big, "zeros"),
        b"",
        Answer::Returned(
            b"\x00\x00\x00\x00\x00\x00\x00\x00\x00\x00\x00\x00\x00\x00\x00\x00\x00\x00\x00\x00\x00\x00",
        ),
    ),
    (
        (DERIVED, Order::Big, "_non_existent"),
        b"",
        Answer::Returned(b"\x00"),
    ),
    (
        (DERIVED, Order::Big, "_is_a"),
        b"\x00\x00\x00\x0cIDL:M/B:1.0\x00",
        Answer::Returned(b"\x01"),
    ),
    (
        (DERIVED, Order::Big, "_is_a"),
        b"\x00\x00\x00\x0cIDL:M/D:1.0\x00",
        Answer::Returned(b"\x01"),
    ),
    (
        (DERIVED, Order::Big, "_is_a"),
        b"\x00\x00\x00\x0cIDL:M/X:1.0\x00",
        Answer::Returned(b"\x00"),
    ),
    (
        (DERIVED, Order::Big, "_is_a"),
        b"\x00\x00\x00\x1dIDL:omg.org/CORBA/Object:1.0\x00",
        Answer::Returned(b"\x01"),
    ),
];

#[test]
fn operations_return_their_result_and_what_comes_out(rt: HostRuntime) {
    assert!(rt; all_answer(rt.alloc(), RETURNED));
}

/// The same with little-endian bodies, and the operations of the base and of the built-in interface.
const ELSEWHERE: &[Row] = &[
    (
        (DERIVED, Order::Little, "twice"),
        b"\x15\x00\x00\x00",
        Answer::Returned(b"\x2a\x00\x00\x00"),
    ),
    (
        (DERIVED, Order::Little, "mix"),
        b"\x01\x00\x00\x00\x02\x00\x00\x00a\x00",
        Answer::Returned(
            b"\x01\x00\x00\x00\x05\x00\x00\x00\x03\x00\x00\x00hi\x00\x00\x00\x00\x00\x00\x01\x00\x00\x00\x00",
        ),
    ),
    (
        (DERIVED, Order::Little, "_is_a"),
        b"\x0c\x00\x00\x00IDL:M/B:1.0\x00",
        Answer::Returned(b"\x01"),
    ),
    (
        (BASE, Order::Big, "twice"),
        b"\xff\xff\xff\xff",
        Answer::Returned(b"\xff\xff\xff\xfe"),
    ),
    (
        (BASE, Order::Big, "_is_a"),
        b"\x00\x00\x00\x0cIDL:M/D:1.0\x00",
        Answer::Returned(b"\x00"),
    ),
    (
        (PING, Order::Big, "current"),
        b"",
        Answer::Returned(b"\x00\x64"),
    ),
    (
        (PING, Order::Little, "current"),
        b"",
        Answer::Returned(b"\x64\x00"),
    ),
    (
        (PING, Order::Big, "echo"),
        b"\x00\x00\x00\x03hi\x00",
        Answer::Returned(b"\x00\x00\x00\x03hi\x00"),
    ),
    ((PING, Order::Big, "note"), b"", Answer::Returned(b"")),
    (
        (PING, Order::Big, "_is_a"),
        b"\x00\x00\x00\x1dIDL:omg.org/CORBA/Object:1.0\x00",
        Answer::Returned(b"\x01"),
    ),
];

#[test]
fn bodies_are_in_the_order_of_the_request(rt: HostRuntime) {
    assert!(rt; all_answer(rt.alloc(), ELSEWHERE));
}

const NO_READING: Sys = Sys {
    name: SysName::Marshal,
    minor: 1,
    completed: Completed::No,
};

const NO_OPERATION: Sys = Sys {
    name: SysName::BadOperation,
    minor: 1,
    completed: Completed::No,
};

const TOO_LARGE: Sys = Sys {
    name: SysName::ImpLimit,
    minor: 1,
    completed: Completed::Maybe,
};

const ARITHMETIC: Sys = Sys {
    name: SysName::ImpLimit,
    minor: 2,
    completed: Completed::Maybe,
};

const INDEX: Sys = Sys {
    name: SysName::ImpLimit,
    minor: 3,
    completed: Completed::Maybe,
};

const MISFIT: Sys = Sys {
    name: SysName::ImpLimit,
    minor: 4,
    completed: Completed::Maybe,
};

/// Requests that are answered by a system exception.
const SYSTEM: &[Row] = &[
    (
        (DERIVED, Order::Big, "nope"),
        b"",
        Answer::System(NO_OPERATION),
    ),
    ((BASE, Order::Big, "mix"), b"", Answer::System(NO_OPERATION)),
    (
        ("IDL:M/X:1.0", Order::Big, "twice"),
        b"\x00\x00\x00\x15",
        Answer::System(NO_OPERATION),
    ),
    (
        ("IDL:M/Pair:1.0", Order::Big, "_non_existent"),
        b"",
        Answer::System(NO_OPERATION),
    ),
    (
        (DERIVED, Order::Big, "twice"),
        b"",
        Answer::System(NO_READING),
    ),
    (
        (DERIVED, Order::Big, "twice"),
        b"\x00\x00\x15",
        Answer::System(NO_READING),
    ),
    (
        (DERIVED, Order::Big, "mix"),
        b"\x00\x00\x00\x01",
        Answer::System(NO_READING),
    ),
    (
        (DERIVED, Order::Big, "mix"),
        b"\x00\x00\x00\x01\x00\x00\x00\x02ab",
        Answer::System(NO_READING),
    ),
    (
        (DERIVED, Order::Big, "_is_a"),
        b"",
        Answer::System(NO_READING),
    ),
    (
        (DERIVED, Order::Big, "twice"),
        b"\x7f\xff\xff\xff",
        Answer::System(MISFIT),
    ),
    (
        (DERIVED, Order::Big, "limit"),
        b"\x00\x00\x00\x02\x00\x00\x00\x01\x00\x00\x00\x00\x00\x00\x00\x00",
        Answer::System(ARITHMETIC),
    ),
    (
        (DERIVED, Order::Big, "limit"),
        b"\x00\x00\x00\x03\x00\x00\x00\x01\x00\x00\x00\x00\x00\x00\x00\x01\x00\x00\x00\x05",
        Answer::System(INDEX),
    ),
    (
        (DERIVED, Order::Big, "limit"),
        b"\x00\x00\x00\x04\x00\x00\x00\x01\x00\x00\x00\x00\x00\x00\x00\x00",
        Answer::System(MISFIT),
    ),
];

#[test]
fn the_first_fault_is_told(rt: HostRuntime) {
    assert!(rt; all_answer(rt.alloc(), SYSTEM));
}

/// So many times the byte `a` between two pieces.
fn long_body(alloc: Global, piece: &Piece) -> Result<Vec<u8>, NoMemory> {
    let (front, len, behind) = piece;
    let mut body = Vec::from_slice(alloc, front)?;
    for _ in 0..*len {
        body.push(b'a')?;
    }
    body.extend_from_slice(behind)?;
    Ok(body)
}

/// What is before many bytes, how many these are, and what is after.
type Piece = (&'static [u8], u32, &'static [u8]);

/// Operations of the derived interface with a long body, and what is answered. A text of 65,536 bytes has 65,537 leaves.
/// Five texts of 52,419 bytes, each with its length and its NUL, are 262,120 bytes, and no reply has room for more.
const LARGE: &[(To, Piece, Answer)] = &[
    (
        (DERIVED, Order::Big, "limit"),
        (
            b"\x00\x00\x00\x01\x00\x01\x00\x01",
            65_536,
            b"\x00\x00\x00\x00\x00\x00\x00\x00",
        ),
        Answer::System(TOO_LARGE),
    ),
    (
        (DERIVED, Order::Big, "many"),
        (b"\x00\x00\xcc\xc4", 52_419, b"\x00"),
        Answer::Length(262_120),
    ),
    (
        (DERIVED, Order::Big, "many"),
        (b"\x00\x00\xcc\xc5", 52_420, b"\x00"),
        Answer::System(TOO_LARGE),
    ),
];

fn answers_long(alloc: Global, servants: &Servants, to: &To, piece: &Piece, want: &Answer) -> bool {
    match long_body(alloc, piece) {
        Ok(body) => answers(alloc, servants, to, body.as_slice(), want),
        Err(_) => false,
    }
}

fn each_answers_long(alloc: Global, servants: &Servants) -> bool {
    for (to, piece, want) in LARGE {
        if !answers_long(alloc, servants, to, piece, want) {
            return false;
        }
    }
    true
}

fn all_answer_long(alloc: Global) -> bool {
    match servants(alloc, SCRIPT) {
        Ok(servants) => each_answers_long(alloc, &servants),
        Err(_) => false,
    }
}

#[test]
fn large_values_and_large_replies_are_limits(rt: HostRuntime) {
    assert!(rt; all_answer_long(rt.alloc()));
}

const RAISED: &[Row] = &[
    (
        (DERIVED, Order::Big, "fail"),
        b"\x00\x00\x00\x03",
        Answer::Raised(
            b"\x00\x00\x00\x0eIDL:M/Bad:1.0\x00\x00\x00\x00\x00\x00\x09\x00\x00\x00\x03no\x00",
        ),
    ),
    (
        (DERIVED, Order::Little, "_set_a"),
        b"\xff\xff\xff\xff",
        Answer::Raised(
            b"\x0e\x00\x00\x00IDL:M/Bad:1.0\x00\x00\x00\xff\xff\xff\xff\x04\x00\x00\x00low\x00",
        ),
    ),
];

#[test]
fn exceptions_are_raised_with_their_members(rt: HostRuntime) {
    assert!(rt; all_answer(rt.alloc(), RAISED));
}

/// Scripts, and the cause for which they have no servants.
const REFUSED: &[(&[u8], CheckCause)] = &[
    (b"servant M::B { }", CheckCause::Missing),
    (b"servant Orb::Ping { }", CheckCause::Twice),
];

fn is_refused(alloc: Global, text: &[u8], want: CheckCause) -> bool {
    match servants(alloc, text) {
        Err(CheckError::Refused(fault)) => fault.cause == want,
        _ => false,
    }
}

fn all_are_refused(alloc: Global) -> bool {
    for (text, want) in REFUSED {
        if !is_refused(alloc, text, *want) {
            return false;
        }
    }
    true
}

#[test]
fn scripts_with_a_fault_have_no_servants(rt: HostRuntime) {
    assert!(rt; all_are_refused(rt.alloc()));
}

/// Interfaces, and whether the servants of the script serve them.
const SERVED: &[(&str, bool)] = &[
    (BASE, true),
    (DERIVED, true),
    (PING, true),
    ("IDL:M/X:1.0", false),
    ("IDL:M/Pair:1.0", false),
    ("", false),
];

/// The same of the servants of an empty script.
const SERVED_BARE: &[(&str, bool)] = &[(PING, true), (BASE, false)];

fn serves_each(servants: &Servants, rows: &[(&str, bool)]) -> bool {
    for (interface, want) in rows {
        if servants.serves(interface.as_bytes()) != *want {
            return false;
        }
    }
    true
}

fn serves(alloc: Global, text: &[u8], rows: &[(&str, bool)]) -> bool {
    match servants(alloc, text) {
        Ok(servants) => serves_each(&servants, rows),
        Err(_) => false,
    }
}

#[test]
fn interfaces_with_a_servant_are_served(rt: HostRuntime) {
    assert!(rt; serves(rt.alloc(), SCRIPT, SERVED));
    assert!(rt; serves(rt.alloc(), b"", SERVED_BARE));
}
