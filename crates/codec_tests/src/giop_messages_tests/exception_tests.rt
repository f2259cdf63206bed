//! System exceptions, spelled.
use giop_messages::*;
use orb_base::{Completed, Order, Sys, SysName};
use std::alloc::Global;
use std::test::*;

/// Exceptions, and the bodies of replies that carry them in this order: CORBA 3.0.3, section 15.4.3.2.
const EXCEPTIONS: &[(Order, Sys, &[u8])] = &[
    (
        Order::Big,
        Sys {
            name: SysName::ObjectNotExist,
            minor: 1,
            completed: Completed::No,
        },
        b"\0\0\0\x27IDL:omg.org/CORBA/OBJECT_NOT_EXIST:1.0\0\0\0\0\0\x01\0\0\0\x01",
    ),
    (
        Order::Little,
        Sys {
            name: SysName::NoMemory,
            minor: 7,
            completed: Completed::Maybe,
        },
        b"\x20\0\0\0IDL:omg.org/CORBA/NO_MEMORY:1.0\0\x07\0\0\0\x02\0\0\0",
    ),
];

fn is_spelled(alloc: Global, order: Order, system: Sys, bytes: &[u8]) -> bool {
    match system_exception_body(alloc, order, system) {
        Ok(body) => body.as_slice() == bytes,
        Err(_) => false,
    }
}

fn all_spelled(alloc: Global, rows: &[(Order, Sys, &[u8])]) -> bool {
    for (order, system, bytes) in rows {
        if !is_spelled(alloc, *order, *system, bytes) {
            return false;
        }
    }
    true
}

#[test]
fn writes_system_exceptions(rt: HostRuntime) {
    assert!(rt; all_spelled(rt.alloc(), EXCEPTIONS));
}

fn are_numbered() -> bool {
    completion_status(Completed::Yes) == 0
        && completion_status(Completed::No) == 1
        && completion_status(Completed::Maybe) == 2
}

#[test]
fn numbers_what_was_completed(rt: HostRuntime) {
    assert!(rt; are_numbered());
}
