//! The built-in module.

use super::samples::{named, puts, word, word_of};
use cdr_values::IdlType;
use idl_types::*;
use std::alloc::Global;
use std::process::Abort;

const PING: &[u8] = b"IDL:Orb/Ping:1.0";

/// Whether the built-in interface, which these have, isn't added again.
fn has_it_once(all: Repository) -> bool {
    match all.with_ping() {
        Ok(all) => {
            all.len() == 2
                && all.place_of(PING) == Some(1)
                && all.is_a(PING, b"IDL:omg.org/CORBA/Object:1.0")
        }
        Err(_) => false,
    }
}

/// Whether it is added after one thing.
fn has_it_behind(all: Repository) -> bool {
    match all.with_ping() {
        Ok(all) => {
            if all.len() == 2 {
                has_it_once(all)
            } else {
                false
            }
        }
        Err(_) => false,
    }
}

fn adds_it_once<R: Abort>(rt: &R, alloc: Global) -> bool {
    let mut all = Repository::new(alloc);
    if puts(&mut all, named(rt, alloc, b"IDL:A:1.0", IdlType::Octet)) {
        has_it_behind(all)
    } else {
        false
    }
}

#[test]
fn the_built_in_interface_is_added_once_behind_the_others(rt: HostRuntime) {
    assert!(rt; adds_it_once(&rt, rt.alloc()));
}

/// Whether the operation at an index is of this name and type of result, has so many parameters, and is oneway or not.
fn stands_at(
    all: &[Operation],
    at: usize,
    name: &[u8],
    kind: &str,
    count: usize,
    oneway: bool,
) -> bool {
    match all.get(at) {
        Some(found) => {
            found.name.as_slice() == name
                && word_of(found.result.as_ref()) == kind
                && found.params.len() == count
                && found.oneway == oneway
        }
        None => false,
    }
}

fn are_three(all: &[Operation]) -> bool {
    all.len() == 3
        && stands_at(all, 0, b"current", "short", 0, false)
        && stands_at(all, 1, b"echo", "string", 1, false)
        && stands_at(all, 2, b"note", "none", 0, true)
}

fn has_operations(all: &Repository) -> bool {
    match all.interface(PING) {
        Some(ping) => ping.bases.is_empty() && are_three(ping.operations.as_slice()),
        None => false,
    }
}

fn has_text(params: &[Param]) -> bool {
    match params.get(0) {
        Some(param) => {
            param.name.as_slice() == b"text".as_slice()
                && param.way == Way::Input
                && word(&param.kind) == "string"
        }
        None => false,
    }
}

fn echoes(all: &Repository) -> bool {
    match all.find_operation(PING, b"echo") {
        Some(echo) => has_text(echo.params.as_slice()) && echo.raises.is_empty(),
        None => false,
    }
}

fn has_three(alloc: Global) -> bool {
    match Repository::new(alloc).with_ping() {
        Ok(all) => has_operations(&all),
        Err(_) => false,
    }
}

#[test]
fn the_built_in_interface_has_three_operations(rt: HostRuntime) {
    assert!(rt; has_three(rt.alloc()));
}

fn has_echo(alloc: Global) -> bool {
    match Repository::new(alloc).with_ping() {
        Ok(all) => echoes(&all),
        Err(_) => false,
    }
}

#[test]
fn echo_takes_a_text(rt: HostRuntime) {
    assert!(rt; has_echo(rt.alloc()));
}
