//! The interface of the name service.

use super::samples::{word, word_of};
use idl_types::*;
use std::alloc::Global;

const NAMES: &[u8] = b"IDL:Orb/Names:1.0";

/// An operation as it is declared: its name, the type of its result, its parameters, all of them strings that go in, and what it raises.
struct Asked {
    name: &'static [u8],
    gives: &'static str,
    takes: &'static [&'static [u8]],
    raises: &'static [&'static [u8]],
}

const FOUND: &[u8] = b"IDL:Orb/NotFound:1.0";

const BOUND: &[u8] = b"IDL:Orb/AlreadyBound:1.0";

const ROOM: &[u8] = b"IDL:Orb/NoRoom:1.0";

/// The operations of the interface, in order.
const ALL: &[Asked] = &[
    Asked {
        name: b"bind",
        gives: "none",
        takes: &[b"key", b"target"],
        raises: &[BOUND, ROOM],
    },
    Asked {
        name: b"rebind",
        gives: "none",
        takes: &[b"key", b"target"],
        raises: &[ROOM],
    },
    Asked {
        name: b"resolve",
        gives: "string",
        takes: &[b"key"],
        raises: &[FOUND],
    },
    Asked {
        name: b"unbind",
        gives: "none",
        takes: &[b"key"],
        raises: &[FOUND],
    },
    Asked {
        name: b"next",
        gives: "string",
        takes: &[b"after"],
        raises: &[FOUND],
    },
    Asked {
        name: b"size",
        gives: "unsigned long",
        takes: &[],
        raises: &[],
    },
];

/// Whether a parameter is a string of this name that goes in.
fn is_text(param: &Param, name: &[u8]) -> bool {
    param.name.as_slice() == name && param.way == Way::Input && word(&param.kind) == "string"
}

/// Whether parameters are strings of these names.
fn are_texts(params: &[Param], names: &[&[u8]]) -> bool {
    for at in 0..names.len() {
        match params.get(at) {
            Some(param) => {
                if !is_text(param, names[at]) {
                    return false;
                }
            }
            None => return false,
        }
    }
    params.len() == names.len()
}

/// Whether ids are these.
fn are_ids(found: &[orb_base::Text], ids: &[&[u8]]) -> bool {
    for at in 0..ids.len() {
        match found.get(at) {
            Some(id) => {
                if id.as_slice() != ids[at] {
                    return false;
                }
            }
            None => return false,
        }
    }
    found.len() == ids.len()
}

/// Whether an operation is declared so.
fn is_declared(found: &Operation, asked: &Asked) -> bool {
    found.name.as_slice() == asked.name
        && !found.oneway
        && word_of(found.result.as_ref()) == asked.gives
        && are_texts(found.params.as_slice(), asked.takes)
        && are_ids(found.raises.as_slice(), asked.raises)
}

/// Whether operations are declared so, in this order.
fn are_declared(found: &[Operation], all: &[Asked]) -> bool {
    for at in 0..all.len() {
        match found.get(at) {
            Some(operation) => {
                if !is_declared(operation, &all[at]) {
                    return false;
                }
            }
            None => return false,
        }
    }
    found.len() == all.len()
}

/// Whether there is an exception of an id, without members.
fn is_bare(all: &Repository, id: &[u8]) -> bool {
    match all.exception(id) {
        Some(exception) => exception.members.is_empty(),
        None => false,
    }
}

/// Whether the three exceptions and the interface are there, and nothing else.
fn has_names(all: &Repository) -> bool {
    all.len() == 4
        && is_bare(all, FOUND)
        && is_bare(all, BOUND)
        && is_bare(all, ROOM)
        && match all.interface(NAMES) {
            Some(names) => {
                names.bases.is_empty() && are_declared(names.operations.as_slice(), ALL)
            }
            None => false,
        }
}

fn adds_names(alloc: Global) -> bool {
    match Repository::new(alloc).with_names() {
        Ok(all) => has_names(&all),
        Err(_) => false,
    }
}

/// Whether what is there isn't added again.
fn adds_names_once(alloc: Global) -> bool {
    match Repository::new(alloc).with_names() {
        Ok(all) => match all.with_names() {
            Ok(all) => has_names(&all),
            Err(_) => false,
        },
        Err(_) => false,
    }
}

#[test]
fn the_interface_of_names_has_six_operations(rt: HostRuntime) {
    assert!(rt; adds_names(rt.alloc()));
}

#[test]
fn the_interface_of_names_is_added_once(rt: HostRuntime) {
    assert!(rt; adds_names_once(rt.alloc()));
}
