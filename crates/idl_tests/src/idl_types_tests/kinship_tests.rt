//! Interfaces and what they inherit.

use super::samples::{
    answers, getter, interface, longs, operation, plain_interface, push, puts, word, word_of,
};
use cdr_values::IdlType;
use idl_types::*;
use orb_base::List;
use std::alloc::Global;
use std::process::Abort;

const TOP: &[u8] = b"IDL:M/Top:1.0";

const LEFT: &[u8] = b"IDL:M/Left:1.0";

const RIGHT: &[u8] = b"IDL:M/Right:1.0";

const BOTTOM: &[u8] = b"IDL:M/Bottom:1.0";

const ALONE: &[u8] = b"IDL:M/Alone:1.0";

const OBJECT: &[u8] = b"IDL:omg.org/CORBA/Object:1.0";

/// An interface: its id, the ids of its bases, and the names of its operations.
type Row = (
    &'static [u8],
    &'static [&'static [u8]],
    &'static [&'static [u8]],
);

/// `interface Top { octet hear(); }; interface Left : Top { octet left(); };
/// interface Right : Top { octet right(); }; interface Alone {};`
const TWO_ARMS: &[Row] = &[
    (TOP, &[], &[b"hear"]),
    (LEFT, &[TOP], &[b"hear", b"left"]),
    (RIGHT, &[TOP], &[b"hear", b"right"]),
    (ALONE, &[], &[]),
];

fn puts_two_arms<R: Abort>(rt: &R, alloc: Global, all: &mut Repository) -> bool {
    for (id, bases, names) in TWO_ARMS {
        if !puts(all, plain_interface(rt, alloc, id, bases, names)) {
            return false;
        }
    }
    true
}

/// The operations of Bottom.
const NAMES: &[&[u8]] = &[b"hear", b"left", b"right", b"low"];

/// After both arms `interface Bottom : Left, Right { octet low(); };`
fn puts_diamond<R: Abort>(rt: &R, alloc: Global, all: &mut Repository) -> bool {
    puts_two_arms(rt, alloc, all)
        && puts(
            all,
            plain_interface(rt, alloc, BOTTOM, &[LEFT, RIGHT], NAMES),
        )
}

/// Ids, and whether the first is that of an interface which is the second, or derived from it.
const KIN: &[(&[u8], &[u8], bool)] = &[
    (BOTTOM, TOP, true),
    (BOTTOM, LEFT, true),
    (BOTTOM, RIGHT, true),
    (BOTTOM, BOTTOM, true),
    (RIGHT, TOP, true),
    (LEFT, RIGHT, false),
    (TOP, BOTTOM, false),
    (BOTTOM, ALONE, false),
    (ALONE, TOP, false),
    (b"IDL:M/bottom:1.0", TOP, false),
    (BOTTOM, b"IDL:M/Top:1.1", false),
    // Each interface is an object, and what isn't declared is none.
    (BOTTOM, OBJECT, true),
    (OBJECT, OBJECT, false),
    (b"IDL:M/Top:1.1", OBJECT, false),
];

fn are_kin(all: &Repository) -> bool {
    for (id, base, want) in KIN {
        if all.is_a(id, base) != *want {
            return false;
        }
    }
    true
}

fn leads_along_both_arms<R: Abort>(rt: &R, alloc: Global) -> bool {
    let mut all = Repository::new(alloc);
    puts_diamond(rt, alloc, &mut all) && are_kin(&all)
}

#[test]
fn bases_lead_along_both_arms_of_a_diamond(rt: HostRuntime) {
    assert!(rt; leads_along_both_arms(&rt, rt.alloc()));
}

/// Whether the operation at an index of an interface has this name.
fn stands_at(all: &Repository, id: &[u8], at: usize, name: &[u8]) -> bool {
    match all.interface(id) {
        Some(interface) => match interface.operations.get(at) {
            Some(operation) => operation.name.as_slice() == name,
            None => false,
        },
        None => false,
    }
}

fn stand_in_order(all: &Repository) -> bool {
    stands_at(all, BOTTOM, 0, b"hear")
        && stands_at(all, BOTTOM, 1, b"left")
        && stands_at(all, BOTTOM, 2, b"right")
        && stands_at(all, BOTTOM, 3, b"low")
        && !stands_at(all, BOTTOM, 4, b"low")
}

fn inherits_first<R: Abort>(rt: &R, alloc: Global) -> bool {
    let mut all = Repository::new(alloc);
    puts_diamond(rt, alloc, &mut all) && stand_in_order(&all)
}

#[test]
fn inherited_operations_come_first(rt: HostRuntime) {
    assert!(rt; inherits_first(&rt, rt.alloc()));
}

/// Bases and operations, and whether both arms take an interface of these.
type Offer = (&'static [&'static [u8]], &'static [&'static [u8]], bool);

const ORDERS: &[Offer] = &[
    (&[LEFT, RIGHT], &[b"hear", b"left", b"right", b"low"], true),
    (&[LEFT, RIGHT], &[b"hear", b"right", b"left", b"low"], false),
    (&[LEFT, RIGHT], &[b"low", b"hear", b"left", b"right"], false),
    (&[LEFT, RIGHT], &[b"hear", b"left", b"low", b"right"], false),
    (&[LEFT, RIGHT], &[b"hear", b"left", b"Right", b"low"], false),
    (
        &[LEFT, RIGHT],
        &[b"hear", b"left", b"righ", b"right"],
        false,
    ),
];

const GIVEN: &[Offer] = &[
    (&[LEFT, RIGHT], &[b"hear", b"left", b"right"], true),
    (&[LEFT, RIGHT], &[b"hear", b"left"], false),
    (&[RIGHT, LEFT], &[b"hear", b"right", b"left"], true),
    (&[RIGHT, LEFT], &[b"hear", b"left", b"right"], false),
    // A base that is named twice gives nothing more.
    (&[LEFT, TOP, LEFT], &[b"hear", b"left"], true),
    (&[TOP, ALONE], &[b"hear", b"own"], true),
    (&[ALONE], &[b"own"], true),
];

fn takes_each<R: Abort>(rt: &R, alloc: Global, all: &Repository, offers: &[Offer]) -> bool {
    for (bases, names, want) in offers {
        let bottom = plain_interface(rt, alloc, BOTTOM, bases, names);
        if !answers(all, bottom, *want) {
            return false;
        }
    }
    true
}

fn take<R: Abort>(rt: &R, alloc: Global, offers: &[Offer]) -> bool {
    let mut all = Repository::new(alloc);
    puts_two_arms(rt, alloc, &mut all) && takes_each(rt, alloc, &all, offers)
}

#[test]
fn refuses_operations_that_do_not_begin_with_inherited_ones(rt: HostRuntime) {
    assert!(rt; take(&rt, rt.alloc(), ORDERS));
}

#[test]
fn bases_give_their_operations_in_order_and_once(rt: HostRuntime) {
    assert!(rt; take(&rt, rt.alloc(), GIVEN));
}

/// Ids and names, and whether an operation is found by them.
const FOUND: &[(&[u8], &[u8], bool)] = &[
    (BOTTOM, b"hear", true),
    (BOTTOM, b"low", true),
    (RIGHT, b"right", true),
    (TOP, b"low", false),
    (LEFT, b"right", false),
    (BOTTOM, b"Low", false),
    (BOTTOM, b"lo", false),
    (b"IDL:M/BOTTOM:1.0", b"low", false),
];

fn finds_each(all: &Repository) -> bool {
    for (id, name, want) in FOUND {
        if all.find_operation(id, name).is_some() != *want {
            return false;
        }
    }
    true
}

fn finds_right(all: &Repository) -> bool {
    match all.find_operation(BOTTOM, b"right") {
        Some(found) => found.name.as_slice() == b"right".as_slice(),
        None => false,
    }
}

fn finds_by_name<R: Abort>(rt: &R, alloc: Global) -> bool {
    let mut all = Repository::new(alloc);
    puts_diamond(rt, alloc, &mut all) && finds_each(&all) && finds_right(&all)
}

#[test]
fn operations_are_found_by_their_names_alone(rt: HostRuntime) {
    assert!(rt; finds_by_name(&rt, rt.alloc()));
}

/// `attribute long a; readonly attribute octet b;`
fn attributes<R: Abort>(rt: &R, alloc: Global) -> List<Operation> {
    let mut list = Vec::new(alloc);
    push(rt, &mut list, getter(rt, alloc, b"_get_a", IdlType::Long));
    push(
        rt,
        &mut list,
        operation(rt, alloc, b"_set_a", None, longs(rt, alloc, &[b"a"])),
    );
    push(rt, &mut list, getter(rt, alloc, b"_get_b", IdlType::Octet));
    List::from_vec(list)
}

fn is_read(all: &Repository) -> bool {
    match all.find_operation(ALONE, b"_get_a") {
        Some(get) => word_of(get.result.as_ref()) == "long" && get.params.is_empty(),
        None => false,
    }
}

fn is_long_a(params: &[Param]) -> bool {
    match params.get(0) {
        Some(param) => {
            param.name.as_slice() == b"a".as_slice()
                && param.way == Way::Input
                && word(&param.kind) == "long"
        }
        None => false,
    }
}

fn is_set(all: &Repository) -> bool {
    match all.find_operation(ALONE, b"_set_a") {
        Some(set) => set.result.is_none() && is_long_a(set.params.as_slice()),
        None => false,
    }
}

/// Whether the readonly attribute is only read.
fn is_only_read(all: &Repository) -> bool {
    all.find_operation(ALONE, b"_get_b").is_some() && all.find_operation(ALONE, b"_set_b").is_none()
}

fn has_attributes<R: Abort>(rt: &R, alloc: Global) -> bool {
    let mut all = Repository::new(alloc);
    puts(
        &mut all,
        interface(rt, alloc, ALONE, &[], attributes(rt, alloc)),
    ) && is_read(&all)
        && is_set(&all)
        && is_only_read(&all)
}

#[test]
fn attributes_are_read_and_set(rt: HostRuntime) {
    assert!(rt; has_attributes(&rt, rt.alloc()));
}
