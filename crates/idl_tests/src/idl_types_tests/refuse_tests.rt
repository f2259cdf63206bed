//! What a repository doesn't take.

use super::samples::{
    alone, answers, array, constant, exception, getter, interface, labels, longs, named, nested,
    operation, pair, param_x, plain_interface, puts, seq, structure, union,
};
use cdr_values::{IdlType, IdlValue};
use idl_types::*;
use orb_base::List;
use std::alloc::Global;
use std::process::Abort;

const ID: &[u8] = b"IDL:M/A:1.0";

/// The most leaves of a type.
const MOST: u32 = 65_536;

/// Whether the empty repository answers this on a thing.
fn takes(alloc: Global, declaration: Declaration, want: bool) -> bool {
    answers(&Repository::new(alloc), declaration, want)
}

/// Whether it answers this on a type.
fn takes_type<R: Abort>(rt: &R, alloc: Global, kind: IdlType, want: bool) -> bool {
    takes(alloc, named(rt, alloc, ID, kind), want)
}

/// Whether it answers this on a constant of a type.
fn takes_constant<R: Abort>(rt: &R, alloc: Global, kind: IdlType, want: bool) -> bool {
    takes(
        alloc,
        constant(rt, alloc, ID, kind, IdlValue::Number(1)),
        want,
    )
}

/// Whether it answers this on an interface of one operation.
fn takes_operation<R: Abort>(rt: &R, alloc: Global, one: Operation, want: bool) -> bool {
    let operations = alone(rt, alloc, one);
    takes(alloc, interface(rt, alloc, ID, &[], operations), want)
}

/// `typedef octet NAME;`
fn octet<R: Abort>(rt: &R, alloc: Global, id: &[u8]) -> Declaration {
    named(rt, alloc, id, IdlType::Octet)
}

/// Ids, whether the empty repository takes a type by each, and whether one with a type A in a module M does.
const IDS: &[(&[u8], bool, bool)] = &[
    (b"IDL:Orb/Ping:1.0", false, false),
    (b"IDL:oRB/A:1.0", false, false),
    (b"IDL:ORB:1.0", false, false),
    (b"IDL:Orbs:1.0", true, true),
    (b"IDL:M/Orb/A:1.0", true, true),
    (b"IDL:M/A:1.0", true, false),
    (b"IDL:M/a:1.0", true, false),
    (b"idl:m/A:1.0", true, false),
    (b"IDL:M/B:1.0", true, true),
];

/// Whether a repository answers this on a type by an id.
fn takes_id<R: Abort>(rt: &R, alloc: Global, all: &Repository, id: &[u8], want: bool) -> bool {
    answers(all, octet(rt, alloc, id), want)
}

fn takes_ids<R: Abort>(rt: &R, alloc: Global, first: &Repository, behind: &Repository) -> bool {
    for (id, one, other) in IDS {
        if !takes_id(rt, alloc, first, id, *one) || !takes_id(rt, alloc, behind, id, *other) {
            return false;
        }
    }
    true
}

fn takes_ids_behind_a<R: Abort>(rt: &R, alloc: Global) -> bool {
    let mut all = Repository::new(alloc);
    puts(&mut all, octet(rt, alloc, ID)) && takes_ids(rt, alloc, &Repository::new(alloc), &all)
}

#[test]
fn refuses_ids_in_the_built_in_module_and_known_ones(rt: HostRuntime) {
    assert!(rt; takes_ids_behind_a(&rt, rt.alloc()));
}

/// Bases, and whether a repository with a type A and an interface B takes an interface with each.
const BASES: &[(&[u8], bool)] = &[
    (b"IDL:M/B:1.0", true),
    (b"IDL:M/b:1.0", false),
    (b"IDL:M/A:1.0", false),
    (b"IDL:M/C:1.0", false),
    (b"IDL:omg.org/CORBA/Object:1.0", false),
];

/// Whether a repository answers this on an interface with this base.
fn takes_base<R: Abort>(rt: &R, alloc: Global, all: &Repository, base: &[u8], want: bool) -> bool {
    answers(
        all,
        plain_interface(rt, alloc, b"IDL:M/C:1.0", &[base], &[]),
        want,
    )
}

fn takes_bases<R: Abort>(rt: &R, alloc: Global, all: &Repository) -> bool {
    for (base, want) in BASES {
        if !takes_base(rt, alloc, all, base, *want) {
            return false;
        }
    }
    true
}

fn takes_bases_behind_a_and_b<R: Abort>(rt: &R, alloc: Global) -> bool {
    let mut all = Repository::new(alloc);
    puts(&mut all, octet(rt, alloc, ID))
        && puts(
            &mut all,
            plain_interface(rt, alloc, b"IDL:M/B:1.0", &[], &[]),
        )
        && takes_bases(rt, alloc, &all)
}

#[test]
fn refuses_bases_that_are_no_interface_before(rt: HostRuntime) {
    assert!(rt; takes_bases_behind_a_and_b(&rt, rt.alloc()));
}

/// A type: sequences around an octet, or an array of octets.
#[derive(Clone, Copy)]
enum Sample {
    /// So many sequences.
    Nested(u32),
    /// An array of so many octets.
    Octets(u32),
    /// A sequence of such an array.
    Rows(u32),
}

fn kind_of<R: Abort>(rt: &R, alloc: Global, sample: Sample) -> IdlType {
    match sample {
        Sample::Nested(count) => nested(rt, alloc, count),
        Sample::Octets(len) => array(rt, alloc, IdlType::Octet, len),
        Sample::Rows(len) => seq(rt, alloc, array(rt, alloc, IdlType::Octet, len)),
    }
}

/// Types, and whether each is taken. A sequence has one leaf more than its element.
const SIZES: &[(Sample, bool)] = &[
    (Sample::Octets(0), false),
    (Sample::Octets(MOST), true),
    (Sample::Octets(MOST + 1), false),
    (Sample::Rows(MOST - 1), true),
    (Sample::Rows(MOST), false),
    (Sample::Nested(64), true),
    (Sample::Nested(65), false),
];

fn takes_sizes<R: Abort>(rt: &R, alloc: Global) -> bool {
    for (sample, want) in SIZES {
        if !takes_type(rt, alloc, kind_of(rt, alloc, *sample), *want) {
            return false;
        }
    }
    true
}

#[test]
fn takes_as_many_leaves_and_levels_as_a_type_may_have(rt: HostRuntime) {
    assert!(rt; takes_sizes(&rt, rt.alloc()));
}

/// The name and the type of a member after an octet x, and whether a struct and an exception of both are taken. A
/// struct is one level above its members, and an exception is none.
const MEMBERS: &[(&[u8], Sample, bool, bool)] = &[
    (b"y", Sample::Octets(MOST - 1), true, true),
    (b"y", Sample::Octets(MOST), false, false),
    (b"y", Sample::Nested(63), true, true),
    (b"y", Sample::Nested(64), false, true),
    (b"y", Sample::Nested(65), false, false),
    (b"x", Sample::Octets(1), false, false),
    (b"X", Sample::Octets(1), false, false),
];

fn takes_struct<R: Abort>(rt: &R, alloc: Global, name: &[u8], kind: IdlType, want: bool) -> bool {
    let members = pair(rt, alloc, name, kind);
    takes_type(rt, alloc, structure(rt, alloc, members), want)
}

fn takes_exception<R: Abort>(
    rt: &R,
    alloc: Global,
    name: &[u8],
    kind: IdlType,
    want: bool,
) -> bool {
    let members = pair(rt, alloc, name, kind);
    takes(alloc, exception(rt, alloc, ID, members), want)
}

fn takes_members<R: Abort>(rt: &R, alloc: Global) -> bool {
    for (name, sample, one, other) in MEMBERS {
        if !takes_struct(rt, alloc, name, kind_of(rt, alloc, *sample), *one)
            || !takes_exception(rt, alloc, name, kind_of(rt, alloc, *sample), *other)
        {
            return false;
        }
    }
    true
}

#[test]
fn members_count_and_are_told_apart(rt: HostRuntime) {
    assert!(rt; takes_members(&rt, rt.alloc()));
}

/// Whether a union's members and an enum's labels are taken by their names.
fn tells_names_apart<R: Abort>(rt: &R, alloc: Global) -> bool {
    takes_type(rt, alloc, union(rt, alloc, b"x", b"y"), true)
        && takes_type(rt, alloc, union(rt, alloc, b"x", b"X"), false)
        && takes_type(
            rt,
            alloc,
            labels(rt, alloc, &[b"RED", b"BLUE", b"RE"]),
            true,
        )
        && takes_type(
            rt,
            alloc,
            labels(rt, alloc, &[b"RED", b"BLUE", b"Red"]),
            false,
        )
        && takes_constant(rt, alloc, IdlType::Octet, true)
        && takes_constant(rt, alloc, labels(rt, alloc, &[b"RED", b"red"]), false)
}

#[test]
fn refuses_names_that_differ_in_case_alone(rt: HostRuntime) {
    assert!(rt; tells_names_apart(&rt, rt.alloc()));
}

/// Whether an interface is taken that has an operation with parameters of these names.
fn takes_longs<R: Abort>(rt: &R, alloc: Global, names: &[&[u8]], want: bool) -> bool {
    let params = longs(rt, alloc, names);
    takes_operation(rt, alloc, operation(rt, alloc, b"f", None, params), want)
}

/// Whether an interface is taken that has operations of these names.
fn takes_plains<R: Abort>(rt: &R, alloc: Global, names: &[&[u8]], want: bool) -> bool {
    takes(alloc, plain_interface(rt, alloc, ID, &[], names), want)
}

fn tells_operations_apart<R: Abort>(rt: &R, alloc: Global) -> bool {
    takes_longs(rt, alloc, &[b"x", b"y"], true)
        && takes_longs(rt, alloc, &[b"x", b"y", b"x"], false)
        && takes_longs(rt, alloc, &[b"x", b"X"], false)
        && takes_plains(rt, alloc, &[b"f", b"g", b"f"], false)
        // Two that are inherited may differ in case alone.
        && takes_plains(rt, alloc, &[b"f", b"g", b"F"], true)
}

#[test]
fn operations_and_parameters_are_told_apart(rt: HostRuntime) {
    assert!(rt; tells_operations_apart(&rt, rt.alloc()));
}

/// Whether an interface is taken that has an operation of this result.
fn takes_result<R: Abort>(rt: &R, alloc: Global, count: u32, want: bool) -> bool {
    let kind = nested(rt, alloc, count);
    takes_operation(rt, alloc, getter(rt, alloc, b"f", kind), want)
}

/// Whether an interface is taken that has an operation of this parameter.
fn takes_param<R: Abort>(rt: &R, alloc: Global, count: u32, want: bool) -> bool {
    let params = param_x(rt, alloc, nested(rt, alloc, count));
    takes_operation(rt, alloc, operation(rt, alloc, b"f", None, params), want)
}

fn takes_depths<R: Abort>(rt: &R, alloc: Global) -> bool {
    takes_result(rt, alloc, 64, true)
        && takes_result(rt, alloc, 65, false)
        && takes_param(rt, alloc, 64, true)
        && takes_param(rt, alloc, 65, false)
}

#[test]
fn refuses_results_and_parameters_that_are_too_deep(rt: HostRuntime) {
    assert!(rt; takes_depths(&rt, rt.alloc()));
}
