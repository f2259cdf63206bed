//! References to types.

use super::samples::{
    array, exception, interface, longs, named, operation, pair, push, puts, seq, structure, word_of,
};
use cdr_values::{IdlType, Member};
use idl_types::*;
use orb_base::List;
use std::alloc::Global;
use std::process::Abort;

/// A part of the thing at a place, so many steps into its elements, and IDL's word for its type.
type Row = (u32, Part, u32, &'static str);

fn reaches(all: &Repository, rows: &[Row]) -> bool {
    for (place, part, steps, want) in rows {
        let reference = TypeRef {
            place: *place,
            part: *part,
            steps: *steps,
        };
        if word_of(all.type_at(reference)) != *want {
            return false;
        }
    }
    true
}

/// Whether these rows hold where one thing is declared.
fn reaches_in(alloc: Global, declaration: Declaration, rows: &[Row]) -> bool {
    let mut all = Repository::new(alloc);
    puts(&mut all, declaration) && reaches(&all, rows)
}

/// `octet x; sequence<char [3]> y;`
fn members<R: Abort>(rt: &R, alloc: Global) -> Vec<Member> {
    let rows = seq(rt, alloc, array(rt, alloc, IdlType::Char, 3));
    pair(rt, alloc, b"y", rows)
}

/// `struct S { octet x; sequence<char [3]> y; };`
fn of_struct<R: Abort>(rt: &R, alloc: Global) -> Declaration {
    let kind = structure(rt, alloc, members(rt, alloc));
    named(rt, alloc, b"IDL:S:1.0", kind)
}

const IN_STRUCT: &[Row] = &[
    (0, Part::Whole, 0, "struct"),
    (0, Part::Whole, 1, "none"),
    (0, Part::Member(0), 0, "octet"),
    (0, Part::Member(2), 0, "none"),
    (0, Part::Outcome(0), 0, "none"),
    (0, Part::Member(1), 0, "sequence"),
    (0, Part::Member(1), 1, "array"),
    (0, Part::Member(1), 2, "char"),
    (0, Part::Member(1), 3, "none"),
    (1, Part::Whole, 0, "none"),
];

#[test]
fn members_and_elements_are_reached(rt: HostRuntime) {
    assert!(rt; reaches_in(rt.alloc(), of_struct(&rt, rt.alloc()), IN_STRUCT));
}

/// `exception E { octet x; sequence<char [3]> y; };`
fn of_exception<R: Abort>(rt: &R, alloc: Global) -> Declaration {
    exception(rt, alloc, b"IDL:E:1.0", members(rt, alloc))
}

const IN_EXCEPTION: &[Row] = &[
    (0, Part::Whole, 0, "none"),
    (0, Part::Member(1), 1, "array"),
    (0, Part::Member(2), 0, "none"),
];

#[test]
fn members_of_an_exception_are_reached(rt: HostRuntime) {
    assert!(rt; reaches_in(rt.alloc(), of_exception(&rt, rt.alloc()), IN_EXCEPTION));
}

/// `void f(); short g(in long x, in long y);`
fn both<R: Abort>(rt: &R, alloc: Global) -> List<Operation> {
    let params = longs(rt, alloc, &[b"x", b"y"]);
    let mut list = Vec::new(alloc);
    push(
        rt,
        &mut list,
        operation(rt, alloc, b"f", None, List::new(alloc)),
    );
    push(
        rt,
        &mut list,
        operation(rt, alloc, b"g", Some(IdlType::Short), params),
    );
    List::from_vec(list)
}

/// `interface I { void f(); short g(in long x, in long y); };`
fn of_interface<R: Abort>(rt: &R, alloc: Global) -> Declaration {
    interface(rt, alloc, b"IDL:I:1.0", &[], both(rt, alloc))
}

const IN_INTERFACE: &[Row] = &[
    (0, Part::Outcome(0), 0, "none"),
    (0, Part::Outcome(1), 0, "short"),
    (0, Part::Outcome(2), 0, "none"),
    (0, Part::Parameter(1, 1), 0, "long"),
    (0, Part::Parameter(1, 2), 0, "none"),
    (0, Part::Parameter(0, 0), 0, "none"),
    (0, Part::Whole, 0, "none"),
];

#[test]
fn results_and_parameters_are_reached(rt: HostRuntime) {
    assert!(rt; reaches_in(rt.alloc(), of_interface(&rt, rt.alloc()), IN_INTERFACE));
}
