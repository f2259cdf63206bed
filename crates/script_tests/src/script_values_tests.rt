//! What expressions and blocks come to.

use crate::script_names_tests::things::{boxed, one, put, with_ping};
use cdr_values::IdlValue;
use idl_types::{Part, Repository, TypeRef};
use orb_base::{NoMemory, Priority, Text};
use script_grammar::{Binary, Unary};
use script_values::*;
use std::alloc::Global;
use std::test::*;

mod blocks;

/// The least number of 128 bits.
const LEAST: i128 = i128::MIN;

/// The type short: the result of the built-in interface's `current`.
pub const SHORT: TypeRef = TypeRef {
    place: 0,
    part: Part::Outcome(0),
    steps: 0,
};

/// The type string: the result of its `echo`.
const STRING: TypeRef = TypeRef {
    place: 0,
    part: Part::Outcome(1),
    steps: 0,
};

pub fn first(alloc: Global, form: Form) -> Expr {
    Expr {
        form,
        links: Vec::new(alloc),
    }
}

pub fn number(alloc: Global, n: i128) -> Expr {
    first(alloc, Form::Literal(IdlValue::Number(n)))
}

/// Two parts of which one was made.
fn both<A: Drop, B: Drop>(first: A, made: Result<B, NoMemory>) -> Result<(A, B), NoMemory> {
    match made {
        Ok(second) => Ok((first, second)),
        Err(_) => Err(NoMemory),
    }
}

/// An expression with one thing done to its first part.
fn linked(alloc: Global, form: Form, link: Link) -> Result<Expr, NoMemory> {
    match both(form, one(alloc, link)) {
        Ok((form, links)) => Ok(Expr { form, links }),
        Err(_) => Err(NoMemory),
    }
}

/// An operator, and the number after it.
type Then = (Binary, i128);

fn links(alloc: Global, rows: &[Then]) -> Result<Vec<Link>, NoMemory> {
    let mut all = Vec::new(alloc);
    for (op, n) in rows {
        if !put(&mut all, Link::Binary(*op, number(alloc, *n))) {
            return Err(NoMemory);
        }
    }
    Ok(all)
}

/// An expression whose first part has these after it.
pub fn joined(alloc: Global, form: Form, rows: &[Then]) -> Result<Expr, NoMemory> {
    match both(form, links(alloc, rows)) {
        Ok((form, links)) => Ok(Expr { form, links }),
        Err(_) => Err(NoMemory),
    }
}

fn of_numbers(alloc: Global, n: i128, rows: &[Then]) -> Result<Expr, NoMemory> {
    joined(alloc, Form::Literal(IdlValue::Number(n)), rows)
}

fn number_of(value: &IdlValue) -> i128 {
    match value {
        IdlValue::Number(n) => *n,
        IdlValue::Boolean(true) => 1,
        IdlValue::Boolean(false) => 0,
        _ => -1_000,
    }
}

fn number_in(alloc: Global, expr: &Expr, repository: &Repository) -> Result<i128, Stop> {
    let Some(priority) = Priority::new(7) else {
        return Err(Stop::NoMemory);
    };
    match eval(expr, repository, alloc, priority, &[]) {
        Ok(value) => Ok(number_of(value.get())),
        Err(stop) => Err(stop),
    }
}

/// The number that an expression gives, without variables, at priority 7. -1,000 stands for any other value.
fn number_from(alloc: Global, expr: &Expr) -> Result<i128, Stop> {
    match with_ping(alloc, &[]) {
        Ok(repository) => number_in(alloc, expr, &repository),
        Err(_) => Err(Stop::NoMemory),
    }
}

/// The number that an expression gives which was made.
fn computed(alloc: Global, expr: Result<Expr, NoMemory>) -> Result<i128, Stop> {
    match expr {
        Ok(expr) => number_from(alloc, &expr),
        Err(_) => Err(Stop::NoMemory),
    }
}

/// An operator, two numbers, and what comes of them.
type Row = (Binary, i128, i128, Result<i128, Stop>);

fn all_give(alloc: Global, rows: &[Row]) -> bool {
    for (op, a, b, want) in rows {
        if computed(alloc, of_numbers(alloc, *a, &[(*op, *b)])) != *want {
            return false;
        }
    }
    true
}

/// What comes of a number outside 128 bits, or of a divisor 0.
const OVER: Result<i128, Stop> = Err(Stop::Limit(Limit::Arithmetic));

const NO_INDEX: Result<i128, Stop> = Err(Stop::Limit(Limit::Index));

const COMPUTED: &[Row] = &[
    (Binary::Add, i128::MAX, 0, Ok(i128::MAX)),
    (Binary::Add, i128::MAX, 1, OVER),
    (Binary::Subtract, LEAST, 1, OVER),
    (Binary::Subtract, 3, 5, Ok(-2)),
    (Binary::Multiply, LEAST, -1, OVER),
    (Binary::Multiply, 21, 2, Ok(42)),
    (Binary::Divide, -7, 2, Ok(-3)),
    (Binary::Divide, LEAST, -1, OVER),
    (Binary::Divide, 1, 0, OVER),
    (Binary::Remainder, -7, 3, Ok(-1)),
    (Binary::Remainder, 7, -3, Ok(1)),
    (Binary::Remainder, LEAST, -1, Ok(0)),
    (Binary::Remainder, 1, 0, OVER),
    (Binary::Index, 5, 0, NO_INDEX),
];

#[test]
fn numbers_have_128_bits(rt: HostRuntime) {
    assert!(rt; all_give(rt.alloc(), COMPUTED));
}

const COMPARED: &[Row] = &[
    (Binary::Same, 3, 3, Ok(1)),
    (Binary::Same, 3, 4, Ok(0)),
    (Binary::Differs, 3, 4, Ok(1)),
    (Binary::Less, -1, 0, Ok(1)),
    (Binary::Less, 0, 0, Ok(0)),
    (Binary::AtMost, 0, 0, Ok(1)),
    (Binary::Greater, 0, -1, Ok(1)),
    (Binary::AtLeast, -1, 0, Ok(0)),
    (Binary::AtLeast, 0, 0, Ok(1)),
];

#[test]
fn numbers_are_compared(rt: HostRuntime) {
    assert!(rt; all_give(rt.alloc(), COMPARED));
}

/// A truth, an operator and a comparison whose quotient has the divisor 0.
fn beside_a_fault(alloc: Global, left: bool, op: Binary) -> Result<Expr, NoMemory> {
    let truth = Form::Literal(IdlValue::Boolean(left));
    match of_numbers(alloc, 1, &[(Binary::Divide, 0), (Binary::Same, 0)]) {
        Ok(compared) => linked(alloc, truth, Link::Binary(op, compared)),
        Err(_) => Err(NoMemory),
    }
}

/// A truth, an operator, and what these make of the comparison.
const DECIDED: &[(bool, Binary, Result<i128, Stop>)] = &[
    (false, Binary::And, Ok(0)),
    (true, Binary::And, OVER),
    (true, Binary::Or, Ok(1)),
    (false, Binary::Or, OVER),
];

fn all_decide(alloc: Global) -> bool {
    for (left, op, want) in DECIDED {
        if computed(alloc, beside_a_fault(alloc, *left, *op)) != *want {
            return false;
        }
    }
    true
}

#[test]
fn the_right_side_is_asked_only_where_the_left_does_not_decide(rt: HostRuntime) {
    assert!(rt; all_decide(rt.alloc()));
}

/// Numbers with what is done to them, and what comes of it.
const CHAINS: &[(i128, &[Then], Result<i128, Stop>)] = &[
    (10, &[(Binary::Subtract, 4), (Binary::Subtract, 3)], Ok(3)),
    (100, &[(Binary::Divide, 10), (Binary::Divide, 2)], Ok(5)),
];

fn all_chains_give(alloc: Global) -> bool {
    for (n, rows, want) in CHAINS {
        if computed(alloc, of_numbers(alloc, *n, rows)) != *want {
            return false;
        }
    }
    true
}

fn of_one(alloc: Global, op: Unary, n: i128) -> Result<Expr, NoMemory> {
    match boxed(alloc, number(alloc, n)) {
        Ok(operand) => Ok(first(alloc, Form::Unary(op, operand))),
        Err(_) => Err(NoMemory),
    }
}

/// Operators of one number, and what comes of them.
const OF_ONE: &[(Unary, i128, Result<i128, Stop>)] = &[
    (Unary::Negate, 5, Ok(-5)),
    (Unary::Negate, LEAST, OVER),
    (Unary::Group, 5, Ok(5)),
];

fn all_of_one(alloc: Global) -> bool {
    for (op, n, want) in OF_ONE {
        if computed(alloc, of_one(alloc, *op, *n)) != *want {
            return false;
        }
    }
    true
}

fn has_the_priority(alloc: Global) -> bool {
    computed(alloc, Ok(first(alloc, Form::Priority))) == Ok(7)
}

fn are_done_in_order(alloc: Global) -> bool {
    all_chains_give(alloc) && all_of_one(alloc) && has_the_priority(alloc)
}

#[test]
fn links_are_done_from_left_to_right(rt: HostRuntime) {
    assert!(rt; are_done_in_order(rt.alloc()));
}

fn element(place: usize, due: TypeRef, value: Expr) -> Element {
    Element { place, due, value }
}

/// Two numbers as a list of shorts.
fn list_of(alloc: Global, a: i128, b: i128) -> Result<Form, NoMemory> {
    let mut elements = Vec::new(alloc);
    if put(&mut elements, element(0, SHORT, number(alloc, a)))
        && put(&mut elements, element(1, SHORT, number(alloc, b)))
    {
        return Ok(Form::Build(elements));
    }
    Err(NoMemory)
}

/// Two numbers as a list of shorts, and one thing done to it.
fn done_to_a_list(alloc: Global, a: i128, b: i128, link: Link) -> Result<Expr, NoMemory> {
    match both(link, list_of(alloc, a, b)) {
        Ok((link, form)) => linked(alloc, form, link),
        Err(_) => Err(NoMemory),
    }
}

fn indexed(alloc: Global, at: i128) -> Result<Expr, NoMemory> {
    let link = Link::Binary(Binary::Index, number(alloc, at));
    done_to_a_list(alloc, 40, 32_767, link)
}

/// Indexes, and what is there.
const INDEXED: &[(i128, Result<i128, Stop>)] = &[
    (0, Ok(40)),
    (1, Ok(32_767)),
    (2, NO_INDEX),
    (-1, NO_INDEX),
];

fn all_are_indexed(alloc: Global) -> bool {
    for (at, want) in INDEXED {
        if computed(alloc, indexed(alloc, *at)) != *want {
            return false;
        }
    }
    true
}

fn second(alloc: Global) -> Result<Expr, NoMemory> {
    done_to_a_list(alloc, 40, 41, Link::Member(1))
}

fn too_large(alloc: Global) -> Result<Expr, NoMemory> {
    match list_of(alloc, 40, 32_768) {
        Ok(form) => Ok(first(alloc, form)),
        Err(_) => Err(NoMemory),
    }
}

const MISFIT: Result<i128, Stop> = Err(Stop::Limit(Limit::Misfit));

fn are_built_where_they_fit(alloc: Global) -> bool {
    all_are_indexed(alloc)
        && computed(alloc, second(alloc)) == Ok(41)
        && computed(alloc, too_large(alloc)) == MISFIT
}

#[test]
fn what_is_built_fits_and_is_found_by_index(rt: HostRuntime) {
    assert!(rt; are_built_where_they_fit(rt.alloc()));
}

/// A text of so many bytes.
fn long_text(alloc: Global, len: usize) -> Result<Text, NoMemory> {
    let mut bytes = Vec::new(alloc);
    for _ in 0..len {
        if !put(&mut bytes, b'a') {
            return Err(NoMemory);
        }
    }
    match Text::from_vec(bytes) {
        Ok(text) => Ok(text),
        Err(_) => Err(NoMemory),
    }
}

/// A list of one text of so many bytes.
fn list_of_a_text(alloc: Global, len: usize) -> Result<Expr, NoMemory> {
    let Ok(text) = long_text(alloc, len) else {
        return Err(NoMemory);
    };
    let text = first(alloc, Form::Literal(IdlValue::Words(text)));
    match one(alloc, element(0, STRING, text)) {
        Ok(elements) => Ok(first(alloc, Form::Build(elements))),
        Err(_) => Err(NoMemory),
    }
}

const TOO_LARGE: Result<i128, Stop> = Err(Stop::Limit(Limit::TooLarge));

fn has_65536_leaves_at_most(alloc: Global) -> bool {
    computed(alloc, list_of_a_text(alloc, 65_535)) == Ok(-1_000)
        && computed(alloc, list_of_a_text(alloc, 65_536)) == TOO_LARGE
}

#[test]
fn what_is_built_has_65536_leaves_at_most(rt: HostRuntime) {
    assert!(rt; has_65536_leaves_at_most(rt.alloc()));
}
