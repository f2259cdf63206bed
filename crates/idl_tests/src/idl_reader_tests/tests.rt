//! Texts of IDL, and what they declare. Columns were counted by hand.

use cdr_values::{IdlType, IdlValue};
use grammar::ReadError;
use idl_grammar::{IdlCause, IdlFault};
use idl_reader::*;
use idl_types::{Constant, Declaration, Interface, Operation, Param, Repository, Way};
use orb_base::NoMemory;
use std::alloc::Global;

/// Reads a text of some thousand bytes at most.
fn read(alloc: Global, text: &[u8]) -> Result<Repository, ReadError<IdlFault>> {
    if text.len() > 4000 {
        return Err(ReadError::NoMemory);
    }
    read_idl(alloc, text)
}

/// Appends the ids of the bases, each after `<`, and the names of the operations, each after a point.
fn write_interface(out: &mut Vec<u8>, interface: &Interface) -> Result<(), NoMemory> {
    for base in interface.bases.as_slice() {
        out.extend_from_slice(b" <")?;
        out.extend_from_slice(base.as_slice())?;
    }
    for operation in interface.operations.as_slice() {
        out.extend_from_slice(b" .")?;
        out.extend_from_slice(operation.name.as_slice())?;
    }
    Ok(())
}

/// The letter for what is declared.
fn letter(declaration: &Declaration) -> &'static [u8] {
    match declaration {
        Declaration::Constant(_) => b"C ",
        Declaration::Named(_) => b"T ",
        Declaration::Exception(_) => b"E ",
        Declaration::Interface(_) => b"I ",
    }
}

/// Appends a letter for what is declared, and its id.
fn write_declaration(out: &mut Vec<u8>, declaration: &Declaration) -> Result<(), NoMemory> {
    out.extend_from_slice(letter(declaration))?;
    out.extend_from_slice(declaration.id().as_slice())?;
    if let Declaration::Interface(interface) = declaration {
        write_interface(out, interface)?;
    }
    out.extend_from_slice(b"; ")?;
    Ok(())
}

fn write_all(out: &mut Vec<u8>, repository: &Repository) -> Result<(), NoMemory> {
    for at in 0..repository.len() {
        if let Some(declaration) = repository.nth(at) {
            write_declaration(out, declaration)?;
        }
    }
    Ok(())
}

/// Whether a repository has just this, in this order.
fn has_all(alloc: Global, repository: &Repository, wanted: &[u8]) -> bool {
    let mut told = Vec::new(alloc);
    match write_all(&mut told, repository) {
        Ok(()) => told.as_slice() == wanted,
        Err(_) => false,
    }
}

/// Whether a text declares just this, in this order.
fn declares(alloc: Global, text: &[u8], wanted: &[u8]) -> bool {
    match read(alloc, text) {
        Ok(repository) => has_all(alloc, &repository, wanted),
        Err(_) => false,
    }
}

/// Texts and what they declare: a letter for each thing and its id, and of an interface its bases and its operations.
type Row = (&'static [u8], &'static [u8]);

fn declare_each(alloc: Global, rows: &[Row]) -> bool {
    for (text, wanted) in rows {
        if !declares(alloc, text, wanted) {
            return false;
        }
    }
    true
}

const OF_ONE_LINE: &[Row] = &[
    (b"", b""),
    (b"typedef long T, U[2];", b"T IDL:T:1.0; T IDL:U:1.0; "),
    (b"struct S { long a; };", b"T IDL:S:1.0; "),
    (b"enum E { X, Y };", b"T IDL:E:1.0; "),
    (
        b"union U switch (long) { case 1: long a; };",
        b"T IDL:U:1.0; ",
    ),
    (b"exception E { long a; };", b"E IDL:E:1.0; "),
    (b"const long X = 5;", b"C IDL:X:1.0; "),
];

#[test]
fn types_exceptions_and_constants(rt: HostRuntime) {
    assert!(rt; declare_each(rt.alloc(), OF_ONE_LINE));
}

const IN_MODULES: &[Row] = &[
    (
        b"module A { module B { const long X = 1; }; interface I { typedef long T; }; };",
        b"C IDL:A/B/X:1.0; I IDL:A/I:1.0; T IDL:A/I/T:1.0; ",
    ),
    (
        b"module A { const long X = 1; }; const long Y = 2; module A { const long Z = 3; };",
        b"C IDL:A/X:1.0; C IDL:Y:1.0; C IDL:A/Z:1.0; ",
    ),
];

#[test]
fn ids_have_the_modules_around(rt: HostRuntime) {
    assert!(rt; declare_each(rt.alloc(), IN_MODULES));
}

const OF_INTERFACES: &[Row] = &[
    (
        b"interface S { attribute long a; readonly attribute short b; };",
        b"I IDL:S:1.0 ._get_a ._set_a ._get_b; ",
    ),
    (
        b"interface A { void f(); }; interface B { void g(); }; interface C : B, A { void h(); };",
        b"I IDL:A:1.0 .f; I IDL:B:1.0 .g; I IDL:C:1.0 <IDL:B:1.0 <IDL:A:1.0 .g .f .h; ",
    ),
    (
        b"interface T { void f(); }; interface L : T { }; interface R : T { void g(); }; interface D : L, R { };",
        b"I IDL:T:1.0 .f; I IDL:L:1.0 <IDL:T:1.0 .f; I IDL:R:1.0 <IDL:T:1.0 .f .g; I IDL:D:1.0 <IDL:L:1.0 <IDL:R:1.0 .f .g; ",
    ),
];

#[test]
fn interfaces_have_all_operations(rt: HostRuntime) {
    assert!(rt; declare_each(rt.alloc(), OF_INTERFACES));
}

/// Whether these are two parameters, and the second is `inout string b`.
fn end_in_b(params: &[Param]) -> bool {
    match params {
        [_, b] => {
            b.way == Way::Both
                && b.name.as_slice() == b"b".as_slice()
                && matches!(&b.kind, IdlType::Words(0))
        }
        _ => false,
    }
}

/// Whether an operation raises E alone.
fn raises_e(operation: &Operation) -> bool {
    match operation.raises.as_slice() {
        [raised] => raised.as_slice() == b"IDL:M/E:1.0".as_slice(),
        _ => false,
    }
}

fn has_f(repository: &Repository) -> bool {
    match repository.find_operation(b"IDL:M/I:1.0".as_slice(), b"f".as_slice()) {
        Some(f) => {
            matches!(&f.result, Some(IdlType::Short))
                && !f.oneway
                && end_in_b(f.params.as_slice())
                && raises_e(f)
        }
        None => false,
    }
}

fn has_g(repository: &Repository) -> bool {
    match repository.find_operation(b"IDL:M/I:1.0".as_slice(), b"g".as_slice()) {
        Some(g) => g.oneway && g.result.is_none(),
        None => false,
    }
}

const F_AND_G: &[u8] =
    b"module M { exception E { }; interface I { short f(in long a, inout string b) raises (E); oneway void g(); }; };";

fn has_f_and_g(alloc: Global) -> bool {
    match read(alloc, F_AND_G) {
        Ok(repository) => has_f(&repository) && has_g(&repository),
        Err(_) => false,
    }
}

#[test]
fn operations_have_their_parts(rt: HostRuntime) {
    assert!(rt; has_f_and_g(rt.alloc()));
}

const CONSTANTS: &[u8] =
    b"const short N = -5; const char C = 'x'; const boolean B = TRUE; const string<3> S = \"ab\"; const short M = N;";

fn is_m(m: &Constant) -> bool {
    matches!(&m.value, IdlValue::Number(-5)) && matches!(&m.kind, IdlType::Short)
}

fn is_ab(value: &IdlValue) -> bool {
    match value {
        IdlValue::Words(words) => words.as_slice() == b"ab".as_slice(),
        _ => false,
    }
}

fn has_numbers(repository: &Repository) -> bool {
    match (
        repository.constant(b"IDL:M:1.0".as_slice()),
        repository.constant(b"IDL:C:1.0".as_slice()),
    ) {
        (Some(m), Some(c)) => is_m(m) && matches!(&c.value, IdlValue::Char(b'x')),
        _ => false,
    }
}

fn has_others(repository: &Repository) -> bool {
    match (
        repository.constant(b"IDL:B:1.0".as_slice()),
        repository.constant(b"IDL:S:1.0".as_slice()),
    ) {
        (Some(b), Some(s)) => matches!(&b.value, IdlValue::Boolean(true)) && is_ab(&s.value),
        _ => false,
    }
}

fn has_constants(alloc: Global) -> bool {
    match read(alloc, CONSTANTS) {
        Ok(repository) => has_numbers(&repository) && has_others(&repository),
        Err(_) => false,
    }
}

#[test]
fn constants_have_values_of_their_types(rt: HostRuntime) {
    assert!(rt; has_constants(rt.alloc()));
}

/// Whether the first token at fault of a text has this cause and is there.
fn is_refused(alloc: Global, text: &[u8], cause: IdlCause, line: u32, column: u32) -> bool {
    match read(alloc, text) {
        Err(ReadError::Refused(fault)) => {
            fault.cause == cause && fault.line == line && fault.column == column
        }
        _ => false,
    }
}

/// Texts, and of the first fault of each its cause, its line and its column.
const AT_FAULT: &[(&[u8], IdlCause, u32, u32)] = &[
    (b"module Orb { const long x = 1; };", IdlCause::Clash, 1, 8),
    (b"typedef V T;", IdlCause::Unknown, 1, 9),
    (b"typedef long T;\nconst T x 1;", IdlCause::Expected, 2, 11),
    (b"interface I { any f(); };", IdlCause::NotInProfile, 1, 15),
];

fn are_refused(alloc: Global) -> bool {
    for (text, cause, line, column) in AT_FAULT {
        if !is_refused(alloc, text, *cause, *line, *column) {
            return false;
        }
    }
    true
}

#[test]
fn first_tokens_at_fault(rt: HostRuntime) {
    assert!(rt; are_refused(rt.alloc()));
}

/// Appends a text so many times.
fn repeat(out: &mut Vec<u8>, text: &[u8], times: u32) -> Result<(), NoMemory> {
    for _ in 0..times {
        out.extend_from_slice(text)?;
    }
    Ok(())
}

/// `typedef`, sequences of sequences, so deep, and a name.
fn nested(alloc: Global, depth: u32) -> Result<Vec<u8>, NoMemory> {
    let mut text = Vec::from_slice(alloc, b"typedef ")?;
    repeat(&mut text, b"sequence<", depth)?;
    repeat(&mut text, b"long", 1)?;
    repeat(&mut text, b">", depth)?;
    repeat(&mut text, b" T;", 1)?;
    Ok(text)
}

fn declares_one(alloc: Global, text: &[u8]) -> bool {
    match read(alloc, text) {
        Ok(repository) => repository.len() == 1,
        Err(_) => false,
    }
}

fn takes_64(alloc: Global) -> bool {
    match nested(alloc, 64) {
        Ok(text) => declares_one(alloc, text.as_slice()),
        Err(_) => false,
    }
}

fn refuses_65(alloc: Global) -> bool {
    match nested(alloc, 65) {
        Ok(text) => is_refused(alloc, text.as_slice(), IdlCause::Expected, 1, 593),
        Err(_) => false,
    }
}

#[test]
fn at_most_64_brackets_are_open(rt: HostRuntime) {
    assert!(rt; takes_64(rt.alloc()));
    assert!(rt; refuses_65(rt.alloc()));
}
