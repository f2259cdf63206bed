//! Texts that are whole, and the values of their constants.

use cdr_values::IdlValue;
use idl_reader::*;
use idl_types::Repository;
use std::alloc::Global;

/// Whether a text is whole, and declares so many things.
fn declares(alloc: Global, text: &[u8], count: usize) -> bool {
    if text.len() > 4000 {
        return false;
    }
    match read_idl(alloc, text) {
        Ok(repository) => repository.len() == count,
        Err(_) => false,
    }
}

/// Texts, and how many things each declares.
const WHOLE: &[(&[u8], usize)] = &[
    (
        b"typedef long T; typedef T U, V[2]; typedef sequence<U> W; struct S { T a, b; U c; V d; W e; };",
        5,
    ),
    (
        b"union U switch (short) { case -32768: long a; case +7: default: long b; };",
        1,
    ),
    (
        b"union U switch (unsigned short) { case 65535: long a; };",
        1,
    ),
    (
        b"union U switch (long) { case 0x10: case 017: long a; case 17: long b; };",
        1,
    ),
    (
        b"union U switch (unsigned long) { case 4294967295: long a; };",
        1,
    ),
    (
        b"union U switch (long long) { case -9223372036854775808: long a; };",
        1,
    ),
    (
        b"union U switch (unsigned long long) { case 0xFFFFFFFFFFFFFFFF: long a; };",
        1,
    ),
    (
        b"union U switch (char) { case 'a': long a; case '0': long b; };",
        1,
    ),
    (
        b"union U switch (boolean) { case TRUE: long a; case FALSE: string b; };",
        1,
    ),
    (
        b"enum E { A, B }; typedef E F; typedef F G; union U switch (G) { case A: long a; case ::B: G b; };",
        4,
    ),
    (
        b"const octet c = 3; union U switch (long) { case c: long a; };",
        2,
    ),
    (
        b"interface T { void f(); typedef long A; }; interface L : T {}; interface R : T {}; interface D : L, R {};",
        5,
    ),
    (
        b"interface A { typedef long T; const long c = 1; }; interface B : A { typedef short T; const T c = 2; };",
        6,
    ),
    (
        b"interface P { attribute long a, b; readonly attribute string<3> c; }; interface Q : P { attribute long d; };",
        2,
    ),
    (
        b"interface A { typedef long T; exception X {}; void f(in T a, out T b) raises (A::X, X, X); };",
        3,
    ),
    (
        b"module A { module Orb { typedef long T; }; }; typedef A::Orb::T U;",
        2,
    ),
];

fn declare_each(alloc: Global) -> bool {
    for (text, count) in WHOLE {
        if !declares(alloc, text, *count) {
            return false;
        }
    }
    true
}

#[test]
fn whole_texts_are_taken(rt: HostRuntime) {
    assert!(rt; declare_each(rt.alloc()));
}

/// Whether the constant `c` has this number.
fn is_number(repository: &Repository, wanted: i128) -> bool {
    match repository.constant(b"IDL:c:1.0".as_slice()) {
        Some(constant) => matches!(&constant.value, IdlValue::Number(n) if *n == wanted),
        None => false,
    }
}

/// Whether the constant `c` of a text has this number.
fn has_number(alloc: Global, text: &[u8], wanted: i128) -> bool {
    if text.len() > 4000 {
        return false;
    }
    match read_idl(alloc, text) {
        Ok(repository) => is_number(&repository, wanted),
        Err(_) => false,
    }
}

/// Texts, and the number of `c` in each.
const NUMBERS: &[(&[u8], i128)] = &[
    (b"const long c = 12;", 12),
    (b"const long c = 0;", 0),
    (b"const long c = 017;", 15),
    (b"const long c = 0x1fA;", 506),
    (b"const long c = +7;", 7),
    (
        b"const long long c = -0x8000000000000000;",
        -9223372036854775808,
    ),
    (
        b"const unsigned long long c = 18446744073709551615;",
        18446744073709551615,
    ),
    (b"const long a = -3; const short c = a;", -3),
    (
        b"module M { interface I { const octet a = 255; }; }; const long c = ::M::I::a;",
        255,
    ),
    (b"typedef short T; typedef T U; const U c = 5;", 5),
];

fn have_numbers(alloc: Global) -> bool {
    for (text, wanted) in NUMBERS {
        if !has_number(alloc, text, *wanted) {
            return false;
        }
    }
    true
}

#[test]
fn numbers_have_their_forms(rt: HostRuntime) {
    assert!(rt; have_numbers(rt.alloc()));
}
