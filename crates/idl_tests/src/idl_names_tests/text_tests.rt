//! Whole texts, each of one line: those that are whole, and the first token at fault of others. Columns were counted by hand.

use grammar::ReadError;
use idl_grammar::IdlCause;
use idl_names::*;
use idl_scopes::Scopes;
use std::alloc::Global;

/// Whether a text is whole.
fn is_whole(alloc: Global, text: &[u8]) -> bool {
    if text.len() > 2000 {
        return false;
    }
    read_names(alloc, text).is_ok()
}

/// Whether the first fault of a text is of this cause, at this column.
fn is_refused(alloc: Global, text: &[u8], cause: IdlCause, column: u32) -> bool {
    if text.len() > 2000 {
        return false;
    }
    match read_names(alloc, text) {
        Err(ReadError::Refused(fault)) => fault.cause == cause && fault.column == column,
        _ => false,
    }
}

const WHOLE: &[&[u8]] = &[
    b"typedef long T; typedef T U;",
    b"module M { typedef long T; }; module M { typedef T U; };",
    b"exception E { long x; }; interface I { void f() raises (E); };",
    b"interface A { void f(); }; interface B : A, A { };",
    b"enum E { X, Y }; union U switch (E) { case X: long a; default: string<5> b[2]; };",
    b"interface I { readonly attribute long a, b; attribute string c; oneway void n(in octet x); };",
    b"const octet c = 0x1F; const short d = -32768; const char e = 'x'; const string<2> s = \"ab\";",
    b"module M { struct S { long a, b[2]; }; }; typedef sequence<M::S, 7> Q; typedef ::M::S P;",
    b"interface I { exception X { }; void f(in long X) raises (X); };",
    b"exception X { }; interface I { void f(in long X, out long Y) raises (X, ::X); };",
    b"interface I { exception X { }; void f(in long X) raises (I::X, X); };",
    b"interface A { exception X { }; }; interface B : A { void f(in long X) raises (X, A::X); };",
    b"typedef long m; interface I { m m(in ::m a); };",
    b"typedef long m; interface I { void m(in long m); ::m n(in ::m m); };",
    b"module M { typedef long f; interface I { void f(in M::f a); }; };",
    b"typedef long t; interface I { attribute t t; attribute ::t u; };",
];

fn are_whole(alloc: Global) -> bool {
    for text in WHOLE {
        if !is_whole(alloc, text) {
            return false;
        }
    }
    true
}

#[test]
fn whole_texts(rt: HostRuntime) {
    assert!(rt; are_whole(rt.alloc()));
}

/// Texts, and of the first fault of each its cause and its column.
type Row = (&'static [u8], IdlCause, u32);

fn are_refused(alloc: Global, rows: &[Row]) -> bool {
    for (text, cause, column) in rows {
        if !is_refused(alloc, text, *cause, *column) {
            return false;
        }
    }
    true
}

const NAMES: &[Row] = &[
    (b"typedef V U;", IdlCause::Unknown, 9),
    (b"struct S { sequence<S> x; };", IdlCause::Unknown, 21),
    (
        b"interface I { void f(in long p); }; typedef I::f::p T;",
        IdlCause::Unknown,
        51,
    ),
    (b"typedef long T; typedef T t;", IdlCause::Clash, 27),
    (
        b"interface A { void f(); }; interface B : A { void F(); };",
        IdlCause::Clash,
        51,
    ),
    (
        b"interface A { attribute long x; }; interface B : A { void x(); };",
        IdlCause::Clash,
        59,
    ),
    (
        b"module M { typedef long T; }; module m { typedef long U; };",
        IdlCause::Clash,
        38,
    ),
    (b"struct S { long s; };", IdlCause::Clash, 17),
    (b"typedef long LONG;", IdlCause::Clash, 14),
    (
        b"typedef long T; struct S { long T; T x; };",
        IdlCause::WrongKind,
        36,
    ),
    (
        b"struct S { long x; }; interface I { void f() raises (S); };",
        IdlCause::WrongKind,
        54,
    ),
    (
        b"interface I { void f(in I x); };",
        IdlCause::NotInProfile,
        25,
    ),
];

#[test]
fn names_at_fault(rt: HostRuntime) {
    assert!(rt; are_refused(rt.alloc(), NAMES));
}

const OPERATIONS: &[Row] = &[
    (b"interface T { void m(in m x); };", IdlCause::WrongKind, 25),
    (
        b"typedef long m; interface T { void m(in m x); };",
        IdlCause::WrongKind,
        41,
    ),
    (
        b"typedef long m; interface T { m m(in m x); };",
        IdlCause::WrongKind,
        38,
    ),
    (
        b"const long m = 3; interface T { void m(in string<m> x); };",
        IdlCause::WrongKind,
        50,
    ),
    (
        b"interface T { void m(in long x, out T::m y); };",
        IdlCause::WrongKind,
        40,
    ),
    (
        b"interface T { void m(in long x, in m::x y); };",
        IdlCause::Unknown,
        39,
    ),
    (b"interface T { void m(in M x); };", IdlCause::Unknown, 25),
    (
        b"interface T { void m(in long x, in n y); void n(); };",
        IdlCause::Unknown,
        36,
    ),
    (
        b"exception f { }; interface I { void f() raises (f); };",
        IdlCause::WrongKind,
        49,
    ),
    (
        b"exception f { }; interface I { void f(in long a) raises (I::f); };",
        IdlCause::WrongKind,
        61,
    ),
    (
        b"interface I { void f(in long X) raises (X); };",
        IdlCause::Unknown,
        41,
    ),
    (
        b"interface I { typedef long X; void f(in long X) raises (X); };",
        IdlCause::WrongKind,
        57,
    ),
    (
        b"typedef long X; interface I { void f(in X X, in X y); };",
        IdlCause::WrongKind,
        49,
    ),
    (
        b"typedef long t; interface I { attribute t t; attribute t u; };",
        IdlCause::WrongKind,
        56,
    ),
];

#[test]
fn operations_are_declared_at_their_names(rt: HostRuntime) {
    assert!(rt; are_refused(rt.alloc(), OPERATIONS));
}

const VALUES: &[Row] = &[
    (b"const char c = -5;", IdlCause::WrongKind, 16),
    (
        b"const octet c = 1; const char d = c;",
        IdlCause::WrongKind,
        35,
    ),
    (b"const octet c = -256;", IdlCause::OutOfRange, 18),
    (b"const short c = +32768;", IdlCause::OutOfRange, 18),
    (
        b"typedef sequence<long, 65537> T;",
        IdlCause::OutOfRange,
        24,
    ),
    (b"typedef string<0> T;", IdlCause::OutOfRange, 16),
    (
        b"interface I { oneway void f(out long x); };",
        IdlCause::BadOneway,
        29,
    ),
    (
        b"exception E { }; interface I { oneway void f() raises (E); };",
        IdlCause::BadOneway,
        48,
    ),
    (
        b"union U switch (long) { case 16: long a; case 0x10: long b; };",
        IdlCause::TwiceCase,
        47,
    ),
    (
        b"union U switch (long) { default: long a; default: long b; };",
        IdlCause::TwiceCase,
        42,
    ),
    (b"typedef long T[300][300];", IdlCause::TooLarge, 14),
];

#[test]
fn values_at_fault(rt: HostRuntime) {
    assert!(rt; are_refused(rt.alloc(), VALUES));
}

fn stand_in_scopes(scopes: &Scopes) -> bool {
    scopes.len() == 2 && scopes.name_at(1) == b"T".as_slice()
}

fn stand_in_things(things: &[Thing]) -> bool {
    things.len() == 2 && matches!(things.get(1), Some(Thing::Type(_)))
}

fn stand_together(names: Names) -> bool {
    let (scopes, things) = names.into_parts();
    stand_in_scopes(&scopes) && stand_in_things(&things)
}

fn stand_by_places(alloc: Global) -> bool {
    match read_names(alloc, b"module M { typedef long T; };".as_slice()) {
        Ok(names) => stand_together(names),
        Err(_) => false,
    }
}

#[test]
fn things_stand_by_the_places_of_names(rt: HostRuntime) {
    assert!(rt; stand_by_places(rt.alloc()));
}
