//! Texts that are refused: the cause, and the line and column of the first token at fault, which were counted by hand.

use grammar::ReadError;
use idl_grammar::IdlCause;
use idl_reader::*;
use std::alloc::Global;

/// Whether a text is refused with this cause at this place.
fn is_refused(alloc: Global, text: &[u8], cause: IdlCause, line: u32, column: u32) -> bool {
    if text.len() > 4000 {
        return false;
    }
    match read_idl(alloc, text) {
        Err(ReadError::Refused(fault)) => {
            fault.cause == cause && fault.line == line && fault.column == column
        }
        _ => false,
    }
}

/// Texts, and of the first fault of each its cause, its line and its column.
type Row = (&'static [u8], IdlCause, u32, u32);

fn are_refused(alloc: Global, rows: &[Row]) -> bool {
    for (text, cause, line, column) in rows {
        if !is_refused(alloc, text, *cause, *line, *column) {
            return false;
        }
    }
    true
}

const EACH: &[Row] = &[
    (b"typedef long\n  T; @", IdlCause::BadToken, 2, 6),
    (b"const string s =\n\"abc;", IdlCause::BadToken, 2, 1),
    (b"const char c = 'ab';", IdlCause::BadToken, 1, 16),
    (b"const long c = 1;\n/* open", IdlCause::BadToken, 2, 1),
    (b"interface I\n;", IdlCause::NotInProfile, 2, 1),
    (
        b"interface I {\n  attribute long a raises (E);\n};",
        IdlCause::NotInProfile,
        2,
        20,
    ),
    (
        b"interface I {};\nstruct S { sequence<I> a; };",
        IdlCause::NotInProfile,
        2,
        21,
    ),
    (b"typedef long\nT U;", IdlCause::Expected, 2, 3),
    (b"struct S { long a; }", IdlCause::Expected, 1, 21),
    (b"module M {\n};", IdlCause::Expected, 2, 1),
    (b"typedef long T;\ntypedef V U;", IdlCause::Unknown, 2, 9),
    (
        b"module M { typedef long T; };\ntypedef M::V U;",
        IdlCause::Unknown,
        2,
        12,
    ),
    (b"typedef Orb::Ping T;", IdlCause::Unknown, 1, 9),
    (b"interface I : I {};", IdlCause::Unknown, 1, 15),
    (b"typedef long T;\ntypedef short t;", IdlCause::Clash, 2, 15),
    (b"enum E {\n  A, E };", IdlCause::Clash, 2, 6),
    (b"const long True = 1;", IdlCause::Clash, 1, 12),
    (b"enum E { A };\nconst E e = A;", IdlCause::WrongKind, 2, 7),
    (b"const long x =\n  TRUE;", IdlCause::WrongKind, 2, 3),
    (
        b"module M { const long c = 1; };\ntypedef M T;",
        IdlCause::WrongKind,
        2,
        9,
    ),
    (b"const short s =\n-32769;", IdlCause::OutOfRange, 2, 2),
    (
        b"const unsigned long long u = 18446744073709551616;",
        IdlCause::OutOfRange,
        1,
        30,
    ),
    (b"typedef long T[2][0];", IdlCause::OutOfRange, 1, 19),
    (
        b"interface I {\n  oneway long f();\n};",
        IdlCause::BadOneway,
        2,
        10,
    ),
    (
        b"interface I {\n  oneway void f(in long a, inout long b);\n};",
        IdlCause::BadOneway,
        2,
        28,
    ),
    (
        b"exception E {};\ninterface I { oneway void f() raises (E); };",
        IdlCause::BadOneway,
        2,
        31,
    ),
    (
        b"union U switch (char) {\n  case 'a': case 'a': long a; };",
        IdlCause::TwiceCase,
        2,
        18,
    ),
    (
        b"const long c = 2;\nunion U switch (long) { case 2: long a; case c: long b; };",
        IdlCause::TwiceCase,
        2,
        46,
    ),
    (
        b"struct S {\n  long a[256][257]; };",
        IdlCause::TooLarge,
        2,
        8,
    ),
    (
        b"struct S {\n  long a[65536]; long b; };",
        IdlCause::TooLarge,
        1,
        8,
    ),
    (
        b"typedef octet A[65536];\ntypedef A B, C, D, E, F, G, H, I, J, K, L, M, N, O, P;\nconst long x = 1;",
        IdlCause::TooLarge,
        3,
        12,
    ),
    (
        b"interface T {\n  void m(in m x); };",
        IdlCause::WrongKind,
        2,
        13,
    ),
    (
        b"typedef long m;\ninterface T {\n  m m(in long a,\n    in m x); };",
        IdlCause::WrongKind,
        4,
        8,
    ),
    (
        b"exception X { };\ninterface I { typedef long X;\n  void f() raises (\n    X); };",
        IdlCause::WrongKind,
        4,
        5,
    ),
    (
        b"interface I {\n  void f(in long X)\n    raises (X); };",
        IdlCause::Unknown,
        3,
        13,
    ),
];

#[test]
fn each_cause_stands_at_its_token(rt: HostRuntime) {
    assert!(rt; are_refused(rt.alloc(), EACH));
}

const OF_OTHER_PROFILES: &[Row] = &[
    (b"typedef float T;", IdlCause::NotInProfile, 1, 9),
    (b"typedef double T;", IdlCause::NotInProfile, 1, 9),
    (b"typedef fixed T;", IdlCause::NotInProfile, 1, 9),
    (b"typedef any T;", IdlCause::NotInProfile, 1, 9),
    (b"typedef wchar T;", IdlCause::NotInProfile, 1, 9),
    (b"typedef wstring T;", IdlCause::NotInProfile, 1, 9),
    (b"typedef Object T;", IdlCause::NotInProfile, 1, 9),
    (b"typedef valuetype T;", IdlCause::NotInProfile, 1, 9),
    (b"typedef abstract T;", IdlCause::NotInProfile, 1, 9),
    (b"typedef local T;", IdlCause::NotInProfile, 1, 9),
    (b"typedef native T;", IdlCause::NotInProfile, 1, 9),
    (b"typedef context T;", IdlCause::NotInProfile, 1, 9),
    (b"typedef _T T;", IdlCause::NotInProfile, 1, 9),
    (b"typedef # T;", IdlCause::NotInProfile, 1, 9),
];

#[test]
fn words_of_other_profiles_are_refused(rt: HostRuntime) {
    assert!(rt; are_refused(rt.alloc(), OF_OTHER_PROFILES));
}

const FIRST: &[Row] = &[
    (b"typedef long float;", IdlCause::NotInProfile, 1, 14),
    (
        b"interface I { oneway any f(); };",
        IdlCause::NotInProfile,
        1,
        22,
    ),
    (
        b"interface I { oneway I f(); };",
        IdlCause::NotInProfile,
        1,
        22,
    ),
    (
        b"interface I { oneway sequence<long> f(); };",
        IdlCause::Expected,
        1,
        22,
    ),
    (b"interface I { oneway V f(); };", IdlCause::Unknown, 1, 22),
    (
        b"module M { typedef long T; };\ninterface I { oneway M::V f(); };",
        IdlCause::BadOneway,
        2,
        22,
    ),
    (b"typedef long T, t[300][300];", IdlCause::Clash, 1, 17),
    (b"const char c = 70000;", IdlCause::WrongKind, 1, 16),
    (
        b"union U switch (boolean) { case 18446744073709551616: long a; };",
        IdlCause::WrongKind,
        1,
        33,
    ),
    (
        b"union U switch (short) { case 1: long a; case 65537: long b; };",
        IdlCause::OutOfRange,
        1,
        47,
    ),
];

#[test]
fn the_first_cause_counts_at_a_token(rt: HostRuntime) {
    assert!(rt; are_refused(rt.alloc(), FIRST));
}

const INHERITED: &[Row] = &[
    (
        b"interface A { void f(); };\ninterface B { void f(); };\ninterface C : A, B {};",
        IdlCause::Clash,
        3,
        18,
    ),
    (
        b"interface A { typedef long T; };\ninterface B { typedef long T; };\ninterface C : B, A {};",
        IdlCause::Clash,
        3,
        18,
    ),
    (
        b"interface A { void f(); };\ninterface B : A {};\ninterface C : B { void F(); };",
        IdlCause::Clash,
        3,
        24,
    ),
    (
        b"interface A { attribute long x; };\ninterface B : A {\n  readonly attribute long y, X; };",
        IdlCause::Clash,
        3,
        30,
    ),
    (
        b"interface A { attribute long x; void x(); };",
        IdlCause::Clash,
        1,
        38,
    ),
    (
        b"module M { interface A { void f(); }; };\ninterface B { attribute long f; };\ninterface C : M::A, ::B {};",
        IdlCause::Clash,
        3,
        23,
    ),
];

#[test]
fn inherited_names_clash(rt: HostRuntime) {
    assert!(rt; are_refused(rt.alloc(), INHERITED));
}
