//! The grammar alone: texts that it has, and the first token at fault of others. Columns were counted by hand.
ghost use Rattle.std.specs.Prelude.{◌≡◌};

use grammar::{Builder, MAX_OPEN, ReadError, read_whole};
use idl_grammar::*;
use idl_tokens::{Dialect, Kind, Token, Tokens, tokens_of};
use std::alloc::{AllocError, Global};

/// The place of the newest part of a name, which is all that the faults of the grammar need.
#[derive(Drop)]
struct Outline {
    line: u32,
    column: u32,
}

impl Builder for Outline {
    ghost use Rattle.std.specs.Prelude.{ℕ, Ok, Err};
    ghost use Rattle.idl_grammar.specs.declared.fault.IdlCause.TheVariants as cause;
    ghost use Rattle.idl_grammar.specs.declared.label.IdlLabel.TheVariants as label;
    ghost use Rattle.idl_grammar.specs.IdlRules as Spec;
    ghost use Rattle.idl_grammar.specs.Stopping as stopping;

    type Label = IdlLabel;

    type Inner = Inner;

    type Fault = IdlFault;

    ghost Built = { ℕ × ℕ };

    ghost built = { λ o. (o.line, o.column) };

    ghost inside = { Spec.inside };

    ghost act = { λ l t b. elim l [ label.Refuse c ↦ Err (stopping.fault_at c t) | label.NamePart ↦ Ok (t.line, t.column) | label.LongResultName ↦ Err (record { cause = cause.BadOneway; line = b.0; column = b.1 }) | _ ↦ Ok b ] };

    ghost judge = { λ l b. elim l [ label.ResultName ↦ Err (record { cause = cause.BadOneway; line = b.0; column = b.1 }) | _ ↦ Ok b ] };

    ghost stop = { stopping.stop };

    fn inside(inner: Inner) -> &'static IdlRule {
        inside(inner)
    }

    fn act(&mut self, label: IdlLabel, token: Token<'_>) -> Result<(), ReadError<IdlFault>> {
        match label {
            IdlLabel::Refuse(cause) => Err(ReadError::Refused(IdlFault {
                cause,
                line: token.line,
                column: token.column,
            })),
            IdlLabel::NamePart => {
                self.line = token.line;
                self.column = token.column;
                Ok(())
            }
            IdlLabel::LongResultName => Err(ReadError::Refused(IdlFault {
                cause: IdlCause::BadOneway,
                line: self.line,
                column: self.column,
            })),
            _ => Ok(()),
        }
    }

    fn judge(&mut self, label: IdlLabel) -> Result<(), ReadError<IdlFault>> {
        match label {
            IdlLabel::ResultName => Err(ReadError::Refused(IdlFault {
                cause: IdlCause::BadOneway,
                line: self.line,
                column: self.column,
            })),
            _ => Ok(()),
        }
    }

    fn stop(token: Token<'_>) -> IdlFault {
        stop_at(token)
    }
}

/// Reads tokens by the grammar.
fn read(mut tokens: Tokens<'_>) -> Result<(), ReadError<IdlFault>> {
    let mut outline = Outline { line: 0, column: 0 };
    read_whole(file_rule(), &mut tokens, &mut outline, Kind::End, MAX_OPEN)
}

/// Whether a text is of the grammar.
fn is_read(alloc: Global, text: &[u8]) -> bool {
    if text.len() > 2000 {
        return false;
    }
    match tokens_of(alloc, Dialect::Idl, text) {
        Ok(found) => read(found.stream()).is_ok(),
        Err(_) => false,
    }
}

/// Whether the first fault of a text is of this cause, at this line and column.
fn is_refused(alloc: Global, text: &[u8], line: u32, column: u32, cause: IdlCause) -> bool {
    if text.len() > 2000 {
        return false;
    }
    match tokens_of(alloc, Dialect::Idl, text) {
        Ok(found) => stops(found.stream(), line, column, cause),
        Err(_) => false,
    }
}

/// Whether reading these tokens stops with this cause, at this line and column.
fn stops(tokens: Tokens<'_>, line: u32, column: u32, cause: IdlCause) -> bool {
    match read(tokens) {
        Err(ReadError::Refused(fault)) => {
            fault.cause == cause && fault.line == line && fault.column == column
        }
        _ => false,
    }
}

/// Texts of the grammar.
const TEXTS: &[&[u8]] = &[
    b"",
    b"module M { const long c = 1; }; module M { typedef long T; };",
    b"interface I {}; interface J : I, ::M::K { void f(); };",
    b"typedef boolean B; typedef octet O, P[2][M::n]; typedef char C; typedef short S; typedef long L; typedef long long Q;",
    b"typedef unsigned short A; typedef unsigned long B; typedef unsigned long long C; typedef string T; typedef string<5> U;",
    b"typedef sequence<long> Q; typedef sequence<sequence<string, 2>, ::n> R; typedef ::M::X Y;",
    b"struct S { long a, b[2]; M::T c; }; exception E {}; exception F { long x; };",
    b"union U switch (M::E) { case A: case ::M::B: long a; default: string b[2]; }; union V switch (boolean) { case TRUE: octet o; };",
    b"union U switch (unsigned long) { case -1: case +2: long a; }; union V switch (char) { case 'a': octet o; };",
    b"enum E { A }; enum F { B, C, D };",
    b"const octet c = 0x1F; const string s = \"hi\"; const boolean b = FALSE; const string<3> d = ::s;",
    b"interface I { typedef long T; struct S { T t; }; enum Q { A }; exception E {}; const T c = 1; union U switch (long) { case 1: T a; }; };",
    b"interface I { readonly attribute T a; attribute string b, c; oneway void n(in long x); T f(in T x, out T y, inout T z) raises (E, ::M::F); };",
];

fn are_read(alloc: Global) -> bool {
    for text in TEXTS {
        if !is_read(alloc, text) {
            return false;
        }
    }
    true
}

#[test]
fn each_rule_has_its_texts(rt: HostRuntime) {
    assert!(rt; are_read(rt.alloc()));
}

/// Texts, and of the first fault of each its line, its column and its cause.
const AT_FAULT: &[(&[u8], u32, u32, IdlCause)] = &[
    (b"interface I;", 1, 12, IdlCause::NotInProfile),
    (
        b"interface I { attribute long a raises (E); };",
        1,
        32,
        IdlCause::NotInProfile,
    ),
    (
        b"interface A { float f(); };",
        1,
        15,
        IdlCause::NotInProfile,
    ),
    (b"typedef long _x;", 1, 14, IdlCause::NotInProfile),
    (b"# pragma", 1, 1, IdlCause::NotInProfile),
    (
        b"union U switch (octet) { case 1: long a; };",
        1,
        17,
        IdlCause::WrongKind,
    ),
    (
        b"union U switch (string<3>) { case 1: long a; };",
        1,
        17,
        IdlCause::WrongKind,
    ),
    (b"const sequence<long> c = 1;", 1, 7, IdlCause::WrongKind),
    (
        b"interface I { oneway long f(); };",
        1,
        22,
        IdlCause::BadOneway,
    ),
    (
        b"interface I { oneway X f(); };",
        1,
        22,
        IdlCause::BadOneway,
    ),
    (
        b"interface I { oneway M::X f(); };",
        1,
        22,
        IdlCause::BadOneway,
    ),
    (
        b"interface I { oneway ::X f(); };",
        1,
        22,
        IdlCause::BadOneway,
    ),
    (
        b"interface I { oneway sequence<long> f(); };",
        1,
        22,
        IdlCause::Expected,
    ),
    (b"module M { };", 1, 12, IdlCause::Expected),
    (b"struct S { };", 1, 12, IdlCause::Expected),
    (b"enum E { A, };", 1, 13, IdlCause::Expected),
    (b"typedef long T\n", 2, 1, IdlCause::Expected),
    (b"const long c = -;", 1, 17, IdlCause::Expected),
    (b"const long c = 08;", 1, 17, IdlCause::Expected),
    (
        b"typedef sequence<long, 1, 2> T;",
        1,
        25,
        IdlCause::Expected,
    ),
    (b"typedef unsigned boolean T;", 1, 18, IdlCause::Expected),
    (
        b"interface I { long long long f(); };",
        1,
        25,
        IdlCause::Expected,
    ),
    (
        b"interface I { void f(long x); };",
        1,
        22,
        IdlCause::Expected,
    ),
    (
        b"interface I { void f() raises (); };",
        1,
        32,
        IdlCause::Expected,
    ),
    (b"typedef long T[];", 1, 16, IdlCause::Expected),
    (b"typedef long\n@;", 2, 1, IdlCause::BadToken),
    (b"typedef long /* T;", 1, 14, IdlCause::BadToken),
];

fn are_refused(alloc: Global) -> bool {
    for (text, line, column, cause) in AT_FAULT {
        if !is_refused(alloc, text, *line, *column, *cause) {
            return false;
        }
    }
    true
}

#[test]
fn a_text_is_refused_at_its_first_token_at_fault(rt: HostRuntime) {
    assert!(rt; are_refused(rt.alloc()));
}

/// Appends a word so many times.
fn repeat(text: &mut Vec<u8>, word: &[u8], times: u8) -> Result<(), AllocError> {
    for _ in 0..times {
        text.extend_from_slice(word)?;
    }
    Ok(())
}

/// A typedef of so many sequences in one another, fewer than 100.
fn nested(alloc: Global, times: u8) -> Result<Vec<u8>, AllocError> {
    let mut text = Vec::from_slice(alloc, b"typedef ")?;
    repeat(&mut text, b"sequence<", times)?;
    repeat(&mut text, b"long", 1)?;
    repeat(&mut text, b">", times)?;
    repeat(&mut text, b" T;", 1)?;
    Ok(text)
}

fn takes_64(alloc: Global) -> bool {
    match nested(alloc, 64) {
        Ok(text) => is_read(alloc, text.as_slice()),
        Err(_) => false,
    }
}

fn refuses_65(alloc: Global) -> bool {
    match nested(alloc, 65) {
        Ok(text) => is_refused(alloc, text.as_slice(), 1, 593, IdlCause::Expected),
        Err(_) => false,
    }
}

#[test]
fn sixty_four_brackets_may_be_open(rt: HostRuntime) {
    assert!(rt; takes_64(rt.alloc()));
    assert!(rt; refuses_65(rt.alloc()));
}
