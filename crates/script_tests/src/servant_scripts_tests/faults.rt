//! Texts that are no scripts, with their first token at fault.

use orb_base::NoMemory;
use servant_scripts::*;
use std::alloc::Global;
use std::test::*;

/// Whether a text has its first token at fault at this line and column, or none.
fn has_fault(alloc: Global, text: &[u8], want: Option<(u32, u32)>) -> bool {
    if text.len() > 1_048_576 {
        return false;
    }
    match read_script(alloc, text) {
        Ok(_) => want.is_none(),
        Err(ScriptError::Refused(fault)) => Some((fault.line, fault.column)) == want,
        Err(ScriptError::NoMemory) => false,
    }
}

/// What follows in the body of a method, whose first column is 18.
fn body(alloc: Global, rest: &str) -> Result<Vec<u8>, NoMemory> {
    let mut text = Vec::new(alloc);
    text.extend_from_slice(b"servant A{op f(){")?;
    text.extend_from_slice(rest.as_bytes())?;
    Ok(text)
}

fn body_has_fault(alloc: Global, rest: &str, want: Option<(u32, u32)>) -> bool {
    match body(alloc, rest) {
        Ok(text) => has_fault(alloc, text.as_slice(), want),
        Err(_) => false,
    }
}

/// Texts, with the line and the column of their first token at fault.
type Rows = &'static [(&'static str, u32, u32)];

const SERVANTS: Rows = &[
    ("x", 1, 1),
    ("servant", 1, 8),
    ("servant _a {}", 1, 9),
    ("servant A::_b {}", 1, 12),
    ("servant A {} op", 1, 14),
    ("servant A{state S;}", 1, 11),
    ("servant A{op let(){}}", 1, 14),
    ("servant A{op _f(){} op __g(){}}", 1, 24),
    ("servant A{op f(_a){}}", 1, 16),
    ("servant A{op f(a b){}}", 1, 18),
    ("servant A{op f(a,){}}", 1, 18),
];

fn all_stop(alloc: Global, rows: Rows) -> bool {
    for (text, line, column) in rows {
        if !has_fault(alloc, text.as_bytes(), Some((*line, *column))) {
            return false;
        }
    }
    true
}

#[test]
fn servants_and_methods_stop_at_their_fault(rt: HostRuntime) {
    assert!(rt; all_stop(rt.alloc(), SERVANTS));
}

fn all_bodies_stop(alloc: Global, rows: Rows) -> bool {
    for (rest, line, column) in rows {
        if !body_has_fault(alloc, rest, Some((*line, *column))) {
            return false;
        }
    }
    true
}

const STATEMENTS: Rows = &[
    ("", 1, 18),
    ("\n  }\n}\n x", 4, 2),
    ("a = 1;", 1, 18),
    ("else {}", 1, 18),
    ("let a b;", 1, 24),
    ("let a = ;", 1, 26),
    ("raise E;", 1, 25),
    ("raise E {}}}", 1, 28),
    ("raise E { x = 1, };", 1, 35),
    ("if a return;", 1, 23),
    ("if a {} else if b {}", 1, 31),
    ("return 1; /* open", 1, 28),
];

#[test]
fn statements_stop_at_their_fault(rt: HostRuntime) {
    assert!(rt; all_bodies_stop(rt.alloc(), STATEMENTS));
}

const EXPRESSIONS: Rows = &[
    ("return 1 == 2 == 3;", 1, 32),
    ("return - -1;", 1, 27),
    ("return a & b;", 1, 27),
    ("return _x;", 1, 25),
    ("return 'a';", 1, 25),
    ("return \"a\nb\";", 1, 25),
    ("return new S {};", 1, 32),
    ("return new S { x 1 };", 1, 35),
    ("return [a, ];", 1, 29),
    ("return a[];", 1, 27),
    ("return priority;", 1, 33),
    ("return len();", 1, 29),
];

#[test]
fn expressions_stop_at_their_fault(rt: HostRuntime) {
    assert!(rt; all_bodies_stop(rt.alloc(), EXPRESSIONS));
}

const NUMBERS: Rows = &[
    ("return 07;", 1, 25),
    ("return 0x7;", 1, 25),
    ("return 00;", 1, 25),
    ("return 08;", 1, 26),
    ("return 1.5;", 1, 27),
    ("return 170141183460469231731687303715884105728;", 1, 25),
    ("return 400000000000000000000000000000000000000;", 1, 25),
];

#[test]
fn numbers_stop_where_they_are_none_of_scripts(rt: HostRuntime) {
    assert!(rt; all_bodies_stop(rt.alloc(), NUMBERS));
}

fn put_many(text: &mut Vec<u8>, byte: u8, count: usize) -> Result<(), NoMemory> {
    for _ in 0..count {
        text.push(byte)?;
    }
    Ok(())
}

fn put_nested(text: &mut Vec<u8>, depth: usize) -> Result<(), NoMemory> {
    put_many(text, b'(', depth)?;
    put_many(text, b'a', 1)?;
    put_many(text, b')', depth)?;
    text.extend_from_slice(b";}}")?;
    Ok(())
}

/// A script whose only expression is in so many parentheses.
fn nested(alloc: Global, depth: usize) -> Result<Vec<u8>, NoMemory> {
    let mut text = body(alloc, "return ")?;
    put_nested(&mut text, depth)?;
    Ok(text)
}

fn nested_has_fault(alloc: Global, depth: usize, want: Option<(u32, u32)>) -> bool {
    match nested(alloc, depth) {
        Ok(text) => has_fault(alloc, text.as_slice(), want),
        Err(_) => false,
    }
}

/// How deep, and what is at fault.
const NESTED: &[(usize, Option<(u32, u32)>)] = &[(62, None), (63, Some((1, 87)))];

fn all_nested_have_faults(alloc: Global) -> bool {
    for (depth, want) in NESTED {
        if !nested_has_fault(alloc, *depth, *want) {
            return false;
        }
    }
    true
}

#[test]
fn sixty_four_brackets_may_be_open(rt: HostRuntime) {
    assert!(rt; all_nested_have_faults(rt.alloc()));
}
