//! Each production with its tree.

use super::show::{is_shown, script_in};
use orb_base::NoMemory;
use servant_scripts::*;
use std::alloc::Global;
use std::test::*;

fn between(alloc: Global, front: &[u8], text: &str, behind: &[u8]) -> Result<Vec<u8>, NoMemory> {
    let mut all = Vec::from_slice(alloc, front)?;
    all.extend_from_slice(text.as_bytes())?;
    all.extend_from_slice(behind)?;
    Ok(all)
}

/// A script whose only expression is this one.
fn with_value(alloc: Global, expression: &str) -> Result<Vec<u8>, NoMemory> {
    between(alloc, b"servant A { op f() { return ", expression, b"; } }")
}

/// Whether such a script has this short form.
fn is_form(alloc: Global, expression: &str, want: &[u8]) -> bool {
    match with_value(alloc, expression) {
        Ok(text) => is_shown(alloc, text.as_slice(), want),
        Err(_) => false,
    }
}

/// Whether an expression has this tree.
fn is_tree(alloc: Global, expression: &str, tree: &str) -> bool {
    match between(alloc, b"A{op f{return ", tree, b";}}") {
        Ok(want) => is_form(alloc, expression, want.as_slice()),
        Err(_) => false,
    }
}

/// Texts and their trees.
type Rows = &'static [(&'static str, &'static str)];

fn all_are_trees(alloc: Global, rows: Rows) -> bool {
    for (expression, tree) in rows {
        if !is_tree(alloc, expression, tree) {
            return false;
        }
    }
    true
}

const OPERATORS: Rows = &[
    ("a - b - c", "((a-b)-c)"),
    ("a + b * c - d / e % f", "((a+(b*c))-((d/e)%f))"),
    ("a * b + c", "((a*b)+c)"),
    ("a || b && c || d", "((a||(b&&c))||d)"),
    ("a && b || c", "((a&&b)||c)"),
    ("a == b && c != d", "((a==b)&&(c!=d))"),
    ("a < b || a <= b", "((a<b)||(a<=b))"),
    ("a + 1 > b && a >= b + 1", "(((a+1)>b)&&(a>=(b+1)))"),
    ("(a - b) - (c - d)", "(~(a-b)-~(c-d))"),
];

#[test]
fn operators_group_by_rank_and_to_the_left(rt: HostRuntime) {
    assert!(rt; all_are_trees(rt.alloc(), OPERATORS));
}

const SIGNS: Rows = &[
    ("-a.b[c]", "-((a.b)@c)"),
    ("-a * !b", "(-a*!b)"),
    ("-(-1)", "-~-1"),
    ("a[b + c].d.e[1]", "((((a@(b+c)).d).e)@1)"),
    ("len(a.b) - 1", "(#(a.b)-1)"),
    ("(a).b", "(~a.b)"),
    ("[a][1]", "([a,]@1)"),
];

#[test]
fn signs_stand_before_suffixes(rt: HostRuntime) {
    assert!(rt; all_are_trees(rt.alloc(), SIGNS));
}

const ATOMS: Rows = &[
    ("1", "1"),
    ("\"a // b\"", "'a // b"),
    ("\"\"", "'"),
    ("TRUE", "T"),
    ("FALSE", "F"),
    ("priority()", "p()"),
    ("priority ( ) /* now */ + 1", "(p()+1)"),
    ("::M::x", "::M::x"),
    ("M::N::x.y", "(M::N::x.y)"),
    ("new M::S { x = 1 }", "new M::S{x=1,}"),
    (
        "new S { x = a + b, y = new T { z = c } }.x",
        "(new S{x=(a+b),y=new T{z=c,},}.x)",
    ),
    ("[]", "[]"),
    ("[a, [b, []], -1]", "[a,[b,[],],-1,]"),
];

#[test]
fn atoms_are_what_they_say(rt: HostRuntime) {
    assert!(rt; all_are_trees(rt.alloc(), ATOMS));
}

const STATEMENTS: Rows = &[
    ("", ""),
    (" // none\n", ""),
    (
        "servant ::M::V { op f() { } op _get_a(x, y) { return; } } servant W { }",
        "::M::V{op f{}op _get_a x y{leave;}}W{}",
    ),
    (
        "servant A { op f(a) { let b = a; set a = b + 1; return a; } }",
        "A{op f a{let b a;set a (b+1);return a;}}",
    ),
    (
        "servant A { op f() { if a { return; } if b { } else { set c = 1; } } }",
        "A{op f{if a{leave;}{};if b{}{set c 1;};}}",
    ),
    (
        "servant A { op f() { if a { if b { set c = 1; } } else { set d = 1; } set e = 1; } }",
        "A{op f{if a{if b{set c 1;}{};}{set d 1;};set e 1;}}",
    ),
    (
        "servant A { op f() { raise E { }; raise M::E { x = 1, y = [] }; } }",
        "A{op f{raise E{};raise M::E{x=1,y=[],};}}",
    ),
];

fn all_are_shown(alloc: Global) -> bool {
    for (text, tree) in STATEMENTS {
        if !is_shown(alloc, text.as_bytes(), tree.as_bytes()) {
            return false;
        }
    }
    true
}

#[test]
fn statements_are_what_they_say(rt: HostRuntime) {
    assert!(rt; all_are_shown(rt.alloc()));
}

/// The only expression of a script.
fn value(script: &Script) -> Option<&Phrase> {
    match script.servants.first()?.methods.first()?.body.first()? {
        Line::Return(_, phrase) => Some(phrase),
        _ => None,
    }
}

fn is_number(script: &Script, want: i128) -> bool {
    match value(script) {
        Some(phrase) => match phrase.form {
            Form::Number(z) => z == want,
            _ => false,
        },
        None => false,
    }
}

/// Scripts whose only expression is a number.
const NUMBERS: &[(&str, i128)] = &[
    ("servant A { op f() { return 0; } }", 0),
    ("servant A { op f() { return 1203; } }", 1203),
    (
        "servant A { op f() { return 170141183460469231731687303715884105727; } }",
        i128::MAX,
    ),
];

fn reads_number(alloc: Global, text: &str, want: i128) -> bool {
    match script_in(alloc, text.as_bytes()) {
        Ok(script) => is_number(&script, want),
        Err(_) => false,
    }
}

fn all_are_numbers(alloc: Global) -> bool {
    for (text, want) in NUMBERS {
        if !reads_number(alloc, text, *want) {
            return false;
        }
    }
    true
}

#[test]
fn numbers_go_up_to_the_greatest(rt: HostRuntime) {
    assert!(rt; all_are_numbers(rt.alloc()));
}

/// A text of 1,048,576 bytes: one sum of 524,274 parts.
fn long_sum(alloc: Global) -> Result<Vec<u8>, NoMemory> {
    let mut text = Vec::new(alloc);
    text.extend_from_slice(b"servant A{op f(a){return a")?;
    for _ in 0..524_273 {
        text.extend_from_slice(b"+a")?;
    }
    text.extend_from_slice(b";}} ")?;
    Ok(text)
}

/// Whether the only expression of a script has so many links.
fn has_links(script: &Script, want: usize) -> bool {
    match value(script) {
        Some(phrase) => phrase.links.len() == want,
        None => false,
    }
}

fn reads_links(alloc: Global, text: &[u8], want: usize) -> bool {
    match script_in(alloc, text) {
        Ok(script) => has_links(&script, want),
        Err(_) => false,
    }
}

fn a_long_sum_is_read(alloc: Global) -> bool {
    match long_sum(alloc) {
        Ok(text) => text.len() == 1_048_576 && reads_links(alloc, text.as_slice(), 524_273),
        Err(_) => false,
    }
}

#[test]
fn a_long_sum_is_a_list_of_links(rt: HostRuntime) {
    assert!(rt; a_long_sum_is_read(rt.alloc()));
}
