//! Scripts over a small repository, which is put together by hand: each cause at its token, and what is run. Columns were
//! counted by hand.

use crate::script_names_tests::things::{Deed, Kind, Plain, Thing, put, with_ping};
use cdr_values::IdlValue;
use idl_types::{Repository, Way};
use orb_base::{NoMemory, Priority};
use script_checks::*;
use script_values::{Flow, Stmt, run};
use servant_scripts::{Script, read_script};
use std::alloc::Global;
use std::test::*;

const COLOR: Kind = Kind::Enum("IDL:M/Color:1.0", &["RED", "GREEN"]);

const PAIR: Kind = Kind::Struct("IDL:M/Pair:1.0", &[("a", Plain::Long), ("s", Plain::Words)]);

const DEEDS: &[Deed] = &[
    (
        "f",
        Some(Kind::Plain(Plain::Long)),
        &[
            (Way::Input, "x", Kind::Plain(Plain::Long)),
            (Way::Both, "l", Kind::Seq(Plain::Long)),
        ],
        &["IDL:M/Bad:1.0"],
    ),
    ("g", None, &[], &[]),
];

/// module M { enum Color { RED, GREEN }; struct Pair { long a; string s; }; const long LIMIT = 5;
/// exception Bad { long why; }; exception Other {};
/// interface I { long f(in long x, inout sequence<long> l) raises (Bad); void g(); }; };
const THINGS: &[Thing] = &[
    Thing::Named("IDL:M/Color:1.0", COLOR),
    Thing::Named("IDL:M/Pair:1.0", PAIR),
    Thing::Constant("IDL:M/LIMIT:1.0", 5),
    Thing::Exception("IDL:M/Bad:1.0", &[("why", Plain::Long)]),
    Thing::Exception("IDL:M/Other:1.0", &[]),
    Thing::Interface("IDL:M/I:1.0", &[], DEEDS),
];

/// These things and the built-in module.
fn some_things(alloc: Global) -> Result<Box<Repository>, NoMemory> {
    with_ping(alloc, THINGS)
}

fn script(alloc: Global, text: &[u8]) -> Result<Script, NoMemory> {
    if text.len() > 1_048_576 {
        return Err(NoMemory);
    }
    match read_script(alloc, text) {
        Ok(script) => Ok(script),
        Err(_) => Err(NoMemory),
    }
}

/// The script whose `f` has this body; it begins in column 32.
fn with_body(alloc: Global, body: &[u8]) -> Result<Script, NoMemory> {
    let mut text = Vec::from_slice(alloc, b"servant M::I{op g(){}op f(x,l){")?;
    text.extend_from_slice(body)?;
    text.extend_from_slice(b"}}")?;
    script(alloc, text.as_slice())
}

/// A cause, with its line and its column.
type At = (CheckCause, u32, u32);

/// Whether a script has this fault, or none.
fn is_judged(alloc: Global, things: &Repository, script: &Script, want: Option<At>) -> bool {
    match check(alloc, things, script) {
        Ok(_) => want.is_none(),
        Err(CheckError::Refused(fault)) => Some((fault.cause, fault.line, fault.column)) == want,
        Err(CheckError::NoMemory) => false,
    }
}

/// The same of a script that was read.
fn is_read(
    alloc: Global,
    things: &Repository,
    script: Result<Script, NoMemory>,
    want: Option<At>,
) -> bool {
    match script {
        Ok(script) => is_judged(alloc, things, &script, want),
        Err(_) => false,
    }
}

/// Texts with the cause and the column of their fault, which is in line 1.
type Rows = &'static [(&'static str, CheckCause, u32)];

fn each_stops(alloc: Global, things: &Repository, rows: Rows) -> bool {
    for (text, cause, column) in rows {
        let script = script(alloc, text.as_bytes());
        if !is_read(alloc, things, script, Some((*cause, 1, *column))) {
            return false;
        }
    }
    true
}

fn all_stop(alloc: Global, rows: Rows) -> bool {
    match some_things(alloc) {
        Ok(things) => each_stops(alloc, &things, rows),
        Err(_) => false,
    }
}

const SERVANTS: Rows = &[
    ("servant X{}", CheckCause::UnknownInterface, 9),
    ("servant M::X{}", CheckCause::UnknownInterface, 12),
    ("servant M::Pair{}", CheckCause::UnknownInterface, 12),
    ("servant Orb::Ping{}", CheckCause::Twice, 14),
    ("servant M::I{op h(){}}", CheckCause::UnknownOperation, 17),
    ("servant M::I{op g(){}op g(){}}", CheckCause::Twice, 25),
    ("servant M::I{op g(a){}}", CheckCause::ParameterNames, 19),
    ("servant M::I{op f(x){}}", CheckCause::ParameterNames, 20),
    ("servant M::I{op f(l,x){}}", CheckCause::ParameterNames, 19),
    ("servant M::I{op g(){return 1;}}", CheckCause::Kind, 28),
    ("servant M::I{op g(){}}", CheckCause::Missing, 1),
    ("servant M::I{op g(){}}servant X{}", CheckCause::Missing, 1),
    (
        "servant M::I{op g(){set y=1;}}",
        CheckCause::UnknownName,
        25,
    ),
    (
        "servant M::I{op g(){}op f(x,l){return 1;}}servant M::I{}",
        CheckCause::Twice,
        54,
    ),
];

#[test]
fn servants_and_methods_stop_at_their_first_fault(rt: HostRuntime) {
    assert!(rt; all_stop(rt.alloc(), SERVANTS));
}

fn each_body_stops(alloc: Global, things: &Repository, rows: Rows) -> bool {
    for (body, cause, column) in rows {
        let script = with_body(alloc, body.as_bytes());
        if !is_read(alloc, things, script, Some((*cause, 1, *column))) {
            return false;
        }
    }
    true
}

fn all_bodies_stop(alloc: Global, rows: Rows) -> bool {
    match some_things(alloc) {
        Ok(things) => each_body_stops(alloc, &things, rows),
        Err(_) => false,
    }
}

const BODIES: Rows = &[
    ("return y;", CheckCause::UnknownName, 39),
    ("return TRUE;", CheckCause::Kind, 39),
    ("", CheckCause::MissingReturn, 32),
    ("if x==1{return 1;}", CheckCause::MissingReturn, 50),
    ("let a=1;let a=2;return a;", CheckCause::Twice, 44),
    ("let x=1;return x;", CheckCause::Twice, 36),
    ("let a=a;", CheckCause::UnknownName, 38),
    ("if TRUE{let a=1;}return a;", CheckCause::UnknownName, 56),
    ("set x=1;", CheckCause::NotSettable, 36),
    ("set y=1;", CheckCause::UnknownName, 36),
    ("set l=1;", CheckCause::Kind, 38),
    ("set l=[1,TRUE];", CheckCause::Kind, 41),
    ("raise M::Other{};", CheckCause::NotRaised, 41),
    ("raise M::Pair{};", CheckCause::Kind, 41),
    ("raise Bad{};", CheckCause::Members, 42),
    ("let p=new Pair{a=1};", CheckCause::Members, 50),
    ("let p=new Pair{b=1};", CheckCause::Members, 47),
    ("let p=new Pair{a=1,a=2};", CheckCause::Members, 51),
    ("let p=new M::I{a=1};", CheckCause::Kind, 45),
    ("return x.a;", CheckCause::Kind, 39),
    (
        "return new Pair{a=1,s=\"\"}.z;",
        CheckCause::UnknownName,
        58,
    ),
    ("let a=[1];", CheckCause::Kind, 38),
    ("return len(x);", CheckCause::Kind, 43),
    ("if RED==1{}return 1;", CheckCause::Kind, 40),
    ("if l==l{}return 1;", CheckCause::Kind, 35),
    ("return -TRUE;", CheckCause::Kind, 40),
    ("return;", CheckCause::Kind, 32),
    ("return M;", CheckCause::Kind, 39),
    ("let a=1+(2+TRUE)+TRUE;return y;", CheckCause::Kind, 43),
];

#[test]
fn statements_and_expressions_stop_at_their_first_fault(rt: HostRuntime) {
    assert!(rt; all_bodies_stop(rt.alloc(), BODIES));
}

const CHECKED: &[&str] = &[
    "return x;",
    "if TRUE{let a=1;}let a=2;return a;",
    "let RED=TRUE;if RED{}return 1;",
    "set l=[1,x];return len(l)+l[0];",
    "raise M::Bad{why=1};",
    "return new Pair{s=\"t\",a=LIMIT}.a;",
    "if x==1{return 1;}else{raise Bad{why=x};}",
    "set l=([x]);return 1;",
];

fn each_body_passes(alloc: Global, things: &Repository, bodies: &[&str]) -> bool {
    for body in bodies {
        if !is_read(alloc, things, with_body(alloc, body.as_bytes()), None) {
            return false;
        }
    }
    true
}

fn all_bodies_pass(alloc: Global, bodies: &[&str]) -> bool {
    match some_things(alloc) {
        Ok(things) => each_body_passes(alloc, &things, bodies),
        Err(_) => false,
    }
}

#[test]
fn scripts_without_a_fault_are_checked(rt: HostRuntime) {
    assert!(rt; all_bodies_pass(rt.alloc(), CHECKED));
}

/// A body of so many `let`, each on a line of its own after the first.
fn lets(alloc: Global, count: u32) -> Result<Vec<u8>, NoMemory> {
    let mut body = Vec::new(alloc);
    for _ in 0..count {
        body.extend_from_slice(b"if TRUE{\nlet a=1;}")?;
    }
    body.extend_from_slice(b"return 1;")?;
    Ok(body)
}

fn with_lets(alloc: Global, count: u32) -> Result<Script, NoMemory> {
    let body = lets(alloc, count)?;
    with_body(alloc, body.as_slice())
}

fn has_64_lets_at_most(alloc: Global, things: &Repository) -> bool {
    is_read(alloc, things, with_lets(alloc, 64), None)
        && is_read(
            alloc,
            things,
            with_lets(alloc, 65),
            Some((CheckCause::TooManyLets, 66, 1)),
        )
}

fn methods_have_64_lets_at_most(alloc: Global) -> bool {
    match some_things(alloc) {
        Ok(things) => has_64_lets_at_most(alloc, &things),
        Err(_) => false,
    }
}

#[test]
fn a_method_has_64_lets_at_most(rt: HostRuntime) {
    assert!(rt; methods_have_64_lets_at_most(rt.alloc()));
}

/// The second method of the first servant.
fn method(checked: &CheckedScript) -> Option<&CheckedMethod> {
    checked.servants.get(0)?.methods.get(1)
}

/// Puts the variables: 3, an empty list, and two that are FALSE.
fn puts_each(alloc: Global, slots: &mut Vec<IdlValue>) -> bool {
    put(slots, IdlValue::Number(3))
        && put(slots, IdlValue::Items(Vec::new(alloc)))
        && put(slots, IdlValue::Boolean(false))
        && put(slots, IdlValue::Boolean(false))
}

fn is_number(flow: &Flow, want: i128) -> bool {
    match flow {
        Flow::Returned(IdlValue::Number(n)) => *n == want,
        _ => false,
    }
}

/// Whether statements give this number on some variables, at priority 7.
fn gives(
    alloc: Global,
    things: &Repository,
    body: &[Stmt],
    slots: &mut Vec<IdlValue>,
    want: i128,
) -> bool {
    let Some(priority) = Priority::new(7) else {
        return false;
    };
    match run(body, things, alloc, priority, slots) {
        Ok(flow) => is_number(&flow, want),
        Err(_) => false,
    }
}

/// Whether a method gives 56 and has two `let`.
fn comes_to_56(alloc: Global, things: &Repository, method: &CheckedMethod) -> bool {
    let mut slots = Vec::new(alloc);
    puts_each(alloc, &mut slots)
        && gives(alloc, things, method.body.as_slice(), &mut slots, 56)
        && method.lets == 2
}

fn runs_when_checked(alloc: Global, things: &Repository, script: &Script) -> bool {
    match check(alloc, things, script) {
        Ok(checked) => match method(&checked) {
            Some(method) => comes_to_56(alloc, things, method),
            None => false,
        },
        Err(_) => false,
    }
}

const RUN: &[u8] =
    b"let p=new Pair{s=\"t\",a=x*2};let b=GREEN==M::GREEN||x==1;set l=[p.a,LIMIT];return l[0]+l[1]*10;";

fn a_script_runs(alloc: Global) -> bool {
    let Ok(script) = with_body(alloc, RUN) else {
        return false;
    };
    match some_things(alloc) {
        Ok(things) => runs_when_checked(alloc, &things, &script),
        Err(_) => false,
    }
}

#[test]
fn a_checked_script_runs_on_slots_and_indexes(rt: HostRuntime) {
    assert!(rt; a_script_runs(rt.alloc()));
}
