//! A small repository, which is put together by hand, a script that serves it, and jobs.

use crate::script_names_tests::things::{Deed, Kind, Params, Plain, Thing, repository, text};
use dynamic_servants::Servants;
use idl_types::Way;
use orb_base::{ConnId, Due, Job, List, NoMemory, Order, Outcome, Priority, Serving, Sys};
use script_checks::CheckError;
use servant_scripts::{Script, read_script};
use std::alloc::Global;

pub const BASE: &str = "IDL:M/B:1.0";

pub const DERIVED: &str = "IDL:M/D:1.0";

pub const PING: &str = "IDL:Orb/Ping:1.0";

/// What the servants do.
pub const SCRIPT: &[u8] = b"
servant M::B { op twice(x) { return x * 2; } }
servant M::D {
    op twice(x) { return x * 2; }
    op _get_a() { return 7; }
    op _set_a(a) { if a < 0 { raise M::Bad { why = a, what = \"low\" }; } }
    op mix(x, y, s, p) {
        if x == 1 { set y = 5; set s = \"hi\"; }
        return x == 1;
    }
    op fail(why) { raise M::Bad { why = why * 3, what = \"no\" }; }
    op limit(which, s, l) {
        if which == 1 { let p = new M::Pair { a = 1, s = s }; return p.a; }
        if which == 2 { return 1 / (which - 2) + l[9]; }
        if which == 3 { return l[9] + 1 / (which - 3); }
        return 2147483647 * which;
    }
    op many(s, a, b, c, d) { set a = s; set b = s; set c = s; set d = s; return s; }
    op zeros(b, c, l, e, a, u, v) { }
}
";

const LONG: Kind = Kind::Plain(Plain::Long);

const WORDS: Kind = Kind::Plain(Plain::Words);

const PAIR: Kind = Kind::Struct("IDL:M/Pair:1.0", &[("a", Plain::Long), ("s", Plain::Words)]);

const TWICE: Deed = ("twice", Some(LONG), &[(Way::Input, "x", LONG)], &[]);

const MIX: Params = &[
    (Way::Input, "x", LONG),
    (Way::Output, "y", LONG),
    (Way::Both, "s", WORDS),
    (Way::Output, "p", PAIR),
];

const LIMIT: Params = &[
    (Way::Input, "which", LONG),
    (Way::Input, "s", WORDS),
    (Way::Input, "l", Kind::Seq(Plain::Long)),
];

const MANY: Params = &[
    (Way::Input, "s", WORDS),
    (Way::Output, "a", WORDS),
    (Way::Output, "b", WORDS),
    (Way::Output, "c", WORDS),
    (Way::Output, "d", WORDS),
];

const ZEROS: Params = &[
    (Way::Output, "b", Kind::Plain(Plain::Boolean)),
    (Way::Output, "c", Kind::Plain(Plain::Char)),
    (Way::Output, "l", Kind::Seq(Plain::Long)),
    (
        Way::Output,
        "e",
        Kind::Enum("IDL:M/Color:1.0", &["RED", "GREEN"]),
    ),
    (Way::Output, "a", Kind::Array(Plain::Short, 2)),
    (
        Way::Output,
        "u",
        Kind::Union("IDL:M/U:1.0", Plain::Long, 0, Plain::Octet),
    ),
    (
        Way::Output,
        "v",
        Kind::Union("IDL:M/V:1.0", Plain::Boolean, 1, Plain::Long),
    ),
];

const DEEDS: &[Deed] = &[
    TWICE,
    ("_get_a", Some(LONG), &[], &[]),
    (
        "_set_a",
        None,
        &[(Way::Input, "a", LONG)],
        &["IDL:M/Bad:1.0"],
    ),
    ("mix", Some(Kind::Plain(Plain::Boolean)), MIX, &[]),
    (
        "fail",
        None,
        &[(Way::Input, "why", LONG)],
        &["IDL:M/Bad:1.0"],
    ),
    ("limit", Some(LONG), LIMIT, &[]),
    ("many", Some(WORDS), MANY, &[]),
    ("zeros", None, ZEROS, &[]),
];

/// module M { struct Pair { long a; string s; }; exception Bad { long why; string what; };
/// interface B { long twice(in long x); }; interface D : B { .. }; };
const THINGS: &[Thing] = &[
    Thing::Named("IDL:M/Pair:1.0", PAIR),
    Thing::Exception(
        "IDL:M/Bad:1.0",
        &[("why", Plain::Long), ("what", Plain::Words)],
    ),
    Thing::Interface(BASE, &[], &[TWICE]),
    Thing::Interface(DERIVED, &[BASE], DEEDS),
];

fn script(alloc: Global, text: &[u8]) -> Result<Script, NoMemory> {
    if text.len() > 1_048_576 {
        return Err(NoMemory);
    }
    match read_script(alloc, text) {
        Ok(script) => Ok(script),
        Err(_) => Err(NoMemory),
    }
}

fn boxed<T: Drop>(alloc: Global, item: T) -> Result<Box<T>, CheckError> {
    Ok(Box::new(alloc, item)?)
}

fn checked(alloc: Global, script: &Script) -> Result<Box<Servants>, CheckError> {
    let Ok(things) = repository(alloc, THINGS) else {
        return Err(CheckError::NoMemory);
    };
    match Servants::check(alloc, things, script) {
        Ok(servants) => boxed(alloc, servants),
        Err(e) => Err(e),
    }
}

/// The servants of these things by a script.
pub fn servants(alloc: Global, text: &[u8]) -> Result<Box<Servants>, CheckError> {
    match script(alloc, text) {
        Ok(script) => checked(alloc, &script),
        Err(_) => Err(CheckError::NoMemory),
    }
}

/// Where a request goes: the interface of its object, its byte order, and its operation.
pub type To = (&'static str, Order, &'static str);

/// What is answered.
pub enum Answer {
    /// The body of what is returned.
    Returned(&'static [u8]),
    /// The length of such a body.
    Length(usize),
    /// The body of an exception of the interface's own.
    Raised(&'static [u8]),
    System(Sys),
}

/// A job at priority 100.
fn job(alloc: Global, order: Order, operation: &str, body: &[u8]) -> Result<Job, NoMemory> {
    let Some(priority) = Priority::new(100) else {
        return Err(NoMemory);
    };
    let operation = text(alloc, operation)?;
    let body = Vec::from_slice(alloc, body)?;
    Ok(Job {
        conn: ConnId { slot: 0, nth: 0 },
        serial: 0,
        id: 1,
        order,
        due: Due::Late,
        priority,
        lane: 0,
        size: 0,
        target: 0,
        operation,
        body: List::from_vec(body),
    })
}

fn is_answer(outcome: &Outcome, want: &Answer) -> bool {
    match want {
        Answer::Returned(want) => match outcome {
            Outcome::Returned(body) => body.as_slice() == *want,
            _ => false,
        },
        Answer::Length(want) => match outcome {
            Outcome::Returned(body) => body.as_slice().len() == *want,
            _ => false,
        },
        Answer::Raised(want) => match outcome {
            Outcome::User(body) => body.as_slice() == *want,
            _ => false,
        },
        Answer::System(want) => match outcome {
            Outcome::System(system) => system == want,
            _ => false,
        },
    }
}

fn is_told(alloc: Global, servants: &Servants, interface: &str, job: &Job, want: &Answer) -> bool {
    match text(alloc, interface) {
        Ok(interface) => is_answer(&servants.invoke(&interface, job), want),
        Err(_) => false,
    }
}

/// Whether an object answers this to a request.
pub fn answers(alloc: Global, servants: &Servants, to: &To, body: &[u8], want: &Answer) -> bool {
    let (interface, order, operation) = to;
    match job(alloc, *order, operation, body) {
        Ok(job) => is_told(alloc, servants, interface, &job, want),
        Err(_) => false,
    }
}
