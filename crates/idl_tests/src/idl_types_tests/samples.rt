//! What the tests declare, built by hand by the rules of CORBA 3.0.3, chapter 3.
ghost use Rattle.std.specs.Prelude.{IsTrue};
ghost use Rattle.idl_types.specs.Views.{thing_of};
ghost use Rattle.idl_types.specs.Contents.{things_of};
ghost use Rattle.idl_types.specs.Declaring.{may_declare};

use cdr_values::{Case, IdlType, IdlValue, Member};
use idl_types::*;
use orb_base::{List, Text};
use std::alloc::Global;
use std::process::Abort;

pub(crate) fn text<R: Abort>(rt: &R, alloc: Global, bytes: &[u8]) -> Text {
    match Text::new(alloc, bytes) {
        Ok(text) => text,
        Err(_) => rt.panic("a text"),
    }
}

/// A type in a box.
fn boxed<R: Abort>(rt: &R, alloc: Global, kind: IdlType) -> Box<IdlType> {
    match Box::new(alloc, kind) {
        Ok(kind) => kind,
        Err(_) => rt.panic("memory"),
    }
}

/// Puts one thing more after others.
pub(crate) fn push<R: Abort, T: Drop>(rt: &R, list: &mut Vec<T>, item: T) {
    match list.push(item) {
        Ok(()) => {}
        Err(_) => rt.panic("memory"),
    }
}

fn texts<R: Abort>(rt: &R, alloc: Global, names: &[&[u8]]) -> List<Text> {
    let mut list = Vec::new(alloc);
    for name in names {
        push(rt, &mut list, text(rt, alloc, name));
    }
    List::from_vec(list)
}

/// An unbounded sequence.
pub(crate) fn seq<R: Abort>(rt: &R, alloc: Global, element: IdlType) -> IdlType {
    IdlType::Seq(boxed(rt, alloc, element), 0)
}

pub(crate) fn array<R: Abort>(rt: &R, alloc: Global, element: IdlType, len: u32) -> IdlType {
    IdlType::Array(boxed(rt, alloc, element), len)
}

/// So many sequences around an octet: as many levels, and one leaf more.
pub(crate) fn nested<R: Abort>(rt: &R, alloc: Global, count: u32) -> IdlType {
    let mut kind = IdlType::Octet;
    for _ in 0..count {
        kind = seq(rt, alloc, kind);
    }
    kind
}

fn member<R: Abort>(rt: &R, alloc: Global, name: &[u8], kind: IdlType) -> Member {
    Member {
        name: text(rt, alloc, name),
        kind,
    }
}

/// Members `octet x; TYPE NAME;`
pub(crate) fn pair<R: Abort>(rt: &R, alloc: Global, name: &[u8], kind: IdlType) -> Vec<Member> {
    let mut members = Vec::new(alloc);
    push(rt, &mut members, member(rt, alloc, b"x", IdlType::Octet));
    push(rt, &mut members, member(rt, alloc, name, kind));
    members
}

pub(crate) fn structure<R: Abort>(rt: &R, alloc: Global, members: Vec<Member>) -> IdlType {
    IdlType::Struct(text(rt, alloc, b"S"), members)
}

/// `enum E { LABEL, .. };`
pub(crate) fn labels<R: Abort>(rt: &R, alloc: Global, names: &[&[u8]]) -> IdlType {
    IdlType::Enum(text(rt, alloc, b"E"), texts(rt, alloc, names))
}

/// One label.
fn numbers<R: Abort>(rt: &R, alloc: Global, label: i128) -> List<i128> {
    let mut labels = Vec::new(alloc);
    push(rt, &mut labels, label);
    List::from_vec(labels)
}

/// `case LABEL: octet NAME;`
fn case<R: Abort>(rt: &R, alloc: Global, label: i128, name: &[u8]) -> Case {
    Case {
        labels: numbers(rt, alloc, label),
        is_default: false,
        member: member(rt, alloc, name, IdlType::Octet),
    }
}

fn cases<R: Abort>(rt: &R, alloc: Global, first: &[u8], second: &[u8]) -> Vec<Case> {
    let mut cases = Vec::new(alloc);
    push(rt, &mut cases, case(rt, alloc, 1, first));
    push(rt, &mut cases, case(rt, alloc, 2, second));
    cases
}

/// `union U switch (short) { case 1: octet FIRST; case 2: octet SECOND; };`
pub(crate) fn union<R: Abort>(rt: &R, alloc: Global, first: &[u8], second: &[u8]) -> IdlType {
    let tag = boxed(rt, alloc, IdlType::Short);
    IdlType::Union(text(rt, alloc, b"U"), tag, cases(rt, alloc, first, second))
}

/// `in TYPE NAME`
fn param<R: Abort>(rt: &R, alloc: Global, name: &[u8], kind: IdlType) -> Param {
    Param {
        way: Way::Input,
        name: text(rt, alloc, name),
        kind,
    }
}

/// Parameters of type long.
pub(crate) fn longs<R: Abort>(rt: &R, alloc: Global, names: &[&[u8]]) -> List<Param> {
    let mut list = Vec::new(alloc);
    for name in names {
        push(rt, &mut list, param(rt, alloc, name, IdlType::Long));
    }
    List::from_vec(list)
}

/// One parameter.
pub(crate) fn param_x<R: Abort>(rt: &R, alloc: Global, kind: IdlType) -> List<Param> {
    let mut list = Vec::new(alloc);
    push(rt, &mut list, param(rt, alloc, b"x", kind));
    List::from_vec(list)
}

pub(crate) fn operation<R: Abort>(
    rt: &R,
    alloc: Global,
    name: &[u8],
    outcome: Option<IdlType>,
    params: List<Param>,
) -> Operation {
    Operation {
        name: text(rt, alloc, name),
        oneway: false,
        result: outcome,
        params,
        raises: List::new(alloc),
    }
}

/// `TYPE NAME();`
pub(crate) fn getter<R: Abort>(rt: &R, alloc: Global, name: &[u8], kind: IdlType) -> Operation {
    operation(rt, alloc, name, Some(kind), List::new(alloc))
}

/// Operations `octet NAME();`
fn plains<R: Abort>(rt: &R, alloc: Global, names: &[&[u8]]) -> List<Operation> {
    let mut list = Vec::new(alloc);
    for name in names {
        push(rt, &mut list, getter(rt, alloc, name, IdlType::Octet));
    }
    List::from_vec(list)
}

/// One operation.
pub(crate) fn alone<R: Abort>(rt: &R, alloc: Global, operation: Operation) -> List<Operation> {
    let mut list = Vec::new(alloc);
    push(rt, &mut list, operation);
    List::from_vec(list)
}

pub(crate) fn interface<R: Abort>(
    rt: &R,
    alloc: Global,
    id: &[u8],
    bases: &[&[u8]],
    operations: List<Operation>,
) -> Declaration {
    Declaration::Interface(Interface {
        id: text(rt, alloc, id),
        bases: texts(rt, alloc, bases),
        operations,
    })
}

/// An interface of operations `octet NAME();`
pub(crate) fn plain_interface<R: Abort>(
    rt: &R,
    alloc: Global,
    id: &[u8],
    bases: &[&[u8]],
    names: &[&[u8]],
) -> Declaration {
    interface(rt, alloc, id, bases, plains(rt, alloc, names))
}

pub(crate) fn named<R: Abort>(rt: &R, alloc: Global, id: &[u8], kind: IdlType) -> Declaration {
    Declaration::Named(NamedType {
        id: text(rt, alloc, id),
        kind,
    })
}

pub(crate) fn constant<R: Abort>(
    rt: &R,
    alloc: Global,
    id: &[u8],
    kind: IdlType,
    value: IdlValue,
) -> Declaration {
    Declaration::Constant(Constant {
        id: text(rt, alloc, id),
        kind,
        value,
    })
}

pub(crate) fn exception<R: Abort>(
    rt: &R,
    alloc: Global,
    id: &[u8],
    members: Vec<Member>,
) -> Declaration {
    Declaration::Exception(Exception {
        id: text(rt, alloc, id),
        members: List::from_vec(members),
    })
}

fn accepts(all: &Repository, declaration: &Declaration, want: bool) -> bool {
    match all.accepts(declaration) {
        Ok(taken) => taken == want,
        Err(_) => false,
    }
}

/// Whether a repository answers this, when it is asked whether it takes a thing.
pub(crate) fn answers(all: &Repository, declaration: Declaration, want: bool) -> bool {
    accepts(all, &declaration, want)
}

/// Whether a repository takes a thing, and has it then.
pub(crate) fn puts(all: &mut Repository, declaration: Declaration) -> bool {
    match all.accepts(&declaration) {
        Ok(true) => has_declared(all, declaration),
        _ => false,
    }
}

fn has_declared(all: &mut Repository, declaration: Declaration) -> bool
    requires { IsTrue (may_declare (things_of all.old) (thing_of declaration)) }
{
    all.declare(declaration).is_ok()
}
/// IDL's word for a type.
pub(crate) fn word(kind: &IdlType) -> &'static str {
    match kind {
        IdlType::Boolean => "boolean",
        IdlType::Octet => "octet",
        IdlType::Char => "char",
        IdlType::Short => "short",
        IdlType::UShort => "unsigned short",
        IdlType::Long => "long",
        IdlType::ULong => "unsigned long",
        IdlType::LongLong => "long long",
        IdlType::ULongLong => "unsigned long long",
        IdlType::Words(_) => "string",
        IdlType::Seq(_, _) => "sequence",
        IdlType::Array(_, _) => "array",
        IdlType::Struct(_, _) => "struct",
        IdlType::Union(_, _, _) => "union",
        IdlType::Enum(_, _) => "enum",
    }
}

/// IDL's word for a type that may be missing, as that of a result.
pub(crate) fn word_of(kind: Option<&IdlType>) -> &'static str {
    match kind {
        Some(kind) => word(kind),
        None => "none",
    }
}
