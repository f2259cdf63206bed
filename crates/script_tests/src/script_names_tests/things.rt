//! Repositories, put together from rows of what they declare.
ghost use Rattle.std.specs.Prelude.{◌≡◌, IfOk, IsTrue};

use cdr_values::{Case, IdlType, IdlValue, Member};
use idl_types::{
    Constant, Declaration, Exception, Interface, NamedType, Operation, Param, Repository, Way,
};
use orb_base::{List, NoMemory, Text};
use std::alloc::Global;

/// A type that has no parts.
pub enum Plain {
    Boolean,
    Octet,
    Char,
    Short,
    Long,
    Words,
}

/// A type. A struct has an id and members, an enum an id and labels, and a union an id, the type of its discriminator, and
/// one case with its label.
pub enum Kind {
    Plain(Plain),
    Seq(Plain),
    Array(Plain, u32),
    Struct(&'static str, Members),
    Enum(&'static str, Names),
    Union(&'static str, Plain, i128, Plain),
}

/// Members with their types.
pub type Members = &'static [(&'static str, Plain)];

/// Names, or ids.
pub type Names = &'static [&'static str];

/// Parameters with their ways and types.
pub type Params = &'static [(Way, &'static str, Kind)];

/// An operation: its name, its result, its parameters, and the ids of its exceptions.
pub type Deed = (&'static str, Option<Kind>, Params, Names);

/// A thing: its id, and what it is. A constant is a long, and an interface has bases and operations.
pub enum Thing {
    Constant(&'static str, i128),
    Named(&'static str, Kind),
    Exception(&'static str, Members),
    Interface(&'static str, Names, &'static [Deed]),
}

pub fn text(alloc: Global, text: &str) -> Result<Text, NoMemory> {
    match Text::new(alloc, text.as_bytes()) {
        Ok(text) => Ok(text),
        Err(_) => Err(NoMemory),
    }
}

/// Puts an item after the others.
pub fn put<T: Drop>(all: &mut Vec<T>, item: T) -> bool {
    all.push(item).is_ok()
}

/// The same with an item that was made.
pub fn put_made<T: Drop>(all: &mut Vec<T>, made: Result<T, NoMemory>) -> bool {
    match made {
        Ok(item) => put(all, item),
        Err(_) => false,
    }
}

/// A list of one item.
pub fn one<T: Drop>(alloc: Global, item: T) -> Result<Vec<T>, NoMemory> {
    let mut all = Vec::new(alloc);
    all.push(item)?;
    Ok(all)
}

pub fn boxed<T: Drop>(alloc: Global, item: T) -> Result<Box<T>, NoMemory> {
    Ok(Box::new(alloc, item)?)
}

/// An item, where this holds.
pub fn item_where<T: Drop>(item: T, holds: bool) -> Result<T, NoMemory>
    ensures { IfOk result (λ kept. (kept ≡ item) × IsTrue holds) }
{
    if holds { Ok(item) } else { Err(NoMemory) }
}

fn texts(alloc: Global, names: Names) -> Result<List<Text>, NoMemory> {
    let mut all = Vec::new(alloc);
    for name in names {
        if !put_made(&mut all, text(alloc, name)) {
            return Err(NoMemory);
        }
    }
    Ok(List::from_vec(all))
}

fn make_plain(kind: &Plain) -> IdlType {
    match kind {
        Plain::Boolean => IdlType::Boolean,
        Plain::Octet => IdlType::Octet,
        Plain::Char => IdlType::Char,
        Plain::Short => IdlType::Short,
        Plain::Long => IdlType::Long,
        Plain::Words => IdlType::Words(0),
    }
}

fn member(alloc: Global, name: &str, kind: &Plain) -> Result<Member, NoMemory> {
    match text(alloc, name) {
        Ok(name) => Ok(Member {
            name,
            kind: make_plain(kind),
        }),
        Err(_) => Err(NoMemory),
    }
}

fn make_members(alloc: Global, rows: Members) -> Result<Vec<Member>, NoMemory> {
    let mut all = Vec::new(alloc);
    for (name, kind) in rows {
        if !put_made(&mut all, member(alloc, name, kind)) {
            return Err(NoMemory);
        }
    }
    Ok(all)
}

fn sequence(alloc: Global, kind: &Plain) -> Result<IdlType, NoMemory> {
    match boxed(alloc, make_plain(kind)) {
        Ok(kind) => Ok(IdlType::Seq(kind, 0)),
        Err(_) => Err(NoMemory),
    }
}

fn array(alloc: Global, kind: &Plain, n: u32) -> Result<IdlType, NoMemory> {
    match boxed(alloc, make_plain(kind)) {
        Ok(kind) => Ok(IdlType::Array(kind, n)),
        Err(_) => Err(NoMemory),
    }
}

fn structure(alloc: Global, id: &str, rows: Members) -> Result<IdlType, NoMemory> {
    let Ok(id) = text(alloc, id) else {
        return Err(NoMemory);
    };
    match make_members(alloc, rows) {
        Ok(members) => Ok(IdlType::Struct(id, members)),
        Err(_) => Err(NoMemory),
    }
}

fn enumeration(alloc: Global, id: &str, labels: Names) -> Result<IdlType, NoMemory> {
    let Ok(id) = text(alloc, id) else {
        return Err(NoMemory);
    };
    match texts(alloc, labels) {
        Ok(labels) => Ok(IdlType::Enum(id, labels)),
        Err(_) => Err(NoMemory),
    }
}

/// The one case of a union, whose member is `m`.
fn case(alloc: Global, label: i128, kind: &Plain) -> Result<Case, NoMemory> {
    let Ok(labels) = one(alloc, label) else {
        return Err(NoMemory);
    };
    match member(alloc, "m", kind) {
        Ok(member) => Ok(Case {
            labels: List::from_vec(labels),
            is_default: false,
            member,
        }),
        Err(_) => Err(NoMemory),
    }
}

fn cases(alloc: Global, label: i128, kind: &Plain) -> Result<Vec<Case>, NoMemory> {
    match case(alloc, label, kind) {
        Ok(case) => one(alloc, case),
        Err(_) => Err(NoMemory),
    }
}

fn union(
    alloc: Global,
    id: &str,
    tag: &Plain,
    label: i128,
    kind: &Plain,
) -> Result<IdlType, NoMemory> {
    let Ok(id) = text(alloc, id) else {
        return Err(NoMemory);
    };
    let Ok(cases) = cases(alloc, label, kind) else {
        return Err(NoMemory);
    };
    match boxed(alloc, make_plain(tag)) {
        Ok(tag) => Ok(IdlType::Union(id, tag, cases)),
        Err(_) => Err(NoMemory),
    }
}

fn make_kind(alloc: Global, row: &Kind) -> Result<IdlType, NoMemory> {
    match row {
        Kind::Plain(kind) => Ok(make_plain(kind)),
        Kind::Seq(kind) => sequence(alloc, kind),
        Kind::Array(kind, n) => array(alloc, kind, *n),
        Kind::Struct(id, members) => structure(alloc, id, members),
        Kind::Enum(id, labels) => enumeration(alloc, id, labels),
        Kind::Union(id, tag, label, kind) => union(alloc, id, tag, *label, kind),
    }
}

fn param(alloc: Global, way: Way, name: &str, row: &Kind) -> Result<Param, NoMemory> {
    let Ok(name) = text(alloc, name) else {
        return Err(NoMemory);
    };
    match make_kind(alloc, row) {
        Ok(kind) => Ok(Param { way, name, kind }),
        Err(_) => Err(NoMemory),
    }
}

fn make_params(alloc: Global, rows: Params) -> Result<List<Param>, NoMemory> {
    let mut all = Vec::new(alloc);
    for (way, name, kind) in rows {
        if !put_made(&mut all, param(alloc, *way, name, kind)) {
            return Err(NoMemory);
        }
    }
    Ok(List::from_vec(all))
}

fn outcome(alloc: Global, row: &Option<Kind>) -> Result<Option<IdlType>, NoMemory> {
    match row {
        Some(row) => match make_kind(alloc, row) {
            Ok(kind) => Ok(Some(kind)),
            Err(_) => Err(NoMemory),
        },
        None => Ok(None),
    }
}

fn operation(alloc: Global, row: &Deed) -> Result<Operation, NoMemory> {
    let (name, result, params, raises) = row;
    let Ok(name) = text(alloc, name) else {
        return Err(NoMemory);
    };
    let Ok(params) = make_params(alloc, params) else {
        return Err(NoMemory);
    };
    let Ok(raises) = texts(alloc, raises) else {
        return Err(NoMemory);
    };
    match outcome(alloc, result) {
        Ok(result) => Ok(Operation {
            name,
            oneway: false,
            result,
            params,
            raises,
        }),
        Err(_) => Err(NoMemory),
    }
}

fn operations(alloc: Global, rows: &[Deed]) -> Result<List<Operation>, NoMemory> {
    let mut all = Vec::new(alloc);
    for row in rows {
        if !put_made(&mut all, operation(alloc, row)) {
            return Err(NoMemory);
        }
    }
    Ok(List::from_vec(all))
}

fn constant(alloc: Global, id: &str, n: i128) -> Result<Declaration, NoMemory> {
    match text(alloc, id) {
        Ok(id) => Ok(Declaration::Constant(Constant {
            id,
            kind: IdlType::Long,
            value: IdlValue::Number(n),
        })),
        Err(_) => Err(NoMemory),
    }
}

fn named(alloc: Global, id: &str, row: &Kind) -> Result<Declaration, NoMemory> {
    let Ok(id) = text(alloc, id) else {
        return Err(NoMemory);
    };
    match make_kind(alloc, row) {
        Ok(kind) => Ok(Declaration::Named(NamedType { id, kind })),
        Err(_) => Err(NoMemory),
    }
}

fn exception(alloc: Global, id: &str, rows: Members) -> Result<Declaration, NoMemory> {
    let Ok(id) = text(alloc, id) else {
        return Err(NoMemory);
    };
    match make_members(alloc, rows) {
        Ok(members) => Ok(Declaration::Exception(Exception {
            id,
            members: List::from_vec(members),
        })),
        Err(_) => Err(NoMemory),
    }
}

fn interface(
    alloc: Global,
    id: &str,
    bases: Names,
    rows: &[Deed],
) -> Result<Declaration, NoMemory> {
    let Ok(id) = text(alloc, id) else {
        return Err(NoMemory);
    };
    let Ok(bases) = texts(alloc, bases) else {
        return Err(NoMemory);
    };
    match operations(alloc, rows) {
        Ok(operations) => Ok(Declaration::Interface(Interface {
            id,
            bases,
            operations,
        })),
        Err(_) => Err(NoMemory),
    }
}

fn declaration(alloc: Global, thing: &Thing) -> Result<Declaration, NoMemory> {
    match thing {
        Thing::Constant(id, n) => constant(alloc, id, *n),
        Thing::Named(id, kind) => named(alloc, id, kind),
        Thing::Exception(id, members) => exception(alloc, id, members),
        Thing::Interface(id, bases, operations) => interface(alloc, id, bases, operations),
    }
}

fn declares(repository: &mut Repository, declaration: Declaration) -> bool {
    let accepted = match repository.accepts(&declaration) {
        Ok(accepted) => accepted,
        Err(_) => false,
    };
    match item_where(declaration, accepted) {
        Ok(declaration) => repository.declare(declaration).is_ok(),
        Err(_) => false,
    }
}

fn declares_each(repository: &mut Repository, alloc: Global, things: &[Thing]) -> bool {
    for thing in things {
        match declaration(alloc, thing) {
            Ok(declaration) => {
                if !declares(repository, declaration) {
                    return false;
                }
            }
            Err(_) => return false,
        }
    }
    true
}

/// The repository of these things. A thing that isn't accepted is an error too.
pub fn repository(alloc: Global, things: &[Thing]) -> Result<Repository, NoMemory> {
    let mut all = Repository::new(alloc);
    let holds = declares_each(&mut all, alloc, things);
    item_where(all, holds)
}

/// The same with the built-in module.
pub fn with_ping(alloc: Global, things: &[Thing]) -> Result<Box<Repository>, NoMemory> {
    let Ok(all) = repository(alloc, things) else {
        return Err(NoMemory);
    };
    match all.with_ping() {
        Ok(all) => boxed(alloc, all),
        Err(_) => Err(NoMemory),
    }
}
