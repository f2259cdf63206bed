//! Names of a small repository, which is put together by hand.

use idl_types::Repository;
use orb_base::NoMemory;
use script_names::*;
use servant_scripts::{At, Name, Part, ScopedName};
use std::alloc::Global;
use std::test::*;
use things::{Deed, Kind, Plain, Thing, boxed, put_made, with_ping};

pub mod things;

const COLOR: Kind = Kind::Enum("IDL:M/Color:1.0", &["RED", "GREEN"]);

const PAIR: Kind = Kind::Struct("IDL:M/Pair:1.0", &[("a", Plain::Long)]);

const DEEDS: &[Deed] = &[
    ("op", Some(Kind::Plain(Plain::Long)), &[], &[]),
    ("_get_size", Some(Kind::Plain(Plain::Long)), &[], &[]),
];

/// module M { enum Color { RED, GREEN }; const long LIMIT = 5; struct Pair { long a; };
/// interface Base { const long LIMIT = 5; long op(); readonly attribute long size; };
/// interface Derived : Base { typedef Color Hue; }; }; const long RED = 5;
const THINGS: &[Thing] = &[
    Thing::Named("IDL:M/Color:1.0", COLOR),
    Thing::Constant("IDL:M/LIMIT:1.0", 5),
    Thing::Named("IDL:M/Pair:1.0", PAIR),
    Thing::Interface("IDL:M/Base:1.0", &[], DEEDS),
    Thing::Constant("IDL:M/Base/LIMIT:1.0", 5),
    Thing::Interface("IDL:M/Derived:1.0", &["IDL:M/Base:1.0"], DEEDS),
    Thing::Named("IDL:M/Derived/Hue:1.0", COLOR),
    Thing::Constant("IDL:RED:1.0", 5),
];

fn names_of(alloc: Global, repository: &Repository) -> Result<Box<Names>, NoMemory> {
    match Names::new(alloc, repository) {
        Ok(names) => boxed(alloc, names),
        Err(_) => Err(NoMemory),
    }
}

/// The names of these things and of the built-in module.
fn some_names(alloc: Global) -> Result<Box<Names>, NoMemory> {
    match with_ping(alloc, THINGS) {
        Ok(repository) => names_of(alloc, &repository),
        Err(_) => Err(NoMemory),
    }
}

fn part(alloc: Global, name: &str, column: u32) -> Result<Part, NoMemory> {
    match Name::new(alloc, name.as_bytes()) {
        Ok(name) => Ok(Part {
            at: At { line: 1, column },
            name,
        }),
        Err(_) => Err(NoMemory),
    }
}

/// Parts, whose columns count from 1.
fn parts(alloc: Global, names: &[&str]) -> Result<Vec<Part>, NoMemory> {
    let mut all = Vec::new(alloc);
    let mut column: u32 = 0;
    for name in names {
        column = column.saturating_add(1);
        if !put_made(&mut all, part(alloc, name, column)) {
            return Err(NoMemory);
        }
    }
    Ok(all)
}

/// A look-up: the interface that it begins in, whether the name is rooted, its parts, and what it means. 1,000 and the
/// number of the part that is unknown stand for no meaning.
type Row = (&'static str, bool, &'static [&'static str], Meaning);

/// What a name means, in the same way.
fn found(names: &Names, from: &str, name: &ScopedName) -> Option<Meaning> {
    match names.find(from.as_bytes(), name) {
        Ok(meaning) => Some(meaning),
        Err(FindError::Unknown(at)) => Some(Meaning::Enumerator(1_000, at.column as usize)),
        Err(FindError::NoMemory) => None,
    }
}

fn means(alloc: Global, names: &Names, row: &Row) -> bool {
    let (from, rooted, list, want) = row;
    match parts(alloc, list) {
        Ok(parts) => {
            let name = ScopedName {
                at: At { line: 1, column: 0 },
                rooted: *rooted,
                parts,
            };
            found(names, from, &name) == Some(*want)
        }
        Err(_) => false,
    }
}

fn means_each(alloc: Global, names: &Names, rows: &[Row]) -> bool {
    for row in rows {
        if !means(alloc, names, row) {
            return false;
        }
    }
    true
}

fn all_mean(alloc: Global, rows: &[Row]) -> bool {
    match some_names(alloc) {
        Ok(names) => means_each(alloc, &names, rows),
        Err(_) => false,
    }
}

const DERIVED: &str = "IDL:M/Derived:1.0";

const SINGLE: &[Row] = &[
    (DERIVED, false, &["LIMIT"], Meaning::Thing(4)),
    (DERIVED, false, &["RED"], Meaning::Enumerator(0, 0)),
    (DERIVED, false, &["GREEN"], Meaning::Enumerator(0, 1)),
    (DERIVED, false, &["Color"], Meaning::Thing(0)),
    (DERIVED, false, &["Hue"], Meaning::Thing(6)),
    (DERIVED, false, &["Base"], Meaning::Thing(3)),
    (DERIVED, false, &["op"], Meaning::Other),
    (DERIVED, false, &["size"], Meaning::Other),
    (DERIVED, false, &["M"], Meaning::Other),
    (DERIVED, false, &["limit"], Meaning::Enumerator(1_000, 1)),
    (DERIVED, false, &["a"], Meaning::Enumerator(1_000, 1)),
    ("", false, &["RED"], Meaning::Thing(7)),
    ("", false, &["LIMIT"], Meaning::Enumerator(1_000, 1)),
];

#[test]
fn a_name_is_looked_up_in_its_interface_then_in_bases_then_outwards(rt: HostRuntime) {
    assert!(rt; all_mean(rt.alloc(), SINGLE));
}

const SCOPED: &[Row] = &[
    (DERIVED, false, &["M", "LIMIT"], Meaning::Thing(1)),
    (
        DERIVED,
        false,
        &["M", "Derived", "LIMIT"],
        Meaning::Thing(4),
    ),
    (DERIVED, false, &["Pair", "a"], Meaning::Other),
    (DERIVED, false, &["M", "RED"], Meaning::Enumerator(0, 0)),
    (DERIVED, false, &["Orb", "Ping"], Meaning::Thing(8)),
    (DERIVED, true, &["RED"], Meaning::Thing(7)),
    (DERIVED, true, &["M", "Base", "size"], Meaning::Other),
    (DERIVED, true, &["LIMIT"], Meaning::Enumerator(1_000, 1)),
    (
        DERIVED,
        false,
        &["Color", "RED"],
        Meaning::Enumerator(1_000, 2),
    ),
    (
        DERIVED,
        false,
        &["Derived", "RED"],
        Meaning::Enumerator(1_000, 2),
    ),
    (DERIVED, false, &[], Meaning::Enumerator(1_000, 0)),
];

#[test]
fn each_further_part_is_looked_up_inside_what_was_found(rt: HostRuntime) {
    assert!(rt; all_mean(rt.alloc(), SCOPED));
}
