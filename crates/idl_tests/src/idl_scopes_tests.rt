//! Small texts, declared name by name.

use idl_scopes::*;
use orb_base::NoMemory;
use std::alloc::Global;
use std::test::*;

/// Where each name of these tests is.
const PLACE: Place = Place { line: 1, column: 2 };

/// What a declaration answers: whether the name was taken, or None when out of memory.
fn clash(done: Result<(), DeclareFault>) -> Option<bool> {
    match done {
        Ok(()) => Some(false),
        Err(DeclareFault::Clash) => Some(true),
        Err(DeclareFault::NoMemory) => None,
    }
}

/// Whether a name could be declared.
fn puts(scopes: &mut Scopes, name: &str, scope: usize, sort: Sort) -> bool {
    clash(scopes.declare(name.as_bytes(), scope, PLACE, sort)) == Some(false)
}

/// The scopes that these bases give, in their order.
fn given_by(alloc: Global, scopes: &Scopes, bases: &[u32]) -> Result<Inherited, NoMemory> {
    let mut given = Inherited::new(alloc);
    for base in bases {
        scopes.inherit(*base, &mut given)?;
    }
    Ok(given)
}

/// Whether an interface with these bases could be declared.
fn puts_interface(
    alloc: Global,
    scopes: &mut Scopes,
    name: &str,
    scope: usize,
    bases: &[u32],
) -> bool {
    match given_by(alloc, scopes, bases) {
        Ok(given) => puts(scopes, name, scope, Sort::Interface(given)),
        Err(_) => false,
    }
}

/// Whether these bases give these scopes.
fn gives(alloc: Global, scopes: &Scopes, bases: &[u32], want: &[usize]) -> bool {
    let Ok(given) = given_by(alloc, scopes, bases) else {
        return false;
    };
    match given.to_vec(alloc) {
        Ok(all) => all.as_slice() == want,
        Err(_) => false,
    }
}

/// Whether a look-up gave this.
fn is_found(got: Result<Option<usize>, NoMemory>, want: Option<usize>) -> bool {
    match got {
        Ok(found) => found == want,
        Err(_) => false,
    }
}

/// Whether a declaration has this id.
fn has_id(scopes: &Scopes, at: usize, want: &str) -> bool {
    match scopes.id_of(at) {
        Ok(id) => id.as_slice() == want.as_bytes(),
        Err(_) => false,
    }
}

/// typedef long T; module M { interface A { typedef long T; void f(); }; interface B : A {}; };
fn two_interfaces(alloc: Global, scopes: &mut Scopes) -> bool {
    puts(scopes, "T", 0, Sort::Other)
        && puts(scopes, "M", 0, Sort::Module)
        && puts_interface(alloc, scopes, "A", 2, &[])
        && puts(scopes, "T", 3, Sort::Other)
        && puts(scopes, "f", 3, Sort::Operation)
        && puts_interface(alloc, scopes, "B", 2, &[2])
}

/// Names of these in a scope, and what they mean there.
const FOUND: [(&str, usize, Option<usize>); 8] = [
    ("T", 6, Some(3)),
    ("T", 2, Some(0)),
    ("t", 6, None),
    ("f", 6, Some(4)),
    ("A", 6, Some(2)),
    ("M", 6, Some(1)),
    ("f", 2, None),
    ("x", 6, None),
];

fn finds_each(scopes: &Scopes) -> bool {
    for (name, scope, want) in FOUND {
        if !is_found(scopes.find(name.as_bytes(), scope), want) {
            return false;
        }
    }
    true
}

fn finds_inside(scopes: &Scopes) -> bool {
    is_found(scopes.own(b"A", 0), None)
        && is_found(scopes.find_inside(b"A", 1), Some(2))
        && is_found(scopes.find_inside(b"T", 5), Some(3))
        && is_found(scopes.find_inside(b"M", 5), None)
        && is_found(scopes.module_in(b"M", 0), Some(1))
        && is_found(scopes.module_in(b"A", 2), None)
}

fn tells_of_each(scopes: &Scopes) -> bool {
    scopes.len() == 6
        && scopes.outer(6) == 2
        && scopes.scope_at(3) == 3
        && scopes.name_at(5) == b"B".as_slice()
        && scopes.place_at(5) == PLACE
        && has_id(scopes, 3, "IDL:M/A/T:1.0")
        && has_id(scopes, 0, "IDL:T:1.0")
}

#[test]
fn a_name_is_looked_up_in_its_scope_then_in_bases_then_outwards(rt: HostRuntime) {
    let mut scopes = Scopes::new(rt.alloc());
    assert!(rt; two_interfaces(rt.alloc(), &mut scopes));
    assert!(rt; finds_each(&scopes));
    assert!(rt; finds_inside(&scopes));
    assert!(rt; tells_of_each(&scopes));
}

/// Names in a scope, and whether they are taken there.
const TAKEN: [(&str, usize, bool); 13] = [
    ("T", 3, true),
    ("t", 3, true),
    ("F", 6, true),
    ("T", 6, false),
    ("m", 2, true),
    ("a", 3, true),
    ("oRB", 0, true),
    ("Orb", 2, false),
    ("LONG", 2, true),
    ("Object", 2, true),
    ("x", 2, false),
    ("X", 2, true),
    ("X", 0, false),
];

fn clashes_each(scopes: &mut Scopes) -> bool {
    for (name, scope, want) in TAKEN {
        let done = scopes.declare(name.as_bytes(), scope, PLACE, Sort::Unfinished);
        if clash(done) != Some(want) {
            return false;
        }
    }
    true
}

fn finds_what_is_finished(scopes: &mut Scopes) -> bool {
    let before = is_found(scopes.find(b"x", 2), None);
    scopes.finish(8, Sort::Other);
    before && is_found(scopes.find(b"x", 2), Some(8))
}

fn takes_parameters(scopes: &mut Scopes) -> bool {
    clash(scopes.declare_parameter(b"f", 5, PLACE)) == Some(false)
        && clash(scopes.declare_parameter(b"F", 5, PLACE)) == Some(true)
}

#[test]
fn a_taken_name_clashes_case_aside(rt: HostRuntime) {
    let mut scopes = Scopes::new(rt.alloc());
    assert!(rt; two_interfaces(rt.alloc(), &mut scopes));
    assert!(rt; clashes_each(&mut scopes));
    assert!(rt; finds_what_is_finished(&mut scopes));
    assert!(rt; takes_parameters(&mut scopes));
}

/// Whether a base gives these scopes.
fn is_base_of(scopes: &Scopes, base: u32, want: &[usize]) -> bool {
    match scopes.scopes_of(base) {
        Ok(given) => given.as_slice() == want,
        Err(_) => false,
    }
}

fn gives_scopes(alloc: Global, scopes: &Scopes) -> bool {
    is_base_of(scopes, 2, &[3])
        && is_base_of(scopes, 5, &[6, 3])
        && gives(alloc, scopes, &[5, 2, 6, 9], &[6, 3, 7, 10])
}

/// Whether a further base clashes with these bases.
fn is_further(alloc: Global, scopes: &Scopes, bases: &[u32], base: u32, want: bool) -> bool {
    let Ok(given) = given_by(alloc, scopes, bases) else {
        return false;
    };
    match scopes.base_clashes(base, &given) {
        Ok(clashes) => clashes == want,
        Err(_) => false,
    }
}

fn clashes_by_bases(alloc: Global, scopes: &Scopes) -> bool {
    is_further(alloc, scopes, &[], 6, false)
        && is_further(alloc, scopes, &[2], 5, false)
        && is_further(alloc, scopes, &[5], 6, true)
}

#[test]
fn two_bases_that_give_different_things_of_one_name_clash(rt: HostRuntime) {
    let mut scopes = Scopes::new(rt.alloc());
    assert!(rt; two_interfaces(rt.alloc(), &mut scopes));
    assert!(rt; puts_interface(rt.alloc(), &mut scopes, "C", 2, &[]));
    assert!(rt; puts(&mut scopes, "T", 7, Sort::Other));
    assert!(rt; gives_scopes(rt.alloc(), &scopes));
    assert!(rt; clashes_by_bases(rt.alloc(), &scopes));
}

fn puts_one_name_in_many(scopes: &mut Scopes) -> bool {
    for scope in 100..170 {
        if !puts(scopes, "x", scope, Sort::Other) {
            return false;
        }
    }
    true
}

/// The scopes of a base that is before those that it inherits, and of one that inherits itself.
fn gives_what_stands_behind(alloc: Global, scopes: &mut Scopes) -> bool {
    if !gives(alloc, scopes, &[70, 119, 70], &[71, 500, 120, 130])
        || !puts_interface(alloc, scopes, "S", 0, &[71])
    {
        return false;
    }
    gives(alloc, scopes, &[71], &[72])
}

fn finds_among_many(scopes: &Scopes) -> bool {
    is_found(scopes.find(b"x", 71), Some(20)) && is_found(scopes.find_inside(b"x", 70), Some(20))
}

fn clashes_among_many(alloc: Global, scopes: &Scopes) -> bool {
    is_further(alloc, scopes, &[499, 119], 129, true)
        && is_further(alloc, scopes, &[499], 129, false)
        && is_further(alloc, scopes, &[119], 70, false)
        && is_further(alloc, scopes, &[129], 70, true)
}

#[test]
fn a_name_that_many_scopes_have_is_found_in_the_first_of_the_bases(rt: HostRuntime) {
    let mut scopes = Scopes::new(rt.alloc());
    assert!(rt; puts_one_name_in_many(&mut scopes));
    assert!(rt; puts_interface(rt.alloc(), &mut scopes, "B", 0, &[499, 119, 129]));
    assert!(rt; finds_among_many(&scopes));
    assert!(rt; clashes_among_many(rt.alloc(), &scopes));
    assert!(rt; gives_what_stands_behind(rt.alloc(), &mut scopes));
}

/// Interfaces, each of which inherits a scope of its own and then the interface before it.
fn puts_a_chain(alloc: Global, scopes: &mut Scopes) -> bool {
    if !puts_interface(alloc, scopes, "I", 1000, &[]) {
        return false;
    }
    for at in 1..300 {
        if !puts_interface(alloc, scopes, "I", 1000 + at as usize, &[2000 + at, at - 1]) {
            return false;
        }
    }
    true
}

/// The scopes of the last of them, its base before, and one more scope; and the same again.
fn chain_gives(alloc: Global, scopes: &Scopes) -> bool {
    let Ok(given) = given_by(alloc, scopes, &[299, 299, 2300]) else {
        return false;
    };
    match given.to_vec(alloc) {
        Ok(all) => {
            all.len() == 600
                && &all[..4] == [300, 2300, 299, 2299].as_slice()
                && &all[597..] == [2002, 1, 2301].as_slice()
        }
        Err(_) => false,
    }
}

fn finds_along_a_chain(scopes: &mut Scopes) -> bool {
    puts(scopes, "x", 2002, Sort::Other)
        && puts(scopes, "x", 2200, Sort::Operation)
        && is_found(scopes.find_inside(b"x", 299), Some(301))
        && clash(scopes.declare(b"X", 300, PLACE, Sort::Other)) == Some(true)
}

#[test]
fn long_chains_of_interfaces_keep_their_order(rt: HostRuntime) {
    let mut scopes = Scopes::new(rt.alloc());
    assert!(rt; puts_a_chain(rt.alloc(), &mut scopes));
    assert!(rt; chain_gives(rt.alloc(), &scopes));
    assert!(rt; finds_along_a_chain(&mut scopes));
}
