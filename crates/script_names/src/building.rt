//! Building the names of a repository.
ghost use Rattle.std.specs.Prelude.{◌≡◌, ◌+◌, [], IfOk, OnOk, take, drop};
ghost use Rattle.cdr_values.specs.Trees.{Name};
ghost use Rattle.idl_types.specs.Contents.{things_of};
ghost use Rattle.idl_types.specs.Things.{id_of};
ghost use Rattle.idl_types.specs.Views.{thing_of};
ghost use Rattle.script_names.specs.declared.meaning.Meaning.TheVariants as means;
ghost use Rattle.script_names.specs.Meanings.{themselves, beside};
ghost use Rattle.script_names.specs.Inherited.{bases_of};
ghost use Rattle.script_names.specs.Known.{known};
ghost use Rattle.script_names.specs.Views.{pairs_of, with_pair, with_pairs, listed};
ghost use Rattle.script_names.specs.Contents.{known_of};

use crate::bases::Bases;
use crate::inheritance::put_bases;
use crate::meaning::Meaning;
use crate::names::Names;
use crate::parts::put_beside;
use crate::putting::put;
use idl_types::{Declaration, Repository};
use indexmap::IndexMap;
use orb_base::NoMemory;
use std::alloc::Global;

/// Puts the id of the declaration at a place.
fn put_itself(
    alloc: Global,
    index: &mut IndexMap<Vec<u8>, Meaning>,
    declaration: &Declaration,
    place: usize,
) -> Result<(), NoMemory>
    ensures { OnOk result (pairs_of index.new.entries ≡ with_pair (pairs_of index.old.entries) (id_of (thing_of declaration.now), means.Thing place)) }
{
    let id = Vec::from_slice(alloc, declaration.id().as_slice())?;
    put(index, id, Meaning::Thing(place))
}

/// Puts the id of the thing at a place, where there is one.
fn put_at(
    alloc: Global,
    index: &mut IndexMap<Vec<u8>, Meaning>,
    repository: &Repository,
    place: usize,
) -> Result<(), NoMemory>
    ensures { OnOk result (with_pairs (pairs_of index.new.entries) (themselves (place + 1) (drop (place + 1) (things_of repository.now)))
        ≡ with_pairs (pairs_of index.old.entries) (themselves place (drop place (things_of repository.now)))) }
{
    match repository.nth(place) {
        Some(declaration) => {
            put_itself(alloc, index, declaration, place)?;
            Ok(())
        }
        None => Ok(()),
    }
}

/// Puts the ids of all things.
fn put_things(
    alloc: Global,
    index: &mut IndexMap<Vec<u8>, Meaning>,
    repository: &Repository,
) -> Result<(), NoMemory>
    ensures { OnOk result (pairs_of index.new.entries ≡ with_pairs (pairs_of index.old.entries) (themselves 0 (things_of repository.now))) }
{
    for place in 0..repository.len() {
        put_at(alloc, index, repository, place)?;
    }
    Ok(())
}

/// Puts what the thing at a place declares beside itself, where there is one.
fn put_beside_at(
    alloc: Global,
    index: &mut IndexMap<Vec<u8>, Meaning>,
    repository: &Repository,
    place: usize,
) -> Result<(), NoMemory>
    ensures { OnOk result (with_pairs (pairs_of index.new.entries) (beside (place + 1) (drop (place + 1) (things_of repository.now)))
        ≡ with_pairs (pairs_of index.old.entries) (beside place (drop place (things_of repository.now)))) }
{
    match repository.nth(place) {
        Some(declaration) => {
            put_beside(alloc, index, declaration, place)?;
            Ok(())
        }
        None => Ok(()),
    }
}

/// Puts what all things declare beside themselves.
fn put_all_beside(
    alloc: Global,
    index: &mut IndexMap<Vec<u8>, Meaning>,
    repository: &Repository,
) -> Result<(), NoMemory>
    ensures { OnOk result (pairs_of index.new.entries ≡ with_pairs (pairs_of index.old.entries) (beside 0 (things_of repository.now))) }
{
    for place in 0..repository.len() {
        put_beside_at(alloc, index, repository, place)?;
    }
    Ok(())
}

/// All ids that are declared.
fn meanings_in(
    alloc: Global,
    repository: &Repository,
) -> Result<IndexMap<Vec<u8>, Meaning>, NoMemory>
    ensures { IfOk result (λ m. pairs_of m.entries ≡ with_pairs (with_pairs [] (themselves 0 (things_of repository.now))) (beside 0 (things_of repository.now))) }
{
    let mut index = IndexMap::new(alloc);
    put_things(alloc, &mut index, repository)?;
    put_all_beside(alloc, &mut index, repository)?;
    Ok(index)
}

/// Lists the bases of the thing at a place, after those of the things before it.
fn put_bases_at(
    alloc: Global,
    index: &mut IndexMap<Vec<u8>, Bases>,
    repository: &Repository,
    place: usize,
) -> Result<(), NoMemory>
    ensures { ((id : Name) → listed index.old.entries id ≡ bases_of (take place (things_of repository.now)) id)
        → OnOk result ((id : Name) → listed index.new.entries id ≡ bases_of (take (place + 1) (things_of repository.now)) id) }
{
    match repository.nth(place) {
        Some(declaration) => {
            put_bases(alloc, index, declaration)?;
            Ok(())
        }
        None => Ok(()),
    }
}

/// The bases of all interfaces.
fn bases_in(alloc: Global, repository: &Repository) -> Result<IndexMap<Vec<u8>, Bases>, NoMemory>
    ensures { IfOk result (λ m. (id : Name) → listed m.entries id ≡ bases_of (things_of repository.now) id) }
{
    let mut index = IndexMap::new(alloc);
    for place in 0..repository.len() {
        put_bases_at(alloc, &mut index, repository, place)?;
    }
    Ok(index)
}

impl Names {
    /// The names of a repository. Work and memory grow with the ids of all that is declared: a thing's enumerators, members
    /// and operations each have an id of their own, and each thing asks for those of the modules around it; and with the
    /// number of all bases of each interface, those of its bases too.
    pub fn new(alloc: Global, repository: &Repository) -> Result<Names, NoMemory>
        ensures { IfOk result (λ names. known_of names ≡ known (things_of repository.now)) }
    {
        let meanings = meanings_in(alloc, repository)?;
        let bases = bases_in(alloc, repository)?;
        Ok(Names {
            alloc,
            meanings,
            bases,
        })
    }
}
