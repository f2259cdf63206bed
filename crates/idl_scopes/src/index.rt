//! The index of all declarations, by their scope and their name.
ghost use Rattle.std.specs.Prelude.{◌≡◌, ◌++◌, ◌∷◌, [], ℕ, OnOk, Some, false, true, map, position, slice_get};
ghost use Rattle.std.specs.Option.{option_map};
ghost use Rattle.std.specs.Bool.{IsTrue};
ghost use Rattle.std.specs.List.{list_any};
ghost use Rattle.idl_scopes.specs.Bases.{holds};
ghost use Rattle.idl_scopes.specs.Finding.{is_at};
ghost use Rattle.idl_scopes.specs.Groups.{named_in};
ghost use Rattle.idl_scopes.specs.Declarations.{known_of};

use crate::groups::Groups;
use crate::known::Known;
use indexmap::IndexSet;
use orb_base::NoMemory;
use std::alloc::Global;

/// The keys of all declarations in their order.
#[derive(Drop)]
pub(crate) struct Index {
    pub known: IndexSet<Known>,
    /// The places of the keys of a name, by the name in lower case.
    pub by_name: Groups<Vec<u8>>,
    ghost named: { IsTrue (named_in by_name 0 known.keys) },
}

impl Index {
    /// No keys. Takes no memory.
    pub(crate) fn new(alloc: Global) -> Index
        ensures { result.known.keys ≡ [] }
    {
        Index {
            known: IndexSet::new(alloc),
            by_name: Groups::new(alloc),
        }
    }

    /// The place of a key.
    pub(crate) fn place_of(&self, key: &Known) -> Option<usize>
        ensures { result ≡ position (is_at key.now.scope key.now.name.items) (map known_of self.now.known.keys) }
    {
        self.known.get_index_of(key)
    }

    /// Whether there is such a key.
    pub(crate) fn has(&self, key: &Known) -> bool
        ensures { result ≡ list_any (is_at key.now.scope key.now.name.items) (map known_of self.now.known.keys) }
    {
        self.known.contains(key)
    }

    /// The scope of the key at a place.
    pub(crate) fn scope_at(&self, at: usize) -> Option<usize>
        ensures { result ≡ option_map (λ k. k.0) (slice_get (map known_of self.now.known.keys) at) }
    {
        match self.known.get_index(at) {
            Some(key) => Some(key.scope),
            None => None,
        }
    }

    /// Places, among which are those of all keys of a name, which is given in lower case. Costs a hash.
    pub(crate) fn places_of(&self, low: &Vec<u8>) -> &[usize]
        ensures { (scope i : ℕ) → position (is_at scope low.now.items) (map known_of self.now.known.keys) ≡ Some i → holds result.now i ≡ true }
    {
        self.by_name.of(low)
    }

    /// One more key after the others.
    pub(crate) fn add(&mut self, alloc: Global, key: Known) -> Result<(), NoMemory>
        requires { list_any (is_at key.scope key.name.items) (map known_of self.old.known.keys) ≡ false }
        ensures { OnOk result (map known_of self.new.known.keys ≡ map known_of self.old.known.keys ++ known_of key ∷ []) }
    {
        let low = Vec::from_slice(alloc, &key.name)?;
        self.by_name.add(alloc, low, self.known.len())?;
        self.known.insert(key)?;
        Ok(())
    }
}
