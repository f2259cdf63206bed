//! All declarations in the order of their names.
ghost use Rattle.std.specs.Prelude.{◌≡◌, ◌++◌, ◌∷◌, [], ℕ, OnOk, Some, true, map, slice_get};
ghost use Rattle.std.specs.Bool.{IsTrue};
ghost use Rattle.idl_scopes.specs.Bases.{holds};
ghost use Rattle.idl_scopes.specs.Declaring.{finished_in};
ghost use Rattle.idl_scopes.specs.Groups.{placed_in};
ghost use Rattle.idl_scopes.specs.Declarations.{declared_of, sort_of};

use crate::groups::Groups;
use crate::{Declared, Sort};
use orb_base::NoMemory;
use std::alloc::Global;

/// All declarations.
#[derive(Drop)]
pub(crate) struct Rows {
    pub declared: Vec<Declared>,
    /// The places of a scope's declarations.
    pub by_scope: Groups<usize>,
    ghost placed: { IsTrue (placed_in by_scope 0 declared.items) },
}

impl Rows {
    /// No declarations. Takes no memory.
    pub(crate) fn new(alloc: Global) -> Rows
        ensures { result.declared.items ≡ [] }
    {
        Rows {
            declared: Vec::new(alloc),
            by_scope: Groups::new(alloc),
        }
    }

    /// Places, among which are those of all declarations of a scope. Costs a hash.
    pub(crate) fn places_in(&self, scope: usize) -> &[usize]
        ensures { (i : ℕ) (d : Declared) → slice_get self.now.declared.items i ≡ Some d → d.scope ≡ scope → holds result.now i ≡ true }
    {
        self.by_scope.of(&scope)
    }

    /// One more declaration after the others.
    pub(crate) fn add(&mut self, alloc: Global, declared: Declared) -> Result<(), NoMemory>
        ensures { OnOk result (self.new.declared.items ≡ self.old.declared.items ++ declared ∷ []) }
    {
        let at = self.declared.len();
        self.by_scope.add(alloc, declared.scope, at)?;
        self.declared.push(declared)?;
        Ok(())
    }

    /// The declaration at a place becomes such; after the last one nothing changes.
    pub(crate) fn finish(&mut self, at: usize, sort: Sort)
        ensures { map declared_of self.new.declared.items ≡ finished_in (map declared_of self.old.declared.items) at (sort_of sort) (slice_get (map declared_of self.old.declared.items) at) }
    {
        if at < self.declared.len() {
            self.declared[at].sort = sort;
        }
    }
}
