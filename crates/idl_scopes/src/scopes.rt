//! The declarations of a text.
ghost use Rattle.std.specs.Prelude.{◌≡◌, IfOk, length, slice_get};
ghost use Rattle.idl_scopes.specs.Table.{no_names};
ghost use Rattle.idl_scopes.specs.Finding.{lowered, is_spelled, is_spelled_in, scope_at, outer, name_at, place_at};
ghost use Rattle.idl_scopes.specs.Declaring.{finished};
ghost use Rattle.idl_scopes.specs.Declarations.{declared_of, sort_of};
ghost use Rattle.idl_scopes.specs.Views.{table_of};

use crate::index::Index;
use crate::known::Known;
use crate::rows::Rows;
use crate::{Declared, Place, Sort};
use orb_base::NoMemory;
use std::alloc::Global;

/// The declarations of a text so far.
#[derive(Drop)]
pub struct Scopes {
    pub(crate) alloc: Global,
    pub(crate) index: Index,
    pub(crate) rows: Rows,
}

/// Whether a declaration is spelled so, and its end has been read.
fn is_spelled(declared: &Declared, name: &[u8]) -> bool
    ensures { result ≡ is_spelled name.now (declared_of declared.now) }
{
    declared.name.as_slice() == name && declared.sort.is_finished()
}

impl Scopes {
    /// Nothing is declared.
    pub fn new(alloc: Global) -> Scopes
        ensures { table_of result ≡ no_names }
    {
        Scopes {
            alloc,
            index: Index::new(alloc),
            rows: Rows::new(alloc),
        }
    }

    /// How many declarations there are.
    pub fn len(&self) -> usize
        ensures { result ≡ length (table_of self.now).declared }
    {
        self.rows.declared.len()
    }

    /// Where the name of the declaration at a place is; after the last one 0 and 0.
    pub fn place_at(&self, at: usize) -> Place
        ensures { result ≡ place_at (table_of self.now) at }
    {
        match self.rows.declared.get(at) {
            Some(declared) => declared.place,
            None => Place { line: 0, column: 0 },
        }
    }

    /// The name of the declaration at a place, as it was spelled; after the last one none.
    pub fn name_at(&self, at: usize) -> &[u8]
        ensures { result.now ≡ name_at (table_of self.now) at }
    {
        match self.rows.declared.get(at) {
            Some(declared) => declared.name.as_slice(),
            None => b"".as_slice(),
        }
    }

    /// The scope in which the declaration at a place is; after the last one the file's.
    pub fn scope_at(&self, at: usize) -> usize
        ensures { result ≡ scope_at (table_of self.now) at }
    {
        match self.rows.declared.get(at) {
            Some(declared) => declared.scope,
            None => 0,
        }
    }

    /// The scope around a scope that isn't the file's.
    pub fn outer(&self, scope: usize) -> usize
        ensures { result ≡ outer (table_of self.now) scope }
    {
        self.scope_at(scope.saturating_sub(1))
    }

    /// Whether the declaration at a place is spelled so, and its end has been read.
    pub(crate) fn is_spelled_at(&self, at: usize, name: &[u8]) -> bool
        ensures { result ≡ is_spelled_in name.now (slice_get (table_of self.now).declared at) }
    {
        match self.rows.declared.get(at) {
            Some(declared) => is_spelled(declared, name),
            None => false,
        }
    }

    /// The key of a name in a scope.
    pub(crate) fn key(&self, name: &[u8], scope: usize) -> Result<Known, NoMemory>
        ensures scope { IfOk result (λ k. k.scope ≡ scope) }
        ensures name { IfOk result (λ k. k.name.items ≡ lowered name.now) }
    {
        Ok(Known {
            scope,
            name: name.to_ascii_lowercase(self.alloc)?,
        })
    }

    /// The declaration at a place becomes such; after the last one nothing changes.
    pub fn finish(&mut self, at: usize, sort: Sort)
        ensures { table_of self.new ≡ finished (table_of self.old) at (sort_of sort) }
    {
        self.rows.finish(at, sort);
    }
}
