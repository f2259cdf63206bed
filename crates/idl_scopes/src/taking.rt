//! Which names are taken.
ghost use Rattle.std.specs.Prelude.{◌≡◌, ◌-◌, IfOk, slice_get, true};
ghost use Rattle.std.specs.List.{list_any};
ghost use Rattle.idl_scopes.specs.Finding.{inherited, above, sort_at};
ghost use Rattle.idl_scopes.specs.Groups.{AreOwners};
ghost use Rattle.idl_scopes.specs.Pieces.{in_parts, whole_of};
ghost use Rattle.idl_scopes.specs.Taking.{is_in, is_named, is_named_in, is_owner, is_operation_in, is_taken_part, is_taken};
ghost use Rattle.idl_scopes.specs.Declarations.{declared_of, sort_of};
ghost use Rattle.idl_scopes.specs.Views.{table_of};

use crate::holders::Holders;
use crate::keywords::is_keyword;
use crate::pieces::Pieces;
use crate::{Declared, Scopes, Sort};
use orb_base::{Arc, NoMemory};

/// Whether a declaration has this name, case aside.
fn is_named(declared: &Declared, name: &[u8]) -> bool
    ensures { result ≡ is_named name.now (declared_of declared.now) }
{
    declared.name.eq_ignore_ascii_case(name)
}

impl Scopes {
    /// Whether the declaration at a place has this name, case aside.
    fn is_named_at(&self, at: usize, name: &[u8]) -> bool
        ensures { result ≡ is_named_in name.now (slice_get (table_of self.now).declared at) }
    {
        match self.rows.declared.get(at) {
            Some(declared) => is_named(declared, name),
            None => false,
        }
    }

    /// Whether a name is that of what the scope is the scope of, case aside.
    fn is_owner(&self, name: &[u8], scope: usize) -> bool
        ensures { result ≡ is_owner (table_of self.now) name.now scope }
    {
        if scope == 0 {
            return name.eq_ignore_ascii_case(b"orb".as_slice());
        }
        self.is_named_at(scope - 1, name)
    }

    /// Whether a scope has an operation of this name, case aside.
    fn is_operation_in(&self, name: &[u8], scope: usize) -> Result<bool, NoMemory>
        ensures { IfOk result (λ b. b ≡ is_operation_in (table_of self.now) name.now scope) }
    {
        match self.place_in(name, scope)? {
            Some(at) => Ok(self.is_operation_at(at)),
            None => Ok(false),
        }
    }

    /// Whether it has, where the scopes that have one are known.
    fn is_operation_of(&self, name: &[u8], owners: &Holders, scope: usize) -> Result<bool, NoMemory>
        requires { owners.now.few ≡ true → AreOwners (table_of self.now) name.now owners.now.scopes.items }
        ensures { IfOk result (λ b. b ≡ is_operation_in (table_of self.now) name.now scope) }
    {
        if owners.lacks(scope) {
            return Ok(false);
        }
        self.is_operation_in(name, scope)
    }

    /// Whether one of these scopes has, where the scopes that have one are known.
    fn is_operation_held(
        &self,
        name: &[u8],
        owners: &Holders,
        scopes: &[usize],
    ) -> Result<bool, NoMemory>
        requires { owners.now.few ≡ true → AreOwners (table_of self.now) name.now owners.now.scopes.items }
        ensures { IfOk result (λ b. b ≡ list_any (is_operation_in (table_of self.now) name.now) scopes.now) }
    {
        for scope in scopes {
            if self.is_operation_of(name, owners, *scope)? {
                return Ok(true);
            }
        }
        Ok(false)
    }

    /// The same of scopes in parts.
    fn is_operation_in_parts(
        &self,
        name: &[u8],
        owners: &Holders,
        parts: &[Arc<Vec<usize>>],
    ) -> Result<bool, NoMemory>
        requires { owners.now.few ≡ true → AreOwners (table_of self.now) name.now owners.now.scopes.items }
        ensures { IfOk result (λ b. b ≡ list_any (is_operation_in (table_of self.now) name.now) (in_parts parts.now)) }
    {
        for part in parts {
            if self.is_operation_held(name, owners, part.get())? {
                return Ok(true);
            }
        }
        Ok(false)
    }

    /// Whether one of the scopes that an interface inherits has.
    fn is_operation_listed(&self, name: &[u8], scopes: &Pieces) -> Result<bool, NoMemory>
        ensures { IfOk result (λ b. b ≡ list_any (is_operation_in (table_of self.now) name.now) (whole_of scopes.now)) }
    {
        let owners = self.owners(name)?;
        if owners.is_none() {
            return Ok(false);
        }
        if self.is_operation_held(name, &owners, &scopes.front)? {
            return Ok(true);
        }
        if self.is_operation_in_parts(name, &owners, &scopes.parts)? {
            return Ok(true);
        }
        let last = self.is_operation_held(name, &owners, &scopes.back)?;
        Ok(last)
    }

    /// Whether such a declaration inherits one.
    fn inherits_operation(&self, name: &[u8], sort: &Sort) -> Result<bool, NoMemory>
        ensures { IfOk result (λ b. b ≡ list_any (is_operation_in (table_of self.now) name.now) (inherited (sort_of sort.now))) }
    {
        match sort {
            Sort::Interface(scopes) => self.is_operation_listed(name, &scopes.pieces),
            _ => Ok(false),
        }
    }

    /// Whether the declaration at a place inherits one.
    fn inherits_operation_at(&self, name: &[u8], at: usize) -> Result<bool, NoMemory>
        ensures { IfOk result (λ b. b ≡ list_any (is_operation_in (table_of self.now) name.now) (inherited (sort_at (table_of self.now) at))) }
    {
        match self.rows.declared.get(at) {
            Some(declared) => self.inherits_operation(name, &declared.sort),
            None => Ok(false),
        }
    }

    /// Whether a scope inherits one.
    fn is_inherited(&self, name: &[u8], scope: usize) -> Result<bool, NoMemory>
        ensures { IfOk result (λ b. b ≡ list_any (is_operation_in (table_of self.now) name.now) (above (table_of self.now) scope)) }
    {
        if scope == 0 {
            return Ok(false);
        }
        self.inherits_operation_at(name, scope - 1)
    }

    /// Whether a name is a keyword, or is in its scope already, case aside.
    pub(crate) fn is_taken_part(&self, name: &[u8], scope: usize) -> Result<bool, NoMemory>
        ensures { IfOk result (λ b. b ≡ is_taken_part (table_of self.now) name.now scope) }
    {
        let key = self.key(name, scope)?;
        Ok(is_keyword(&key.name) || self.index.has(&key))
    }

    /// Whether it is that, or the name of what the scope is the scope of, or that of an operation which the scope inherits.
    pub(crate) fn is_taken(&self, name: &[u8], scope: usize) -> Result<bool, NoMemory>
        ensures { IfOk result (λ b. b ≡ is_taken (table_of self.now) name.now scope) }
    {
        let own = self.is_taken_part(name, scope)? || self.is_owner(name, scope);
        Ok(own || self.is_inherited(name, scope)?)
    }
}
