//! Looking up names.
ghost use Rattle.std.specs.Prelude.{◌≡◌, ◌-◌, IfOk, true};
ghost use Rattle.idl_scopes.specs.Finding.{place_in, own, inherited, above, among, inside, outwards, looked_up, inside_of, module_in, sort_at, is_operation, is_module};
ghost use Rattle.idl_scopes.specs.Groups.{AreHolders};
ghost use Rattle.idl_scopes.specs.Pieces.{in_parts, whole_of};
ghost use Rattle.idl_scopes.specs.Declarations.{sort_of};
ghost use Rattle.idl_scopes.specs.Views.{table_of};

use crate::holders::Holders;
use crate::pieces::Pieces;
use crate::{Scopes, Sort};
use orb_base::{Arc, NoMemory};

impl Scopes {
    /// The place of the declaration of a scope that has this name, case aside.
    pub(crate) fn place_in(&self, name: &[u8], scope: usize) -> Result<Option<usize>, NoMemory>
        ensures { IfOk result (λ o. o ≡ place_in (table_of self.now) name.now scope) }
    {
        let key = self.key(name, scope)?;
        Ok(self.index.place_of(&key))
    }

    /// The place of the declaration of a scope that is spelled so and whose end has been read.
    pub fn own(&self, name: &[u8], scope: usize) -> Result<Option<usize>, NoMemory>
        ensures { IfOk result (λ o. o ≡ own (table_of self.now) name.now scope) }
    {
        match self.place_in(name, scope)? {
            Some(at) => {
                if self.is_spelled_at(at, name) {
                    Ok(Some(at))
                } else {
                    Ok(None)
                }
            }
            None => Ok(None),
        }
    }

    /// The same as `own`, where the name's scopes are known.
    fn own_of(
        &self,
        name: &[u8],
        holders: &Holders,
        scope: usize,
    ) -> Result<Option<usize>, NoMemory>
        requires { holders.now.few ≡ true → AreHolders (table_of self.now) name.now holders.now.scopes.items }
        ensures { IfOk result (λ o. o ≡ own (table_of self.now) name.now scope) }
    {
        if holders.lacks(scope) {
            return Ok(None);
        }
        self.own(name, scope)
    }

    /// The first of several scopes that has the name gives it, where the name's scopes are known.
    fn among_held(
        &self,
        name: &[u8],
        holders: &Holders,
        scopes: &[usize],
    ) -> Result<Option<usize>, NoMemory>
        requires { holders.now.few ≡ true → AreHolders (table_of self.now) name.now holders.now.scopes.items }
        ensures { IfOk result (λ o. o ≡ among (table_of self.now) name.now scopes.now) }
    {
        for scope in scopes {
            if let Some(at) = self.own_of(name, holders, *scope)? {
                return Ok(Some(at));
            }
        }
        Ok(None)
    }

    /// The same of scopes in parts.
    fn among_parts(
        &self,
        name: &[u8],
        holders: &Holders,
        parts: &[Arc<Vec<usize>>],
    ) -> Result<Option<usize>, NoMemory>
        requires { holders.now.few ≡ true → AreHolders (table_of self.now) name.now holders.now.scopes.items }
        ensures { IfOk result (λ o. o ≡ among (table_of self.now) name.now (in_parts parts.now)) }
    {
        for part in parts {
            if let Some(at) = self.among_held(name, holders, part.get())? {
                return Ok(Some(at));
            }
        }
        Ok(None)
    }

    /// The first of several scopes that has the name gives it. One look-up where no scope of the text has the name; a few
    /// comparisons for each of the several where few have it, and a look-up for each of these; and where more than 64 have
    /// it, a look-up for each of the several.
    pub(crate) fn among(&self, name: &[u8], scopes: &[usize]) -> Result<Option<usize>, NoMemory>
        ensures { IfOk result (λ o. o ≡ among (table_of self.now) name.now scopes.now) }
    {
        let holders = self.holders(name)?;
        if holders.is_none() {
            return Ok(None);
        }
        let found = self.among_held(name, &holders, scopes)?;
        Ok(found)
    }

    /// The same of the scopes that an interface inherits.
    pub(crate) fn among_listed(
        &self,
        name: &[u8],
        scopes: &Pieces,
    ) -> Result<Option<usize>, NoMemory>
        ensures { IfOk result (λ o. o ≡ among (table_of self.now) name.now (whole_of scopes.now)) }
    {
        let holders = self.holders(name)?;
        if holders.is_none() {
            return Ok(None);
        }
        if let Some(at) = self.among_held(name, &holders, &scopes.front)? {
            return Ok(Some(at));
        }
        if let Some(at) = self.among_parts(name, &holders, &scopes.parts)? {
            return Ok(Some(at));
        }
        let last = self.among_held(name, &holders, &scopes.back)?;
        Ok(last)
    }

    /// The name among those that such a declaration inherits.
    fn among_inherited(&self, name: &[u8], sort: &Sort) -> Result<Option<usize>, NoMemory>
        ensures { IfOk result (λ o. o ≡ among (table_of self.now) name.now (inherited (sort_of sort.now))) }
    {
        match sort {
            Sort::Interface(scopes) => self.among_listed(name, &scopes.pieces),
            _ => Ok(None),
        }
    }

    /// The name among those that the declaration at a place inherits.
    fn among_inherited_at(&self, name: &[u8], at: usize) -> Result<Option<usize>, NoMemory>
        ensures { IfOk result (λ o. o ≡ among (table_of self.now) name.now (inherited (sort_at (table_of self.now) at))) }
    {
        match self.rows.declared.get(at) {
            Some(declared) => self.among_inherited(name, &declared.sort),
            None => Ok(None),
        }
    }

    /// The name in the bases of a scope.
    fn in_bases(&self, name: &[u8], scope: usize) -> Result<Option<usize>, NoMemory>
        ensures { IfOk result (λ o. o ≡ among (table_of self.now) name.now (above (table_of self.now) scope)) }
    {
        if scope == 0 {
            return Ok(None);
        }
        self.among_inherited_at(name, scope - 1)
    }

    /// The name in a scope, then in its bases in order.
    pub(crate) fn inside(&self, name: &[u8], scope: usize) -> Result<Option<usize>, NoMemory>
        ensures { IfOk result (λ o. o ≡ inside (table_of self.now) name.now scope) }
    {
        match self.own(name, scope)? {
            Some(at) => Ok(Some(at)),
            None => self.in_bases(name, scope),
        }
    }

    /// The name in a scope, then in its bases, then outwards past so many scopes.
    #[tactic(auto, using(crate::proofs::Outwards::outwards_step), unfolding(crate::specs::Finding::outwards))]
    fn outwards(&self, n: usize, name: &[u8], scope: usize) -> Result<Option<usize>, NoMemory>
        ensures { IfOk result (λ o. o ≡ outwards n (table_of self.now) name.now scope) }
    {
        if n == 0 {
            return self.inside(name, scope);
        }
        match self.inside(name, scope)? {
            Some(at) => Ok(Some(at)),
            None => {
                if scope == 0 {
                    Ok(None)
                } else {
                    self.outwards(n - 1, name, self.outer(scope))
                }
            }
        }
    }

    /// The place of what a name means in a scope: it is looked up there, then in the bases of that interface in order,
    /// then outwards. One look-up by the index for each scope that is tried.
    pub fn find(&self, name: &[u8], scope: usize) -> Result<Option<usize>, NoMemory>
        ensures { IfOk result (λ o. o ≡ looked_up (table_of self.now) name.now scope) }
    {
        self.outwards(self.rows.declared.len(), name, scope)
    }

    /// Whether the declaration at a place is an operation or an attribute.
    pub(crate) fn is_operation_at(&self, at: usize) -> bool
        ensures { result ≡ is_operation (sort_at (table_of self.now) at) }
    {
        match self.rows.declared.get(at) {
            Some(declared) => declared.sort.is_operation(),
            None => false,
        }
    }

    /// Whether the declaration at a place is a module.
    fn is_module_at(&self, at: usize) -> bool
        ensures { result ≡ is_module (sort_at (table_of self.now) at) }
    {
        match self.rows.declared.get(at) {
            Some(declared) => declared.sort.is_module(),
            None => false,
        }
    }

    /// The place of what a name means after `::` and the declaration at a place; an operation has no names outside of it.
    pub fn find_inside(&self, name: &[u8], at: u32) -> Result<Option<usize>, NoMemory>
        ensures { IfOk result (λ o. o ≡ inside_of (table_of self.now) name.now at) }
    {
        let at = at as usize;
        if self.is_operation_at(at) {
            return Ok(None);
        }
        match self.own(name, at + 1)? {
            Some(found) => Ok(Some(found)),
            None => self.among_inherited_at(name, at),
        }
    }

    /// The place of the module of this name in a scope, which may be opened again.
    pub fn module_in(&self, name: &[u8], scope: usize) -> Result<Option<usize>, NoMemory>
        ensures { IfOk result (λ o. o ≡ module_in (table_of self.now) name.now scope) }
    {
        match self.own(name, scope)? {
            Some(at) => {
                if self.is_module_at(at) {
                    Ok(Some(at))
                } else {
                    Ok(None)
                }
            }
            None => Ok(None),
        }
    }
}
