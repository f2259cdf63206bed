//! The bases of interfaces.
ghost use Rattle.std.specs.Prelude.{◌≡◌, ◌++◌, ◌∷◌, IfOk, IfErr, OnOk};
ghost use Rattle.std.specs.List.{list_any};
ghost use Rattle.idl_scopes.specs.Bases.{holds, differs, bases_clash};
ghost use Rattle.idl_scopes.specs.Finding.{among, inherited, sort_at, scopes_of};
ghost use Rattle.idl_scopes.specs.Each.{and_each};
ghost use Rattle.idl_scopes.specs.Groups.{clashes_at, clashes_in};
ghost use Rattle.idl_scopes.specs.Pieces.{whole_of};
ghost use Rattle.idl_scopes.specs.Inherited.{list_of};
ghost use Rattle.idl_scopes.specs.Declarations.{sort_of};
ghost use Rattle.idl_scopes.specs.Views.{table_of};

use crate::pieces::Pieces;
use crate::{Inherited, Scopes, Sort};
use orb_base::NoMemory;
use std::alloc::Global;

/// Whether a scope is among these.
pub(crate) fn holds(scopes: &[usize], scope: usize) -> bool
    ensures { result ≡ holds scopes.now scope }
{
    scopes.iter().any(|s| *s == scope)
}

/// Whether both are there and aren't the same.
fn differs(a: Option<usize>, b: Option<usize>) -> bool
    ensures { result ≡ differs a b }
{
    match (a, b) {
        (Some(a), Some(b)) => a != b,
        _ => false,
    }
}

/// Puts the scopes that such a declaration inherits after others.
fn put_inherited(sort: &Sort, scopes: &mut Vec<usize>) -> Result<(), NoMemory>
    ensures { OnOk result (scopes.new.items ≡ scopes.old.items ++ inherited (sort_of sort.now)) }
{
    match sort {
        Sort::Interface(inherited) => inherited.pieces.put_behind(scopes),
        _ => Ok(()),
    }
}

/// The scope of a base and those that it inherits, as far as they aren't among these.
fn inherit_from(
    alloc: Global,
    scope: usize,
    sort: &Sort,
    given: &mut Inherited,
) -> Result<(), NoMemory>
    ensures put { OnOk result (list_of given.new ≡ and_each (list_of given.old) (scope ∷ inherited (sort_of sort.now))) }
    ensures kept { IfErr result (λ e. list_of given.new ≡ list_of given.old) }
{
    match sort {
        Sort::Interface(inherited) => given.inherit(alloc, scope, inherited),
        _ => given.inherit(alloc, scope, &Inherited::new(alloc)),
    }
}

impl Scopes {
    /// Puts the scopes that the declaration at a place inherits after others.
    fn put_inherited_at(&self, at: usize, scopes: &mut Vec<usize>) -> Result<(), NoMemory>
        ensures { OnOk result (scopes.new.items ≡ scopes.old.items ++ inherited (sort_at (table_of self.now) at)) }
    {
        match self.rows.declared.get(at) {
            Some(declared) => put_inherited(&declared.sort, scopes),
            None => Ok(()),
        }
    }

    /// All scopes whose names a base gives: its own, and those that it inherits.
    pub fn scopes_of(&self, base: u32) -> Result<Vec<usize>, NoMemory>
        ensures { IfOk result (λ v. v.items ≡ scopes_of (table_of self.now) base) }
    {
        let mut scopes = Vec::new(self.alloc);
        scopes.push(base as usize + 1)?;
        self.put_inherited_at(base as usize, &mut scopes)?;
        Ok(scopes)
    }

    /// Gives the scopes of a base to an interface: those that aren't among its scopes are after them. After NoMemory it
    /// has those that it had. A step for each 128 scopes where those of the base are all above the scopes there, as for a
    /// first base, and else a few steps for each scope of both; a base's long list is shared and not copied, where none of
    /// its scopes is there before.
    pub fn inherit(&self, base: u32, given: &mut Inherited) -> Result<(), NoMemory>
        ensures put { OnOk result (list_of given.new ≡ and_each (list_of given.old) (scopes_of (table_of self.now) base)) }
        ensures kept { IfErr result (λ e. list_of given.new ≡ list_of given.old) }
    {
        let scope = base as usize + 1;
        match self.rows.declared.get(base as usize) {
            Some(declared) => inherit_from(self.alloc, scope, &declared.sort, given),
            None => given.inherit(self.alloc, scope, &Inherited::new(self.alloc)),
        }
    }

    /// Whether a name means one thing in the earlier scopes and another in the later ones.
    fn means_both(&self, name: &[u8], earlier: &Pieces, later: &[usize]) -> Result<bool, NoMemory>
        ensures { IfOk result (λ b. b ≡ differs (among (table_of self.now) name.now (whole_of earlier.now)) (among (table_of self.now) name.now later.now)) }
    {
        let before = self.among_listed(name, earlier)?;
        let behind = self.among(name, later)?;
        Ok(differs(before, behind))
    }

    /// Whether the declaration at a place is one of a scope, and its name means both.
    fn clashes_at(
        &self,
        at: usize,
        scope: usize,
        earlier: &Pieces,
        later: &[usize],
    ) -> Result<bool, NoMemory>
        ensures { IfOk result (λ b. b ≡ clashes_at (table_of self.now) (whole_of earlier.now) later.now scope at) }
    {
        match self.rows.declared.get(at) {
            Some(declared) => {
                if scope == declared.scope {
                    self.means_both(&declared.name, earlier, later)
                } else {
                    Ok(false)
                }
            }
            None => Ok(false),
        }
    }

    /// Whether one of those at these places does.
    fn any_clashes_at(
        &self,
        places: &[usize],
        scope: usize,
        earlier: &Pieces,
        later: &[usize],
    ) -> Result<bool, NoMemory>
        ensures { IfOk result (λ b. b ≡ list_any (clashes_at (table_of self.now) (whole_of earlier.now) later.now scope) places.now) }
    {
        for at in places {
            if self.clashes_at(*at, scope, earlier, later)? {
                return Ok(true);
            }
        }
        Ok(false)
    }

    /// Whether one of all declarations of a scope does.
    fn any_clashes_in(
        &self,
        scope: usize,
        earlier: &Pieces,
        later: &[usize],
    ) -> Result<bool, NoMemory>
        ensures { IfOk result (λ b. b ≡ list_any (clashes_in (table_of self.now) (whole_of earlier.now) later.now scope) (table_of self.now).declared) }
    {
        let places = self.rows.places_in(scope);
        let any = self.any_clashes_at(places, scope, earlier, later)?;
        Ok(any)
    }

    /// Whether a further base, which gives the later scopes, gives another thing of a name than the bases before it, which
    /// give the earlier ones.
    fn bases_clash(&self, earlier: &Pieces, later: &[usize]) -> Result<bool, NoMemory>
        ensures { IfOk result (λ b. b ≡ bases_clash (table_of self.now) (whole_of earlier.now) later.now) }
    {
        for scope in later {
            if self.any_clashes_in(*scope, earlier, later)? {
                return Ok(true);
            }
        }
        Ok(false)
    }

    /// Whether a further base gives another thing of a name than the bases before it, which gave these scopes. For a first
    /// base nothing is looked up, and else each name of its scopes in both; for a name that few scopes of the text have this
    /// is a few comparisons for each scope, and one or two look-ups.
    pub fn base_clashes(&self, base: u32, given: &Inherited) -> Result<bool, NoMemory>
        ensures { IfOk result (λ b. b ≡ bases_clash (table_of self.now) (list_of given.now) (scopes_of (table_of self.now) base)) }
    {
        if given.pieces.is_none() {
            return Ok(false);
        }
        let later = self.scopes_of(base)?;
        self.bases_clash(&given.pieces, &later)
    }
}
