//! The scopes that have a name.
ghost use Rattle.std.specs.Prelude.{◌≡◌, ◌++◌, ◌∷◌, [], IfOk, OnOk, false, length, true};
ghost use Rattle.idl_scopes.specs.Bases.{holds};
ghost use Rattle.idl_scopes.specs.Groups.{AreHolders, AreOwners, scopes_at};
ghost use Rattle.idl_scopes.specs.Views.{table_of};

use crate::Scopes;
use crate::bases::holds;
use orb_base::NoMemory;

/// So many scopes that may have a name are compared before they are looked up.
const MOST_COMPARED: usize = 64;

/// The scopes that have a name, where these are few.
#[derive(Drop)]
pub(crate) struct Holders {
    pub few: bool,
    pub scopes: Vec<usize>,
}

impl Holders {
    /// Whether no scope has the name.
    pub(crate) fn is_none(&self) -> bool
        ensures few { result ≡ true → self.now.few ≡ true }
        ensures none { result ≡ true → length self.now.scopes.items ≡ 0 }
    {
        self.few && self.scopes.is_empty()
    }

    /// Whether a scope has it not, as far as that is known.
    pub(crate) fn lacks(&self, scope: usize) -> bool
        ensures few { result ≡ true → self.now.few ≡ true }
        ensures none { result ≡ true → holds self.now.scopes.items scope ≡ false }
    {
        self.few && !holds(&self.scopes, scope)
    }
}

impl Scopes {
    /// Puts the scope of the declaration at a place after others, or that of an operation or attribute.
    fn put_scope(
        &self,
        at: usize,
        operations: bool,
        scopes: &mut Vec<usize>,
    ) -> Result<(), NoMemory>
        ensures { OnOk result (scopes.new.items ≡ scopes.old.items ++ scopes_at (table_of self.now) operations (at ∷ [])) }
    {
        if operations && !self.is_operation_at(at) {
            return Ok(());
        }
        match self.index.scope_at(at) {
            Some(scope) => scopes.push(scope)?,
            None => {}
        }
        Ok(())
    }

    /// The scopes of the declarations at these places, or of the operations and attributes among them.
    fn scopes_at(&self, places: &[usize], operations: bool) -> Result<Vec<usize>, NoMemory>
        ensures { IfOk result (λ v. v.items ≡ scopes_at (table_of self.now) operations places.now) }
    {
        let mut scopes = Vec::new(self.alloc);
        for at in places {
            self.put_scope(*at, operations, &mut scopes)?;
        }
        Ok(scopes)
    }

    /// The scopes that have a name, case aside. Costs a hash, and a step for each of them where they are few.
    pub(crate) fn holders(&self, name: &[u8]) -> Result<Holders, NoMemory>
        ensures { IfOk result (λ h. h.few ≡ true → AreHolders (table_of self.now) name.now h.scopes.items) }
    {
        let low = name.to_ascii_lowercase(self.alloc)?;
        let places = self.index.places_of(&low);
        if MOST_COMPARED < places.len() {
            return Ok(Holders {
                few: false,
                scopes: Vec::new(self.alloc),
            });
        }
        let scopes = self.scopes_at(places, false)?;
        Ok(Holders { few: true, scopes })
    }

    /// The scopes that have an operation or attribute of a name, case aside. Costs a hash, and a step for each that has the
    /// name.
    pub(crate) fn owners(&self, name: &[u8]) -> Result<Holders, NoMemory>
        ensures { IfOk result (λ h. h.few ≡ true → AreOwners (table_of self.now) name.now h.scopes.items) }
    {
        let low = name.to_ascii_lowercase(self.alloc)?;
        let scopes = self.scopes_at(self.index.places_of(&low), true)?;
        let few = scopes.len() <= MOST_COMPARED;
        Ok(Holders { few, scopes })
    }
}
