//! Declaring names.
ghost use Rattle.std.specs.Prelude.{◌≡◌, OnOk, false};
ghost use Rattle.idl_scopes.specs.Taking.{is_in, is_taken_part, is_taken};
ghost use Rattle.idl_scopes.specs.Declaring.{added, Declares};
ghost use Rattle.idl_scopes.specs.Declarations.{sort_of};
ghost use Rattle.idl_scopes.specs.Views.{table_of};

use crate::{DeclareFault, Declared, Place, Scopes, Sort};
use orb_base::NoMemory;

impl Scopes {
    /// Adds a name that its scope hasn't got.
    fn add(&mut self, name: &[u8], scope: usize, place: Place, sort: Sort) -> Result<(), NoMemory>
        requires { is_in (table_of self.old) name.now scope ≡ false }
        ensures { OnOk result (table_of self.new ≡ added scope name.now place (sort_of sort) (table_of self.old)) }
    {
        let key = self.key(name, scope)?;
        let name = Vec::from_slice(self.alloc, name)?;
        self.index.add(self.alloc, key)?;
        let declared = Declared {
            scope,
            name,
            place,
            sort,
        };
        self.rows.add(self.alloc, declared)?;
        Ok(())
    }

    /// Declares a name in a scope, unless it is taken there: Clash. After NoMemory nothing is known of the declarations.
    /// One look-up by the index, and one for each scope that the scope inherits.
    pub fn declare(
        &mut self,
        name: &[u8],
        scope: usize,
        place: Place,
        sort: Sort,
    ) -> Result<(), DeclareFault>
        ensures { Declares result (table_of self.new) (is_taken (table_of self.old) name.now scope) (added scope name.now place (sort_of sort) (table_of self.old)) }
    {
        if self.is_taken(name, scope)? {
            return Err(DeclareFault::Clash);
        }
        self.add(name, scope, place, sort)?;
        Ok(())
    }

    /// Declares a parameter in the scope of its operation, unless its name is a keyword or that of an earlier parameter,
    /// case aside: Clash. After NoMemory nothing is known of the declarations.
    pub fn declare_parameter(
        &mut self,
        name: &[u8],
        scope: usize,
        place: Place,
    ) -> Result<(), DeclareFault>
        ensures { Declares result (table_of self.new) (is_taken_part (table_of self.old) name.now scope) (added scope name.now place (sort_of Sort.Other) (table_of self.old)) }
    {
        if self.is_taken_part(name, scope)? {
            return Err(DeclareFault::Clash);
        }
        self.add(name, scope, place, Sort::Other)?;
        Ok(())
    }
}
