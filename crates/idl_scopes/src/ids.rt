//! Repository ids: CORBA 3.0.3, section 10.7.1.
ghost use Rattle.std.specs.Prelude.{◌≡◌, ◌++◌, IfOk, OnOk};
ghost use Rattle.idl_scopes.specs.Ids.{within, id_of};
ghost use Rattle.idl_scopes.specs.Views.{table_of};

use crate::Scopes;
use orb_base::NoMemory;

impl Scopes {
    /// Appends the names of a scope and of those around it, up to so many, each with a `/` after it.
    fn write_within(&self, n: usize, scope: usize, out: &mut Vec<u8>) -> Result<(), NoMemory>
        ensures { OnOk result (out.new.items ≡ out.old.items ++ within n (table_of self.now) scope) }
    {
        if scope == 0 {
            return Ok(());
        }
        if n == 0 {
            return Ok(());
        }
        self.write_within(n - 1, self.outer(scope), out)?;
        out.extend_from_slice(self.name_at(scope - 1))?;
        out.push(b'/')?;
        Ok(())
    }

    /// The repository id of the declaration at a place: `IDL:`, the names of the scopes around it and its own with `/`
    /// between them, and `:1.0`.
    pub fn id_of(&self, at: usize) -> Result<Vec<u8>, NoMemory>
        ensures { IfOk result (λ v. v.items ≡ id_of (table_of self.now) at) }
    {
        let mut id = Vec::from_slice(self.alloc, b"IDL:")?;
        self.write_within(self.rows.declared.len(), self.scope_at(at), &mut id)?;
        id.extend_from_slice(self.name_at(at))?;
        id.extend_from_slice(b":1.0")?;
        Ok(id)
    }
}
