//! From where a name is looked up.
ghost use Rattle.std.specs.Prelude.{◌≡◌, IfOk};
ghost use Rattle.idl_scopes.specs.Views.{table_of};
ghost use Rattle.idl_lookup.specs.Lookup as Spec;

use crate::head::Head;
use idl_scopes::Scopes;
use orb_base::NoMemory;

/// From where a name is looked up: what of an operation is read, and the scope that is open.
#[derive(Clone, Copy, Debug, PartialEq, Eq)]
pub struct Seat {
    pub head: Head,
    pub here: usize,
}

impl Seat {
    /// The number of the declaration whose body is open.
    pub fn opened(self) -> usize
        ensures { result ≡ Spec.opened self }
    {
        self.here.saturating_sub(1)
    }

    /// Whether this is the name of the operation that is read, in the scope that the operation is declared in.
    fn is_itself(self, scopes: &Scopes, name: &[u8], scope: usize) -> bool
        ensures { result ≡ Spec.is_itself (table_of scopes.now) self name.now scope }
    {
        scope == scopes.outer(self.here) && scopes.name_at(self.opened()) == name
    }

    /// The place of a name in the interface of the operation that is read, which is declared there at its name.
    fn find_around(self, scopes: &Scopes, name: &[u8]) -> Result<Option<usize>, NoMemory>
        ensures { IfOk result (λ o. o ≡ Spec.find_around (table_of scopes.now) self name.now) }
    {
        let around = scopes.outer(self.here);
        if self.is_itself(scopes, name, around) {
            return Ok(Some(self.opened()));
        }
        scopes.find(name, around)
    }

    /// The place of the first part of a name; `None` where nothing has it. In an operation's parameters it is looked up there and then in
    /// the operation's interface, and in what the operation raises in its interface alone.
    ///
    /// # Errors
    ///
    /// Out of memory.
    pub fn find_first(self, scopes: &Scopes, name: &[u8]) -> Result<Option<usize>, NoMemory>
        ensures { IfOk result (λ o. o ≡ Spec.find_first (table_of scopes.now) self self.head name.now) }
    {
        match self.head {
            Head::Outside => scopes.find(name, self.here),
            Head::Parameters => match scopes.own(name, self.here)? {
                Some(at) => Ok(Some(at)),
                None => self.find_around(scopes, name),
            },
            Head::Raises => self.find_around(scopes, name),
        }
    }

    /// The place of a further part of a name in an operation, inside the declaration of this number.
    fn find_in_head(self, scopes: &Scopes, name: &[u8], at: u32) -> Result<Option<usize>, NoMemory>
        ensures { IfOk result (λ o. o ≡ Spec.find_in_head (table_of scopes.now) self name.now at) }
    {
        if at as usize == self.opened() {
            return Ok(None);
        }
        if self.is_itself(scopes, name, at as usize + 1) {
            return Ok(Some(self.opened()));
        }
        scopes.find_inside(name, at)
    }

    /// The place of a further part of a name, inside the declaration of this number; `None` where nothing there has it. In an operation
    /// nothing is inside the operation itself, and inside its interface the operation is.
    ///
    /// # Errors
    ///
    /// Out of memory.
    pub fn find_further(
        self,
        scopes: &Scopes,
        name: &[u8],
        at: u32,
    ) -> Result<Option<usize>, NoMemory>
        ensures { IfOk result (λ o. o ≡ Spec.find_further (table_of scopes.now) self self.head name.now at) }
    {
        match self.head {
            Head::Outside => scopes.find_inside(name, at),
            Head::Parameters => self.find_in_head(scopes, name, at),
            Head::Raises => self.find_in_head(scopes, name, at),
        }
    }
}
