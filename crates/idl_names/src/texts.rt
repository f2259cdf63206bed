//! Names and texts, owned.
ghost use Rattle.std.specs.Prelude.{◌≡◌, IfOk};
ghost use Rattle.idl_scopes.specs.Ids as ids;
ghost use Rattle.idl_names.specs.Changes as Spec;
ghost use Rattle.idl_names.specs.Views.{built_of};

use crate::state::Names;
use orb_base::{NoMemory, Text};
use std::alloc::Global;

/// The text of these bytes. No token has a NUL; one that had would be given as out of memory.
pub(crate) fn text_of(alloc: Global, bytes: &[u8]) -> Result<Text, NoMemory>
    ensures { IfOk result (λ t. t ≡ bytes.now) }
{
    match Text::new(alloc, bytes) {
        Ok(text) => Ok(text),
        Err(_) => Err(NoMemory),
    }
}

/// The same, without a copy.
pub(crate) fn text_from(bytes: Vec<u8>) -> Result<Text, NoMemory>
    ensures { IfOk result (λ t. t ≡ bytes.items) }
{
    match Text::from_vec(bytes) {
        Ok(text) => Ok(text),
        Err(_) => Err(NoMemory),
    }
}

impl Names {
    /// The name of the declaration at a place.
    pub(crate) fn name_at(&self, at: usize) -> Result<Text, NoMemory>
        ensures { IfOk result (λ t. t ≡ Spec.name_at (built_of self.now) at) }
    {
        text_of(self.alloc, self.scopes.name_at(at))
    }

    /// Its repository id.
    pub(crate) fn id_of(&self, at: usize) -> Result<Text, NoMemory>
        ensures { IfOk result (λ t. t ≡ ids.id_of (built_of self.now).scopes at) }
    {
        text_from(self.scopes.id_of(at)?)
    }
}
