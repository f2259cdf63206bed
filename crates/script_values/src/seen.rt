//! What an expression gives.
ghost use Rattle.std.specs.Prelude.{◌≡◌, IfOk};
ghost use Rattle.cdr_values.specs.Values.{value_of};
ghost use Rattle.script_values.specs.Views.{seen_of};

use cdr_values::{IdlValue, copy_value};
use orb_base::NoMemory;
use std::alloc::Global;

/// A value that is lent where it is, or one that was made.
#[derive(Drop)]
pub enum Seen<'a> {
    Here(&'a IdlValue),
    Made(IdlValue),
}

impl Seen<'_> {
    /// The value.
    pub fn get(&self) -> &IdlValue
        ensures { value_of result.now ≡ seen_of self.now }
    {
        match self {
            Seen::Here(value) => value,
            Seen::Made(value) => value,
        }
    }

    /// The value for itself: one that was made is moved; one that is elsewhere is copied, at the cost of its size.
    pub fn own(self, alloc: Global) -> Result<IdlValue, NoMemory>
        ensures { IfOk result (λ v. value_of v ≡ seen_of self.entry) }
    {
        match self {
            Seen::Here(value) => copy_value(alloc, value),
            Seen::Made(value) => Ok(value),
        }
    }
}
