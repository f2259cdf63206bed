//! The names of a repository.

use crate::bases::Bases;
use crate::meaning::Meaning;
use indexmap::IndexMap;
use std::alloc::Global;

/// What the ids of a repository stand for, and the bases of its interfaces.
#[derive(Drop)]
pub struct Names {
    pub(crate) alloc: Global,
    /// Every id that is declared, of things first.
    pub(crate) meanings: IndexMap<Vec<u8>, Meaning>,
    /// The bases of each interface, by its id.
    pub(crate) bases: IndexMap<Vec<u8>, Bases>,
}
