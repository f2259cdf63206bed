//! What an interface inherits.

use indexmap::IndexSet;

/// The ids of all bases of an interface, each once, in the order of looking up.
#[derive(Drop)]
pub(crate) struct Bases {
    pub ids: IndexSet<Vec<u8>>,
}
