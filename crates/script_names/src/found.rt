//! What a part of a name has found.

use crate::meaning::Meaning;

/// The id of what a name means, and what it stands for.
#[derive(Drop)]
pub(crate) struct Found {
    pub id: Vec<u8>,
    pub meaning: Meaning,
}
