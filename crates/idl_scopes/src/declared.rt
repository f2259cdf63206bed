//! One declaration.

use crate::{Place, Sort};

/// A declaration.
#[derive(Drop)]
pub struct Declared {
    /// The scope in which it is.
    pub scope: usize,
    /// Its name as it was spelled there.
    pub name: Vec<u8>,
    /// Where its name is.
    pub place: Place,
    pub sort: Sort,
}
