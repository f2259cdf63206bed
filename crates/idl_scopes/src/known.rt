//! Keys of the index.

/// A scope, and a name in it in lower case.
#[derive(Drop, PartialEq, Eq, Hash)]
pub(crate) struct Known {
    pub scope: usize,
    pub name: Vec<u8>,
}
