//! What names stand for.

/// What a name of a repository stands for. Places are those of the repository's things, from 0.
#[derive(Clone, Copy, Debug, PartialEq, Eq)]
pub enum Meaning {
    /// The constant, type, exception or interface at this place.
    Thing(usize),
    /// Of the enum at this place, the enumerator with this number, from 0.
    Enumerator(usize, usize),
    /// A module, an operation, an attribute or a member: declared, and nothing that a script names.
    Other,
}
