//! The scopes that an interface inherits.
ghost use Rattle.idl_scopes.specs.Each.{IsOnce, IsWithin};
ghost use Rattle.idl_scopes.specs.Pieces.{whole_of};

use crate::pieces::Pieces;

/// Scopes in the order of looking up, each once. A list that begins or ends with another one shares its parts, so that
/// many interfaces which inherit from one another take little memory.
#[derive(Drop)]
pub struct Inherited {
    pub(crate) pieces: Pieces,
    /// No scope is below this one.
    pub(crate) least: usize,
    /// No scope is above this one.
    pub(crate) most: usize,
    ghost once: { IsOnce (whole_of pieces) },
    ghost within: { IsWithin least most (whole_of pieces) },
}
