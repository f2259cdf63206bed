//! Why a value doesn't fit.

use thiserror::Error;

/// Why a value doesn't fit a type.
#[derive(Clone, Copy, Debug, PartialEq, Eq, Error)]
pub enum Misfit {
    /// The type has values of another kind.
    #[error("WrongKind")]
    WrongKind,
    /// The value lies outside the type's range, or is longer than its bound.
    #[error("OutOfRange")]
    OutOfRange,
}
