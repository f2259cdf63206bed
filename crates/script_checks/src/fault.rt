//! Why a script isn't checked: own profile.
ghost use Rattle.std.specs.Prelude.{◌≡◌};

use orb_base::NoMemory;
use std::alloc::{AllocError, AllocFailed};
use thiserror::Error;

/// What is wrong with a script. The first fault in the order of the text is given; that an operation has no method comes
/// after all other faults of its servant.
#[derive(Clone, Copy, Debug, PartialEq, Eq, Error)]
pub enum CheckCause {
    /// A servant's name is that of no interface: at its first part that isn't declared, else at its last part.
    #[error("UnknownInterface")]
    UnknownInterface,
    /// A method's name is that of no operation of the interface.
    #[error("UnknownOperation")]
    UnknownOperation,
    /// The parameters haven't the names of the IDL, in order: at the first that differs, or at the `)` where some are missing.
    #[error("ParameterNames")]
    ParameterNames,
    /// A name that is declared nowhere: at its first part that isn't found. A member that a struct hasn't, too.
    #[error("UnknownName")]
    UnknownName,
    /// An expression is of the wrong kind: at its first token. A name of no value, no struct or no exception: at its last part.
    #[error("Kind")]
    Kind,
    /// A result is due, and a path ends without one: at the `}` that ends the method.
    #[error("MissingReturn")]
    MissingReturn,
    /// The operation may not raise the exception: at the last part of its name.
    #[error("NotRaised")]
    NotRaised,
    /// An operation of the interface has no method: at the word `servant`.
    #[error("Missing")]
    Missing,
    /// A second servant, method or variable of one name: at that name.
    #[error("Twice")]
    Twice,
    /// `set` of what is no `out` or `inout` parameter: at the name.
    #[error("NotSettable")]
    NotSettable,
    /// A member that isn't there or was given: at the field's name. One that is missing: at the `}`.
    #[error("Members")]
    Members,
    /// A 65th `let` in a method: at that word.
    #[error("TooManyLets")]
    TooManyLets,
}

/// A cause, and where the token begins at which it is given. It is printed as `LINE:COLUMN: CAUSE`.
#[derive(Clone, Copy, Debug, PartialEq, Eq, Error)]
#[error("{line}:{column}: {cause}")]
pub struct CheckFault {
    pub cause: CheckCause,
    /// The line of the token's first byte, from 1.
    pub line: u32,
    /// The column of the token's first byte, counted in bytes from 1.
    pub column: u32,
}

/// Why no script was checked.
#[derive(Clone, Copy, Debug, PartialEq, Eq, Error)]
pub enum CheckError {
    /// The first fault of the script.
    #[error("{0}")]
    Refused(CheckFault),
    /// Memory was wanting.
    #[error("out of memory")]
    NoMemory,
}

impl From<NoMemory> for CheckError {
    ghost use Rattle.script_checks.specs.declared.fault.CheckError.TheVariants as error;

    ghost from_gives = { λ _ e. e ≡ error.NoMemory };

    fn from(_: NoMemory) -> CheckError {
        CheckError::NoMemory
    }
}

impl From<AllocError> for CheckError {
    ghost use Rattle.script_checks.specs.declared.fault.CheckError.TheVariants as error;

    ghost from_gives = { λ _ e. e ≡ error.NoMemory };

    fn from(_: AllocError) -> CheckError {
        CheckError::NoMemory
    }
}

impl<T: Drop> From<AllocFailed<T>> for CheckError {
    ghost use Rattle.script_checks.specs.declared.fault.CheckError.TheVariants as error;

    ghost from_gives = { λ _ e. e ≡ error.NoMemory };

    fn from(_: AllocFailed<T>) -> CheckError {
        CheckError::NoMemory
    }
}
