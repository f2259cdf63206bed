//! Why a reference is refused.
ghost use Rattle.std.specs.Prelude.{◌≡◌, ◌-◌, length};
ghost use Rattle.object_refs.specs.Reading.{fault, cdr_fault};
ghost use Rattle.object_refs.specs.Errors.{ref_error};
ghost use Rattle.object_refs.specs.declared.fault.RefError.TheVariants.{Refused};

use cdr_core::{CdrCause, CdrError, CdrFault};
use thiserror::Error;

/// What is wrong with a reference: own profile. A stringified reference is tested for NoPrefix, OddHex, BadHex and Cdr
/// in this order, the first IIOP profile of a reference for NoIiop, Cdr and BadVersion, and an object URL for NoPrefix,
/// BadVersion, BadHost, BadPort and BadEscape.
#[derive(Clone, Copy, Debug, PartialEq, Eq, Error)]
pub enum RefCause {
    /// The text begins neither as a stringified reference nor as an object URL does.
    #[error("NoPrefix")]
    NoPrefix,
    /// The number of hexadecimal digits is odd.
    #[error("OddHex")]
    OddHex,
    /// A byte that should be a hexadecimal digit isn't one.
    #[error("BadHex")]
    BadHex,
    /// The encapsulation has no reading.
    #[error("{0}")]
    Cdr(CdrCause),
    /// The reference has no IIOP profile.
    #[error("NoIiop")]
    NoIiop,
    /// The version isn't 1.2 or, of a profile, a later 1.x.
    #[error("BadVersion")]
    BadVersion,
    /// The host is empty, longer than 255 bytes, or ends in a byte that may not be after a host.
    #[error("BadHost")]
    BadHost,
    /// The port isn't a decimal number from 1 to 65535 in one to five digits, or no slash is after it.
    #[error("BadPort")]
    BadPort,
    /// A percent sign in the key is before something else than two hexadecimal digits.
    #[error("BadEscape")]
    BadEscape,
}

/// What is wrong with a reference, and where: the first fault from left to right.
#[derive(Clone, Copy, Debug, PartialEq, Eq, Error)]
#[error("{place}: {cause}")]
pub struct RefFault {
    pub cause: RefCause,
    /// A byte of the text, counted from 0: the first byte of the part at fault of an object URL, the first bad digit,
    /// or the text's length where a digit is missing. For Cdr a byte of the encapsulation, counted from its order byte.
    /// 0 for NoIiop and for BadVersion of a profile.
    pub place: usize,
}

/// Why a reference was not read.
#[derive(Clone, Copy, Debug, PartialEq, Eq, Error)]
pub enum RefError {
    /// It has no reading.
    #[error("{0}")]
    Refused(RefFault),
    /// Memory was wanting.
    #[error("out of memory")]
    NoMemory,
}

impl From<CdrFault> for RefError {
    ghost from_gives = { λ found e. e ≡ Refused (cdr_fault found) };

    fn from(found: CdrFault) -> RefError {
        RefError::Refused(RefFault {
            cause: RefCause::Cdr(found.cause),
            place: found.place,
        })
    }
}

impl From<CdrError> for RefError {
    ghost from_gives = { λ error e. e ≡ ref_error error };

    fn from(error: CdrError) -> RefError {
        match error {
            CdrError::Refused(found) => RefError::from(found),
            CdrError::NoMemory => RefError::NoMemory,
        }
    }
}

/// A fault of a text at the first byte of what is left of it.
pub fn refused_at(cause: RefCause, text: &[u8], left: &[u8]) -> RefError
    ensures { result ≡ Refused (fault cause (length text.now - length left.now)) }
{
    let place = text.len().saturating_sub(left.len());
    RefError::Refused(RefFault { cause, place })
}
