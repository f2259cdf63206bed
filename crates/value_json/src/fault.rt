//! Why JSON gives no value.
ghost use Rattle.std.specs.Prelude.{◌≡◌};

use orb_base::NoMemory;
use std::alloc::{AllocError, AllocFailed};
use thiserror::Error;

/// Why JSON gives no value of a type.
#[derive(Clone, Copy, Debug, PartialEq, Eq, Error)]
pub enum JsonError {
    /// It means no value of the type, or the text is no JSON.
    #[error("not of the type")]
    NotOfType,
    /// Out of memory.
    #[error("out of memory")]
    NoMemory,
}

impl From<NoMemory> for JsonError {
    ghost use Rattle.value_json.specs.declared.fault.JsonError.TheVariants.{NoMemory};

    ghost from_gives = { λ _ e. e ≡ NoMemory };

    fn from(_: NoMemory) -> JsonError {
        JsonError::NoMemory
    }
}

impl From<AllocError> for JsonError {
    ghost use Rattle.value_json.specs.declared.fault.JsonError.TheVariants.{NoMemory};

    ghost from_gives = { λ _ e. e ≡ NoMemory };

    fn from(_: AllocError) -> JsonError {
        JsonError::NoMemory
    }
}

impl<T: Drop> From<AllocFailed<T>> for JsonError {
    ghost use Rattle.value_json.specs.declared.fault.JsonError.TheVariants.{NoMemory};

    ghost from_gives = { λ _ e. e ≡ NoMemory };

    fn from(_: AllocFailed<T>) -> JsonError {
        JsonError::NoMemory
    }
}
