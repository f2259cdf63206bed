//! Why bytes give no value.
ghost use Rattle.std.specs.Prelude.{◌≡◌};

use cdr_core::CdrFault;
use orb_base::NoMemory;
use std::alloc::{AllocError, AllocFailed};
use thiserror::Error;

/// Why bytes give no value.
#[derive(Clone, Copy, Debug, PartialEq, Eq, Error)]
pub enum DecodeFault {
    /// No prefix of the bytes spells a value of the type, and this is the first fault.
    #[error("{0}")]
    Cdr(CdrFault),
    /// Memory was wanting.
    #[error("out of memory")]
    NoMemory,
}

impl From<CdrFault> for DecodeFault {
    ghost use Rattle.cdr_values.specs.declared.fault.DecodeFault.TheVariants.{Cdr};

    ghost from_gives = { λ f e. e ≡ Cdr f };

    fn from(f: CdrFault) -> DecodeFault {
        DecodeFault::Cdr(f)
    }
}

impl From<NoMemory> for DecodeFault {
    ghost use Rattle.cdr_values.specs.declared.fault.DecodeFault.TheVariants.{NoMemory};

    ghost from_gives = { λ _ e. e ≡ NoMemory };

    fn from(_: NoMemory) -> DecodeFault {
        DecodeFault::NoMemory
    }
}

impl From<AllocError> for DecodeFault {
    ghost use Rattle.cdr_values.specs.declared.fault.DecodeFault.TheVariants.{NoMemory};

    ghost from_gives = { λ _ e. e ≡ NoMemory };

    fn from(_: AllocError) -> DecodeFault {
        DecodeFault::NoMemory
    }
}

impl<T: Drop> From<AllocFailed<T>> for DecodeFault {
    ghost use Rattle.cdr_values.specs.declared.fault.DecodeFault.TheVariants.{NoMemory};

    ghost from_gives = { λ _ e. e ≡ NoMemory };

    fn from(_: AllocFailed<T>) -> DecodeFault {
        DecodeFault::NoMemory
    }
}
