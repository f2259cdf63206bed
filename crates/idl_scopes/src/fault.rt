//! Why a name isn't declared.

use orb_base::NoMemory;
use thiserror::Error;

/// Why a name isn't declared.
#[derive(Clone, Copy, Debug, PartialEq, Eq, Error)]
pub enum DeclareFault {
    /// The name is taken.
    #[error("Clash")]
    Clash,
    /// Memory was wanting.
    #[error("out of memory")]
    NoMemory,
}

impl From<NoMemory> for DeclareFault {
    ghost use Rattle.std.specs.Prelude.{◌≡◌};
    ghost use Rattle.idl_scopes.specs.declared.fault.DeclareFault.TheVariants as fault;

    ghost from_gives = { λ _ e. e ≡ fault.NoMemory };

    fn from(_: NoMemory) -> DeclareFault {
        DeclareFault::NoMemory
    }
}
