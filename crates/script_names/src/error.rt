//! Why a name has no meaning.
ghost use Rattle.std.specs.Prelude.{◌≡◌};

use orb_base::NoMemory;
use servant_scripts::At;
use thiserror::Error;

/// Why a name has no meaning.
#[derive(Clone, Copy, Debug, PartialEq, Eq, Error)]
pub enum FindError {
    /// The part that begins here isn't declared where it is looked up.
    #[error("unknown name")]
    Unknown(At),
    /// Memory was wanting.
    #[error("out of memory")]
    NoMemory,
}

impl From<NoMemory> for FindError {
    ghost use Rattle.script_names.specs.declared.error.FindError.TheVariants as error;

    ghost from_gives = { λ _ e. e ≡ error.NoMemory };

    fn from(_: NoMemory) -> FindError {
        FindError::NoMemory
    }
}
