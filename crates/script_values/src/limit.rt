//! Why a run ends early.

ghost use Rattle.std.specs.Prelude.{◌≡◌};

use orb_base::NoMemory;
use thiserror::Error;

/// A limit that an operation meets. Each is a minor of the system exception IMP_LIMIT, completed MAYBE.
#[derive(Clone, Copy, Debug, PartialEq, Eq, Error)]
pub enum Limit {
    /// Minor 1: a value of more than 65,536 leaves was built.
    #[error("too large")]
    TooLarge,
    /// Minor 2: a number outside 128 bits, or a divisor 0.
    #[error("arithmetic")]
    Arithmetic,
    /// Minor 3: an index outside its list.
    #[error("index")]
    Index,
    /// Minor 4: a value that doesn't fit its type.
    #[error("misfit")]
    Misfit,
}

/// Why there is no value.
#[derive(Clone, Copy, Debug, PartialEq, Eq, Error)]
pub enum Stop {
    /// A limit was met.
    #[error("{0}")]
    Limit(Limit),
    /// Memory was wanting.
    #[error("out of memory")]
    NoMemory,
}

impl From<Limit> for Stop {
    ghost use Rattle.script_values.specs.declared.limit.Stop.TheVariants as stop;

    ghost from_gives = { λ f e. e ≡ stop.Limit f };

    fn from(limit: Limit) -> Stop {
        Stop::Limit(limit)
    }
}

impl From<NoMemory> for Stop {
    ghost use Rattle.script_values.specs.declared.limit.Stop.TheVariants as stop;

    ghost from_gives = { λ _ e. e ≡ stop.NoMemory };

    fn from(_: NoMemory) -> Stop {
        Stop::NoMemory
    }
}
