//! Why no script was read.

ghost use Rattle.std.specs.Prelude.{◌≡◌};

use orb_base::NoMemory;
use script_grammar::ScriptFault;
use thiserror::Error;

/// Why no script was read.
#[derive(Clone, Copy, Debug, PartialEq, Eq, Error)]
pub enum ScriptError {
    /// The text isn't of the grammar: its first token at fault.
    #[error("{0}")]
    Refused(ScriptFault),
    /// Memory was wanting.
    #[error("out of memory")]
    NoMemory,
}

impl From<NoMemory> for ScriptError {
    ghost use Rattle.servant_scripts.specs.declared.error.ScriptError.TheVariants as error;

    ghost from_gives = { λ _ e. e ≡ error.NoMemory };

    fn from(_: NoMemory) -> ScriptError {
        ScriptError::NoMemory
    }
}
