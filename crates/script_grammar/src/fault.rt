//! Where a text is no script.
ghost use Rattle.std.specs.Prelude.{◌≡◌};
ghost use Rattle.idl_tokens.specs.Placed.{seen};
ghost use Rattle.script_grammar.specs.Stopping.{stop};

use idl_tokens::Token;
use thiserror::Error;

/// The first token at fault. Its cause is always that another one is expected there: own profile.
#[derive(Clone, Copy, Debug, PartialEq, Eq, Error)]
#[error("{line}:{column}: Expected")]
pub struct ScriptFault {
    /// The line of the token's first byte, from 1.
    pub line: u32,
    /// The column of the token's first byte, counted in bytes from 1.
    pub column: u32,
}

/// The fault of a token that is where it may not.
pub fn stop_at(token: Token<'_>) -> ScriptFault
    ensures { result ≡ stop (seen token.entry) }
{
    ScriptFault {
        line: token.line,
        column: token.column,
    }
}
