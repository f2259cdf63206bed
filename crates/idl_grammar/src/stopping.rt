//! Tokens that stop a rule.
ghost use Rattle.std.specs.Prelude.{◌≡◌};
ghost use Rattle.idl_tokens.specs.Placed.{seen};
ghost use Rattle.idl_grammar.specs.Stopping.{cause_of, stop};

use crate::{IdlCause, IdlFault};
use idl_tokens::{Kind, Token};

/// What a token of this kind is given as where the grammar hasn't got it.
fn cause_of(kind: Kind) -> IdlCause
    ensures { result ≡ cause_of kind }
{
    match kind {
        Kind::Bad => IdlCause::BadToken,
        Kind::NotInProfile => IdlCause::NotInProfile,
        Kind::Underscored => IdlCause::NotInProfile,
        _ => IdlCause::Expected,
    }
}

/// The fault of a token that the grammar hasn't got where it is: BadToken, NotInProfile or Expected, by what it is.
pub fn stop_at(token: Token<'_>) -> IdlFault
    ensures { result ≡ stop (seen token.entry) }
{
    IdlFault {
        cause: cause_of(token.kind),
        line: token.line,
        column: token.column,
    }
}
