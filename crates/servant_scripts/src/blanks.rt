//! What stands for something where there is none, and what a token says.
ghost use Rattle.std.specs.Prelude.{◌≡◌, IfOk};
ghost use Rattle.idl_tokens.specs.Placed.{seen};
ghost use Rattle.servant_scripts.specs.Drafts as Spec;
ghost use Rattle.servant_scripts.specs.Trees.{said};
ghost use Rattle.servant_scripts.specs.Views.{scoped_of, said_of, shape_of};

use crate::{At, Form, Name, Part, Phrase, ScopedName};
use idl_tokens::Token;
use orb_base::NoMemory;
use std::alloc::Global;

/// No place.
pub fn no_place() -> At
    ensures { result ≡ Spec.no_place }
{
    At { line: 0, column: 0 }
}

/// No name.
pub fn no_part(alloc: Global) -> Part
    ensures { result ≡ Spec.no_part }
{
    Part {
        at: no_place(),
        name: Name::empty(alloc),
    }
}

/// No scoped name.
pub fn no_name(alloc: Global) -> ScopedName
    ensures { scoped_of result ≡ Spec.no_name }
{
    ScopedName {
        at: no_place(),
        rooted: false,
        parts: Vec::new(alloc),
    }
}

/// An expression to which nothing is done.
#[tactic(auto, using(crate::proofs::Parts::said_is))]
pub fn phrase(alloc: Global, at: At, form: Form) -> Phrase
    ensures { said_of result ≡ said at (shape_of form) }
{
    Phrase {
        at,
        form,
        links: Vec::new(alloc),
    }
}

/// No expression.
pub fn no_phrase(alloc: Global) -> Phrase
    ensures { said_of result ≡ Spec.no_phrase }
{
    phrase(alloc, no_place(), Form::Priority)
}

/// Where a token is.
pub fn place_of(token: Token<'_>) -> At
    ensures { result ≡ Spec.place (seen token.entry) }
{
    At {
        line: token.line,
        column: token.column,
    }
}

/// A token as a name.
pub fn part_of(alloc: Global, token: Token<'_>) -> Result<Part, NoMemory>
    ensures { IfOk result (λ p. p ≡ Spec.part (seen token.entry)) }
{
    Ok(Part {
        at: place_of(token),
        name: Name::new(alloc, token.text)?,
    })
}
