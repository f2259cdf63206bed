//! The tokens that are left.
ghost use Rattle.std.specs.Prelude.{◌≡◌, ◌<◌, ◌^◌, length, map};
ghost use Rattle.idl_tokens.specs.Stream.{stream, front, behind, is_empty};
ghost use Rattle.idl_tokens.specs.Placed.{same_kind, seen};

use crate::{Kind, Token};
use std::marker::Model;

/// Whether two tokens are of one kind.
#[tactic(auto, unfolding(crate::specs::Placed::same_kind))]
pub fn same_kind(a: Kind, b: Kind) -> bool
    ensures { result ≡ same_kind a b }
{
    a == b
}

/// The tokens that are left, and the end after them.
#[derive(Drop)]
pub struct Tokens<'a> {
    rest: &'a [Token<'a>],
    end: Token<'a>,
}

impl<'a> Model for Tokens<'a> {
    ghost use Rattle.std.specs.Prelude.{List, map};
    ghost use Rattle.idl_tokens.specs.Stream.{Stream};
    ghost use Rattle.idl_tokens.specs.Placed.{seen};
    ghost use Rattle.idl_tokens.specs.declared.kind.Kind.{Kind};

    ghost Value = { Stream Kind };

    ghost view = { λ t. record { tokens = map seen t.rest.now; end = seen t.end } };
}

impl<'a> Tokens<'a> {
    /// All of these tokens, with this end after them.
    pub fn new(rest: &'a [Token<'a>], end: Token<'a>) -> Tokens<'a>
        ensures { result ≡ stream (map seen rest.now) (seen end.entry) }
    {
        Tokens { rest, end }
    }

    /// The next token, or the end.
    pub fn front(&self) -> Token<'a>
        ensures { seen result ≡ front self.now }
    {
        match self.rest {
            [first, ..] => *first,
            [] => self.end,
        }
    }

    /// Whether nothing is left but the end.
    pub fn is_over(&self) -> bool
        ensures { result ≡ is_empty self.now.tokens }
    {
        match self.rest {
            [_, ..] => false,
            [] => true,
        }
    }

    /// Goes after the next token; at the end nothing changes.
    pub fn advance(&mut self)
        ensures { self.new ≡ behind self.old }
    {
        if let [_, rest @ ..] = self.rest {
            self.rest = rest;
        }
    }

    /// How many tokens are left before the end.
    pub fn left(&self) -> usize
        ensures value { result ≡ length self.now.tokens }
        ensures fits { result < 2 ^ 63 }
    {
        self.rest.len()
    }
}
