//! Texts as tokens.
ghost use Rattle.std.specs.Prelude.{◌≡◌, ◌+◌, ◌≤◌, ◌<◌, ◌^◌, length, map, IfOk};
ghost use Rattle.idl_tokens.specs.Cutting.{kept, place_after, text_tokens};
ghost use Rattle.idl_tokens.specs.Placed.{seen};
ghost use Rattle.idl_tokens.specs.Found.{found_stream};

use crate::lexing::lex_at;
use crate::{Dialect, Kind, MAX_TEXT, Token, Tokens, same_kind};
use orb_base::{List, NoMemory};
use std::alloc::Global;

/// The tokens of a text, and the one that ends them: the end of the text, or what begins no token.
#[derive(Drop)]
pub struct Found<'a> {
    pub tokens: List<Token<'a>>,
    pub end: Token<'a>,
}

impl<'a> Found<'a> {
    /// All of them, to be read from the front. Takes no memory.
    pub fn stream(&self) -> Tokens<'_>
        ensures { result ≡ found_stream self.now }
    {
        Tokens::new(self.tokens.as_slice(), self.end)
    }
}

/// Puts a token after the others, if it isn't blank.
fn keep<'a>(tokens: &mut List<Token<'a>>, token: Token<'a>) -> Result<(), NoMemory>
    ensures { IfOk result (λ _. map seen tokens.new.items ≡ kept (map seen tokens.old.items) (seen token.entry)) }
{
    if same_kind(token.kind, Kind::Blank) {
        return Ok(());
    }
    match tokens.push(token) {
        Ok(()) => Ok(()),
        Err(_) => Err(NoMemory),
    }
}

/// Where the byte after these is.
fn place_behind(mut line: u32, mut column: u32, bytes: &[u8]) -> (u32, u32)
    requires { (line + length bytes.now ≤ 2 ^ 24) × (column + length bytes.now ≤ 2 ^ 24) }
    ensures value { result ≡ place_after line column bytes.now }
    ensures within { (result.0 ≤ line + length bytes.now) × (result.1 ≤ column + length bytes.now) }
{
    for b in bytes {
        if *b == b'\n' {
            line += 1;
            column = 1;
        } else {
            column += 1;
        }
    }
    (line, column)
}

/// Cuts a whole text into its tokens, in one pass over the text: the work is linear in its bytes, and the list grows
/// by a token at a time, some 40 bytes each. Where a byte begins no token, or a comment, a text or a character isn't
/// closed, that place ends the tokens, as a token of the kind `Bad`.
pub fn tokens_of<'a>(alloc: Global, dialect: Dialect, text: &'a [u8]) -> Result<Found<'a>, NoMemory>
    requires { length text.now ≤ MAX_TEXT }
    ensures { IfOk result (λ found. found_stream found ≡ text_tokens dialect text.now) }
{
    let mut tokens = List::new(alloc);
    let mut rest = text;
    let mut line = 1;
    let mut column = 1;
    while !rest.is_empty() {
        let (kind, n) = lex_at(dialect, rest);
        let (piece, after) = rest.split_at(n + 1);
        let token = Token {
            kind,
            text: piece,
            line,
            column,
        };
        if same_kind(kind, Kind::Bad) {
            return Ok(Found { tokens, end: token });
        }
        keep(&mut tokens, token)?;
        (line, column) = place_behind(line, column, piece);
        rest = after;
    }
    let end = Token {
        kind: Kind::End,
        text: &[],
        line,
        column,
    };
    Ok(Found { tokens, end })
}
