//! What is at a place of a text.
ghost use Rattle.std.specs.Prelude.{◌≡◌, ◌+◌, ◌≤◌, ◌<◌, [], ◌∷◌, List, length, drop};
ghost use Rattle.idl_tokens.specs.Lexing as Lex;
ghost use Rattle.idl_tokens.specs.Lexing.{lex_at as lex_at_lem};

use crate::marks::mark_at;
use crate::runs::{
    comment_len, digits_len, hex_len, is_blank, line_len, name_len, octal_len, text_len,
};
use crate::words::word_kind;
use crate::{Dialect, Kind};

/// A name or a word: `text` begins with a byte that `rest` is after.
fn named(dialect: Dialect, text: &[u8], first: u8, rest: &[u8]) -> (Kind, usize)
    requires { text.now ≡ first ∷ rest.now }
    ensures value { result ≡ Lex.named dialect first rest.now }
    ensures within { result.1 ≤ length rest.now }
{
    let n = name_len(rest);
    (word_kind(dialect, &text[..n + 1]), n)
}

/// `_`, with the name after it if there is one.
fn underscored(rest: &[u8]) -> (Kind, usize)
    ensures value { result ≡ Lex.underscored rest.now }
    ensures within { result.1 ≤ length rest.now }
{
    match rest {
        [next, ..] if next.is_ascii_alphabetic() => (Kind::Underscored, name_len(rest)),
        _ => (Kind::NotInProfile, 0),
    }
}

/// How many bytes of a hexadecimal number are after its 0.
fn hex_tail(rest: &[u8]) -> usize
    ensures value { result ≡ Lex.hex_tail rest.now }
    ensures within { result ≤ length rest.now }
{
    match rest {
        [b'x', digits @ ..] => match hex_len(digits) {
            0 => 0,
            n => n + 1,
        },
        _ => 0,
    }
}

fn number_len(first: u8, rest: &[u8]) -> usize
    ensures value { result ≡ (Lex.numbered first rest.now).1 }
    ensures within { result ≤ length rest.now }
{
    if first != b'0' {
        return digits_len(rest);
    }
    match hex_tail(rest) {
        0 => octal_len(rest),
        n => n,
    }
}

/// A text, if it is closed.
fn quoted(rest: &[u8]) -> (Kind, usize)
    ensures value { result ≡ Lex.quoted (Lex.text_len rest.now) }
    ensures within { result.1 ≤ length rest.now }
{
    match text_len(rest) {
        Some(n) => (Kind::Quoted, n),
        None => (Kind::Bad, 0),
    }
}

/// One byte that is no line feed, with a `'` after it.
fn character(rest: &[u8]) -> (Kind, usize)
    ensures value { result ≡ Lex.character rest.now }
    ensures within { result.1 ≤ length rest.now }
{
    match rest {
        [byte, b'\'', ..] if *byte != b'\n' => (Kind::Character, 2),
        _ => (Kind::Bad, 0),
    }
}

/// A comment up to `*/`, if it is closed.
fn comment(rest: &[u8]) -> (Kind, usize)
    ensures value { result ≡ Lex.comment (Lex.comment_end 0 rest.now) }
    ensures within { result.1 ≤ length rest.now + 1 }
{
    match comment_len(rest) {
        Some(n) => (Kind::Blank, n + 1),
        None => (Kind::Bad, 0),
    }
}

/// A comment, or a mark: `text` begins with a slash that `rest` is after.
fn slashed(dialect: Dialect, text: &[u8], rest: &[u8]) -> (Kind, usize)
    requires { text.now ≡ 47 ∷ rest.now }
    ensures value { result ≡ Lex.slashed dialect rest.now }
    ensures within { result.1 ≤ length rest.now }
{
    match rest {
        [b'/', line @ ..] => (Kind::Blank, line_len(line) + 1),
        [b'*', inside @ ..] => comment(inside),
        _ => mark_at(dialect, text),
    }
}

/// What is at the front: `text` begins with a byte that `rest` is after.
#[tactic(auto, unfolding(crate::specs::Lexing::lex))]
fn lex(dialect: Dialect, text: &[u8], first: u8, rest: &[u8]) -> (Kind, usize)
    requires { text.now ≡ first ∷ rest.now }
    ensures value { result ≡ Lex.lex dialect first rest.now }
    ensures within { result.1 ≤ length rest.now }
{
    if is_blank(first) {
        return (Kind::Blank, 0);
    }
    if first.is_ascii_alphabetic() {
        return named(dialect, text, first, rest);
    }
    if first.is_ascii_digit() {
        return (Kind::Integer, number_len(first, rest));
    }
    match first {
        b'_' => underscored(rest),
        b'"' => quoted(rest),
        b'\'' => character(rest),
        b'/' => slashed(dialect, text, rest),
        _ => mark_at(dialect, text),
    }
}

/// What is at the front, and how many bytes of it are after the first.
#[tactic(auto, using(crate::proofs::OneTurn::lex_parts, crate::proofs::OneTurn::head_and_tail))]
pub fn lex_at(dialect: Dialect, text: &[u8]) -> (Kind, usize)
    requires { 0 < length text.now }
    ensures value { result ≡ lex_at_lem dialect text.now }
    ensures within { result.1 + 1 ≤ length text.now }
{
    lex(dialect, text, text[0], &text[1..])
}
