//! Texts with the tokens that the grammars of IDL and of scripts name for them.

use idl_tokens::*;
use std::alloc::Global;

/// A text, and the kinds of its tokens and of what ends them.
type Row = (&'static [u8], &'static [Kind]);

/// Whether tokens are of as many kinds, one by one.
fn are_of(tokens: &[Token<'_>], kinds: &[Kind]) -> bool {
    for (token, kind) in tokens.iter().zip(kinds) {
        if token.kind != *kind {
            return false;
        }
    }
    tokens.len() == kinds.len()
}

/// Whether what was found is of these kinds, the last of which is that of the end.
fn end_in(tokens: &[Token<'_>], end: Kind, kinds: &[Kind]) -> bool {
    match kinds {
        [before @ .., last] => are_of(tokens, before) && end == *last,
        [] => false,
    }
}

fn has_kinds(alloc: Global, dialect: Dialect, text: &[u8], kinds: &[Kind]) -> bool {
    if text.len() > MAX_TEXT {
        return false;
    }
    match tokens_of(alloc, dialect, text) {
        Ok(found) => end_in(found.tokens.as_slice(), found.end.kind, kinds),
        Err(_) => false,
    }
}

fn have_kinds(alloc: Global, dialect: Dialect, rows: &[Row]) -> bool {
    for (text, kinds) in rows {
        if !has_kinds(alloc, dialect, text, kinds) {
            return false;
        }
    }
    true
}

const OF_IDL: &[Row] = &[
    (b"", &[Kind::End]),
    (b"interface Ping", &[Kind::Interface, Kind::Name, Kind::End]),
    (
        b"Interface interfaces in inout i_n",
        &[
            Kind::Name,
            Kind::Name,
            Kind::In,
            Kind::InOut,
            Kind::Name,
            Kind::End,
        ],
    ),
    (
        b"::A:B",
        &[
            Kind::DoubleColon,
            Kind::Name,
            Kind::Colon,
            Kind::Name,
            Kind::End,
        ],
    ),
    (
        b"{}()[]<>;,=+-",
        &[
            Kind::LeftBrace,
            Kind::RightBrace,
            Kind::LeftParenthesis,
            Kind::RightParenthesis,
            Kind::LeftBracket,
            Kind::RightBracket,
            Kind::Less,
            Kind::Greater,
            Kind::Semicolon,
            Kind::Comma,
            Kind::Equals,
            Kind::Plus,
            Kind::Minus,
            Kind::End,
        ],
    ),
    (
        b"float # _x _ Object wstring",
        &[
            Kind::NotInProfile,
            Kind::NotInProfile,
            Kind::Underscored,
            Kind::NotInProfile,
            Kind::NotInProfile,
            Kind::NotInProfile,
            Kind::End,
        ],
    ),
    (
        b"let == 1",
        &[
            Kind::Name,
            Kind::Equals,
            Kind::Equals,
            Kind::Integer,
            Kind::End,
        ],
    ),
];

#[test]
fn words_and_marks_of_idl_are_told_from_names(rt: HostRuntime) {
    assert!(rt; have_kinds(rt.alloc(), Dialect::Idl, OF_IDL));
}

const OF_SCRIPTS: &[Row] = &[
    (
        b"servant op _get_a state module",
        &[
            Kind::Servant,
            Kind::Op,
            Kind::Underscored,
            Kind::Name,
            Kind::Name,
            Kind::End,
        ],
    ),
    (
        b"a<=b<c==d=e",
        &[
            Kind::Name,
            Kind::AtMost,
            Kind::Name,
            Kind::Less,
            Kind::Name,
            Kind::Same,
            Kind::Name,
            Kind::Equals,
            Kind::Name,
            Kind::End,
        ],
    ),
    (
        b"!= ! && || >= . * / %",
        &[
            Kind::Differs,
            Kind::Exclamation,
            Kind::And,
            Kind::Or,
            Kind::AtLeast,
            Kind::Dot,
            Kind::Star,
            Kind::Slash,
            Kind::Percent,
            Kind::End,
        ],
    ),
    (b"a & b", &[Kind::Name, Kind::Bad]),
];

#[test]
fn words_and_marks_of_scripts_are_told_from_names(rt: HostRuntime) {
    assert!(rt; have_kinds(rt.alloc(), Dialect::Script, OF_SCRIPTS));
}

const AS_FAR_AS_THEY_CAN: &[Row] = &[
    (
        b"017 08 0x1fG 0x 0XF",
        &[
            Kind::Integer,
            Kind::Integer,
            Kind::Integer,
            Kind::Integer,
            Kind::Name,
            Kind::Integer,
            Kind::Name,
            Kind::Integer,
            Kind::Name,
            Kind::End,
        ],
    ),
    (b"1.5", &[Kind::Integer, Kind::Bad]),
    (
        b"\"a b\" \"\" 'x' '''",
        &[
            Kind::Quoted,
            Kind::Quoted,
            Kind::Character,
            Kind::Character,
            Kind::End,
        ],
    ),
    (b"\"a\nb\"", &[Kind::Bad]),
    (b"\"a", &[Kind::Bad]),
    (b"'' ", &[Kind::Bad]),
    (
        b"a // b\n/* c */ d /**/",
        &[Kind::Name, Kind::Name, Kind::End],
    ),
    (b"a /* b *", &[Kind::Name, Kind::Bad]),
    (b"a // b", &[Kind::Name, Kind::End]),
];

#[test]
fn numbers_texts_and_comments_go_as_far_as_they_can(rt: HostRuntime) {
    assert!(rt; have_kinds(rt.alloc(), Dialect::Idl, AS_FAR_AS_THEY_CAN));
}

/// Whether the next token has these bytes and is there.
fn is_next(tokens: &Tokens<'_>, text: &[u8], line: u32, column: u32) -> bool {
    let token = tokens.front();
    token.text == text && token.line == line && token.column == column
}

/// Whether the next token has these bytes and is there. Goes after it.
fn goes_behind(tokens: &mut Tokens<'_>, text: &[u8], line: u32, column: u32) -> bool {
    let stands = is_next(tokens, text, line, column);
    tokens.advance();
    stands
}

/// Whether three tokens and the end are where they should be, and nothing is after the end.
fn stand_in_lines(tokens: &mut Tokens<'_>) -> bool {
    tokens.left() == 3
        && goes_behind(tokens, b"x", 2, 6)
        && goes_behind(tokens, b"0x1f", 3, 2)
        && goes_behind(tokens, b"\"p q\"", 3, 7)
        && tokens.is_over()
        && goes_behind(tokens, b"", 4, 1)
        && same_kind(tokens.front().kind, Kind::End)
}

fn counts_lines(alloc: Global) -> bool {
    match tokens_of(alloc, Dialect::Idl, b"/* a\nb */ x\n\t0x1f \"p q\"\n") {
        Ok(found) => stand_in_lines(&mut found.stream()),
        Err(_) => false,
    }
}

#[test]
fn lines_and_columns_count_from_one_and_bytes(rt: HostRuntime) {
    assert!(rt; counts_lines(rt.alloc()));
}

fn lie_between_quotes() -> bool {
    unquoted(b"\"hi\"") == b"hi".as_slice()
        && unquoted(b"\"\"") == b"".as_slice()
        && unquoted(b"\"") == b"".as_slice()
}

#[test]
fn what_stands_between_quotes_is_told(rt: HostRuntime) {
    assert!(rt; lie_between_quotes());
}
