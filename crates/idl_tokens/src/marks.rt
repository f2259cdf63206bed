//! The marks of both languages.
ghost use Rattle.std.specs.Prelude.{◌≡◌, ◌≤◌, ◌-◌, map, length};
ghost use Rattle.idl_tokens.specs.Spellings.{spelling_of};
ghost use Rattle.idl_tokens.specs.Words as Table;

use crate::spelling::Spelling;
use crate::{Dialect, Kind};

macro_rules! spelling {
    ($text:expr, $kind:ident) => {
        Spelling {
            text: $text,
            kind: Kind::$kind,
        }
    };
}

static IDL_MARKS: [Spelling; 16] = [
    spelling!(b"::", DoubleColon),
    spelling!(b"{", LeftBrace),
    spelling!(b"}", RightBrace),
    spelling!(b"(", LeftParenthesis),
    spelling!(b")", RightParenthesis),
    spelling!(b"[", LeftBracket),
    spelling!(b"]", RightBracket),
    spelling!(b"<", Less),
    spelling!(b">", Greater),
    spelling!(b";", Semicolon),
    spelling!(b",", Comma),
    spelling!(b":", Colon),
    spelling!(b"=", Equals),
    spelling!(b"+", Plus),
    spelling!(b"-", Minus),
    spelling!(b"#", NotInProfile),
];

static SCRIPT_MARKS: [Spelling; 26] = [
    spelling!(b"::", DoubleColon),
    spelling!(b"||", Or),
    spelling!(b"&&", And),
    spelling!(b"==", Same),
    spelling!(b"!=", Differs),
    spelling!(b"<=", AtMost),
    spelling!(b">=", AtLeast),
    spelling!(b"{", LeftBrace),
    spelling!(b"}", RightBrace),
    spelling!(b"(", LeftParenthesis),
    spelling!(b")", RightParenthesis),
    spelling!(b"[", LeftBracket),
    spelling!(b"]", RightBracket),
    spelling!(b"<", Less),
    spelling!(b">", Greater),
    spelling!(b";", Semicolon),
    spelling!(b",", Comma),
    spelling!(b":", Colon),
    spelling!(b"=", Equals),
    spelling!(b"+", Plus),
    spelling!(b"-", Minus),
    spelling!(b".", Dot),
    spelling!(b"*", Star),
    spelling!(b"/", Slash),
    spelling!(b"%", Percent),
    spelling!(b"!", Exclamation),
];

/// The marks of a language, the longer ones first.
fn marks_of(dialect: Dialect) -> &'static [Spelling]
    ensures { map spelling_of result.now ≡ Table.marks_of dialect }
{
    match dialect {
        Dialect::Idl => &IDL_MARKS,
        Dialect::Script => &SCRIPT_MARKS,
    }
}

/// The first mark of a table that is at the front, and how many bytes of it are after the first.
fn mark_in(table: &[Spelling], z: &[u8]) -> (Kind, usize)
    ensures value { result ≡ Table.mark_at (map spelling_of table.now) z.now }
    ensures within { result.1 ≤ length z.now - 1 }
{
    for spelling in table {
        if z.starts_with(spelling.text) {
            return (spelling.kind, spelling.text.len().saturating_sub(1));
        }
    }
    (Kind::Bad, 0)
}

/// The mark of this language that is at the front.
pub fn mark_at(dialect: Dialect, z: &[u8]) -> (Kind, usize)
    ensures value { result ≡ Table.mark_at (Table.marks_of dialect) z.now }
    ensures within { result.1 ≤ length z.now - 1 }
{
    mark_in(marks_of(dialect), z)
}
