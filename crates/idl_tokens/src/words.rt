//! The words of both languages.
ghost use Rattle.std.specs.Prelude.{◌≡◌, map, length};
ghost use Rattle.idl_tokens.specs.Spellings.{spelling_of};
ghost use Rattle.idl_tokens.specs.Words as Table;

use crate::spelling::Spelling;
use crate::{Dialect, Kind};

macro_rules! spelling {
    ($text:expr, $kind:ident) => {
        Spelling {
            text: $text,
            kind: Kind::$kind,
        }
    };
}

static IDL_WORDS: [Spelling; 41] = [
    spelling!(b"module", Module),
    spelling!(b"interface", Interface),
    spelling!(b"typedef", Typedef),
    spelling!(b"struct", Struct),
    spelling!(b"union", Union),
    spelling!(b"switch", Switch),
    spelling!(b"case", Case),
    spelling!(b"default", Default),
    spelling!(b"enum", Enum),
    spelling!(b"const", Const),
    spelling!(b"exception", Exception),
    spelling!(b"readonly", ReadOnly),
    spelling!(b"attribute", Attribute),
    spelling!(b"oneway", OneWay),
    spelling!(b"void", Void),
    spelling!(b"raises", Raises),
    spelling!(b"in", In),
    spelling!(b"out", Out),
    spelling!(b"inout", InOut),
    spelling!(b"sequence", Sequence),
    spelling!(b"boolean", Boolean),
    spelling!(b"octet", Octet),
    spelling!(b"char", Char),
    spelling!(b"unsigned", Unsigned),
    spelling!(b"short", Short),
    spelling!(b"long", Long),
    spelling!(b"string", String),
    spelling!(b"TRUE", True),
    spelling!(b"FALSE", False),
    spelling!(b"float", NotInProfile),
    spelling!(b"double", NotInProfile),
    spelling!(b"fixed", NotInProfile),
    spelling!(b"any", NotInProfile),
    spelling!(b"wchar", NotInProfile),
    spelling!(b"wstring", NotInProfile),
    spelling!(b"Object", NotInProfile),
    spelling!(b"valuetype", NotInProfile),
    spelling!(b"abstract", NotInProfile),
    spelling!(b"local", NotInProfile),
    spelling!(b"native", NotInProfile),
    spelling!(b"context", NotInProfile),
];

static SCRIPT_WORDS: [Spelling; 13] = [
    spelling!(b"servant", Servant),
    spelling!(b"op", Op),
    spelling!(b"let", Let),
    spelling!(b"set", Set),
    spelling!(b"if", If),
    spelling!(b"else", Else),
    spelling!(b"return", Return),
    spelling!(b"raise", Raise),
    spelling!(b"new", New),
    spelling!(b"len", Len),
    spelling!(b"priority", Priority),
    spelling!(b"TRUE", True),
    spelling!(b"FALSE", False),
];

/// The words of a language.
fn words_of(dialect: Dialect) -> &'static [Spelling]
    ensures { map spelling_of result.now ≡ Table.words_of dialect }
{
    match dialect {
        Dialect::Idl => &IDL_WORDS,
        Dialect::Script => &SCRIPT_WORDS,
    }
}

/// The kind of a word, which is a name where the table hasn't got it.
fn kind_in(table: &[Spelling], word: &[u8]) -> Kind
    ensures { result ≡ Table.word_kind (map spelling_of table.now) word.now }
{
    for spelling in table {
        if word == spelling.text {
            return spelling.kind;
        }
    }
    Kind::Name
}

/// The kind of a word of this language.
pub fn word_kind(dialect: Dialect, word: &[u8]) -> Kind
    ensures { result ≡ Table.word_kind (Table.words_of dialect) word.now }
{
    kind_in(words_of(dialect), word)
}
