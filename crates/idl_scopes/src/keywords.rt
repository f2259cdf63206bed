//! The keywords of IDL, which no name may be, case aside.
ghost use Rattle.std.specs.Prelude.{◌≡◌, map};
ghost use Rattle.std.specs.List.{list_any};
ghost use Rattle.std.specs.Str.{bytes_eq};
ghost use Rattle.idl_scopes.specs.Keywords as Table;

/// A keyword in lower case.
pub(crate) struct Keyword {
    text: &'static [u8],
}

macro_rules! keyword {
    ($text:expr) => {
        Keyword { text: $text }
    };
}

static KEYWORDS: [Keyword; 41] = [
    keyword!(b"module"),
    keyword!(b"interface"),
    keyword!(b"typedef"),
    keyword!(b"struct"),
    keyword!(b"union"),
    keyword!(b"switch"),
    keyword!(b"case"),
    keyword!(b"default"),
    keyword!(b"enum"),
    keyword!(b"const"),
    keyword!(b"exception"),
    keyword!(b"readonly"),
    keyword!(b"attribute"),
    keyword!(b"oneway"),
    keyword!(b"void"),
    keyword!(b"raises"),
    keyword!(b"in"),
    keyword!(b"out"),
    keyword!(b"inout"),
    keyword!(b"sequence"),
    keyword!(b"boolean"),
    keyword!(b"octet"),
    keyword!(b"char"),
    keyword!(b"unsigned"),
    keyword!(b"short"),
    keyword!(b"long"),
    keyword!(b"string"),
    keyword!(b"true"),
    keyword!(b"false"),
    keyword!(b"float"),
    keyword!(b"double"),
    keyword!(b"fixed"),
    keyword!(b"any"),
    keyword!(b"wchar"),
    keyword!(b"wstring"),
    keyword!(b"object"),
    keyword!(b"valuetype"),
    keyword!(b"abstract"),
    keyword!(b"local"),
    keyword!(b"native"),
    keyword!(b"context"),
];

/// All of them.
fn keywords() -> &'static [Keyword]
    ensures { map Table.text_of result.now ≡ Table.keywords }
{
    &KEYWORDS
}

/// Whether a keyword of a table is this.
#[tactic(auto, using(orb_base::proofs::Places::any_map))]
fn is_among(table: &[Keyword], name: &[u8]) -> bool
    ensures { result ≡ list_any (λ k. bytes_eq k.text.now name.now) table.now }
{
    table.iter().any(|k| k.text == name)
}

/// Whether a name in lower case is a keyword.
#[tactic(auto, using(orb_base::proofs::Places::any_map))]
pub(crate) fn is_keyword(name: &[u8]) -> bool
    ensures { result ≡ Table.is_keyword name.now }
{
    is_among(keywords(), name)
}
