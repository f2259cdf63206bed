//! A small language, nested lists of names, with what is counted along it and its faults.
ghost use Rattle.std.specs.Prelude.{◌≡◌};

use grammar::*;
use idl_tokens::{Dialect, Kind, Token, Tokens, tokens_of};
use std::alloc::Global;

/// What is done along a list.
#[derive(Clone, Copy)]
enum Label {
    /// Nothing.
    Skip,
    /// A name was taken.
    Name,
    /// An item after a comma is counted.
    Comma,
}

/// The rule in brackets.
#[derive(Clone, Copy)]
enum Inner {
    Items,
}

type ListRule = Rule<'static, Label, Inner>;

/// item = name | "(" items ")"
const ITEM: ListRule = Rule::Or(
    &Rule::One(Kind::Name, Label::Name),
    &Rule::Nested(
        Kind::LeftParenthesis,
        Label::Skip,
        Inner::Items,
        Kind::RightParenthesis,
        Label::Skip,
    ),
);

/// items = [ item { "," item } ]
static ITEMS: ListRule = Rule::Maybe(&Rule::Chained(
    &ITEM,
    &Rule::One(Kind::Comma, Label::Skip),
    Label::Comma,
));

/// file = { items ";" }
static FILE: ListRule = Rule::Many(&Rule::Then(
    &Rule::Maybe(&Rule::Chained(&ITEM, &Rule::One(Kind::Comma, Label::Skip), Label::Comma)),
    &Rule::One(Kind::Semicolon, Label::Skip),
));

/// How many tokens were taken, and how many items were counted after a comma, each up to 2^32 - 1.
#[derive(Drop)]
struct Count {
    tokens: u32,
    commas: u32,
}

impl Builder for Count {
    ghost use Rattle.std.specs.Prelude.{ℕ, ◌+◌, ◌-◌, ◌^◌, min, Ok};
    ghost use Rattle.grammar.specs.Rules.{one, ◌or◌, maybe, chained, nested};
    ghost use Rattle.idl_tests.specs.declared.grammar_tests.Label.{Label};
    ghost use Rattle.idl_tests.specs.declared.grammar_tests.Label.TheVariants as label;
    ghost use Rattle.idl_tests.specs.declared.grammar_tests.Inner.TheVariants as inner;
    ghost use Rattle.idl_tokens.specs.declared.kind.Kind.TheVariants as kind;

    type Label = Label;

    type Inner = Inner;

    type Fault = (u32, u32);

    ghost Built = { ℕ × ℕ };

    ghost built = { λ c. (c.tokens, c.commas) };

    ghost inside = { λ _. maybe (chained (one kind.Name label.Name or nested kind.LeftParenthesis label.Skip inner.Items kind.RightParenthesis label.Skip) (one kind.Comma label.Skip) label.Comma) };

    ghost act = { λ l t n. Ok (min (n.0 + 1) (2 ^ 32 - 1), n.1) };

    ghost judge = { λ l n. Ok (n.0, min (n.1 + 1) (2 ^ 32 - 1)) };

    ghost stop = { λ t. (t.line, t.column) };

    fn inside(_: Inner) -> &'static ListRule {
        &ITEMS
    }

    fn act(&mut self, _: Label, _: Token<'_>) -> Result<(), ReadError<(u32, u32)>> {
        self.tokens = self.tokens.saturating_add(1);
        Ok(())
    }

    fn judge(&mut self, _: Label) -> Result<(), ReadError<(u32, u32)>> {
        self.commas = self.commas.saturating_add(1);
        Ok(())
    }

    fn stop(token: Token<'_>) -> (u32, u32) {
        (token.line, token.column)
    }
}

fn items() -> &'static ListRule {
    &ITEMS
}

fn file() -> &'static ListRule {
    &FILE
}

/// Nothing was counted.
fn nothing() -> Count {
    Count {
        tokens: 0,
        commas: 0,
    }
}

/// What was counted along tokens, or where they stop; None when out of memory.
fn counted(mut tokens: Tokens<'_>) -> Option<Result<(u32, u32), (u32, u32)>> {
    let mut count = nothing();
    match read_whole(file(), &mut tokens, &mut count, Kind::End, 2) {
        Ok(()) => Some(Ok((count.tokens, count.commas))),
        Err(ReadError::Refused(place)) => Some(Err(place)),
        Err(ReadError::NoMemory) => None,
    }
}

/// A text, and how many tokens and commas are counted along it, or the line and the column where it stops.
type Row = (&'static [u8], Result<(u32, u32), (u32, u32)>);

const ROWS: &[Row] = &[
    (b"", Ok((0, 0))),
    (b";", Ok((1, 0))),
    (b"a;", Ok((2, 0))),
    (b"a, b, c;\n(d, (e)), ();", Ok((17, 4))),
    (b"a", Err((1, 2))),
    (b"a b;", Err((1, 3))),
    (b"a,;", Err((1, 3))),
    (b"(a;", Err((1, 3))),
    (b"((a));", Ok((6, 0))),
    (b"a;\n(((b)));", Err((2, 3))),
];

fn holds(alloc: Global, text: &[u8], want: Result<(u32, u32), (u32, u32)>) -> bool {
    if text.len() > 1000 {
        return false;
    }
    match tokens_of(alloc, Dialect::Idl, text) {
        Ok(found) => counted(found.stream()) == Some(want),
        Err(_) => false,
    }
}

fn all_hold(alloc: Global) -> bool {
    for (text, want) in ROWS {
        if !holds(alloc, text, *want) {
            return false;
        }
    }
    true
}

#[test]
fn texts_of_the_grammar_are_read_and_others_stop_at_their_first_fault(rt: HostRuntime) {
    assert!(rt; all_hold(rt.alloc()));
}

/// Whether an item and a further one after a comma are read, and a token of the sixth column is next.
fn reads_two(mut tokens: Tokens<'_>) -> bool {
    let mut count = nothing();
    read_rule(items(), &mut tokens, &mut count, 0).is_ok()
        && count.tokens == 3
        && count.commas == 1
        && tokens.front().column == 6
}

fn reads_as_far_as_it_goes(alloc: Global) -> bool {
    match tokens_of(alloc, Dialect::Idl, b"a, b c") {
        Ok(found) => reads_two(found.stream()),
        Err(_) => false,
    }
}

#[test]
fn a_rule_is_read_as_far_as_it_goes(rt: HostRuntime) {
    assert!(rt; reads_as_far_as_it_goes(rt.alloc()));
}
