//! The rules of scripts, as the program reads by them.
ghost use Rattle.std.specs.Prelude.{◌≡◌};
ghost use Rattle.grammar.specs.Views.{rule_of};
ghost use Rattle.script_grammar.specs.ScriptRules as Spec;

use crate::{Binary, Inner, ScriptLabel as Label, Unary};
use grammar::{Rule, alt, does, listed, seq, token, word};
use idl_tokens::Kind;

/// A rule of scripts.
pub type ScriptRule = Rule<'static, Label, Inner>;

macro_rules! unary {
    ($kind:ident, $operator:ident) => {
        Rule::One(Kind::$kind, Label::Unary(Unary::$operator))
    };
}

macro_rules! binary {
    ($kind:ident, $operator:ident) => {
        Rule::One(Kind::$kind, Label::Binary(Binary::$operator))
    };
}

macro_rules! braced {
    ($first:ident, $inner:ident, $last:ident) => {
        Rule::Nested(
            Kind::LeftBrace,
            Label::$first,
            Inner::$inner,
            Kind::RightBrace,
            Label::$last,
        )
    };
}

macro_rules! bracketed {
    ($first:expr, $inner:ident, $last:ident) => {
        Rule::Nested(
            Kind::LeftParenthesis,
            $first,
            Inner::$inner,
            Kind::RightParenthesis,
            Label::$last,
        )
    };
}

macro_rules! squared {
    ($first:expr, $inner:ident, $last:ident) => {
        Rule::Nested(
            Kind::LeftBracket,
            $first,
            Inner::$inner,
            Kind::RightBracket,
            Label::$last,
        )
    };
}

// scoped = [ "::" ] name { "::" name }
const SCOPED: ScriptRule = seq![
    alt![
        seq![token!(DoubleColon, Rooted), token!(Name, NamePart)],
        token!(Name, FirstPart)
    ],
    Rule::Many(&seq![word!(DoubleColon), token!(Name, NamePart)])
];

// integer | text | "TRUE" | "FALSE"
const LITERAL: ScriptRule = alt![
    token!(Integer, Number),
    token!(Quoted, Text),
    Rule::One(Kind::True, Label::Truth(true)),
    Rule::One(Kind::False, Label::Truth(false))
];

// "priority" "(" ")" | "len" "(" expr ")"
const CALLED: ScriptRule = alt![
    seq![
        token!(Priority, Priority),
        bracketed!(Label::Skip, Nothing, Skip)
    ],
    seq![unary!(Len, Len), bracketed!(Label::Skip, Expression, Wrap)]
];

// "new" scoped "{" fields "}"
const MADE: ScriptRule = seq![
    token!(New, Place),
    SCOPED,
    braced!(OpenFields, FieldList, New)
];

// atom = literal | called | scoped | made | "[" [ expr { "," expr } ] "]" | "(" expr ")"
const ATOM: ScriptRule = alt![
    LITERAL,
    CALLED,
    seq![SCOPED, does!(UseName)],
    MADE,
    squared!(Label::OpenList, ListItems, EndList),
    bracketed!(Label::Unary(Unary::Group), Expression, Wrap)
];

// post = atom { "." name | "[" expr "]" }
const POST: ScriptRule = seq![
    ATOM,
    Rule::Many(&alt![
        seq![word!(Dot), token!(Name, Member)],
        squared!(Label::Binary(Binary::Index), Expression, Join)
    ])
];

// unary = [ "-" | "!" ] post
const UNARY: ScriptRule = alt![
    seq![
        alt![unary!(Minus, Negate), unary!(Exclamation, Not)],
        POST,
        does!(Wrap)
    ],
    POST
];

// term = unary { ( "*" | "/" | "%" ) unary }
const TERM: ScriptRule = Rule::Chained(
    &UNARY,
    &alt![
        binary!(Star, Multiply),
        binary!(Slash, Divide),
        binary!(Percent, Remainder)
    ],
    Label::Join,
);

// sum = term { ( "+" | "-" ) term }
const SUM: ScriptRule = Rule::Chained(
    &TERM,
    &alt![binary!(Plus, Add), binary!(Minus, Subtract)],
    Label::Join,
);

// "==" | "!=" | "<" | "<=" | ">" | ">="
const COMPARED: ScriptRule = alt![
    binary!(Same, Same),
    binary!(Differs, Differs),
    binary!(Less, Less),
    binary!(AtMost, AtMost),
    binary!(Greater, Greater),
    binary!(AtLeast, AtLeast)
];

// cmp = sum [ compared sum ]
const COMPARISON: ScriptRule = seq![SUM, Rule::Maybe(&seq![COMPARED, SUM, does!(Join)])];

// and = cmp { "&&" cmp }
const BOTH: ScriptRule = Rule::Chained(&COMPARISON, &binary!(And, And), Label::Join);

// expr = and { "||" and }
const EXPRESSION: ScriptRule = Rule::Chained(&BOTH, &binary!(Or, Or), Label::Join);

static EXPRESSION_RULE: ScriptRule = EXPRESSION;

static NOTHING_RULE: ScriptRule = does!(Skip);

// [ expr { "," expr } ]
static LIST_ITEMS_RULE: ScriptRule = Rule::Maybe(&listed!(seq![EXPRESSION, does!(Item)]));

// fields = name "=" expr { "," name "=" expr }
const FIELDS: ScriptRule = listed!(seq![
    token!(Name, Named),
    word!(Equals),
    EXPRESSION,
    does!(Field)
]);

static FIELD_LIST_RULE: ScriptRule = FIELDS;

static MAYBE_FIELDS_RULE: ScriptRule = Rule::Maybe(&FIELDS);

// "let" name "=" expr ";" | "set" name "=" expr ";"
const GIVEN: ScriptRule = alt![
    seq![
        token!(Let, Place),
        token!(Name, Named),
        word!(Equals),
        EXPRESSION,
        token!(Semicolon, Let)
    ],
    seq![
        word!(Set),
        token!(Name, Named),
        word!(Equals),
        EXPRESSION,
        token!(Semicolon, Set)
    ]
];

// "if" expr block [ "else" block ]
const CHOICE: ScriptRule = seq![
    word!(If),
    EXPRESSION,
    braced!(OpenBlock, Statements, OpenBlock),
    Rule::Maybe(&seq![word!(Else), braced!(Skip, Statements, Skip)]),
    does!(If)
];

// "return" [ expr ] ";"
const RETURNED: ScriptRule = seq![
    token!(Return, Place),
    alt![
        seq![EXPRESSION, token!(Semicolon, Return)],
        token!(Semicolon, Leave)
    ]
];

// "raise" scoped "{" [ fields ] "}" ";"
const RAISED: ScriptRule = seq![
    word!(Raise),
    SCOPED,
    braced!(OpenFields, MaybeFields, Raise),
    word!(Semicolon)
];

static STATEMENTS_RULE: ScriptRule = Rule::Many(&alt![GIVEN, CHOICE, RETURNED, RAISED]);

// [ name { "," name } ]
static NAMES_RULE: ScriptRule = Rule::Maybe(&listed!(token!(Name, NamePart)));

// method = "op" name "(" [ name { "," name } ] ")" block
const METHOD: ScriptRule = seq![
    word!(Op),
    alt![token!(Name, Named), token!(Underscored, Named)],
    bracketed!(Label::OpenNames, Names, Place),
    braced!(OpenBlock, Statements, Method)
];

static SERVANT_BODY_RULE: ScriptRule = Rule::Many(&METHOD);

// file = { "servant" scoped "{" { method } "}" }
static FILE_RULE: ScriptRule = Rule::Many(&seq![
    token!(Servant, Place),
    SCOPED,
    braced!(Skip, ServantBody, Servant)
]);

/// A whole script.
pub fn file_rule() -> &'static ScriptRule
    ensures { rule_of result.now ≡ Spec.file }
{
    &FILE_RULE
}

fn statements() -> &'static ScriptRule
    ensures { rule_of result.now ≡ Spec.inside Inner.Statements }
{
    &STATEMENTS_RULE
}

/// The rule of this name, which is in brackets.
pub fn inside(inner: Inner) -> &'static ScriptRule
    ensures { rule_of result.now ≡ Spec.inside inner }
{
    match inner {
        Inner::ServantBody => &SERVANT_BODY_RULE,
        Inner::Names => &NAMES_RULE,
        Inner::Statements => statements(),
        Inner::FieldList => &FIELD_LIST_RULE,
        Inner::MaybeFields => &MAYBE_FIELDS_RULE,
        Inner::Expression => &EXPRESSION_RULE,
        Inner::Nothing => &NOTHING_RULE,
        Inner::ListItems => &LIST_ITEMS_RULE,
    }
}
