//! The rules of IDL, as the program reads by them.
ghost use Rattle.std.specs.Prelude.{◌≡◌};
ghost use Rattle.grammar.specs.Views.{rule_of};
ghost use Rattle.idl_grammar.specs.IdlRules as Spec;

use crate::{Basic, IdlCause, IdlLabel as Label, Inner};
use grammar::{Rule, alt, does, listed, seq, token, word};
use idl_tokens::Kind;

/// A rule of IDL.
pub type IdlRule = Rule<'static, Label, Inner>;

macro_rules! basic {
    ($kind:ident, $basic:ident) => {
        Rule::One(Kind::$kind, Label::Basic(Basic::$basic))
    };
}

macro_rules! refused {
    ($kind:ident, $cause:ident) => {
        Rule::One(Kind::$kind, Label::Refuse(IdlCause::$cause))
    };
}

macro_rules! braced {
    ($inner:ident, $last:ident) => {
        Rule::Nested(
            Kind::LeftBrace,
            Label::Skip,
            Inner::$inner,
            Kind::RightBrace,
            Label::$last,
        )
    };
}

macro_rules! bracketed {
    ($inner:ident) => {
        Rule::Nested(
            Kind::LeftParenthesis,
            Label::Skip,
            Inner::$inner,
            Kind::RightParenthesis,
            Label::Skip,
        )
    };
}

macro_rules! angled {
    ($inner:ident, $last:ident) => {
        Rule::Nested(
            Kind::Less,
            Label::Skip,
            Inner::$inner,
            Kind::Greater,
            Label::$last,
        )
    };
}

// scoped = [ "::" ] name { "::" name }
const SCOPED: IdlRule = seq![
    Rule::Maybe(&token!(DoubleColon, Rooted)),
    Rule::Chained(&token!(Name, NamePart), &word!(DoubleColon), Label::Skip)
];

// value = [ "-" | "+" ] integer | character | text | "TRUE" | "FALSE" | scoped
const SIGNED: IdlRule = alt![
    seq![token!(Minus, Sign), token!(Integer, Minus)],
    seq![token!(Plus, Sign), token!(Integer, Plus)]
];

const LITERAL: IdlRule = alt![
    token!(Integer, Number),
    SIGNED,
    token!(Character, Character),
    token!(Quoted, Text),
    Rule::One(Kind::True, Label::Truth(true)),
    Rule::One(Kind::False, Label::Truth(false))
];

const VALUE: IdlRule = alt![LITERAL, seq![SCOPED, does!(UseConst)]];

// plain = "boolean" | "octet" | "char" | [ "unsigned" ] ( "short" | "long" [ "long" ] ) | "string" [ "<" value ">" ] | scoped
const SIGNED_TYPE: IdlRule = alt![
    basic!(Short, Short),
    seq![basic!(Long, Long), Rule::Maybe(&basic!(Long, LongLong))]
];

const UNSIGNED_TYPE: IdlRule = seq![
    word!(Unsigned),
    alt![
        basic!(Short, UShort),
        seq![basic!(Long, ULong), Rule::Maybe(&basic!(Long, ULongLong))]
    ]
];

const SWITCH_TYPE: IdlRule = alt![
    basic!(Boolean, Boolean),
    basic!(Char, Char),
    SIGNED_TYPE,
    UNSIGNED_TYPE,
    seq![SCOPED, does!(UseType)]
];

const TEXT_TYPE: IdlRule = seq![
    token!(String, AnyText),
    Rule::Maybe(&angled!(TextBound, BoundedText))
];

const PLAIN: IdlRule = alt![basic!(Octet, Octet), TEXT_TYPE, SWITCH_TYPE];

// type = plain | "sequence" "<" type [ "," value ] ">"
const ANY_TYPE: IdlRule = alt![PLAIN, seq![word!(Sequence), angled!(Element, Sequence)]];

static ELEMENT_RULE: IdlRule = seq![
    ANY_TYPE,
    Rule::Maybe(&seq![word!(Comma), VALUE, does!(Bound)])
];

static TEXT_BOUND_RULE: IdlRule = seq![VALUE, does!(Bound)];

static ARRAY_LENGTH_RULE: IdlRule = seq![VALUE, does!(Length)];

// declarator = name { "[" value "]" }, and what is done at its end
macro_rules! declarator {
    ($label:ident) => {
        seq![
            token!(Name, Declare),
            Rule::Many(&Rule::Nested(
                Kind::LeftBracket,
                Label::Skip,
                Inner::ArrayLength,
                Kind::RightBracket,
                Label::Skip
            )),
            does!($label)
        ]
    };
}

// typedef = "typedef" type declarator { "," declarator }
const TYPEDEF: IdlRule = seq![word!(Typedef), ANY_TYPE, listed!(declarator!(Typedef))];

// member = type declarator { "," declarator } ";"
const MEMBER: IdlRule = seq![ANY_TYPE, listed!(declarator!(Member)), word!(Semicolon)];

static STRUCT_BODY_RULE: IdlRule = seq![MEMBER, Rule::Many(&MEMBER)];

static EXCEPTION_BODY_RULE: IdlRule = Rule::Many(&MEMBER);

// struct = "struct" name "{" member { member } "}"
const STRUCT_RULE: IdlRule = seq![
    word!(Struct),
    token!(Name, Open),
    braced!(StructBody, EndStruct)
];

// exception = "exception" name "{" { member } "}"
const EXCEPTION_RULE: IdlRule = seq![
    word!(Exception),
    token!(Name, Open),
    braced!(ExceptionBody, EndException)
];

// label = "case" value ":" | "default" ":"
const CASE_LABEL: IdlRule = alt![
    seq![word!(Case), VALUE, does!(CaseLabel), word!(Colon)],
    seq![token!(Default, DefaultLabel), word!(Colon)]
];

// case = label { label } type declarator ";"
const UNION_CASE: IdlRule = seq![
    CASE_LABEL,
    Rule::Many(&CASE_LABEL),
    ANY_TYPE,
    declarator!(CaseMember),
    word!(Semicolon)
];

static UNION_BODY_RULE: IdlRule = seq![UNION_CASE, Rule::Many(&UNION_CASE)];

// union = "union" name "switch" "(" type ")" "{" case { case } "}"
const UNION_RULE: IdlRule = seq![
    word!(Union),
    token!(Name, Open),
    word!(Switch),
    bracketed!(UnionType),
    braced!(UnionBody, EndUnion)
];

static UNION_TYPE_RULE: IdlRule = alt![
    seq![SWITCH_TYPE, does!(Switch)],
    refused!(Octet, WrongKind),
    refused!(String, WrongKind),
    refused!(Sequence, WrongKind)
];

// enum = "enum" name "{" name { "," name } "}"
const ENUM_RULE: IdlRule = seq![word!(Enum), token!(Name, Open), braced!(EnumBody, EndEnum)];

static ENUM_BODY_RULE: IdlRule = listed!(token!(Name, Enumerator));

// const = "const" type name "=" value
const CONST_RULE: IdlRule = seq![
    word!(Const),
    alt![seq![PLAIN, does!(ConstType)], refused!(Sequence, WrongKind)],
    token!(Name, Declare),
    word!(Equals),
    VALUE,
    does!(EndConst)
];

// typedef | struct | union | enum | exception | const
const TYPE_DECLARATION: IdlRule = alt![
    TYPEDEF,
    STRUCT_RULE,
    UNION_RULE,
    ENUM_RULE,
    EXCEPTION_RULE,
    CONST_RULE
];

// attribute = [ "readonly" ] "attribute" plain name { "," name }
const ATTRIBUTE: IdlRule = seq![
    Rule::Maybe(&token!(ReadOnly, ReadOnly)),
    word!(Attribute),
    PLAIN,
    listed!(token!(Name, Attribute)),
    does!(EndAttribute),
    Rule::Maybe(&refused!(Raises, NotInProfile))
];

// param = ( "in" | "out" | "inout" ) plain name
const PARAMETER: IdlRule = seq![
    alt![token!(In, In), token!(Out, Out), token!(InOut, InOut)],
    PLAIN,
    token!(Name, Param)
];

static PARAMETERS_RULE: IdlRule = Rule::Maybe(&listed!(PARAMETER));

// "raises" "(" scoped { "," scoped } ")"
const RAISES: IdlRule = seq![token!(Raises, Raises), bracketed!(Raised)];

static RAISED_RULE: IdlRule = listed!(seq![SCOPED, does!(Raised)]);

// a result after "oneway", which is refused
const WORD_RESULT: IdlRule = alt![
    refused!(Boolean, BadOneway),
    refused!(Octet, BadOneway),
    refused!(Char, BadOneway),
    refused!(Short, BadOneway),
    refused!(Long, BadOneway),
    refused!(Unsigned, BadOneway),
    refused!(String, BadOneway),
    refused!(DoubleColon, BadOneway)
];

const NAME_RESULT: IdlRule = seq![
    token!(Name, NamePart),
    Rule::Maybe(&token!(DoubleColon, LongResultName)),
    does!(ResultName)
];

// [ "oneway" ] ( "void" | plain )
const RESULT: IdlRule = alt![
    seq![
        token!(OneWay, OneWay),
        alt![word!(Void), WORD_RESULT, NAME_RESULT]
    ],
    word!(Void),
    seq![PLAIN, does!(Result)]
];

// operation = [ "oneway" ] ( "void" | plain ) name "(" [ param { "," param } ] ")" [ raises ]
const OPERATION: IdlRule = seq![
    RESULT,
    token!(Name, Open),
    bracketed!(Parameters),
    Rule::Maybe(&RAISES),
    does!(EndOperation)
];

// export = ( typedef | struct | union | enum | exception | const | attribute | operation ) ";"
const EXPORT: IdlRule = seq![
    alt![TYPE_DECLARATION, ATTRIBUTE, OPERATION],
    word!(Semicolon)
];

static INTERFACE_BODY_RULE: IdlRule = Rule::Many(&EXPORT);

// [ ":" scoped { "," scoped } ]
const BASES: IdlRule = seq![
    Rule::Maybe(&seq![word!(Colon), listed!(seq![SCOPED, does!(Base)])]),
    does!(Inherit)
];

// interface = "interface" name [ ":" scoped { "," scoped } ] "{" { export } "}"
const INTERFACE: IdlRule = seq![
    word!(Interface),
    token!(Name, Interface),
    alt![
        seq![
            BASES,
            Rule::Nested(
                Kind::LeftBrace,
                Label::OpenInterface,
                Inner::InterfaceBody,
                Kind::RightBrace,
                Label::EndInterface
            )
        ],
        refused!(Semicolon, NotInProfile)
    ]
];

// module = "module" name "{" definition { definition } "}"
const MODULE_RULE: IdlRule = seq![
    word!(Module),
    token!(Name, Module),
    braced!(ModuleBody, EndModule)
];

// definition = ( module | interface | typedef | struct | union | enum | exception | const ) ";"
const DEFINITION: IdlRule = seq![
    alt![MODULE_RULE, INTERFACE, TYPE_DECLARATION],
    word!(Semicolon)
];

static MODULE_BODY_RULE: IdlRule = seq![DEFINITION, Rule::Many(&DEFINITION)];

// file = { definition }
static FILE_RULE: IdlRule = Rule::Many(&DEFINITION);

/// The rule of a file of IDL.
pub fn file_rule() -> &'static IdlRule
    ensures { rule_of result.now ≡ Spec.file }
{
    &FILE_RULE
}

/// What is in a module.
fn module_body() -> &'static IdlRule
    ensures { rule_of result.now ≡ Spec.inside Inner.ModuleBody }
{
    &MODULE_BODY_RULE
}

/// What is in an interface.
fn interface_body() -> &'static IdlRule
    ensures { rule_of result.now ≡ Spec.inside Inner.InterfaceBody }
{
    &INTERFACE_BODY_RULE
}

/// What is in a union.
fn union_body() -> &'static IdlRule
    ensures { rule_of result.now ≡ Spec.inside Inner.UnionBody }
{
    &UNION_BODY_RULE
}

/// The rule of this name, which is in brackets.
pub fn inside(inner: Inner) -> &'static IdlRule
    ensures { rule_of result.now ≡ Spec.inside inner }
{
    match inner {
        Inner::ModuleBody => module_body(),
        Inner::InterfaceBody => interface_body(),
        Inner::StructBody => &STRUCT_BODY_RULE,
        Inner::ExceptionBody => &EXCEPTION_BODY_RULE,
        Inner::UnionType => &UNION_TYPE_RULE,
        Inner::UnionBody => union_body(),
        Inner::EnumBody => &ENUM_BODY_RULE,
        Inner::Parameters => &PARAMETERS_RULE,
        Inner::Raised => &RAISED_RULE,
        Inner::Element => &ELEMENT_RULE,
        Inner::TextBound => &TEXT_BOUND_RULE,
        Inner::ArrayLength => &ARRAY_LENGTH_RULE,
    }
}
