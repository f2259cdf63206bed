//! Rules.
use idl_tokens::Kind;

/// The brackets that may be open at once in a text of IDL or of a script.
pub const MAX_OPEN: u32 = 64;

/// Rules one after the other.
#[macro_export]
macro_rules! seq {
    ($a:expr) => { $a };
    ($a:expr, $($rest:expr),+) => { $crate::Rule::Then(&$a, &$crate::seq![$($rest),+]) };
}

/// One of several rules, told apart by the next token.
#[macro_export]
macro_rules! alt {
    ($a:expr) => { $a };
    ($a:expr, $($rest:expr),+) => { $crate::Rule::Or(&$a, &$crate::alt![$($rest),+]) };
}

/// One token, where nothing is done. The kinds of tokens and the labels are called `Kind` and `Label` where this is used.
#[macro_export]
macro_rules! word {
    ($kind:ident) => {
        $crate::Rule::One(Kind::$kind, Label::Skip)
    };
}

/// One token, and what is done there.
#[macro_export]
macro_rules! token {
    ($kind:ident, $label:ident) => {
        $crate::Rule::One(Kind::$kind, Label::$label)
    };
}

/// Something done without a token.
#[macro_export]
macro_rules! does {
    ($label:ident) => {
        $crate::Rule::Does(Label::$label)
    };
}

/// A rule once or more, with commas between.
#[macro_export]
macro_rules! listed {
    ($rule:expr) => {
        $crate::Rule::Chained(&$rule, &$crate::word!(Comma), Label::Skip)
    };
}

/// A rule of a grammar, over labels for what is done and names of the rules that are in brackets. Rules refer to
/// their parts, so that a grammar is a set of constants.
#[derive(Drop)]
pub enum Rule<'a, L, I> {
    /// One token of this kind, and what is done there.
    One(Kind, L),
    /// Something done without a token.
    Does(L),
    /// The first, and then the second.
    Then(&'a Rule<'a, L, I>, &'a Rule<'a, L, I>),
    /// One of the two, told apart by the next token.
    Or(&'a Rule<'a, L, I>, &'a Rule<'a, L, I>),
    /// Once or not at all.
    Maybe(&'a Rule<'a, L, I>),
    /// Any number of times.
    Many(&'a Rule<'a, L, I>),
    /// The first, and then any number of times the second, the first again, and what is done after it.
    Chained(&'a Rule<'a, L, I>, &'a Rule<'a, L, I>, L),
    /// A rule between two brackets, each with what is done there.
    Nested(Kind, L, I, Kind, L),
}
