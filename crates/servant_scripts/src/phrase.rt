//! Expressions as they are written.

use crate::Name;
use orb_base::Text;
use script_grammar::{Binary, Unary};

/// Where a token begins. Lines and columns count from 1, and a column counts bytes.
#[derive(Clone, Copy, Debug, PartialEq, Eq)]
pub struct At {
    pub line: u32,
    pub column: u32,
}

/// A name, and where it is.
#[derive(Drop)]
pub struct Part {
    pub at: At,
    pub name: Name,
}

/// A scoped name.
#[derive(Drop)]
pub struct ScopedName {
    /// Its first token, which is `::` where it is rooted.
    pub at: At,
    /// Whether it begins at the file's scope.
    pub rooted: bool,
    /// Its parts from the outermost on, at least one.
    pub parts: Vec<Part>,
}

/// An expression: a first part, and what is done to it from left to right. So `a + b.c[1] - d` is `a` with three
/// links, and no expression is deeper than its brackets and the ranks of operators make it, however long it is.
#[cycle(phrase)]
#[derive(Drop)]
pub struct Phrase {
    /// The first token.
    pub at: At,
    pub form: Form,
    pub links: Vec<Link>,
}

/// The first part of an expression.
#[cycle(phrase)]
#[derive(Drop)]
pub enum Form {
    /// A number from 0 to 2^127 - 1.
    Number(i128),
    Truth(bool),
    Text(Text),
    /// `priority()`.
    Priority,
    /// A variable, an enumerator or a constant.
    Name(ScopedName),
    Unary(Unary, Box<Phrase>),
    /// `new`, its struct, its members, and the place of the closing brace.
    New(ScopedName, Vec<Field>, At),
    List(Vec<Phrase>),
}

/// What is done to the expression before it.
#[cycle(phrase)]
#[derive(Drop)]
pub enum Link {
    /// An operator and its second operand.
    Binary(Binary, Phrase),
    /// `.` and a name.
    Member(Part),
}

/// A member with its value.
#[cycle(phrase)]
#[derive(Drop)]
pub struct Field {
    pub name: Part,
    pub value: Phrase,
}
