//! Statements, methods and servants as they are written.

use crate::{At, Field, Part, Phrase, ScopedName};

/// A statement.
#[cycle(line)]
#[derive(Drop)]
pub enum Line {
    /// `let`, where the word is, the variable and its value.
    Let(At, Part, Phrase),
    /// `set`, the parameter and its value.
    Set(Part, Phrase),
    /// `if`, what is done where the expression is true, and what otherwise, which is nothing without an `else`.
    If(Phrase, Vec<Line>, Vec<Line>),
    /// `return` without a value, and where the word is.
    Leave(At),
    /// `return`, where the word is, and the value.
    Return(At, Phrase),
    /// `raise`, the exception, its members, and the place of the closing brace.
    Raise(ScopedName, Vec<Field>, At),
}

/// A method.
#[derive(Drop)]
pub struct Method {
    pub name: Part,
    pub parameters: Vec<Part>,
    /// The `)` after the parameters.
    pub close: At,
    pub body: Vec<Line>,
    /// The `}` after the body.
    pub end: At,
}

/// A servant.
#[derive(Drop)]
pub struct Servant {
    /// The word `servant`.
    pub at: At,
    /// Its interface.
    pub name: ScopedName,
    pub methods: Vec<Method>,
}

/// A whole script.
#[derive(Drop)]
pub struct Script {
    pub servants: Vec<Servant>,
}
