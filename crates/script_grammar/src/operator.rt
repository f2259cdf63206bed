//! Operators of scripts.

/// What is around one expression.
#[derive(Clone, Copy, Debug, PartialEq, Eq)]
pub enum Unary {
    /// `-` before it.
    Negate,
    /// `!` before it.
    Not,
    /// `len` and parentheses around it.
    Len,
    /// Parentheses around it, which change no value.
    Group,
}

/// What is between two expressions.
#[derive(Clone, Copy, Debug, PartialEq, Eq)]
pub enum Binary {
    Or,
    And,
    Same,
    Differs,
    Less,
    AtMost,
    Greater,
    AtLeast,
    Add,
    Subtract,
    Multiply,
    Divide,
    Remainder,
    /// `[` and `]` around the second one.
    Index,
}
