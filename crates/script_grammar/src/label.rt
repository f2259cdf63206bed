//! What is done at a token of a script, or between two.

use crate::{Binary, Unary};

/// The rules that are in brackets.
#[derive(Clone, Copy, Debug, PartialEq, Eq)]
pub enum Inner {
    ServantBody,
    Names,
    Statements,
    FieldList,
    MaybeFields,
    Expression,
    Nothing,
    ListItems,
}

/// What is done.
#[derive(Clone, Copy, Debug, PartialEq, Eq)]
pub enum ScriptLabel {
    /// Nothing.
    Skip,
    /// The token's place is kept.
    Place,
    /// The operator of an expression begins, whose operand comes.
    Unary(Unary),
    /// The newest expression is the operand of the newest such operator.
    Wrap,
    /// An operator after its first operand.
    Binary(Binary),
    /// The two newest expressions are the operands of the newest such operator.
    Join,
    Number,
    Text,
    Truth(bool),
    Priority,
    /// A scoped name begins at the file's scope.
    Rooted,
    /// A scoped name begins with this part.
    FirstPart,
    /// A further part of the newest scoped name, or a parameter.
    NamePart,
    /// The newest scoped name is an expression.
    UseName,
    /// This member of the newest expression.
    Member,
    OpenList,
    /// The newest expression is an item of the newest list.
    Item,
    EndList,
    OpenFields,
    /// The token is the name of what comes: of a field, a variable or a method.
    Named,
    /// The newest expression is the value of a field.
    Field,
    /// The fields are those of a new struct.
    New,
    /// The fields are those of an exception that is raised.
    Raise,
    /// A block opens.
    OpenBlock,
    Let,
    Set,
    /// The newest block is what is done otherwise, and the one before it what is done where the expression is true.
    If,
    /// A return without a value.
    Leave,
    Return,
    /// The parameters of a method begin.
    OpenNames,
    Method,
    Servant,
}
