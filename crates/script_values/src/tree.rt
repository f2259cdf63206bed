//! Expressions and statements as they are run.

use cdr_values::IdlValue;
use idl_types::TypeRef;
use script_grammar::{Binary, Unary};

/// An expression: a first part, and what is done to its value from left to right. So a long sum is a long list, and no
/// expression is deeper than its brackets and the ranks of operators make it.
#[cycle(expr)]
#[derive(Drop)]
pub struct Expr {
    pub form: Form,
    pub links: Vec<Link>,
}

/// The first part of an expression.
#[cycle(expr)]
#[derive(Drop)]
pub enum Form {
    /// A literal, a constant or an enumerator.
    Literal(IdlValue),
    /// `priority()`.
    Priority,
    /// The variable in a slot.
    Slot(usize),
    Unary(Unary, Box<Expr>),
    /// A new struct, or a list.
    Build(Vec<Element>),
}

/// What is done to the value before it.
#[cycle(expr)]
#[derive(Drop)]
pub enum Link {
    /// An operator and its second operand.
    Binary(Binary, Expr),
    /// The member of a struct at an index.
    Member(usize),
}

/// A member of a struct or an exception, or an element of a list.
#[cycle(expr)]
#[derive(Drop)]
pub struct Element {
    /// Its index in what is built.
    pub place: usize,
    /// The type that it must fit.
    pub due: TypeRef,
    pub value: Expr,
}

/// A statement.
#[cycle(stmt)]
#[derive(Drop)]
pub enum Stmt {
    /// `let`, into a slot of its own.
    Let(usize, Expr),
    /// `set` of the `out` or `inout` parameter in a slot, and the type that it must fit.
    Set(usize, TypeRef, Expr),
    /// `if`, what is done where the expression is true, and what otherwise.
    If(Expr, Vec<Stmt>, Vec<Stmt>),
    /// `return` without a value.
    Leave,
    /// `return` and the type that the value must fit.
    Return(TypeRef, Expr),
    /// `raise` of the exception at an index of the operation's, with its members.
    Raise(u32, Vec<Element>),
}
