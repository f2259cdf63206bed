//! Checked statements.

use crate::scene::Variable;
use idl_types::{Interface, Operation, TypeRef};
use orb_base::Text;
use script_values::Stmt;

/// What a method gives: the type of its result, and the ids of the exceptions that it may raise.
#[derive(Clone, Copy)]
pub struct Goal<'r> {
    pub result: Option<TypeRef>,
    pub raises: &'r [Text],
}

/// A statement, the variable that it brings, and how many `let` stand up to its end.
#[derive(Drop)]
pub struct Done<'r> {
    pub stmt: Stmt,
    pub new: Option<Variable<'r>>,
    pub lets: usize,
}

/// Statements, and how many `let` stand up to their end.
#[derive(Drop)]
pub struct Block {
    pub stmts: Vec<Stmt>,
    pub lets: usize,
}

/// An operation, with its index.
#[derive(Drop)]
pub struct Found<'r> {
    pub at: usize,
    pub operation: &'r Operation,
}

/// An interface, with its place.
#[derive(Drop)]
pub struct Served<'r> {
    pub place: usize,
    pub interface: &'r Interface,
}
