//! What a script may speak of.

use cdr_values::IdlType;
use idl_types::{Exception, TypeRef};
use script_values::Expr;

/// The kind of an expression: that of a literal, or a type's.
#[derive(Clone, Copy)]
pub enum Sort<'r> {
    Truth,
    Number,
    Words,
    Type(&'r IdlType),
}

/// A variable; its slot is its place among the variables that are alive.
#[derive(Drop)]
pub struct Variable<'r> {
    pub name: &'r [u8],
    pub sort: Sort<'r>,
    /// The type that a value must fit which it is set to, where it may be set.
    pub due: Option<TypeRef>,
}

/// An expression as it is run, and its kind.
#[derive(Drop)]
pub struct Checked<'r> {
    pub expr: Expr,
    pub sort: Sort<'r>,
}

/// A member of a struct or an exception.
#[derive(Drop)]
pub struct Slot<'r> {
    pub index: usize,
    pub kind: &'r IdlType,
}

/// The slot of a variable, its kind, and the type that a value must fit which it is set to, where it may be set.
#[derive(Drop)]
pub struct Place<'r> {
    pub slot: usize,
    pub sort: Sort<'r>,
    pub due: Option<TypeRef>,
}

/// A slot, and the type that a value must fit which it is set to.
#[derive(Drop)]
pub struct Settable {
    pub slot: usize,
    pub due: TypeRef,
}

/// A named type, by the place of its thing.
#[derive(Drop)]
pub struct Named<'r> {
    pub place: usize,
    pub kind: &'r IdlType,
}

/// The type that is due where a list is, and what it is.
#[derive(Drop)]
pub struct ListDue<'r> {
    pub due: TypeRef,
    pub kind: &'r IdlType,
}

/// An exception, by the place of its thing.
#[derive(Drop)]
pub struct Thrown<'r> {
    pub place: usize,
    pub exception: &'r Exception,
}

/// The kind that an operator's second operand must have, and the kind that both give.
#[derive(Drop)]
pub struct Asked<'r> {
    pub need: Sort<'r>,
    pub gives: Sort<'r>,
}
