//! Whom a job is for, and what is run for it.

use idl_types::{Interface, Operation};
use script_checks::CheckedServant;
use script_values::Stmt;

/// An interface with its servant.
#[derive(Clone, Copy, Drop)]
pub(crate) struct Target<'a> {
    pub interface: &'a Interface,
    pub servant: &'a CheckedServant,
}

/// An operation, with its index in the interface.
#[derive(Clone, Copy, Drop)]
pub(crate) struct Asked<'a> {
    pub at: usize,
    pub operation: &'a Operation,
}

/// What a method runs: how many variables it has after its parameters, and its statements.
#[derive(Clone, Copy, Drop)]
pub(crate) struct Work<'a> {
    pub lets: usize,
    pub body: &'a [Stmt],
}
