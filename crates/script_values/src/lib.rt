//! Servant scripts as they are run, and what they come to: own profile.
//!
//! Names and kinds are resolved: a variable is the number of its slot, a member its index, and a type a reference into the
//! repository. The meaning is total: where the check leaves no operation at a value of another kind, any value is. So
//! the faults of a run are the four limits of operations, and out of memory.
#![tactic(auto)]

mod evaluation;
mod leaves;
mod limit;
mod numbers;
mod operations;
mod running;
mod seen;
mod slots;
mod tree;

pub use evaluation::{eval, fill};
pub use limit::{Limit, Stop};
pub use running::{Flow, run};
pub use seen::Seen;
pub use slots::slot;
pub use tree::{Element, Expr, Form, Link, Stmt};
