//! Literals of IDL and values of constants, and the types that they fit: CORBA 3.0.3, chapter 3, constant declarations.
#![tactic(auto)]

mod fitting;
mod kinds;
mod literal;
mod misfit;
mod ranges;
mod value;

pub use fitting::{bound_of, fit};
pub use kinds::{may_be_constant, may_switch};
pub use literal::{character_of, integer_of};
pub use misfit::Misfit;
pub use value::ConstValue;
