//! The repository of an IDL file: what it declares, found by repository id (CORBA 3.0.3, chapter 3 and section 10.6).
//!
//! A repository holds its declarations in order, and keeps what later crates rest on: types are lawful, ids and names
//! are told apart, bases are before what is derived from them and give it its first operations, and leaves and levels
//! are within their limits.
#![tactic(auto)]

mod apart;
mod constant;
mod declaration;
mod exception;
mod folding;
mod held;
mod inheritance;
mod interface;
mod kinship;
mod leaves;
mod levels;
mod marks;
mod named_type;
mod names;
mod operation;
mod param;
mod ping;
mod repository;
mod soundness;
mod type_ref;
mod way;

pub use constant::Constant;
pub use declaration::Declaration;
pub use exception::Exception;
pub use interface::Interface;
pub use named_type::NamedType;
pub use operation::Operation;
pub use param::Param;
pub use repository::Repository;
pub use type_ref::{Part, TypeRef};
pub use way::Way;
