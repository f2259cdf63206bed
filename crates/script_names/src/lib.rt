//! The names that a script finds in the repository of an IDL file: CORBA 3.0.3, chapter 3, names and scoping.
//!
//! A repository knows its things by their ids alone. Here each id that is declared is in an index: things, and
//! beside them modules, enumerators, operations and members, which are no things of their own. Each interface has all its
//! bases in a second index, in the order of looking up. So a scoped name of a script is looked up as IDL looks it up, in
//! the scope of its interface, then in the bases of that in order, then outwards.
#![tactic(auto)]

mod bases;
mod building;
mod error;
mod finding;
mod found;
mod inheritance;
mod meaning;
mod names;
mod parts;
mod paths;
mod putting;

pub use error::FindError;
pub use meaning::Meaning;
pub use names::Names;
