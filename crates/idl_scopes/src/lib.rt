//! The scopes of a text of IDL, and the names that are declared in them: CORBA 3.0.3, chapter 3, names and scoping.
//!
//! All declarations are in one list, in the order of their names, and an index finds them by their scope and their
//! name without regard to case, since a scope has no two names that differ in case alone. Scopes are numbers: the file
//! is 0, and the scope of a declaration is one more than its place in the list. What a name stands for beside its scope
//! is kept above, by the same places.
#![tactic(auto)]

mod bases;
mod declared;
mod declaring;
mod fault;
mod finding;
mod groups;
mod holders;
mod ids;
mod index;
mod inherited;
mod inheriting;
mod keywords;
mod known;
mod marks;
mod pieces;
mod place;
mod rows;
mod scopes;
mod sort;
mod taking;

pub use declared::Declared;
pub use fault::DeclareFault;
pub use inherited::Inherited;
pub use place::Place;
pub use scopes::Scopes;
pub use sort::Sort;
