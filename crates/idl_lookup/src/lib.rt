//! Where a part of a scoped name is looked up: outside operations in the scope that is open and outwards from it, and for the types and
//! exceptions of an operation in its interface, where the operation is declared at its name. CORBA 3.0.3, chapter 3, names and scoping.
#![tactic(auto)]

mod head;
mod seat;

pub use head::Head;
pub use seat::Seat;
