//! The check of scripts: which faults a script has, and what is run in its place (own profile).
//!
//! Names become slots, indexes and values, and each place where a value must fit a type has a reference to that type, so
//! that a checked script compares no names when it runs. The first fault in the order of the text is given, at its token.
#![tactic(auto)]

mod blocks;
mod built;
mod checked;
mod checking;
mod done;
mod dues;
mod ending;
mod fault;
mod ground;
mod kinds;
mod methods;
mod naming;
mod parameters;
mod scene;
mod servants;
mod typing;

pub use checked::{CheckedMethod, CheckedScript, CheckedServant};
pub use fault::{CheckCause, CheckError, CheckFault};
pub use servants::check;
