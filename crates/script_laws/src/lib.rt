//! Laws of scripts: no script that was checked meets a default.
//!
//! What a script comes to is a total definition: a value of another kind than its place asks for is read as 0, FALSE or
//! empty there, and a variable or a member that isn't there as a blank. Beside it stands one without defaults, which gives
//! nothing in such a place. For what was checked, both are the same. The functions have empty bodies: each contract is a law
//! of the definitions.
#![tactic(auto)]

mod laws;

pub use laws::{
    checked_expressions_are_defined, checked_methods_are_defined, checked_scripts_are_defined,
    checked_servants_are_defined, checked_texts_are_defined,
};
