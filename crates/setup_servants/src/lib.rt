//! The servants of a setup: what its file of interfaces declares and its file of scripts says is checked, and each of its
//! objects must be served. Without files the built-in interface alone is.
#![tactic(auto)]

mod fault;
mod interfaces;
mod laws;
mod scripts;
mod servants;
mod serving;
mod texts;

pub use fault::{ServingFault, TextRole};
pub use laws::{built_in_setup_has_servants, built_in_setup_is_served};
pub use servants::servants_of;
