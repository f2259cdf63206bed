//! The grammar of servant scripts as data: own profile.
//!
//! `specs/` has the rules as they are published, each below its line; the statics here are the same rules, and reading
//! goes by them. One token tells the rules apart, so that the laws of `grammar` hold for them. What is done along a rule
//! is said by labels, whose meaning is in the crate of scripts.
#![tactic(auto)]

mod fault;
mod label;
mod laws;
mod operator;
mod rules;

pub use fault::{ScriptFault, stop_at};
pub use label::{Inner, ScriptLabel};
pub use laws::rules_are_plain;
pub use operator::{Binary, Unary};
pub use rules::{ScriptRule, file_rule, inside};
