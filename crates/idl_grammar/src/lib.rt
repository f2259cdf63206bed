//! The grammar of IDL, in this profile, as data: CORBA 3.0.3, chapter 3.
//!
//! `specs/` has the rules as they are published, each below its line; the statics here are the same rules, and reading
//! goes by them. One token tells the rules apart, so that the laws of `grammar` hold for them. What is done along a rule
//! is said by labels, whose meaning is in the crate of names.
#![tactic(auto)]

mod fault;
mod label;
mod laws;
mod rules;
mod stopping;

pub use fault::{IdlCause, IdlFault};
pub use label::{Basic, IdlLabel, Inner};
pub use laws::rules_are_plain;
pub use rules::{IdlRule, file_rule, inside};
pub use stopping::stop_at;
