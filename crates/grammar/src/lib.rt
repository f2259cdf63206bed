//! Grammars as data, and one reader for all of them.
//!
//! A grammar is a set of rules over kinds of tokens; each token of a rule, and some places between tokens, carry a
//! label that says what is done there. What a rule spells is said without reading; reading goes from left to right,
//! and an alternative is chosen by its first token. The laws tie the two, once for all grammars whose choices are given
//! apart by one token: what is read is a text of the grammar, each text of it is read, and any other one is refused at
//! its first token at fault.
#![tactic(auto)]

mod builder;
pub mod laws;
mod reader;
mod rule;

pub use builder::{Builder, ReadError};
pub use reader::{MAX_RULE, read_rule, read_whole};
pub use rule::{MAX_OPEN, Rule};
