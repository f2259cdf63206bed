//! The reader of servant scripts: own profile.
//!
//! A text is a script exactly where the grammar has it, and else its first token at fault is given. The script is a tree
//! that keeps the place of each token that a check may name. What is between operands is a first part with a list
//! of links, so that neither reading a tree nor dropping it goes deeper than its brackets allow.
#![tactic(auto)]

mod blanks;
mod building;
mod draft;
mod error;
mod expressions;
mod laws;
mod line;
mod literal;
mod name;
mod phrase;
mod reading;
mod stack;
mod statements;
mod takes;

pub use error::ScriptError;
pub use laws::{reads_each_script, reads_scripts, stops_at_first_fault};
pub use line::{Line, Method, Script, Servant};
pub use name::Name;
pub use phrase::{At, Field, Form, Link, Part, Phrase, ScopedName};
pub use reading::read_script;
pub use script_grammar::{Binary, ScriptFault, Unary};
