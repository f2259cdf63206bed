//! Texts of IDL and of servant scripts as tokens, each with its place: CORBA 3.0.3, section 3.2.
//!
//! A text is cut from left to right. What is at a place is decided by the byte there and those after it, and a
//! table has the words and one the marks of each language. Contracts see a token as its kind, its bytes, its line
//! and its column, and what is left of a text's tokens as a stream with the end after it.
#![tactic(auto)]

mod cutting;
mod dialect;
mod kind;
mod lexing;
mod marks;
mod quotes;
mod runs;
mod spelling;
mod token;
mod tokens;
mod words;

pub use cutting::{Found, tokens_of};
pub use dialect::Dialect;
pub use kind::Kind;
pub use quotes::unquoted;
pub use token::{MAX_TEXT, Token};
pub use tokens::{Tokens, same_kind};
