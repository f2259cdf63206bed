//! Rows of the tables of words and marks.
use crate::Kind;

/// A word or a mark, and what it is.
#[derive(Clone, Copy)]
pub struct Spelling {
    pub text: &'static [u8],
    pub kind: Kind,
}
