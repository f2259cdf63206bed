//! Tokens.
use crate::Kind;

/// The bytes of a text that can be cut into tokens, at most.
pub const MAX_TEXT: usize = 1_048_576;

/// A token, and where it begins: lines and columns count from 1, and a column counts bytes.
#[derive(Clone, Copy, Debug)]
pub struct Token<'a> {
    pub kind: Kind,
    /// The bytes as they are in the text; none at its end.
    pub text: &'a [u8],
    pub line: u32,
    pub column: u32,
}
