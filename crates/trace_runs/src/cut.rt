//! The first line of a text.

/// A line, without its line feed, and what comes after that.
#[derive(Clone, Copy)]
pub struct Cut<'a> {
    pub line: &'a [u8],
    pub after: &'a [u8],
}
