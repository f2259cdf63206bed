//! What the pipe writes.

/// What the pipe writes of its history.
#[derive(Clone, Copy, Debug, PartialEq, Eq)]
pub enum Shown {
    /// The bytes that the history says: GIOP.
    Bytes,
    /// Its text, a line for each of its calls.
    Text,
    /// Its trace, for an audit: the pool and its lanes, a line for each of its calls, and how many there are.
    Trace,
}
