//! The thread for a request.

/// The thread that is given a request.
#[derive(Clone, Copy, Debug, PartialEq, Eq)]
pub struct Choice {
    /// Its number, from 0.
    pub thread: u8,
    /// Whether its lane is another than the request's.
    pub lent: bool,
    /// Whether it is started for the request.
    pub starts: bool,
}
