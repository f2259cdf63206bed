//! How the writing side of a connection came out.

/// By which answer a writing side learned that nothing comes any more.
#[derive(Clone, Copy, Debug, PartialEq, Eq)]
pub enum LastCollect {
    /// Nothing is written for it.
    Done,
    /// CloseConnection is.
    Close,
    /// MessageError is.
    Error,
}

/// How the writing side of a connection came out.
#[derive(Clone, Copy, Debug, PartialEq, Eq)]
pub enum WriteEnd {
    /// All was written.
    Done,
    /// All was written, and CloseConnection after it.
    Closed,
    /// All was written, and MessageError after it.
    Error,
    /// A write failed; the last collect was answered so.
    WriteFault(LastCollect),
}
