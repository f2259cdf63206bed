//! What a writing side is told that is owed nothing more.

/// What a connection's writing side is told to which nothing is owed any more.
#[derive(Clone, Copy)]
pub enum Ending {
    /// CloseConnection is to be written.
    Close,
    /// MessageError is to be written.
    Error,
    /// Nothing is to be written.
    Done,
}
