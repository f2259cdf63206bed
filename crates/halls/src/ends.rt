//! How connections of a hall come out.

use heard_messages::ReadEnd;

/// What some calls came to.
#[derive(Clone, Copy, Debug, PartialEq, Eq)]
pub enum Took {
    /// All were made.
    All,
    /// The hand had no invocation left for one of them.
    RunClosed,
    /// A write failed.
    Stopped,
}

/// How the reading of a connection came out.
#[derive(Clone, Copy, Debug, PartialEq, Eq)]
pub enum HallRead {
    /// As its bytes say, or by a read that failed; all that they mean was made.
    Read(ReadEnd),
    /// The hand had no invocation left for a request.
    RunClosed,
    /// Out of memory for what the last read gave. What was read before it was made.
    NoMemory,
    /// One of the connection's own writes failed.
    Stopped,
}

/// How the writing of a connection came out.
#[derive(Clone, Copy, Debug, PartialEq, Eq)]
pub enum HallWrite {
    /// All was written.
    Done,
    /// All was written, and CloseConnection last.
    Closed,
    /// All was written, and MessageError last.
    Error,
    /// A write failed; nothing was written after it.
    WriteFault,
}
