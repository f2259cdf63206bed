//! How a load came out.

/// How a load came out.
#[derive(Clone, Copy, Debug, PartialEq, Eq)]
pub enum LoadEnd {
    /// All requests were run, and the line was written.
    Done,
    /// A limit of the run was met, and the line was written all the same.
    Closed,
    /// The line could not be written whole.
    WriteFault,
    /// Out of memory; nothing was written.
    NoMemory,
}
