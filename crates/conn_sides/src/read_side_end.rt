//! How the reading side of a connection came out.

use conn_engine::ReadEnd;

/// How the reading side of a connection came out.
#[derive(Clone, Copy, Debug, PartialEq, Eq)]
pub enum ReadSideEnd {
    /// The reading came out so, and no call was answered Closing.
    Read(ReadEnd),
    /// A call was answered Closing: a limit of the run is met.
    RunClosed,
    /// Memory was wanting to what the last read gave. What was read before it was called.
    NoMemory,
}
