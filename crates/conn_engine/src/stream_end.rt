//! How the run of a stream came out.

use crate::read_end::ReadEnd;

/// How the run of a stream came out.
#[derive(Clone, Copy, Debug, PartialEq, Eq)]
pub enum StreamEnd {
    /// Each call of what was read was made and everything owed was written: the reading came out so.
    Ended(ReadEnd),
    /// A limit of the run was met, after which nothing was read: the later calls were dropped, and CloseConnection was written at
    /// the end.
    Closed,
    /// A write failed, after which nothing was read.
    WriteFault,
}
