//! How far the reading of a run came.

use crate::read_end::ReadEnd;

/// How far the reading of a run came. The calls of what was read were made, up to a limit of the run.
#[derive(Clone, Copy, Debug, PartialEq, Eq)]
pub enum Reading {
    /// It came out so, and no limit of the run was met.
    Over(ReadEnd),
    /// A limit of the run was met: a call was answered Closing.
    Closing,
    /// A write failed.
    Stopped,
}
