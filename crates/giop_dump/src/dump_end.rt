//! How a dump came out.

use crate::refusal::Refusal;

/// Bytes of an input that a dump takes.
pub const MAX_DUMPED: usize = 67_108_864;

/// Bytes of one read at most.
pub const READ_LEN: usize = 4096;

/// How a dump came out.
#[derive(Clone, Copy, Debug, PartialEq, Eq)]
pub enum DumpEnd {
    /// The input was read to its end, and each message has its line.
    Done,
    /// The input is refused; the messages before the fault have their lines.
    Refused(Refusal),
    /// `MAX_DUMPED` bytes were taken without a fault; the end was not looked for.
    Spent,
    /// The source failed; the messages before that have their lines.
    ReadFault,
    /// The sink failed. A prefix of the lines was written.
    WriteFault,
}
