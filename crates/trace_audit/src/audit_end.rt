//! How an audit comes out.

use thiserror::Error;

/// Why an input has no verdicts.
#[derive(Clone, Copy, Debug, PartialEq, Eq, Error)]
pub enum AuditFault {
    /// The input is no traces: the offset of the first line at fault, in bytes.
    #[error("the line at byte {0} is at fault")]
    NotTrace(u64),
    /// The source failed, and no whole line before that is at fault.
    #[error("the source failed")]
    ReadFault,
    /// `MAX_AUDITED` bytes were taken, in which no whole line is at fault; the end was not looked for.
    #[error("the input is too long")]
    Spent,
    /// Memory was wanting.
    #[error("out of memory")]
    NoMemory,
}

/// An entry of a run.
#[derive(Clone, Copy, Debug, PartialEq, Eq)]
pub struct WrongEntry {
    /// The number of the run in the input, from 0.
    pub run: u32,
    /// The number of the entry in the run, from 0.
    pub entry: u32,
}

/// How an audit came out.
#[derive(Clone, Copy, Debug, PartialEq, Eq)]
pub enum AuditEnd {
    /// Each run has its line, and is legal.
    Legal,
    /// Each run has its line: the first one that isn't legal, and its first entry that isn't.
    Wrong(WrongEntry),
    /// The input is no traces: the offset of the first line at fault, in bytes. Nothing was written.
    NotTrace(u64),
    /// The source failed, and no whole line before that is at fault. Nothing was written.
    ReadFault,
    /// `MAX_AUDITED` bytes were taken, in which no whole line is at fault. Nothing was written.
    Spent,
    /// The sink failed. A prefix of the lines was written.
    WriteFault,
}
