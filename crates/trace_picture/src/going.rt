//! What goes on between two entries.

use trace_lines::OfferedRequest;

/// A request that waits.
#[derive(Clone, Copy)]
pub struct Waiting {
    /// Its number: how many were offered before it.
    pub number: usize,
    pub request: OfferedRequest,
    /// The number of the entry that offers it.
    pub since: u32,
}

/// A request that a thread carries out.
#[derive(Clone, Copy)]
pub struct Running {
    pub thread: u8,
    /// Its number.
    pub number: usize,
    /// Its lane.
    pub lane: u8,
    /// The number of the entry by which the thread took it.
    pub since: u32,
}
