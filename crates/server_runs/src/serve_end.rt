//! How a server came out.

/// How a server came out: by what became of its last run, or of the net.
#[derive(Clone, Copy, Debug, PartialEq, Eq)]
pub enum ServeEnd {
    /// Its last run ended, and all its lines were written.
    Done,
    /// The net failed, and nothing was served.
    NetFault,
    /// Its last run ended, and a prefix of that run's lines was written before the sink failed.
    WriteFault,
    /// Memory ran out: for the list of the runs or for the acceptors, and then nothing was served; for a run, which then wasn't begun;
    /// or for the lines of the last one.
    NoMemory,
}
