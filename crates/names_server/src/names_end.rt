//! How a name service came out.

/// How a name service came out.
#[derive(Clone, Copy, Debug, PartialEq, Eq)]
pub enum NamesEnd {
    /// Its run ended, and its line was written.
    Done,
    /// The net failed, and nothing was served.
    NetFault,
    /// Its run ended, and a prefix of its line was written before the sink failed.
    WriteFault,
    /// Memory ran out: for the setup, the acceptors or the run, and then nothing was served; or for the line.
    NoMemory,
}
