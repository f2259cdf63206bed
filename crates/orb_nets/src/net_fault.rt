//! Why a net answered no link.

use thiserror::Error;

/// Why a net answered no acceptors or no link.
#[derive(Clone, Copy, Debug, PartialEq, Eq, Error)]
pub enum NetFault {
    /// The net failed.
    #[error("network fault")]
    Failed,
    /// Memory was wanting; the net did not fail.
    #[error("out of memory")]
    NoMemory,
}
