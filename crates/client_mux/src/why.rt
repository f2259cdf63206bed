//! Why a link is lost.

use giop_messages::Fault;

/// Why a link that several callers share is lost.
#[derive(Clone, Copy, Debug, PartialEq, Eq)]
pub enum Why {
    /// The peer closed it, or its bytes ended.
    Closed,
    /// The bytes that came are refused, at this offset from the first one.
    Refused { offset: u64, fault: Fault },
    /// So many replies or bytes came as a link may bring.
    Limit,
    /// A read failed.
    ReadFault,
    /// A write failed.
    WriteFault,
    /// Out of memory.
    NoMemory,
}
