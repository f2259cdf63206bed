//! Why a call gives no results.

use crate::system_exception::SystemException;
use giop_messages::Fault;
use orb_base::{NoMemory, Text};
use thiserror::Error;

/// Why a call gives no results. Where the bytes of the connection decide, the first message that does counts.
#[derive(Debug, Drop, Error)]
pub enum CallFault {
    /// The reply tells a system exception.
    #[error("a system exception")]
    System(SystemException),
    /// The reply tells an exception of an IDL file, by its id.
    #[error("a user exception")]
    User(Text),
    /// The reply sends the caller elsewhere, by its status: 3 to 5.
    #[error("the object is elsewhere")]
    Forward(u32),
    /// The peer broke a rule before the reply: the offset of the first byte of the piece that did, or of the piece that completed the
    /// message that did, from the first byte of the connection, and the cause.
    #[error("{fault}")]
    Refused { offset: u64, fault: Fault },
    /// The body of the reply has no reading by its status and the operation.
    #[error("the body of the reply has no reading")]
    BadBody,
    /// The peer ended the connection before the reply, by a message or by the end of its bytes, also within a message.
    #[error("the peer ended the connection")]
    Closed,
    /// A read failed before the reply.
    #[error("a read failed")]
    ReadFault,
    /// A write failed before all that was due was written.
    #[error("a write failed")]
    WriteFault,
    /// 67,108,864 bytes were taken, and the reply was not among them.
    #[error("too many bytes without the reply")]
    Limit,
    /// Out of memory.
    #[error("out of memory")]
    NoMemory,
}

impl From<NoMemory> for CallFault {
    ghost use Rattle.std.specs.Prelude.{◌≡◌};
    ghost use Rattle.client_calls.specs.declared.call_fault.CallFault.TheVariants.{NoMemory};

    ghost from_gives = { λ _ e. e ≡ NoMemory };

    fn from(_: NoMemory) -> CallFault {
        CallFault::NoMemory
    }
}
