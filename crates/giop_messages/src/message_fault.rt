//! Why the bytes of a message have no reading.
ghost use Rattle.std.specs.Prelude.{◌≡◌};
ghost use Rattle.giop_messages.specs.declared.message_fault.MessageFault.TheVariants.{Cdr, NoMemory};
ghost use Rattle.giop_messages.specs.Answers.{message_error};
ghost use Rattle.giop_messages.specs.Causes.{cause_of};

use crate::refused::Fault;
use cdr_core::{CdrError, CdrFault};
use std::alloc::AllocError;
use thiserror::Error;

/// What is wrong with a message: the first fault from left to right. A place counts bytes from the message's first
/// byte. That a form above 2 and a status above 5 are refused is CORBA 3.0.3, sections 15.4.2.1 and 15.4.3; the causes
/// and their order are own profile.
#[derive(Clone, Copy, Debug, PartialEq, Eq, Error)]
pub enum MessageFault {
    /// A number, a text or a count has no reading.
    #[error("{0}")]
    Cdr(CdrFault),
    /// The form of the target at this place is above 2.
    #[error("{0}: BadTarget")]
    BadTarget(usize),
    /// The status of the reply at this place is above 5.
    #[error("{0}: BadStatus")]
    BadStatus(usize),
    /// Memory was wanting.
    #[error("out of memory")]
    NoMemory,
}

impl MessageFault {
    /// The cause without its place, as a fault of the connection that the message came over. None when out of memory.
    pub fn cause(self) -> Option<Fault>
        ensures { result ≡ cause_of self }
    {
        match self {
            MessageFault::Cdr(fault) => Some(Fault::Message(fault.cause)),
            MessageFault::BadTarget(_) => Some(Fault::BadTarget),
            MessageFault::BadStatus(_) => Some(Fault::BadStatus),
            MessageFault::NoMemory => None,
        }
    }
}

impl From<CdrFault> for MessageFault {
    ghost from_gives = { λ fault e. e ≡ Cdr fault };

    fn from(fault: CdrFault) -> MessageFault {
        MessageFault::Cdr(fault)
    }
}

impl From<CdrError> for MessageFault {
    ghost from_gives = { λ error e. e ≡ message_error error };

    fn from(error: CdrError) -> MessageFault {
        match error {
            CdrError::Refused(fault) => MessageFault::Cdr(fault),
            CdrError::NoMemory => MessageFault::NoMemory,
        }
    }
}

impl From<AllocError> for MessageFault {
    ghost from_gives = { λ _ e. e ≡ NoMemory };

    fn from(_: AllocError) -> MessageFault {
        MessageFault::NoMemory
    }
}
