//! Messages whose parts lie in their bytes.

use cdr_core::Reader;

/// The object that a request is for, in the bytes of its message: CORBA 3.0.3, section 15.4.2.1.
#[derive(Drop)]
pub enum PartTarget<'a> {
    /// By the key of the object's adapter.
    Key(&'a [u8]),
    /// By a profile of its reference.
    Profile {
        /// The profile's tag.
        tag: u32,
        /// The profile's bytes.
        bytes: &'a [u8],
    },
    /// By its whole reference, of which one profile is meant.
    Addressing {
        /// Which of the profiles is meant, from 0.
        index: u32,
        /// The reference's repository id, without its NUL.
        type_id: &'a [u8],
        /// The reference's profiles: at the count of their list, which has a reading.
        profiles: Reader<'a>,
    },
}

/// One message, whose parts lie in its bytes: CORBA 3.0.3, section 15.4.
#[derive(Drop)]
pub enum Parts<'a> {
    /// A request: section 15.4.2.
    Request {
        /// The number that its reply carries.
        id: u32,
        /// The response flags.
        flags: u8,
        /// The object.
        target: PartTarget<'a>,
        /// The operation's name, without its NUL.
        operation: &'a [u8],
        /// The service contexts: at the count of their list, which has a reading.
        contexts: Reader<'a>,
        /// The arguments, which begin at a multiple of 8 of the message.
        body: &'a [u8],
    },
    /// A reply: section 15.4.3.
    Reply {
        /// The number of the request.
        id: u32,
        /// The status, 0 to 5.
        status: u32,
        /// The service contexts: at the count of their list, which has a reading.
        contexts: Reader<'a>,
        /// The result or the exception, which begins at a multiple of 8 of the message.
        body: &'a [u8],
    },
    /// A CancelRequest, with the request's id.
    Cancel(u32),
    /// A question where an object is: section 15.4.5.
    Locate {
        /// The number that its answer carries.
        id: u32,
        /// The object.
        target: PartTarget<'a>,
    },
    /// Its answer: section 15.4.6.
    Located {
        /// The number of the question.
        id: u32,
        /// 0 where the object is unknown, 1 where it is here; any number is kept.
        status: u32,
    },
    /// A CloseConnection.
    Close,
    /// A MessageError.
    Error,
}
