//! How a call of the command line came out.

use client_calls::CallFault;
use idl_grammar::IdlFault;

/// Why a file of IDL gives no interfaces.
#[derive(Clone, Copy, Debug, PartialEq, Eq)]
pub enum FileFault {
    /// It has this first fault.
    Refused(IdlFault),
    /// There is no file of this name.
    Absent,
    /// It is longer than 1,048,576 bytes.
    TooLong,
    /// The store of files failed.
    ReadFault,
}

/// Why words ask for no call. The first of these in this order counts.
#[derive(Clone, Copy, Debug, PartialEq, Eq)]
pub enum LocalFault {
    /// The text of the reference has no reading, or more than 65,536 bytes.
    BadReference,
    /// No interface of the id is known.
    NoInterface,
    /// The interface has no operation of the name.
    NoOperation,
    /// The arguments are no JSON array of one value for each `in` and `inout` parameter, of its type; or a request of the call would be
    /// longer than 262,144 bytes.
    BadArguments,
    /// The reference has bands, and none of them holds the priority that counts.
    NoBand,
    /// The reference has bands, one of which would be bound, and several callers share the link.
    SharedBand,
}

/// How a call of the command line came out. Its variants are in the order of work. Only after `Done` and `WriteFault` was anything
/// written, and only after `Called`, `Done`, `WriteFault` and maybe `NoMemory` was the net asked for a connection that it gave.
#[derive(Debug, Drop)]
pub enum CallEnd {
    /// The file of IDL gives no interfaces.
    File(FileFault),
    /// The words ask for no call. The net was not asked.
    Local(LocalFault),
    /// The net failed to connect.
    NetFault,
    /// The call gave no results.
    Called(CallFault),
    /// The output failed. A prefix of the line was written.
    WriteFault,
    /// Out of memory before the call, or for the line after it. Nothing was written.
    NoMemory,
    /// The line of the results was written.
    Done,
}
