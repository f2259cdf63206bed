//! How a listing came out.

use idl_grammar::IdlFault;

/// How the listing of a file came out.
#[derive(Clone, Copy, Debug, PartialEq, Eq)]
pub enum IdlEnd {
    /// The listing of what the file declares was written.
    Done,
    /// The file has this first fault. Nothing was written.
    Refused(IdlFault),
    /// There is no file of this name. Nothing was written.
    Absent,
    /// The file is longer than 1,048,576 bytes. Nothing was written.
    TooLong,
    /// The store of files failed. Nothing was written.
    ReadFault,
    /// The sink failed. A prefix of the listing was written.
    WriteFault,
    /// Memory was wanting. Nothing was written.
    NoMemory,
}
