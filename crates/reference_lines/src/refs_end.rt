//! How `orb refs` came out.

use object_refs::RefFault;

/// The most bytes of the text of a reference that is read, without the line feed after it: own profile.
pub const MAX_REFERENCE: usize = 65_536;

/// How `orb refs` came out.
#[derive(Clone, Copy, Debug, PartialEq, Eq)]
pub enum RefsEnd {
    /// The lines of the reference were written.
    Done,
    /// The text has no reading. Nothing was written.
    Refused(RefFault),
    /// The text is longer than `MAX_REFERENCE` bytes. Nothing was written.
    TooLong,
    /// The source failed. Nothing was written.
    ReadFault,
    /// The sink failed. A prefix of the lines was written.
    WriteFault,
}
