//! Where whole files come from.
ghost use Rattle.std.specs.Prelude.{◌≡◌};
ghost use Rattle.orb_base.specs.Filing.{FilesState, Files as Reads, CountsFileFault};

use crate::list::Octets;
use crate::text::Text;

/// What reading a file came to.
#[derive(Clone, Copy, Debug, PartialEq, Eq)]
pub enum Filed {
    /// The whole content was read.
    Whole,
    /// There is no file of this name.
    Absent,
    /// The content is longer than the limit.
    TooLong,
    /// The device failed.
    Failed,
    /// Memory was wanting.
    NoMemory,
}

/// A store of files, with a count of its faults, which never falls and stands still at 2^64 - 1.
pub trait Files {
    /// The files, where given, and how many reads failed.
    ghost state: { Self → FilesState };

    /// Puts the content of a file, which is at most `limit` bytes long, in place of what the list holds. After every
    /// other answer than `Whole` the list is empty.
    fn read(&mut self, name: &Text, limit: usize, into: &mut Octets) -> Filed
        ensures content { Reads result name.now limit into.new.items (state self.old) }
        ensures fault { CountsFileFault result (state self.old) (state self.new) }
        ensures kept { (state self.new).files ≡ (state self.old).files };
}
