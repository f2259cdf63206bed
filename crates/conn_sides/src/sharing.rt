//! What may go to another thread.

use crate::read_side_end::ReadSideEnd;
use crate::write_end::WriteEnd;

fn may_go<T: Send>(_x: &T) {}

/// How a side came out goes back to the thread that started it.
fn see_ends(read: &ReadSideEnd, write: &WriteEnd) {
    may_go(read);
    may_go(write);
}
