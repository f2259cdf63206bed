//! What may go to another thread.

use crate::calling::CallEnd;
use crate::writing::WriterEnd;

fn may_go<T: Send>(_x: &T) {}

/// How a side came out goes back to the thread that started it.
fn see_ends(writer: &WriterEnd, caller: &CallEnd) {
    may_go(writer);
    may_go(caller);
}
