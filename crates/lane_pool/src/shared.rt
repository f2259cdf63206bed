//! What may go to another thread, and what may be shared among threads.

use crate::passes::{ReaderPass, RootPass, SlotPass, WorkerPass, WriterPass};
use crate::pool::LanePool;

fn may_go<T: Send>(_x: &T) {}

fn may_share<T: Sync>(_x: &T) {}

/// A pool is shared, and each pass goes to the thread that calls by it.
fn see_shared(
    pool: &LanePool,
    root: &RootPass,
    slot: &SlotPass,
    reader: &ReaderPass,
    writer: &WriterPass,
    worker: &WorkerPass,
) {
    may_share(pool);
    may_go(root);
    may_go(slot);
    may_go(reader);
    may_go(writer);
    may_go(worker);
}
