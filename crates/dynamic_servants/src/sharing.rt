//! That servants may go to another thread, and be shared among threads.

use crate::servants::Servants;

fn may_go<T: Send>(_x: &T) {}

fn may_share<T: Sync>(_x: &T) {}

/// Workers share servants.
fn see_shared(servants: &Servants) {
    may_go(servants);
    may_share(servants);
}
