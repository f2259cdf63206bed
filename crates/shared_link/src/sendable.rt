//! What may go to another thread, and what may be shared among threads.

use crate::mux_seat::{MuxSeat, RootSeat};
use crate::shared::Shared;

fn may_go<T: Send>(_x: &T) {}

fn may_share<T: Sync>(_x: &T) {}

/// A link is shared, and each seat goes to the thread that calls by it.
fn see_shared(shared: &Shared, root: &RootSeat, seat: &MuxSeat) {
    may_share(shared);
    may_go(root);
    may_go(seat);
}
