//! What may go to another thread, and what may be shared among threads.

use crate::hall::NamesHall;
use crate::hand::NamesHand;

fn may_go<T: Send>(_x: &T) {}

fn may_share<T: Sync>(_x: &T) {}

/// A hall is shared, and each hand goes to the thread of its slot.
fn see_shared<R: Sync>(hall: &NamesHall<'_, R>, hand: &NamesHand) {
    may_share(hall);
    may_go(hand);
}
