//! Slots of nets in memory.

use orb_base::{List, MemLink};
use std::collections::LinkedList;

/// The links that come at one slot of a net in memory, in order, and the numbers, from 0, of the accepts that fail.
#[derive(Drop)]
pub struct MemSlot {
    pub links: LinkedList<MemLink>,
    pub failing: List<u64>,
}
