//! What a run of a name service leaves.

use halls::LinkLog;
use link_slots::SlotEnd;
use name_map::NamesCell;
use orb_base::{Answer, List, Told};
use turn_cell::Entry;

/// What a run leaves.
#[derive(Drop)]
pub struct NamesRun<I, O> {
    /// The one history of all calls of the map.
    pub history: List<Entry<NamesCell>>,
    /// How many keys the map holds at the end.
    pub keys: u32,
    /// What each slot did, in order of the slots. Only proofs read it.
    pub done: List<Told<Answer>>,
    /// What all connections left, in order of their slots, and each slot's in its order.
    pub conns: List<LinkLog<I, O>>,
    /// How each slot came out.
    pub slots: List<SlotEnd>,
}
