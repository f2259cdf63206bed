//! What a run leaves.

use conn_sides::{ReadSideEnd, WriteEnd};
use lane_machine::Lanes;
use link_slots::SlotEnd;
use orb_base::{ConnId, List};
use turn_cell::Entry;

/// What one connection leaves.
#[derive(Drop)]
pub struct ConnLog<I, O> {
    pub id: ConnId,
    pub source: I,
    pub sink: O,
    pub read: ReadSideEnd,
    pub write: WriteEnd,
}

/// What a run leaves.
#[derive(Drop)]
pub struct Run<I, O> {
    /// The one history of all calls of its slots, connections and workers.
    pub history: List<Entry<Lanes>>,
    /// All connections, in order of their slots, and each slot's in its order.
    pub conns: List<ConnLog<I, O>>,
    /// How each slot came out: one is closed where its last connection was told to close, since a limit of the run was met or
    /// too much came by it.
    pub slots: List<SlotEnd>,
}
