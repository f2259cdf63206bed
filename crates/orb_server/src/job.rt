//! What a slot's thread begins with, and what it leaves.

use crate::run::ConnLog;
use lane_pool::SlotPass;
use link_slots::{LinkDone, LinkJob, SlotDone, SlotJob};

/// What a slot begins with: its pass, its acceptor, and room for what its connections leave.
pub type PoolJob<A, I, O> = SlotJob<A, SlotPass, ConnLog<I, O>>;

/// What a slot leaves: the same, with what its connections left, and how it came out.
pub type PoolDone<A, I, O> = SlotDone<A, SlotPass, ConnLog<I, O>>;

/// A link that came to a slot, with the slot's pass.
pub type PoolLink<I, O> = LinkJob<SlotPass, I, O>;

/// What serving it leaves: the pass, and what is kept of the connection.
pub type PoolLinkDone<I, O> = LinkDone<SlotPass, ConnLog<I, O>>;

/// What a slot begins with but for its acceptor.
#[derive(Drop)]
pub struct SlotStart<I, O> {
    pub pass: SlotPass,
    /// Room for what its connections leave.
    pub logs: Vec<ConnLog<I, O>>,
}
