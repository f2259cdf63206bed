//! What a slot's thread begins with, and what it leaves.

use halls::{HallDone, HallJob, LinkLog};
use names_hall::NamesHand;

/// What a slot begins with: its hand, its acceptor, and room for what its connections leave.
pub type NamesJob<A, I, O> = HallJob<A, NamesHand, I, O>;

/// What a slot leaves: the same, with what its connections left, and how it came out.
pub type NamesDone<A, I, O> = HallDone<A, NamesHand, I, O>;

/// What a slot begins with but for its acceptor.
#[derive(Drop)]
pub struct SlotStart<I, O> {
    pub hand: NamesHand,
    /// Room for what its connections leave.
    pub logs: Vec<LinkLog<I, O>>,
}
