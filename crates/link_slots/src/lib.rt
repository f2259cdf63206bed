//! Links that come to slots, whatever serves one: each slot has a place to serve by, and serves one link after another.
//!
//! What serves a link is a `LinkHost`. What one link did is the contract of its closure; here these relations are strung
//! together, from the slot's first place to its last, beside the links that its acceptor handed out. A slot ends where its
//! acceptor has no link left, where it has served as many as it may, after a link that closes it, or where an accept failed.
#![tactic(auto)]

mod host;
mod slot;
mod slot_end;

pub use host::{LinkDone, LinkHost, LinkJob};
pub use slot::{SlotDone, SlotJob, run_slot};
pub use slot_end::SlotEnd;
