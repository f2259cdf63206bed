//! The runs of the pipe, over any setup: what its history is, what it writes, and the laws of both.
//!
//! `specs/` has the definitions: `Piped` is the run of one connection's calls in groups, `Said` the bytes that a history
//! writes. The functions here have empty bodies: each contract is a law of the definitions.
#![tactic(auto)]

mod laws;

pub use laws::{
    begun_tells_lacks, counting_rises, groups_are_folded, groups_end_where_they_must,
    lacks_are_there, offered_finishes_once, piped_is_done, piped_is_legal, piped_is_replayed,
    piped_makes_calls, piped_owes_nothing, piped_takes_once, rising_offers_once,
};
