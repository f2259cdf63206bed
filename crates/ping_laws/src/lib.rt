//! The pipe's answers to requests for `current` of `Orb::Ping`: each request of such an input gets its reply. The functions have empty
//! bodies: each contract is a law of the definitions.
#![tactic(auto)]

mod laws;
mod place;

pub use laws::{
    MAX_PINGS, built_in_is_distinct, built_in_is_runnable, built_in_tells_priorities,
    pings_are_replied,
};
pub use place::Place;
