//! Laws that compare a name service with a servant of its interface: where both refuse a request, and what both answer
//! without running a script or asking the map.
//!
//! `specs/Serving.antt` says when servants have one of that interface, and `specs/Alike.antt` how both answer alike.
#![tactic(auto)]

mod laws;

pub use laws::{names_answer_as_servants, names_are_served};
