//! Laws over what a run of the server says: what follows from the clauses of `serve_run` for those who read them.
//!
//! `specs/Mandates.antt` says of a request that it has the priority that its setup mandates.
#![tactic(auto)]

mod laws;

pub use laws::each_request_has_its_mandated_priority;
