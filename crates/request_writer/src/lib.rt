//! Requests that are written under another id than their own: a shared request stays as it is, and the id is the writer's.
//! CORBA 3.0.3, section 15.4.2.
#![tactic(auto)]

mod part;
mod request;
mod whole;

pub use whole::{cancel_bytes, request_bytes};
