//! A name service at an address: it listens there once, makes one run, and writes its line.
//!
//! What a name service does is this project's own; what it speaks is GIOP 1.2 over IIOP (CORBA 3.0.3, sections 15.4 and 15.7).
#![tactic(auto)]

mod names_end;
mod run_at;

pub use names_end::NamesEnd;
pub use run_at::{NamesServed, names_at};
