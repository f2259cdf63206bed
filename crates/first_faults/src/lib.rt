//! Laws of the first token at fault, of texts of IDL and of scripts, said without reading.
//!
//! `specs/Beginnings.antt` says which tokens may be before the rest of a text, and `specs/FirstFaults.antt` which token is
//! the first one at fault. The laws say that reading refuses a text there, that there is at most one such token, and that
//! a lawful text has none. The functions have empty bodies: each contract is a law of the definitions.
#![tactic(auto)]

mod laws;

pub use laws::{any_label_refuses_each_text, first_faults_of_idl, first_faults_of_scripts};
