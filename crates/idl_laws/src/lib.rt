//! Laws of what a text of IDL declares, said over its declarations: no scope has two names alike, and what a name means
//! is what looking it up gives over the declarations before it.
//!
//! What a text declares is what is done along its marks, on a table with keys. `specs/Meaning.antt` says looking up over
//! the declarations alone, and the laws say that it is the same. The functions have empty bodies: each contract is a law of
//! the definitions.
#![tactic(auto)]

mod laws;

pub use laws::{
    declarations_stay, names_are_apart, names_are_looked_up, names_mean_what_is_before,
};
