//! The generated load: requests to the first object of a setup, made in memory from a seed, run by the pipe, and told in one line.
//!
//! Its bytes are defined in `specs/Generated.antt`, by what requests are spelled as and by what pieces of a message are.
#![tactic(auto)]

mod fragment_len;
mod input;
mod load_count;
mod load_end;
mod load_line;
mod load_plan;
mod pattern;
mod request;
mod run;

pub use fragment_len::FragmentLen;
pub use load_count::LoadCount;
pub use load_end::LoadEnd;
pub use load_plan::LoadPlan;
pub use run::load_of_setup;
