//! Several callers over one link: each makes its call in a thread of its own, while a writer sends what the link gives it and a reader
//! hears the replies: own profile.
#![tactic(auto)]

mod callers;
mod jobs;
mod laws;
mod run;
mod sides;

pub use jobs::Asking;
pub use laws::losses_have_their_causes;
pub use run::{MuxRun, mux_run};
