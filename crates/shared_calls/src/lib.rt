//! One call of the command line that several callers make over one link, each in a thread of its own: from its words and a file of IDL
//! to a line of JSON for each caller: own profile.
//!
//! `specs/Asking.antt` says what each caller asks, `specs/Results.antt` what its call comes to, `specs/Lines.antt` the lines, and
//! `specs/Runs.antt` what all of it does to the files, the net, the link and the output.
#![tactic(auto)]

mod asking;
mod lines;
mod results;
mod run;
mod shared_call;

pub use run::share_run;
pub use shared_call::SharedCall;
