//! One call of the command line: from its words and a file of IDL to one line of JSON.
//!
//! `specs/Interfaces.antt` says which interfaces are known, `specs/Judging.antt` which call the words ask for by these or why there is
//! none, `specs/Lines.antt` the line, and `specs/Runs.antt` what all of it does to the files, the net, the connection and the output.
#![tactic(auto)]

mod argument_text;
mod arguments;
mod call_end;
mod call_words;
mod called;
mod interfaces;
mod lines;
mod operations;
mod plan;
mod remotes;
mod run;

pub use argument_text::ArgumentText;
pub use call_end::{CallEnd, FileFault, LocalFault};
pub use call_words::CallWords;
pub use called::Called;
pub use interfaces::known;
pub use lines::write_line;
pub use plan::{Plan, plan_of};
pub use run::{call_run, end_of};
