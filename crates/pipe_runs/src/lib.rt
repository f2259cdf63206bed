//! The pipe: the run of a stream over the lane machine of a setup, in groups, and what is written of its history. Own profile.
//!
//! `specs/Pipe.antt` says it by `conn_engine`, which says what the run of a stream is, read piece by piece.
#![tactic(auto)]

mod batch;
mod pipe;
mod piped;
mod shown;

pub use batch::Batch;
pub use pipe::pipe_run;
pub use piped::Piped;
pub use shown::Shown;
