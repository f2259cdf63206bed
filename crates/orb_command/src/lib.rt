//! The top call of the program: it does all that `orb` does, over the net, the files, the source and the sink that it is handed.
#![tactic(auto)]

mod answered;
mod audit;
mod call;
mod command;
mod dump;
mod idl;
mod load;
mod names;
mod note;
mod pipe;
mod refs;
mod serve;
mod setup_note;
mod shared;

pub use answered::{Answered, Reported, without_words};
pub use command::orb_main;
pub use note::{Note, Role};
