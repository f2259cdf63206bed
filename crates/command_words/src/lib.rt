//! What the words of a command line mean: the options of each command are read by `command_options`, and their numbers, addresses and
//! names here. No command is carried out here.
#![tactic(auto)]

mod laws;
mod meaning;
mod numbers;
mod words;

pub use laws::{commands_mean_what_they_say, order_is_free, second_use_is_refused};
pub use meaning::{LoadWords, Meaning, PipeWords, ServeWords};
pub use words::read_words;
