//! The text of a history of the lane machine: a line for each call with its reply.
#![tactic(auto)]

mod call_text;
mod line;
mod reply_text;

pub use line::{history_text, put_line};
