//! What an audit says of the lines of a run besides whether they are legal: whether each call was its caller's to make, how many
//! threads were lent, and the longest wait.
#![tactic(auto)]

mod counts;
mod fit;
mod last_reply;
mod reader;
mod seats;

pub use counts::{count_lent, longest_wait};
pub use fit::are_fit;
