//! Three laws of the lane machine over whole histories, which a pool that threads share rests on: the law of length, by which
//! a history has room for each call that may still come; the law of places, by which each admitted request is in exactly
//! one place and, where all threads were told that all has ended, was finished or removed; and the law of replies, by which
//! each finish of a request whose reply is due is one reply that is owed or was handed over.
#![tactic(auto)]

mod laws;

pub use laws::{all_is_done, each_in_one_place, length_is_bounded, replies_are_counted};
