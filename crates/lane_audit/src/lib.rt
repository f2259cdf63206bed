//! The judge of a trace: whether each of its entries is one that the rules of the lane machine allow.
//!
//! It keeps plain lists of its own and shares no code with the lane machine; both are proved against one definition of a step.
#![tactic(auto)]

mod asked;
mod counts;
mod desk;
mod ending;
mod judging;
mod lists;
mod offers;
mod owed_item;
mod run;
mod scans;
mod waiting;
mod worker;
mod workers;

pub use run::count_legal;
