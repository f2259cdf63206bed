//! The audit of an input of traces: for each run whether each step was one that the rules of the lane machine allow, whether each
//! caller kept to its part, and what its entries count.
#![tactic(auto)]

mod audit_end;
mod auditing;
mod input;
mod judged;
mod lines;
mod run_verdict;
mod traces;
mod verdict;

pub use audit_end::{AuditEnd, AuditFault, WrongEntry};
pub use auditing::{audit, audit_run};
pub use input::{Input, MAX_AUDITED, take_input};
pub use verdict::Verdict;
