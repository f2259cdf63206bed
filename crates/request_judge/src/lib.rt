//! What a server makes of a request before it runs: whether it may run, where, and at which priority (Real-time CORBA 1.2,
//! Priority models, Priority transforms, Priority banded connections and Threadpools; the order of the causes and their minor
//! codes are own profile).
//!
//! A request is judged by the setup and by the band that its connection has bound. `specs/Judging.antt` says what each
//! verdict means, and `specs/InHall.antt` what a request comes to where there are no lanes. Judging takes no memory.
#![tactic(auto)]

mod calls;
mod hall;
mod judging;
mod laws;
mod refusal;
mod request;
mod served;
mod verdict;

pub use calls::{call_of, job_of, notice_of};
pub use hall::judge_in_hall;
pub use judging::{BIND_OPERATION, judge};
pub use laws::{requests_are_judged_one_way, requests_in_halls_are_judged_one_way};
pub use refusal::Refusal;
pub use request::Asked;
pub use served::{Served, is_here, served_at};
pub use verdict::{Place, Verdict};
