//! Servants whose methods are scripts, and what they answer to requests: own profile.
//!
//! An object of an interface answers `_is_a` and `_non_existent` by the repository alone. Every other operation of the
//! interface is a method of its servant: its `in` and `inout` parameters are read from the request's body, the method is
//! run, and its result and the parameters that come out are spelled into the reply. All of it is one definition, the
//! outcome of a job, which `invoke` answers, or NO_MEMORY when out of memory.
#![tactic(auto)]

mod arguments;
mod body;
mod built_in;
mod finding;
mod kin;
mod laws;
mod replies;
mod servants;
mod sharing;
mod spelling;
mod system;
mod target;
mod zeros;

pub use laws::{
    current_tells_the_priority, ping_is_served, refuses_unknown_operations,
    refuses_unread_parameters,
};
pub use servants::Servants;
