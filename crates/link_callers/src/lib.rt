//! Callers of a shared link that make their calls one after another: own profile.
//!
//! A caller makes at most 64 calls. It awaits each call's reply, where one is due, before it starts the next, and cancels none.
//! A request that it may send is one that `short_request` gives.
#![tactic(auto)]

mod link_caller;
mod requests;

pub use link_caller::LinkCaller;
pub use requests::short_request;
