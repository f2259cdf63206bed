//! What listens and connects: the outside of a server and of a client.
//!
//! What a net reaches is given optionally: over memory it is given, over the real sockets it is not.
#![tactic(auto)]

mod history;
mod mem_net;
mod mem_slot;
mod net;
mod net_fault;
mod opening;
mod wanted;

pub use mem_net::{MemNet, SteadyNet};
pub use mem_slot::MemSlot;
pub use net::Net;
pub use net_fault::NetFault;
