//! Bands of priorities that connections bind (Real-time CORBA 1.2, Priority banded connections). No call takes memory.
#![tactic(auto)]

mod bands;
mod bind_answer;
mod bind_client;
mod bind_server;

pub use bands::Bands;
pub use bind_answer::BindAnswer;
pub use bind_client::{BindClient, NO_EXCEPTION};
pub use bind_server::BindServer;
