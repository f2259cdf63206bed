//! References of objects, read and written: stringified references, their IIOP profiles, and object URLs (CORBA 3.0.3,
//! sections 13.6 and 15.7).
//!
//! What bytes and texts mean is in `specs/`: `Profiles`, `References` and `Locations`.
#![tactic(auto)]

mod corbaloc;
mod escape;
mod fault;
mod host;
mod iiop_profile;
mod iiop_read;
mod iiop_write;
mod ior;
mod ior_read;
mod ior_write;
pub mod laws;
mod port;
mod take;

pub use corbaloc::{Corbaloc, parse_corbaloc};
pub use fault::{RefCause, RefError, RefFault};
pub use iiop_profile::IiopProfile;
pub use iiop_read::{IIOP_TAG, first_iiop};
pub use iiop_write::write_iiop;
pub use ior::Ior;
pub use ior_read::parse_ior;
pub use ior_write::ior_text;
pub use port::port_number;
