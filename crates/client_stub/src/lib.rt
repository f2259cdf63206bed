//! The calling side of the broker: remote objects, the band that a call binds first, and its requests: how long they are, and their bytes.
//!
//! What the text of a reference means is in `specs/Meaning.antt`, from the definitions by which its parts are printed;
//! which requests a call takes is in `specs/Requests.antt`.
#![tactic(auto)]

mod asked;
mod choosing;
mod length;
mod meaning;
mod remote;
mod requests;

pub use asked::Asked;
pub use choosing::{NoBand, band_for};
pub use length::{BIND_OPERATION, request_len};
pub use meaning::remote_of;
pub use remote::Remote;
pub use requests::{bind_request, call_of, call_request};
