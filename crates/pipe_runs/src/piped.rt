//! How the pipe came out.

use conn_engine::StreamEnd;
use lane_driver::Noted;
use orb_base::List;

/// A run of the pipe.
#[derive(Drop)]
pub struct Piped {
    /// How the reading came out, or that a limit of the run was met, or that a write failed.
    pub end: StreamEnd,
    /// The calls that were made, in their order, with their replies. Where a write of the bytes failed, they end with the call that
    /// handed over what was to be written.
    pub history: List<Noted>,
}
