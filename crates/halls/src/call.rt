//! What a message calls for in a hall.

use orb_base::{Arc, Job, Notice};

/// What a message calls for in a hall.
#[derive(Debug, Drop)]
pub enum HallCall {
    /// An answer without an invocation, which is written at once.
    Post(Notice),
    /// An invocation.
    Invoke(Arc<Job>),
}
