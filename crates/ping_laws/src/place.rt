//! Where a request runs.

use orb_base::Priority;

/// Where a request runs that sends no priority.
#[derive(Clone, Copy, Debug, PartialEq, Eq)]
pub struct Place {
    /// The number of its object.
    pub target: u16,
    /// The priority that its object's adapter mandates.
    pub level: Priority,
}
