//! Objects of a setup.

use orb_base::{Priority, Text};

/// An object: its key of 1 to 64 bytes, the number of its adapter, the identifier of its interface, and the priority that it is
/// served at, which is its adapter's where the configuration names none.
#[derive(Debug, Drop)]
pub struct ObjectSpec {
    pub key: Text,
    pub adapter: u8,
    pub interface: Text,
    pub priority: Priority,
}
