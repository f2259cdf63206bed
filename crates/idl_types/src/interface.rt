//! Interfaces.

use crate::operation::Operation;
use orb_base::{List, Text};

/// An interface: CORBA 3.0.3, section 3.8.
#[derive(Drop)]
pub struct Interface {
    pub id: Text,
    /// The ids of the interfaces that it names as its bases, in order.
    pub bases: List<Text>,
    /// The inherited operations first, base by base and each once, then its own.
    pub operations: List<Operation>,
}
