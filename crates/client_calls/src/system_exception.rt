//! Exceptions of the broker itself.

use orb_base::Text;

/// A system exception, as a reply tells it (CORBA 3.0.3, sections 4.12 and 15.4.3).
#[derive(Debug, Drop)]
pub struct SystemException {
    /// Its repository id.
    pub id: Text,
    /// The number by which its causes are told apart.
    pub minor: u32,
    /// Whether the operation was completed: 0 yes, 1 no, 2 maybe. The peer may send any number.
    pub completed: u32,
}
