//! What of an operation is read.

/// Of the operation whose name was read: where the names of its types and exceptions are.
#[derive(Clone, Copy, Debug, PartialEq, Eq)]
pub enum Head {
    /// No parameter has begun, or no operation is read.
    Outside,
    /// Its parameters.
    Parameters,
    /// The exceptions that it raises.
    Raises,
}
