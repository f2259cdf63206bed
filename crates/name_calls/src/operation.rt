//! The operations of a name service.
ghost use Rattle.std.specs.Prelude.{◌≡◌};
ghost use Rattle.name_calls.specs.Operations.{operation_named};

/// An operation that the object of a name service has.
#[derive(Clone, Copy, Debug, PartialEq, Eq)]
pub enum Operation {
    /// Whether the object is of an interface.
    IsA,
    /// Whether there is no such object.
    NonExistent,
    Bind,
    Rebind,
    Resolve,
    Unbind,
    Next,
    Size,
}

/// The operation of a name.
pub(crate) fn operation_of(name: &[u8]) -> Option<Operation>
    ensures { result ≡ operation_named name.now }
{
    if name == b"_is_a".as_slice() {
        Some(Operation::IsA)
    } else if name == b"_non_existent".as_slice() {
        Some(Operation::NonExistent)
    } else if name == b"bind".as_slice() {
        Some(Operation::Bind)
    } else if name == b"rebind".as_slice() {
        Some(Operation::Rebind)
    } else if name == b"resolve".as_slice() {
        Some(Operation::Resolve)
    } else if name == b"unbind".as_slice() {
        Some(Operation::Unbind)
    } else if name == b"next".as_slice() {
        Some(Operation::Next)
    } else if name == b"size".as_slice() {
        Some(Operation::Size)
    } else {
        None
    }
}
