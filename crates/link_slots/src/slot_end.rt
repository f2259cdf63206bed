//! How a slot came out.

/// How a slot came out.
#[derive(Clone, Copy, Debug, PartialEq, Eq)]
pub enum SlotEnd {
    /// Its acceptor answered that no link is left.
    Done,
    /// It served as many links as a slot may.
    Served,
    /// Its last link closed it: no other is served after that one.
    Closed,
    /// An accept failed.
    AcceptFault,
}
