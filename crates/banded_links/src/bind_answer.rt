//! What a bind comes to.

/// What becomes of a request to bind a band. The causes are tested in this order.
#[derive(Clone, Copy, Debug, PartialEq, Eq)]
pub enum BindAnswer {
    /// The band is bound from the next message on.
    Bound,
    /// The request carries no band.
    Malformed,
    /// The pool has lanes, and none of them has a priority of the band.
    NoLane,
}
