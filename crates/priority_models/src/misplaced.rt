//! Why a request has no lane.

/// Why a request isn't placed. The causes are tested in this order.
#[derive(Clone, Copy, Debug, PartialEq, Eq)]
pub enum Misplaced {
    /// A band is bound, and the priority isn't in it.
    OutsideBand,
    /// The pool has lanes, and none of them has the priority.
    NoLane,
}
