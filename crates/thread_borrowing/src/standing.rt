//! How a thread is among those of its lane.

/// How a thread is among those of its lane.
#[derive(Clone, Copy, Debug, PartialEq, Eq)]
pub enum Standing {
    /// It is ready from the start.
    Static,
    /// It is dynamic and was started.
    Started,
    /// It is dynamic and was not started.
    Resting,
}
