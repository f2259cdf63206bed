//! Whether a thread has a task.

/// Whether a thread has a task.
#[derive(Clone, Copy, Debug, PartialEq, Eq)]
pub enum Task {
    /// It has none.
    Free,
    /// It was given one that it has not taken yet.
    Given,
    /// It carries one out.
    Busy,
}
