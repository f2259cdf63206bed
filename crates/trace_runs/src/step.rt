//! What a line is to a run that was begun.

/// What a line is to a run that was begun.
#[derive(Clone, Copy)]
pub enum Step {
    /// A lane or an entry of it.
    Goes,
    /// The number of its entries, after which it is whole.
    Ends,
    /// No line that may follow.
    Refused,
}
