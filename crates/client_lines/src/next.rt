//! What comes next on a connection.

use crate::answer::Answer;
use heard_messages::ReadEnd;

/// What comes next on a client's connection.
#[derive(Drop)]
pub enum Next {
    /// The answer that is awaited.
    Answers(Answer),
    /// No answer: the reading came out so.
    Over(ReadEnd),
}
