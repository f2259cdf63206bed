//! The last reply to a seat.
ghost use Rattle.std.specs.Prelude.{◌≡◌};
ghost use Rattle.fit_audit.specs.LastReplies as Spec;

use trace_lines::{Action, CollectReply};

/// The last reply to a worker or a writing side, as far as it says what may be called after it.
#[derive(Clone, Copy)]
pub enum LastReply {
    /// It has not called yet.
    Unheard,
    /// An answer was taken.
    Finished,
    /// A message was handed over.
    Handed,
    /// Any other.
    Other,
}

/// What a call's reply says of the next call.
pub fn last_reply(action: &Action) -> LastReply
    ensures { result ≡ Spec.last_reply action.now }
{
    match action {
        Action::Finish { .. } => LastReply::Finished,
        Action::Collect { reply, .. } => match reply {
            CollectReply::Close | CollectReply::Error | CollectReply::Done => LastReply::Other,
            _ => LastReply::Handed,
        },
        _ => LastReply::Other,
    }
}

impl LastReply {
    /// Whether a worker may ask for its task: nothing is in its hands, and it was not told that all has ended.
    pub fn may_take(self) -> bool
        ensures { result ≡ Spec.may_take self }
    {
        matches!(self, LastReply::Unheard | LastReply::Finished)
    }

    /// Whether a writing side may ask for what is owed: it was not told that nothing comes any more.
    pub fn may_collect(self) -> bool
        ensures { result ≡ Spec.may_collect self }
    {
        matches!(self, LastReply::Unheard | LastReply::Handed)
    }
}
