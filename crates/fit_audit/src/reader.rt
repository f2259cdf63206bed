//! The caller of a slot.
ghost use Rattle.std.specs.Prelude.{◌≡◌};
ghost use Rattle.fit_audit.specs.Readers as Spec;

use trace_lines::{Action, CancelReply, OfferReply, PostReply};

/// What the caller of a slot has called so far.
#[derive(Clone, Copy)]
pub struct Reader {
    /// How many of its connections have ended, which is the number of the one that it reads.
    pub ended: usize,
    /// How many calls of that connection came.
    pub heard: usize,
    /// Whether one of these was answered Closing.
    pub closed: bool,
    /// Whether the slot left.
    pub left: bool,
}

/// Whether a call was answered Closing.
fn is_closing(action: &Action) -> bool
    ensures { result ≡ Spec.is_closing action.now }
{
    matches!(
        action,
        Action::Offer {
            reply: OfferReply::Closing,
            ..
        } | Action::Post {
            reply: PostReply::Closing,
            ..
        } | Action::Cancel {
            reply: CancelReply::Closing,
            ..
        }
    )
}

impl Reader {
    /// Whether the slot reads its connection of this number, of which it has so many.
    fn reads(self, per_slot: u8, nth: u8) -> bool
        ensures { result ≡ Spec.reads per_slot self nth }
    {
        nth < per_slot && self.ended == nth as usize && !self.left
    }

    /// Whether a call of this connection may come: none was answered Closing.
    fn may_hear(self, per_slot: u8, nth: u8) -> bool
        ensures { result ≡ Spec.may_hear per_slot self nth }
    {
        self.reads(per_slot, nth) && !self.closed
    }

    /// Whether the slot's caller may call this.
    pub fn may_call(self, per_slot: u8, action: &Action) -> bool
        ensures { result ≡ Spec.reader_may per_slot self action.now }
    {
        match action {
            Action::Offer { request, .. } => {
                self.may_hear(per_slot, request.conn.nth) && self.heard == request.serial as usize
            }
            Action::Post { conn, .. } | Action::Cancel { conn, .. } => {
                self.may_hear(per_slot, conn.nth)
            }
            Action::End { conn, .. } => self.reads(per_slot, conn.nth),
            Action::Leave { .. } => !self.left && self.heard == 0,
            _ => false,
        }
    }

    /// The slot's caller after it called this. Its counts stop at the greatest number, which no run reaches.
    pub fn after(self, action: &Action) -> Reader
        ensures { result ≡ Spec.reader_after self action.now }
    {
        match action {
            Action::Offer { .. } | Action::Post { .. } | Action::Cancel { .. } => Reader {
                ended: self.ended,
                heard: self.heard.saturating_add(1),
                closed: self.closed || is_closing(action),
                left: self.left,
            },
            Action::End { .. } => Reader {
                ended: self.ended.saturating_add(1),
                heard: 0,
                closed: false,
                left: self.left,
            },
            Action::Leave { .. } => Reader {
                ended: self.ended,
                heard: self.heard,
                closed: self.closed,
                left: true,
            },
            _ => self,
        }
    }
}
