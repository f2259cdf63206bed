//! What decides what messages mean.
ghost use Rattle.std.specs.Prelude.{◌≡◌, ℕ, IfOk};
ghost use Rattle.orb_base.specs.declared.order.Order.{Order};
ghost use Rattle.giop_messages.specs.Message as Messages;
ghost use Rattle.giop_messages.specs.PartsView.{AreSound, parts_message};
ghost use Rattle.heard_messages.specs.Hearing.{IsOneWay};
ghost use Rattle.heard_messages.specs.declared.means.Means.{Means};

use crate::means::Means;
use giop_messages::Parts;
use orb_base::{NoMemory, Order};
use std::alloc::Global;

/// Decides what the messages of a connection mean, one after another: which calls they are for, and which of them end the reading. A
/// message without a reading never comes before it: such a one breaks the connection.
pub trait Judge {
    /// What earlier messages settled, as a band that is bound.
    type Bound: Drop;

    /// What a message may call for.
    type Call: Drop;

    /// What is settled before the first message.
    ghost first: { Self → Self.Bound };

    /// The message of this byte order and of so many bytes means this, where that was settled before it and so many calls were made.
    ghost means: { Self → Self.Bound → ℕ → Order → ℕ → Messages.Message → Means Self.Bound Self.Call → Type 0 };

    /// What is settled before the first message.
    fn begin(&self) -> Self::Bound
        ensures { result ≡ first self.now };

    /// What the message of these parts means, by what was settled before it and by the number of the calls before it; `size` is its length
    /// in bytes, with its header.
    fn judge(
        &self,
        alloc: Global,
        bound: &Self::Bound,
        serial: u32,
        order: Order,
        size: u32,
        parts: Parts<'_>,
    ) -> Result<Means<Self::Bound, Self::Call>, NoMemory>
        requires sound { AreSound parts }
        ensures { IfOk result (means self.now bound.now serial order size (parts_message parts.entry)) };

    /// A message means one thing.
    ghost one_way: { (judge : Self) → IsOneWay (means judge) };
}
