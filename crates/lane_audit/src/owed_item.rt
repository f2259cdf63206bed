//! What a connection is owed.
ghost use Rattle.std.specs.Prelude.{◌≡◌, ◌↔◌, IsTrue};
ghost use Rattle.orb_base.specs.declared.item.Item.TheVariants as item;
ghost use Rattle.lane_machine.specs.Machine.{item_conn};
ghost use Rattle.trace_lines.specs.ReadBack.{answer_of, notice_of};

use crate::asked::Asked;
use orb_base::ConnId;
use std::marker::Model;

/// What a connection is owed as a message.
#[derive(Clone, Copy)]
pub enum Owed {
    /// The reply to a finished request, with a body of so many bytes.
    Answered(Asked, usize),
    /// The reply to an admitted request that asks for one at once.
    Early(Asked),
    /// The refusal of a request.
    Transient(Asked),
    /// The answer of the reading side to the request of this id.
    Posted(ConnId, u32),
}

/// What a connection is owed, seen as the lane machine's item that a trace says.
#[derive(Drop)]
pub struct OwedItem {
    owed: Owed,
}

impl Model for OwedItem {
    ghost use Rattle.orb_base.specs.declared.item.Item.{Item};

    ghost Value = { Item };

    ghost use Rattle.lane_audit.specs.Owing.{item_of};

    ghost view = { λ i. item_of i.owed };
}

impl OwedItem {
    ghost use Rattle.lane_audit.specs.Owing.{item_of};

    /// What is owed, as an item.
    pub fn new(owed: Owed) -> OwedItem
        ensures { result ≡ item_of owed }
    {
        OwedItem { owed }
    }

    /// The connection that it is for.
    pub fn conn(&self) -> ConnId
        ensures { result ≡ item_conn self.now }
    {
        match &self.owed {
            Owed::Answered(asked, _) => asked.conn(),
            Owed::Early(asked) => asked.conn(),
            Owed::Transient(asked) => asked.conn(),
            Owed::Posted(conn, _) => *conn,
        }
    }

    /// Whether both are one message.
    pub fn is_same(&self, other: &OwedItem) -> bool
        ensures { IsTrue result ↔ (self.now ≡ other.now) }
    {
        match (&self.owed, &other.owed) {
            (Owed::Answered(a, n), Owed::Answered(b, m)) => n == m && a.is_same(b),
            (Owed::Early(a), Owed::Early(b)) => a.is_same(b),
            (Owed::Transient(a), Owed::Transient(b)) => a.is_same(b),
            (Owed::Posted(a, i), Owed::Posted(b, j)) => a == b && i == j,
            _ => false,
        }
    }
}
