//! How much is owed to each connection.
ghost use Rattle.std.specs.Prelude.{◌≡◌, ◌<◌, ◌+◌, ◌^◌, true, IfOk};
ghost use Rattle.lane_audit.specs.Counting.{in_reach, place_of, cell, count_in, Moves, IsClear, AreZeros};

use orb_base::{ConnId, List, NoMemory};
use std::alloc::Global;
use std::marker::Model;

/// Slots for which the table has cells.
const SLOTS: u8 = 16;

/// Connections of a slot for which the table has cells.
const CONNECTIONS: u8 = 128;

/// The cells of the table.
const CELLS: usize = 2_048;

/// A count for each connection that a run may have, in constant work.
#[derive(Drop)]
pub struct Counts {
    table: List<u8>,
}

impl Model for Counts {
    ghost use Rattle.std.specs.Prelude.{◌≡◌, ℕ, List, length};

    ghost Value = { List ℕ };

    ghost view = { λ c. c.table.items };

    ghost invariant = { λ c. length c.table.items ≡ 2048 };
}

impl Counts {
    /// Nothing is counted.
    #[tactic(auto, using(crate::proofs::Cells::all_clear))]
    pub fn new(alloc: Global) -> Result<Counts, NoMemory>
        ensures { IfOk result IsClear }
    {
        Ok(Counts {
            table: zeros(alloc, CELLS)?,
        })
    }

    /// The count of a connection, where there is a cell for it.
    pub fn get(&self, conn: ConnId) -> Option<u8>
        ensures { result ≡ count_in self.now conn }
    {
        if is_in_reach(conn) {
            Some(self.table.as_slice()[place_of(conn)])
        } else {
            None
        }
    }

    /// The count of a connection grows by so much.
    #[tactic(auto, using(crate::proofs::Cells::one_moved, crate::proofs::Cells::none_moved))]
    pub fn add(&mut self, conn: ConnId, n: u8)
        requires fits { in_reach conn ≡ true → cell self.old conn + n < 2 ^ 8 }
        ensures { Moves self.old self.new conn n 0 }
    {
        if is_in_reach(conn) {
            let at = place_of(conn);
            let count = self.table.as_slice()[at];
            self.table.replace(at, count + n);
        }
    }

    /// The count of a connection shrinks by one.
    #[tactic(auto, using(crate::proofs::Cells::one_moved, crate::proofs::Cells::none_moved))]
    pub fn take_one(&mut self, conn: ConnId)
        requires some { in_reach conn ≡ true → 0 < cell self.old conn }
        ensures { Moves self.old self.new conn 0 1 }
    {
        if is_in_reach(conn) {
            let at = place_of(conn);
            let count = self.table.as_slice()[at];
            self.table.replace(at, count - 1);
        }
    }
}

/// Whether the table has a cell for the connection.
fn is_in_reach(conn: ConnId) -> bool
    ensures { result ≡ in_reach conn }
{
    conn.slot < SLOTS && conn.nth < CONNECTIONS
}

/// The cell of a connection.
fn place_of(conn: ConnId) -> usize
    requires { in_reach conn ≡ true }
    ensures value { result ≡ place_of conn }
    ensures few { result < CELLS }
{
    usize::from(CONNECTIONS) * usize::from(conn.slot) + usize::from(conn.nth)
}

/// So many zeros.
#[tactic(auto, using(crate::proofs::Cells::are_zeros))]
fn zeros(alloc: Global, n: usize) -> Result<List<u8>, NoMemory>
    ensures { IfOk result (λ list. AreZeros list.items n) }
{
    Ok(List::from_vec(vec![in alloc; 0u8; n]?))
}
