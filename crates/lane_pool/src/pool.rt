//! The pool that threads share: the turn cell of a lane machine. It holds no seat, so that it may be shared.

use lane_machine::Lanes;
use std::marker::Model;
use turn_cell::TurnCell;

/// A lane machine that threads share, with room for every call that may come.
#[derive(Drop)]
pub struct LanePool {
    pub(crate) cell: TurnCell<Lanes>,
}

impl Model for LanePool {
    ghost use Rattle.std.specs.Prelude.{◌≡◌, ◌≤◌};
    ghost use Rattle.lane_machine.specs.Counting.{room};
    ghost use Rattle.lane_pool.specs.Pass.{Pool};

    ghost Value = { Pool };

    ghost view = { λ p. record { cell = p.cell } };

    ghost invariant = { λ p. (p.cell.terms.length ≡ room p.cell.terms.opening) × (p.cell.terms.opening.per_slot ≤ 128) };
}
