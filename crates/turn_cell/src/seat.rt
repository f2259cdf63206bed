//! A seat of a turn cell.
use crate::board::Place;
use crate::object::Object;
use std::marker::Model;

/// What a caller calls by. Contracts see it as its cell, its number, the history that it has seen, its own calls, how many
/// seats were split from it, and what the seats that were joined into it had.
#[derive(Drop)]
pub struct Seat<O: Object> {
    pub(crate) place: Place<O>,
    pub(crate) number: u32,
    pub(crate) splits: u32,
}

impl<O: Object> Model for Seat<O> {
    ghost use Rattle.turn_cell.specs.Seats.{SeatView};

    ghost Value = { SeatView O O.Call O.Reply };

    ghost use Rattle.std.specs.Prelude.{◌≡◌, List, [], false};
    ghost use Rattle.turn_cell.specs.Tries.{IsSeated};

    ghost view = { λ s. record { cell = s.place.table_id; terms = s.place.me.0.terms; number = s.number; seen = s.place.me.0.seen; mine = s.place.me.0.mine; splits = s.splits; ended = s.place.me.0.ended } };

    ghost invariant = { λ s. IsSeated O.ready O.sound O.step O.opens O.fit s.number s.splits s.place.me };
}
