//! What slots call the map by.
ghost use Rattle.std.specs.Prelude.{◌≡◌};

use name_map::NamesCell;
use orb_base::{Answer, Told};
use std::marker::Model;
use turn_cell::Seat;

/// What a slot invokes by: its seat at the map, and how many invocations it may make yet.
#[derive(Drop)]
pub struct NamesHand {
    pub(crate) seat: Seat<NamesCell>,
    pub(crate) slot: u8,
    pub(crate) spare: u32,
    pub(crate) done: Told<Answer>,
}

impl Model for NamesHand {
    ghost use Rattle.names_hall.specs.Hands.{Hand};

    ghost Value = { Hand };

    ghost view = { λ h. record { seat = h.seat; slot = h.slot; spare = h.spare; done = h.done.items } };
}

/// The first seat of a map, from which those of the slots were split. It calls nothing.
#[derive(Drop)]
pub struct RootSeat {
    pub(crate) main: Seat<NamesCell>,
}

impl Model for RootSeat {
    ghost use Rattle.names_hall.specs.Hands.{Sitting};

    ghost Value = { Sitting };

    ghost view = { λ s. s.main };
}
