//! The seats of a shared link.
ghost use Rattle.std.specs.Prelude.{◌≡◌};

use client_mux::MuxCell;
use std::marker::Model;
use turn_cell::Seat;

/// The seat of a caller, of the writer or of the reader.
#[derive(Drop)]
pub struct MuxSeat {
    pub(crate) seat: Seat<MuxCell>,
    pub(crate) by: u32,
}

impl Model for MuxSeat {
    ghost use Rattle.std.specs.Prelude.{◌≡◌};
    ghost use Rattle.shared_link.specs.Link.{Sitting};

    ghost Value = { Sitting };

    ghost view = { λ s. s.seat };

    ghost invariant = { λ s. s.by ≡ s.seat.number };
}

/// The first seat of a link, from which all others were split. It calls nothing.
#[derive(Drop)]
pub struct RootSeat {
    pub(crate) main: Seat<MuxCell>,
}

impl Model for RootSeat {
    ghost use Rattle.std.specs.Prelude.{◌≡◌};
    ghost use Rattle.shared_link.specs.Link.{Sitting};

    ghost Value = { Sitting };

    ghost view = { λ s. s.main };

    ghost invariant = { λ s. s.main.number ≡ 0 };
}

impl MuxSeat {
    /// The number of the seat: callers from 1 on, then the writer, then the reader.
    pub fn number(&self) -> u32
        ensures { result ≡ self.now.number }
    {
        self.by
    }
}
