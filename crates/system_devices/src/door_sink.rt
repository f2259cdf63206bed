//! A sink that is written between two runs.
ghost use Rattle.std.specs.Prelude.{◌≡◌};

use crate::run_door::RunDoor;
use orb_base::{Put, Sink};

/// A sink that `serve` writes to between two runs alone: what is written opens the door for the next run.
#[derive(Drop)]
pub struct DoorSink<'a, O: Sink + Drop> {
    pub out: O,
    pub door: &'a RunDoor,
}

impl<'a, O: Sink + Drop> Sink for DoorSink<'a, O> {
    ghost state = { λ s. O.state s.out };

    fn write(&mut self, piece: &[u8]) -> Put {
        self.door.open();
        self.out.write(piece)
    }

    fn close(&mut self) {
        self.out.close();
    }
}
