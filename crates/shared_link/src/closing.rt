//! How a shared link is closed.
ghost use Rattle.std.specs.Prelude.{length};
ghost use Rattle.turn_cell.specs.Calls.{IsOf, IsJoined};
ghost use Rattle.shared_link.specs.Turns.{IsIn, MainAt};
ghost use Rattle.shared_link.specs.Closings.{AreBack, AreIn, TakesIn, IsHistory};

use crate::mux_seat::{MuxSeat, RootSeat};
use crate::shared::Shared;
use client_mux::MuxCell;
use orb_base::List;
use turn_cell::{Entry, Seat, TurnCell};

impl Shared {
    /// Ends the link, to whose root seat all others come back, and gives the one history of its calls. Takes no memory.
    pub fn close(self, root: RootSeat, seats: Vec<MuxSeat>) -> List<Entry<MuxCell>>
        requires root { MainAt self.cell (length seats.items) root }
        requires seats { AreBack self.cell 1 seats.items }
        ensures { IsHistory self.cell seats.items result.items }
    {
        let Shared { cell } = self;
        let RootSeat { main } = root;
        end(cell, main, seats)
    }
}

/// Joins the seats into the first one, and closes the cell.
fn end(cell: TurnCell<MuxCell>, main: Seat<MuxCell>, seats: Vec<MuxSeat>) -> List<Entry<MuxCell>>
    requires main { MainAt cell (length seats.items) main }
    requires seats { AreBack cell 1 seats.items }
    ensures { IsHistory cell seats.items result.items }
{
    let mut main = main;
    take_in(&cell, &mut main, seats);
    let (_, history) = cell.close(main);
    history
}

/// Joins the seats into the first one, in order.
#[tactic(auto, using(crate::proofs::Closings::in_first, crate::proofs::Closings::in_last, crate::proofs::Closings::taken_none, crate::proofs::Closings::taken_more))]
fn take_in(cell: &TurnCell<MuxCell>, main: &mut Seat<MuxCell>, seats: Vec<MuxSeat>)
    requires main { IsOf cell.now main.old }
    requires seats { AreIn cell.now seats.items }
    ensures { TakesIn cell.now seats.items main.old main.new }
{
    let mut before = seats;
    match before.pop() {
        None => {}
        Some(seat) => {
            take_in(cell, main, before);
            join_one(cell, main, seat);
        }
    }
}

/// Joins a seat into the first one.
fn join_one(cell: &TurnCell<MuxCell>, main: &mut Seat<MuxCell>, seat: MuxSeat)
    requires { IsOf cell.now main.old × IsIn cell.now seat }
    ensures { IsJoined main.old seat main.new }
{
    cell.join(main, seat.seat);
}
