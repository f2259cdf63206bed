//! Seats of a register's cell, as the tests split, call by and join them.
ghost use Rattle.std.specs.Prelude.{◌≡◌, ◌<◌, ◌+◌, [], ◌∷◌, ◌++◌};
ghost use Rattle.turn_cell.specs.Calls.{IsOf};
ghost use Rattle.turn_cell.specs.Team.{IsSame, team};
ghost use Rattle.turn_cell.specs.Whole.{numbers};

use std::sync::Wait;
use turn_cell::{Register, RegisterCall, RegisterReply, Seat, TurnCell};

/// The first seat's next heir.
pub fn next(cell: &TurnCell<Register>, first: &mut Seat<Register>) -> Seat<Register>
    requires of { IsOf cell.now first.old }
    requires first { (first.old.number ≡ 0) × (first.old.splits < 8) }
    ensures of { IsOf cell.now first.new × IsOf cell.now result }
    ensures first { (first.new.number ≡ 0) × (first.new.splits ≡ first.old.splits + 1) }
    ensures ended { first.new.ended ≡ first.old.ended }
    ensures new { (result.number ≡ first.old.splits + 1) × (result.splits ≡ 0) × (result.ended ≡ []) }
{
    match cell.split(first) {
        Ok(seat) => seat,
        Err(_) => unreachable!(),
    }
}

/// Makes a call, or None where the history has no room.
pub fn make<R: Wait>(
    rt: &R,
    cell: &TurnCell<Register>,
    seat: &mut Seat<Register>,
    call: RegisterCall,
) -> Option<RegisterReply>
    requires { IsOf cell.now seat.old }
    ensures of { IsOf cell.now seat.new }
    ensures same { IsSame seat.old seat.new }
{
    cell.call(rt, seat, call).ok()
}

/// Joins a seat that split none.
pub fn take_in(cell: &TurnCell<Register>, first: &mut Seat<Register>, other: Seat<Register>)
    requires of { IsOf cell.now first.old × IsOf cell.now other }
    requires other { (other.splits ≡ 0) × (other.ended ≡ []) }
    ensures of { IsOf cell.now first.new }
    ensures numbers { numbers first.new.number first.new.splits first.new.ended ≡ numbers first.old.number first.old.splits first.old.ended ++ (other.number, 0) ∷ [] }
{
    cell.join(first, other);
}

/// Joins the seat that was split as the k-th of seven, once those before it were joined.
pub fn take_in_turn(
    cell: &TurnCell<Register>,
    first: &mut Seat<Register>,
    other: Seat<Register>,
    k: u32,
)
    requires of { IsOf cell.now first.old × IsOf cell.now other }
    requires other { (other.number ≡ k + 1) × (other.splits ≡ 0) × (other.ended ≡ []) }
    requires before { numbers first.old.number first.old.splits first.old.ended ≡ team k }
    ensures of { IsOf cell.now first.new }
    ensures numbers { numbers first.new.number first.new.splits first.new.ended ≡ team (k + 1) }
{
    take_in(cell, first, other);
}
