ghost use Rattle.std.specs.Prelude.{◌≡◌, [], ◌∷◌};
ghost use Rattle.turn_cell.specs.Calls.{IsOf};
ghost use Rattle.turn_cell.specs.Team.{IsSame};
ghost use Rattle.turn_cell.specs.Whole.{numbers};

use super::seats::{make, next, take_in};
use std::alloc::Global;
use std::sync::Wait;
use std::thread;
use std::thread::Threads;
use turn_cell::{Register, RegisterCall, RegisterReply, Seat, TurnCell, Worn};

/// A call on a thread of its own.
fn make_there<R: Wait + Threads + Sync>(
    rt: &R,
    cell: &TurnCell<Register>,
    seat: Seat<Register>,
    call: RegisterCall,
) -> (Seat<Register>, Option<RegisterReply>)
    requires { IsOf cell.now seat }
    ensures of { IsOf cell.now result.0 }
    ensures same { IsSame seat result.0 }
{
    let (answered, ()) = thread::join(
        rt,
        move || -> (Seat<Register>, Option<RegisterReply>)
            requires { IsOf cell.now seat }
            ensures { IsOf cell.entry.now result.0 × IsSame seat result.0 }
        {
            let mut seat = seat;
            let reply = make(rt, cell, &mut seat, call);
            (seat, reply)
        },
        || (),
    );
    answered
}

/// What a hearer gets on its own thread, and whether a third call is worn and comes back.
fn told<R: Wait + Threads + Sync>(rt: &R, alloc: Global) -> Option<(RegisterReply, bool)> {
    let (cell, mut teller) = TurnCell::new(alloc, Register { value: 0 }, 2).ok()?;
    let mut hearer = next(&cell, &mut teller);
    make(rt, &cell, &mut teller, RegisterCall::Put(5))?;
    cell.meet(&mut teller, &mut hearer);
    let (mut hearer, got) = make_there(rt, &cell, hearer, RegisterCall::Get);
    let third = cell.call(rt, &mut hearer, RegisterCall::Put(6));
    let worn = match third {
        Ok(_) => false,
        Err(Worn(call)) => call == RegisterCall::Put(6),
    };
    Some((got?, worn))
}

#[test]
fn a_hearer_gets_what_the_teller_put_and_a_third_call_is_worn(rt: HostRuntime) {
    assert!(rt; told(&rt, rt.alloc()) == Some((RegisterReply::Was(5), true)));
}

/// The callers of the history, and the number that the object ended with.
fn closed(cell: TurnCell<Register>, first: Seat<Register>) -> Option<([u32; 3], u64)>
    requires of { IsOf cell first }
    requires numbers { numbers first.number first.splits first.ended ≡ (0, 1) ∷ (1, 0) ∷ [] }
{
    let (register, list) = cell.close(first);
    match list.as_slice() {
        [a, b, c] => Some(([a.caller, b.caller, c.caller], register.value)),
        _ => None,
    }
}

/// What the first seat gets after a join, and how the cell ended.
fn joined<R: Wait + Threads + Sync>(
    rt: &R,
    alloc: Global,
) -> Option<(RegisterReply, ([u32; 3], u64))> {
    let (cell, mut first) = TurnCell::new(alloc, Register { value: 0 }, 4).ok()?;
    make(rt, &cell, &mut first, RegisterCall::Put(1))?;
    let other = next(&cell, &mut first);
    let (other, _) = make_there(rt, &cell, other, RegisterCall::Put(2));
    take_in(&cell, &mut first, other);
    let got = make(rt, &cell, &mut first, RegisterCall::Get)?;
    Some((got, closed(cell, first)?))
}

#[test]
fn a_put_of_a_split_seat_is_seen_behind_the_join(rt: HostRuntime) {
    let expected = (RegisterReply::Was(2), ([0, 1, 0], 2));
    assert!(rt; joined(&rt, rt.alloc()) == Some(expected));
}
