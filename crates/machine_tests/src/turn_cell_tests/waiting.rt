ghost use Rattle.std.specs.Prelude.{◌≡◌, ◌<◌, ◌+◌, [], ◌∷◌};
ghost use Rattle.turn_cell.specs.Calls.{IsOf};

use std::alloc::Global;
use std::sync::Wait;
use std::thread;
use std::thread::Threads;
use turn_cell::{Hatch, HatchCall, HatchReply, Seat, TurnCell};

/// The numbers that are passed through the hatch.
const NUMBERS: u64 = 2_000;

/// Puts 1, 2, 3, .. and says how many it put.
fn put_all<R: Wait>(rt: &R, cell: &TurnCell<Hatch>, mut seat: Seat<Hatch>) -> u64
    requires { IsOf cell.now seat }
{
    for number in 0..NUMBERS {
        if cell
            .call(rt, &mut seat, HatchCall::Put(number + 1))
            .is_err()
        {
            return number;
        }
    }
    NUMBERS
}

/// Takes numbers, and says how many came in order.
fn take_all<R: Wait>(rt: &R, cell: &TurnCell<Hatch>, mut seat: Seat<Hatch>) -> u64
    requires { IsOf cell.now seat }
{
    for number in 0..NUMBERS {
        match cell.call(rt, &mut seat, HatchCall::Take) {
            Ok(HatchReply::Took(taken)) if taken == number + 1 => {}
            _ => return number,
        }
    }
    NUMBERS
}

/// Two threads that wait for each other at each call.
fn passed<R: Wait + Threads + Sync>(rt: &R, alloc: Global) -> Option<(u64, u64)> {
    let (cell, mut first) = TurnCell::new(alloc, Hatch { held: None }, 4_000).ok()?;
    let second = cell.split(&mut first).ok()?;
    let cell = &cell;
    Some(thread::join(
        rt,
        move ||
            requires { IsOf cell.now first }
        { put_all(rt, cell, first) },
        move ||
            requires { IsOf cell.now second }
        { take_all(rt, cell, second) },
    ))
}

#[test]
fn two_threads_that_wait_for_each_other_pass_each_number_in_order(rt: HostRuntime) {
    assert!(rt; passed(&rt, rt.alloc()) == Some((NUMBERS, NUMBERS)));
}
