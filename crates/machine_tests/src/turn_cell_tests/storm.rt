ghost use Rattle.std.specs.Prelude.{◌≡◌, [], ◌∷◌};
ghost use Rattle.turn_cell.specs.Calls.{IsOf};
ghost use Rattle.turn_cell.specs.Team.{IsSame, team};
ghost use Rattle.turn_cell.specs.Whole.{numbers};

use super::seats::{make, next, take_in_turn};
use std::alloc::Global;
use std::sync::Wait;
use std::thread;
use std::thread::Threads;
use turn_cell::{Register, RegisterCall, RegisterReply, Seat, TurnCell};

/// The calls of each thread.
const CALLS: u32 = 1_000;

/// A seat's i-th call, which tells whose it is.
fn call_of(number: u32, i: u32) -> RegisterCall {
    if i % 2 == 0 {
        RegisterCall::Put(number as u64 * 10_000 + i as u64)
    } else {
        RegisterCall::Get
    }
}

/// Makes a seat's calls one after another.
fn work<R: Wait>(
    rt: &R,
    cell: &TurnCell<Register>,
    seat: Seat<Register>,
    number: u32,
) -> Seat<Register>
    requires { IsOf cell.now seat }
    ensures of { IsOf cell.now result }
    ensures same { IsSame seat result }
{
    let mut mine = seat;
    for i in 0..CALLS {
        let _ = make(rt, cell, &mut mine, call_of(number, i));
    }
    mine
}

/// Two seats side by side, of which the first has this number.
fn two<R: Wait + Threads + Sync>(
    rt: &R,
    cell: &TurnCell<Register>,
    a: Seat<Register>,
    b: Seat<Register>,
    number: u16,
) -> (Seat<Register>, Seat<Register>)
    requires { IsOf cell.now a × IsOf cell.now b }
    ensures a { IsOf cell.now result.0 × IsSame a result.0 }
    ensures b { IsOf cell.now result.1 × IsSame b result.1 }
{
    thread::join(
        rt,
        move || -> Seat<Register>
            requires { IsOf cell.now a }
            ensures { IsOf cell.entry.now result × IsSame a result }
        { work(rt, cell, a, number as u32) },
        move || -> Seat<Register>
            requires { IsOf cell.now b }
            ensures { IsOf cell.entry.now result × IsSame b result }
        { work(rt, cell, b, number as u32 + 1) },
    )
}

type Two = (Seat<Register>, Seat<Register>);

/// Four seats side by side, of which the first has this number.
fn four<R: Wait + Threads + Sync>(
    rt: &R,
    cell: &TurnCell<Register>,
    a: Two,
    b: Two,
    number: u8,
) -> (Two, Two)
    requires a { IsOf cell.now a.0 × IsOf cell.now a.1 }
    requires b { IsOf cell.now b.0 × IsOf cell.now b.1 }
    ensures a0 { IsOf cell.now result.0.0 × IsSame a.0 result.0.0 }
    ensures a1 { IsOf cell.now result.0.1 × IsSame a.1 result.0.1 }
    ensures b0 { IsOf cell.now result.1.0 × IsSame b.0 result.1.0 }
    ensures b1 { IsOf cell.now result.1.1 × IsSame b.1 result.1.1 }
{
    thread::join(
        rt,
        move || -> Two
            requires { IsOf cell.now a.0 × IsOf cell.now a.1 }
            ensures { IsOf cell.entry.now result.0 × IsSame a.0 result.0 × IsOf cell.entry.now result.1 × IsSame a.1 result.1 }
        { two(rt, cell, a.0, a.1, number as u16) },
        move || -> Two
            requires { IsOf cell.now b.0 × IsOf cell.now b.1 }
            ensures { IsOf cell.entry.now result.0 × IsSame b.0 result.0 × IsOf cell.entry.now result.1 × IsSame b.1 result.1 }
        { two(rt, cell, b.0, b.1, number as u16 + 2) },
    )
}

/// Whether each Get answers the last Put, and each seat's calls are there in its order.
fn is_in_order(cell: TurnCell<Register>, first: Seat<Register>) -> bool
    requires of { IsOf cell first }
    requires numbers { numbers first.number first.splits first.ended ≡ team 7 }
{
    let (register, list) = cell.close(first);
    let mut value = 0;
    let mut made = [0u32; 8];
    for entry in list.as_slice() {
        let Some(count) = made.get_mut(entry.caller as usize) else {
            return false;
        };
        if entry.call != call_of(entry.caller, *count) {
            return false;
        }
        *count = count.wrapping_add(1);
        let reply = match entry.call {
            RegisterCall::Put(number) => {
                value = number;
                RegisterReply::Done
            }
            RegisterCall::Get => RegisterReply::Was(value),
        };
        if entry.reply != reply {
            return false;
        }
    }
    made == [CALLS; 8] && register.value == value
}

/// Eight threads that call a register of their own accord, then one history.
fn storm<R: Wait + Threads + Sync>(rt: &R, alloc: Global) -> Option<bool> {
    let (cell, mut first) = TurnCell::new(alloc, Register { value: 0 }, 8 * CALLS).ok()?;
    let low = (
        next(&cell, &mut first),
        next(&cell, &mut first),
        next(&cell, &mut first),
    );
    let high = (
        (next(&cell, &mut first), next(&cell, &mut first)),
        (next(&cell, &mut first), next(&cell, &mut first)),
    );
    let (mut first, low, high) = all(rt, &cell, first, low, high);
    take_in_turn(&cell, &mut first, low.0, 0);
    take_in_turn(&cell, &mut first, low.1, 1);
    take_in_turn(&cell, &mut first, low.2, 2);
    take_in_turn(&cell, &mut first, high.0.0, 3);
    take_in_turn(&cell, &mut first, high.0.1, 4);
    take_in_turn(&cell, &mut first, high.1.0, 5);
    take_in_turn(&cell, &mut first, high.1.1, 6);
    Some(is_in_order(cell, first))
}

type Three = (Seat<Register>, Seat<Register>, Seat<Register>);

/// All eight side by side.
fn all<R: Wait + Threads + Sync>(
    rt: &R,
    cell: &TurnCell<Register>,
    first: Seat<Register>,
    low: Three,
    high: (Two, Two),
) -> (Seat<Register>, Three, (Two, Two))
    requires first { IsOf cell.now first }
    requires low { IsOf cell.now low.0 × IsOf cell.now low.1 × IsOf cell.now low.2 }
    requires high { IsOf cell.now high.0.0 × IsOf cell.now high.0.1 × IsOf cell.now high.1.0 × IsOf cell.now high.1.1 }
    ensures first { IsOf cell.now result.0 × IsSame first result.0 }
    ensures low0 { IsOf cell.now result.1.0 × IsSame low.0 result.1.0 }
    ensures low1 { IsOf cell.now result.1.1 × IsSame low.1 result.1.1 }
    ensures low2 { IsOf cell.now result.1.2 × IsSame low.2 result.1.2 }
    ensures high0 { IsOf cell.now result.2.0.0 × IsSame high.0.0 result.2.0.0 }
    ensures high1 { IsOf cell.now result.2.0.1 × IsSame high.0.1 result.2.0.1 }
    ensures high2 { IsOf cell.now result.2.1.0 × IsSame high.1.0 result.2.1.0 }
    ensures high3 { IsOf cell.now result.2.1.1 × IsSame high.1.1 result.2.1.1 }
{
    let (((first, a), (b, c)), high) = thread::join(
        rt,
        move || -> (Two, Two)
            requires { IsOf cell.now first × IsOf cell.now low.0 × IsOf cell.now low.1 × IsOf cell.now low.2 }
            ensures { IsOf cell.entry.now result.0.0 × IsSame first result.0.0 × IsOf cell.entry.now result.0.1 × IsSame low.0 result.0.1 × IsOf cell.entry.now result.1.0 × IsSame low.1 result.1.0 × IsOf cell.entry.now result.1.1 × IsSame low.2 result.1.1 }
        {
            let (a, b, c) = low;
            four(rt, cell, (first, a), (b, c), 0)
        },
        move || -> (Two, Two)
            requires { IsOf cell.now high.0.0 × IsOf cell.now high.0.1 × IsOf cell.now high.1.0 × IsOf cell.now high.1.1 }
            ensures { IsOf cell.entry.now result.0.0 × IsSame high.0.0 result.0.0 × IsOf cell.entry.now result.0.1 × IsSame high.0.1 result.0.1 × IsOf cell.entry.now result.1.0 × IsSame high.1.0 result.1.0 × IsOf cell.entry.now result.1.1 × IsSame high.1.1 result.1.1 }
        {
            let (a, b) = high;
            four(rt, cell, a, b, 4)
        },
    );
    (first, (a, b, c), high)
}

#[test]
fn eight_threads_of_a_thousand_calls_make_one_legal_history(rt: HostRuntime) {
    assert!(rt; storm(&rt, rt.alloc()) == Some(true));
}
