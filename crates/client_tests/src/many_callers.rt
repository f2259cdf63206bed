//! Sixteen callers of one link.
ghost use Rattle.std.specs.Prelude.{IfSome, [], ◌≡◌};
ghost use Rattle.shared_link.specs.Roles.{CanRead, CanLose};
ghost use Rattle.client_tests.specs.Seats.{AreIdle, IsBusy, AreBusy};

use crate::deeds::{Ends, begin, caller, open_ends, outcome, place, reply, request};
use shared_link::{MuxSeat, Placed, Shared};
use std::alloc::Global;
use std::sync::Wait;

/// Callers, each beside the id of its call.
type Busy = Vec<(MuxSeat, u32)>;

/// Each caller starts its call.
#[tactic(auto, using(crate::proofs::SeatLemmas::busy_push))]
fn all_begin<R: Wait>(rt: &R, alloc: Global, shared: &Shared, idle: Vec<MuxSeat>) -> Option<Busy>
    requires { AreIdle shared.now.cell idle.items }
    ensures { IfSome result (λ busy. AreBusy shared.now.cell busy.items) }
{
    let mut callers = idle;
    let mut busy: Busy = Vec::with_capacity(alloc, 16).ok()?;
    for _ in 0u8..16 {
        let mut seat = caller(shared, &mut callers)?;
        let id = begin(rt, shared, &mut seat, request(alloc)?)?;
        if busy.push((seat, id)).is_err() {
            return None;
        }
    }
    Some(busy)
}

/// The replies of ids 1 to 16 arrive, the last id first.
fn all_arrive<R: Wait>(rt: &R, alloc: Global, shared: &Shared, reader: MuxSeat) -> Option<()>
    requires reads { CanRead shared.now.cell 0 reader }
    requires loses { CanLose shared.now.cell reader }
{
    let mut reader = reader;
    for nth in 0u32..16 {
        let id = 16 - nth;
        if place(rt, shared, &mut reader, reply(alloc, id)?, nth) != Placed::Matched {
            return None;
        }
    }
    Some(())
}

/// A caller with its id, out of some.
#[tactic(auto, using(crate::proofs::SeatLemmas::busy_rest, crate::proofs::SeatLemmas::busy_last))]
fn one_busy(shared: &Shared, busy: &mut Busy) -> Option<(MuxSeat, u32)>
    requires { AreBusy shared.now.cell busy.old.items }
    ensures rest { AreBusy shared.now.cell busy.new.items }
    ensures one { IfSome result (λ p. IsBusy shared.now.cell p) }
{
    busy.pop()
}

/// How many callers get the reply of their own id.
fn all_wait<R: Wait>(rt: &R, shared: &Shared, busy: Busy) -> Option<u8>
    requires { AreBusy shared.now.cell busy.items }
{
    let mut busy = busy;
    let mut own: u8 = 0;
    for _ in 0u8..16 {
        let (mut seat, id) = one_busy(shared, &mut busy)?;
        if outcome(rt, shared, &mut seat, id) == Ok(id) {
            own = own.saturating_add(1);
        }
    }
    Some(own)
}

/// Sixteen callers start a call each, the replies come in the other order, and each caller waits for its own.
fn sixteen<R: Wait>(rt: &R, alloc: Global) -> Option<u8> {
    let Ends {
        shared,
        callers,
        writer: _,
        reader,
    } = open_ends(alloc, 16)?;
    let busy = all_begin(rt, alloc, &shared, callers)?;
    all_arrive(rt, alloc, &shared, reader)?;
    all_wait(rt, &shared, busy)
}

#[test]
fn each_of_sixteen_callers_gets_its_own_reply(rt: HostRuntime) {
    assert!(rt; sixteen(&rt, rt.alloc()) == Some(16));
}
