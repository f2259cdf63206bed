//! A caller that makes its calls one after another.
ghost use Rattle.std.specs.Prelude.{◌≡◌, ◌+◌, ◌≤◌, IfSome};
ghost use Rattle.client_mux.specs.Callers.{starts};
ghost use Rattle.shared_link.specs.Roles.{CanSend, CanRead, CanLose};
ghost use Rattle.link_callers.specs.Going.{CanGoOn};
ghost use Rattle.client_tests.specs.Seats.{AreIdle};

use crate::deeds::{Ends, Sent, caller, lose, open_ends, place, reply, request, take_sent};
use client_mux::Why;
use link_callers::LinkCaller;
use mux_sides::CallEnd;
use shared_link::{MuxSeat, Placed, Shared};
use std::alloc::Global;
use std::sync::Wait;
use std::thread;
use std::thread::Threads;

/// What came of a call: the id of its reply, or why there is none.
#[derive(Clone, Copy, PartialEq, Eq)]
enum Came {
    Reply(u32),
    Gone(Why),
    NoneDue,
}

/// What came of a call.
fn told(end: &CallEnd) -> Came {
    match end {
        CallEnd::Reply(reply) => Came::Reply(reply.get().reply.id),
        CallEnd::Gone(why) => Came::Gone(*why),
        CallEnd::NoneDue => Came::NoneDue,
    }
}

/// A caller that called nothing, out of one.
#[tactic(auto, using(link_callers::proofs::Going::goes_first))]
fn first(shared: &Shared, callers: &mut Vec<MuxSeat>) -> Option<LinkCaller>
    requires { AreIdle shared.now.cell callers.old.items }
    ensures goes { IfSome result (λ c. CanGoOn shared.now.cell c) }
    ensures starts { IfSome result (λ c. starts c.mine ≡ 0) }
{
    let seat = caller(shared, callers)?;
    Some(LinkCaller::new(seat))
}

/// Two calls: what came of them, and how many were started.
fn twice<R: Wait>(
    rt: &R,
    alloc: Global,
    shared: &Shared,
    caller: &mut LinkCaller,
    due: bool,
) -> Option<(Came, Came, u32)>
    requires goes { CanGoOn shared.now.cell caller.old }
    requires few { starts caller.old.mine ≤ 2 }
    ensures goes { CanGoOn shared.now.cell caller.new }
    ensures few { starts caller.new.mine ≤ starts caller.old.mine + 2 }
{
    let one = told(&caller.call(rt, shared, request(alloc)?, due));
    let other = told(&caller.call(rt, shared, request(alloc)?, due));
    Some((one, other, caller.started()))
}

/// Two calls without replies, two on a link that is lost, and the leaving: what came of them, and how many were started.
fn unanswered<R: Wait>(rt: &R, alloc: Global) -> Option<((Came, Came, u32), (Came, Came, u32))> {
    let Ends {
        shared,
        mut callers,
        writer: _,
        mut reader,
    } = open_ends(alloc, 1)?;
    let mut caller = first(&shared, &mut callers)?;
    let open = twice(rt, alloc, &shared, &mut caller, false)?;
    lose(rt, &shared, &mut reader, Why::Closed);
    let lost = twice(rt, alloc, &shared, &mut caller, true)?;
    caller.leave(rt, &shared);
    Some((open, lost))
}

#[test]
fn a_caller_makes_one_call_after_another(rt: HostRuntime) {
    let open = (Came::NoneDue, Came::NoneDue, 2);
    let lost = (Came::Gone(Why::Closed), Came::Gone(Why::Closed), 4);
    assert!(rt; unanswered(&rt, rt.alloc()) == Some((open, lost)));
}

/// Answers two requests, each once it is to be sent: what was to be sent, and where the replies were placed.
fn answer<R: Wait>(
    rt: &R,
    alloc: Global,
    shared: &Shared,
    writer: &mut MuxSeat,
    reader: &mut MuxSeat,
) -> Option<((Sent, Placed), (Sent, Placed))>
    requires sends { CanSend shared.now.cell writer.old × CanLose shared.now.cell writer.old }
    requires reads { CanRead shared.now.cell 0 reader.old × CanLose shared.now.cell reader.old }
{
    let one = take_sent(rt, shared, writer)?;
    let at_one = place(rt, shared, reader, reply(alloc, 1)?, 0);
    let two = take_sent(rt, shared, writer)?;
    let at_two = place(rt, shared, reader, reply(alloc, 2)?, 1);
    Some(((one, at_one), (two, at_two)))
}

/// What came of two calls, and how many were started; what was sent for each, and whether its reply was awaited.
type Answered = ((Came, Came, u32), ((Sent, Placed), (Sent, Placed)));

/// Two calls whose replies come, beside those who answer them.
fn answered<R: Wait + Threads + Sync>(rt: &R, alloc: Global) -> Option<Answered> {
    let Ends {
        shared,
        mut callers,
        mut writer,
        mut reader,
    } = open_ends(alloc, 1)?;
    let mut caller = first(&shared, &mut callers)?;
    let shared = &shared;
    let (called, sent) = thread::join(
        rt,
        move || -> Option<(Came, Came, u32)>
            requires { CanGoOn shared.now.cell caller × (starts caller.mine ≡ 0) }
        { twice(rt, alloc, shared, &mut caller, true) },
        move || -> Option<((Sent, Placed), (Sent, Placed))>
            requires { CanSend shared.now.cell writer × CanLose shared.now.cell writer × CanRead shared.now.cell 0 reader
                × CanLose shared.now.cell reader }
        { answer(rt, alloc, shared, &mut writer, &mut reader) },
    );
    Some((called?, sent?))
}

#[test]
fn each_call_gets_the_reply_of_its_own_id(rt: HostRuntime) {
    let called = (Came::Reply(1), Came::Reply(2), 2);
    let sent = (
        (Sent::Request(1), Placed::Matched),
        (Sent::Request(2), Placed::Matched),
    );
    assert!(rt; answered(&rt, rt.alloc()) == Some((called, sent)));
}
