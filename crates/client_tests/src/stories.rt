//! Stories over a link of one or two callers.
ghost use Rattle.std.specs.Prelude.{◌≡◌, []};
ghost use Rattle.shared_link.specs.Roles.{CanSend, CanRead, CanLose};
ghost use Rattle.client_tests.specs.Seats.{IsIdle};

use crate::deeds::{
    Ends, Sent, begin, caller, lose, open_ends, outcome, place, reply, request, stop, stop_late,
    take_sent, try_start,
};
use client_mux::Why;
use shared_link::{MuxSeat, Placed, Shared, Started, Stopped};
use std::alloc::Global;
use std::sync::Wait;

/// The ids of the calls, what came of the cancel, and what came of the two replies.
type Cancelled = ((u32, u32), Stopped, (Placed, Placed), Result<u32, Why>);

/// The first of two callers starts and cancels its call, the second starts its own; the replies of both arrive.
fn cancel_one<R: Wait>(
    rt: &R,
    alloc: Global,
    shared: &Shared,
    first: &mut MuxSeat,
    second: &mut MuxSeat,
    reader: &mut MuxSeat,
) -> Option<Cancelled>
    requires first { IsIdle shared.now.cell first.old }
    requires second { IsIdle shared.now.cell second.old }
    requires reads { CanRead shared.now.cell 0 reader.old }
    requires loses { CanLose shared.now.cell reader.old }
{
    let one = begin(rt, shared, first, request(alloc)?)?;
    let stopped = stop(rt, shared, first, one);
    let two = begin(rt, shared, second, request(alloc)?)?;
    let stray = place(rt, shared, reader, reply(alloc, 1)?, 0);
    let matched = place(rt, shared, reader, reply(alloc, 2)?, 1);
    let own = outcome(rt, shared, second, two);
    Some(((one, two), stopped, (stray, matched), own))
}

/// The next three things that the writer is to send.
fn three<R: Wait>(rt: &R, shared: &Shared, writer: &mut MuxSeat) -> Option<(Sent, Sent, Sent)>
    requires sends { CanSend shared.now.cell writer.old }
    requires loses { CanLose shared.now.cell writer.old }
{
    let first = take_sent(rt, shared, writer)?;
    let second = take_sent(rt, shared, writer)?;
    let third = take_sent(rt, shared, writer)?;
    Some((first, second, third))
}

/// The same over a new link, with what the writer is to send.
fn one_is_cancelled<R: Wait>(rt: &R, alloc: Global) -> Option<(Cancelled, (Sent, Sent, Sent))> {
    let Ends {
        shared,
        mut callers,
        mut writer,
        mut reader,
    } = open_ends(alloc, 2)?;
    let mut second = caller(&shared, &mut callers)?;
    let mut first = caller(&shared, &mut callers)?;
    let told = cancel_one(rt, alloc, &shared, &mut first, &mut second, &mut reader)?;
    Some((told, three(rt, &shared, &mut writer)?))
}

#[test]
fn a_cancelled_call_gets_no_reply_and_the_other_gets_its_own(rt: HostRuntime) {
    let told = (
        (1, 2),
        Stopped::Cancelled,
        (Placed::Stray, Placed::Matched),
        Ok(2),
    );
    let sends = (Sent::Request(1), Sent::Cancel(1), Sent::Request(2));
    assert!(rt; one_is_cancelled(&rt, rt.alloc()) == Some((told, sends)));
}

/// The reader and then the writer say that the link is lost: who waits and who starts later are answered the first cause.
fn lose_twice<R: Wait>(
    rt: &R,
    alloc: Global,
    shared: &Shared,
    first: &mut MuxSeat,
    second: &mut MuxSeat,
    writer: &mut MuxSeat,
    reader: &mut MuxSeat,
) -> Option<(Result<u32, Why>, Started)>
    requires first { IsIdle shared.now.cell first.old }
    requires second { IsIdle shared.now.cell second.old }
    requires writer { CanLose shared.now.cell writer.old }
    requires reader { CanLose shared.now.cell reader.old }
{
    let one = begin(rt, shared, first, request(alloc)?)?;
    lose(rt, shared, reader, Why::Closed);
    lose(rt, shared, writer, Why::WriteFault);
    let late = try_start(rt, shared, second, request(alloc)?);
    Some((outcome(rt, shared, first, one), late))
}

/// The same over a new link.
fn lost_twice<R: Wait>(rt: &R, alloc: Global) -> Option<(Result<u32, Why>, Started)> {
    let Ends {
        shared,
        mut callers,
        mut writer,
        mut reader,
    } = open_ends(alloc, 2)?;
    let mut second = caller(&shared, &mut callers)?;
    let mut first = caller(&shared, &mut callers)?;
    lose_twice(
        rt,
        alloc,
        &shared,
        &mut first,
        &mut second,
        &mut writer,
        &mut reader,
    )
}

#[test]
fn a_lost_link_is_gone_for_the_first_cause(rt: HostRuntime) {
    let told = (Err(Why::Closed), Started::Gone(Why::Closed));
    assert!(rt; lost_twice(&rt, rt.alloc()) == Some(told));
}

/// What came of replies before the start, of those after it, and of the call.
type Strays = ((Placed, Placed, Placed), (Placed, Placed), Result<u32, Why>);

/// Replies to no call: to id 0, to an id that nobody started, to one before its start, and a second one. The link is lost and
/// the call cancelled too late, after its reply came.
fn stray<R: Wait>(
    rt: &R,
    alloc: Global,
    shared: &Shared,
    first: &mut MuxSeat,
    reader: &mut MuxSeat,
) -> Option<Strays>
    requires first { IsIdle shared.now.cell first.old }
    requires reads { CanRead shared.now.cell 0 reader.old }
    requires loses { CanLose shared.now.cell reader.old }
{
    let zero = place(rt, shared, reader, reply(alloc, 0)?, 0);
    let seven = place(rt, shared, reader, reply(alloc, 7)?, 1);
    let early = place(rt, shared, reader, reply(alloc, 1)?, 2);
    let one = begin(rt, shared, first, request(alloc)?)?;
    let own = place(rt, shared, reader, reply(alloc, 1)?, 3);
    let again = place(rt, shared, reader, reply(alloc, 1)?, 4);
    lose(rt, shared, reader, Why::ReadFault);
    stop_late(rt, shared, first, one)?;
    let got = outcome(rt, shared, first, one);
    Some(((zero, seven, early), (own, again), got))
}

/// The same over a new link.
fn strays<R: Wait>(rt: &R, alloc: Global) -> Option<Strays> {
    let Ends {
        shared,
        mut callers,
        writer: _,
        mut reader,
    } = open_ends(alloc, 1)?;
    let mut first = caller(&shared, &mut callers)?;
    stray(rt, alloc, &shared, &mut first, &mut reader)
}

#[test]
fn a_reply_that_no_call_waits_for_is_stray_and_one_before_the_loss_counts(rt: HostRuntime) {
    let before = (Placed::Stray, Placed::Stray, Placed::Stray);
    let after = (Placed::Matched, Placed::Stray);
    assert!(rt; strays(&rt, rt.alloc()) == Some((before, after, Ok(1))));
}
