//! Calls in groups, and the end of the run.
ghost use Rattle.std.specs.Prelude.{◌≡◌, ◌≤◌, ◌-◌, [], if◌then◌else◌};
ghost use Rattle.lane_machine.specs.declared.call.How.TheVariants.{Shut};
ghost use Rattle.lane_machine.specs.Readiness.{is_ready};
ghost use Rattle.pipe_laws.specs.Setup.{pipe_conn};
ghost use Rattle.pipe_laws.specs.Legality.{IsHeardCall};
ghost use Rattle.lane_driver.specs.Driving.{IsBetween, Drives, StaysWhole};
ghost use Rattle.pipe_laws.specs.Lacking.{served};
ghost use Rattle.lane_driver.specs.Feeding.{ReadyWhole, befores, behinds, taking, ending};

use crate::collects::{PIPE_CONN, collect, settle};
use crate::course::Course;
use crate::log::Log;
use crate::turns::apply_call;
use adapter_policies::Setup;
use lane_machine::{How, LaneCall, Lanes};
use orb_base::{NoMemory, Serving, Sink};
use std::alloc::Global;

/// Before a call that isn't ready the group ends; then the call is ready.
fn make_ready<O: Sink, S: Serving>(
    alloc: Global,
    lanes: &mut Lanes,
    log: &mut Log,
    sink: &mut O,
    setup: &Setup,
    servants: &S,
    call: &LaneCall,
) -> Result<Course, NoMemory>
    requires between { IsBetween lanes.old }
    requires heard { IsHeardCall lanes.old.pool pipe_conn call.now }
    ensures drives { Drives result (befores call.now) (served setup.now (S.outcome servants.now)) lanes.old lanes.new
        log.old log.new (O.state sink.old) (O.state sink.new) }
    ensures ready { ReadyWhole result lanes.old lanes.new call.now }
{
    if lanes.ready(call) {
        return Ok(Course::Whole);
    }
    settle(alloc, lanes, log, sink, setup, servants)
}

/// The group ends after the call that took its last room.
fn end_group<O: Sink, S: Serving>(
    alloc: Global,
    lanes: &mut Lanes,
    log: &mut Log,
    sink: &mut O,
    setup: &Setup,
    servants: &S,
    left: u8,
) -> Result<Course, NoMemory>
    requires { IsBetween lanes.old }
    ensures drives { Drives result (behinds left) (served setup.now (S.outcome servants.now)) lanes.old lanes.new
        log.old log.new (O.state sink.old) (O.state sink.new) }
    ensures stays { StaysWhole result lanes.old lanes.new }
{
    if left != 0 {
        return Ok(Course::Whole);
    }
    settle(alloc, lanes, log, sink, setup, servants)
}

/// One call, after which so many more fit into the group: before one that isn't ready the group ends, and so it does
/// after one with which it is full.
pub fn take_call<O: Sink, S: Serving>(
    alloc: Global,
    lanes: &mut Lanes,
    log: &mut Log,
    sink: &mut O,
    setup: &Setup,
    servants: &S,
    left: u8,
    call: LaneCall,
) -> Result<Course, NoMemory>
    requires between { IsBetween lanes.old }
    requires heard { IsHeardCall lanes.old.pool pipe_conn call }
    ensures drives { Drives result (taking left call) (served setup.now (S.outcome servants.now)) lanes.old lanes.new
        log.old log.new (O.state sink.old) (O.state sink.new) }
    ensures stays { StaysWhole result lanes.old lanes.new }
{
    match make_ready(alloc, lanes, log, sink, setup, servants, &call)? {
        Course::Whole => {}
        Course::Stopped => return Ok(Course::Stopped),
    }
    apply_call(lanes, log, call)?;
    end_group(alloc, lanes, log, sink, setup, servants, left)
}

/// How many calls more fit into the group after this call.
pub fn room_left(lanes: &Lanes, call: &LaneCall, batch: u8, room: u8) -> u8
    requires batch { 1 ≤ batch }
    requires room { 1 ≤ room }
    ensures { result ≡ (if is_ready lanes.now call.now then room else batch) - 1 }
{
    if lanes.ready(call) {
        room - 1
    } else {
        batch - 1
    }
}

/// How the connection ends.
fn last_how(lanes: &Lanes, how: How) -> How
    ensures { result ≡ (if lanes.now.closing then Shut else how) }
{
    if lanes.is_closing() { How::Shut } else { how }
}

/// The end of the connection, by closing where a limit of the run was met: its group is settled, and the connection
/// collects once more.
pub fn end_run<O: Sink, S: Serving>(
    alloc: Global,
    lanes: &mut Lanes,
    log: &mut Log,
    sink: &mut O,
    setup: &Setup,
    servants: &S,
    how: How,
) -> Result<Course, NoMemory>
    requires between { IsBetween lanes.old }
    requires going { lanes.old.ended ≡ [] }
    ensures { Drives result (ending how) (served setup.now (S.outcome servants.now)) lanes.old lanes.new
        log.old log.new (O.state sink.old) (O.state sink.new) }
{
    let last = last_how(lanes, how);
    let conn = PIPE_CONN;
    apply_call(lanes, log, LaneCall::End { conn, how: last })?;
    match settle(alloc, lanes, log, sink, setup, servants)? {
        Course::Whole => collect(lanes, log, sink),
        Course::Stopped => Ok(Course::Stopped),
    }
}
