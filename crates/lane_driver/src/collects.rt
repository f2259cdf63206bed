//! Collects, and the ends of groups.
ghost use Rattle.std.specs.Prelude.{◌≡◌, true};
ghost use Rattle.lane_machine.specs.declared.call.LaneCall.TheVariants.{Collect};
ghost use Rattle.lane_machine.specs.Readiness.{is_ready};
ghost use Rattle.pipe_laws.specs.Setup.{pipe_conn};
ghost use Rattle.pipe_laws.specs.Said.{handed_bytes, HandsShort};
ghost use Rattle.pipe_laws.specs.Piped.{settled};
ghost use Rattle.lane_driver.specs.Driving.{Servant, IsBetween, Drives};
ghost use Rattle.pipe_laws.specs.Lacking.{served};
ghost use Rattle.lane_driver.specs.Collecting.{emptying, Says, Collects, EmptiesWhole, SettlesWhole};

use crate::course::Course;
use crate::log::Log;
use crate::said::write_said;
use crate::turns::{apply_call, run_to_rest};
use adapter_policies::Setup;
use lane_machine::{LaneCall, LaneReply, Lanes};
use orb_base::{ConnId, NoMemory, Serving, Sink};
use std::alloc::Global;
use text_streams::WriteAll;

/// The connection of the pipe.
pub const PIPE_CONN: ConnId = ConnId { slot: 0, nth: 0 };

/// Writes what an answer of Collect says.
fn say<O: Sink>(sink: &mut O, reply: &LaneReply) -> Course
    requires { HandsShort reply.now }
    ensures { Says result (handed_bytes reply.now) (O.state sink.old) (O.state sink.new) }
{
    match write_said(sink, reply) {
        WriteAll::Whole => Course::Whole,
        WriteAll::Failed => Course::Stopped,
    }
}

/// One Collect of the pipe's connection, with the write of what it hands out.
pub fn collect<O: Sink>(lanes: &mut Lanes, log: &mut Log, sink: &mut O) -> Result<Course, NoMemory>
    requires between { IsBetween lanes.old }
    requires ready { is_ready lanes.old (Collect pipe_conn) ≡ true }
    ensures { Collects result lanes.old lanes.new log.old log.new (O.state sink.old) (O.state sink.new) }
{
    let reply = apply_call(lanes, log, LaneCall::Collect { conn: PIPE_CONN })?;
    Ok(say(sink, &reply))
}

/// Collects and writes all items of the pipe's connection.
pub fn collect_all<O: Sink>(
    lanes: &mut Lanes,
    log: &mut Log,
    sink: &mut O,
) -> Result<Course, NoMemory>
    requires { IsBetween lanes.old }
    ensures drives { (outcome : Servant) → Drives result emptying outcome lanes.old lanes.new log.old log.new
        (O.state sink.old) (O.state sink.new) }
    ensures stays { EmptiesWhole result lanes.old lanes.new }
{
    while lanes.has_item(PIPE_CONN) {
        match collect(lanes, log, sink)? {
            Course::Whole => {}
            Course::Stopped => return Ok(Course::Stopped),
        }
    }
    Ok(Course::Whole)
}

/// The end of a group: the threads are run to rest, and all items are collected.
pub fn settle<O: Sink, S: Serving>(
    alloc: Global,
    lanes: &mut Lanes,
    log: &mut Log,
    sink: &mut O,
    setup: &Setup,
    servants: &S,
) -> Result<Course, NoMemory>
    requires { IsBetween lanes.old }
    ensures drives { Drives result settled (served setup.now (S.outcome servants.now)) lanes.old lanes.new log.old log.new
        (O.state sink.old) (O.state sink.new) }
    ensures stays { SettlesWhole result lanes.old lanes.new }
{
    run_to_rest(alloc, lanes, log, setup, servants)?;
    collect_all(lanes, log, sink)
}
