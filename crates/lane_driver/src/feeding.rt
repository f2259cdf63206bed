//! The calls of a read, after those of earlier reads.
ghost use Rattle.std.specs.Prelude.{◌≡◌, ◌≤◌, ◌==◌, if◌then◌else◌, IfOk};
ghost use Rattle.pipe_laws.specs.Setup.{pipe_conn};
ghost use Rattle.pipe_laws.specs.Legality.{AreHeardCalls};
ghost use Rattle.lane_driver.specs.Driving.{IsBetween};
ghost use Rattle.pipe_laws.specs.Lacking.{served};
ghost use Rattle.lane_driver.specs.Feeding.{Feeds};

use crate::course::Course;
use crate::groups::{room_left, take_call};
use crate::log::Log;
use adapter_policies::Setup;
use lane_machine::{LaneCall, Lanes};
use orb_base::{NoMemory, Serving, Sink};
use std::alloc::Global;

/// An equal call over the same job and bytes.
fn share_call(call: &LaneCall) -> Result<LaneCall, NoMemory>
    ensures { IfOk result (λ c. c ≡ call.now) }
{
    match call {
        LaneCall::Offer(job) => Ok(LaneCall::Offer(job.share()?)),
        LaneCall::Post(notice) => Ok(LaneCall::Post(*notice)),
        LaneCall::Cancel { conn, id } => Ok(LaneCall::Cancel {
            conn: *conn,
            id: *id,
        }),
        LaneCall::Take { thread } => Ok(LaneCall::Take { thread: *thread }),
        LaneCall::Finish { thread, answer } => Ok(LaneCall::Finish {
            thread: *thread,
            answer: answer.share()?,
        }),
        LaneCall::Collect { conn } => Ok(LaneCall::Collect { conn: *conn }),
        LaneCall::End { conn, how } => Ok(LaneCall::End {
            conn: *conn,
            how: *how,
        }),
        LaneCall::Leave { slot } => Ok(LaneCall::Leave { slot: *slot }),
    }
}

/// The room of the group after a call.
fn room_then(batch: u8, left: u8) -> u8
    requires { 1 ≤ batch }
    ensures is { result ≡ (if left == 0 then batch else left) }
    ensures some { 1 ≤ result }
{
    if left == 0 { batch } else { left }
}

/// Makes the calls of one read, in groups of `batch` of which the calls before them left one open, with so much room.
/// Once the run is closing no further call is made.
pub fn feed<O: Sink, S: Serving>(
    alloc: Global,
    lanes: &mut Lanes,
    log: &mut Log,
    sink: &mut O,
    setup: &Setup,
    servants: &S,
    batch: u8,
    room: &mut u8,
    calls: &[LaneCall],
) -> Result<Course, NoMemory>
    requires between { IsBetween lanes.old }
    requires heard { AreHeardCalls lanes.old.pool pipe_conn calls.now }
    requires batch { 1 ≤ batch }
    requires room { 1 ≤ room.old }
    ensures { Feeds result batch (served setup.now (S.outcome servants.now)) lanes.old lanes.new room.old room.new calls.now
        log.old log.new (O.state sink.old) (O.state sink.new) }
{
    for call in calls {
        if lanes.is_closing() {
            return Ok(Course::Whole);
        }
        let left = room_left(lanes, call, batch, *room);
        let shared = share_call(call)?;
        match take_call(alloc, lanes, log, sink, setup, servants, left, shared)? {
            Course::Whole => {}
            Course::Stopped => return Ok(Course::Stopped),
        }
        *room = room_then(batch, left);
    }
    Ok(Course::Whole)
}
