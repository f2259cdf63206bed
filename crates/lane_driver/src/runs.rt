//! The whole run of a connection's calls.
ghost use Rattle.std.specs.Prelude.{◌≡◌, ◌≤◌, []};
ghost use Rattle.pipe_laws.specs.Setup.{pipe_conn};
ghost use Rattle.pipe_laws.specs.Legality.{AreHeardCalls};
ghost use Rattle.lane_driver.specs.Driving.{IsBetween, Drives};
ghost use Rattle.pipe_laws.specs.Lacking.{served};
ghost use Rattle.lane_driver.specs.Running.{running};

use crate::collects::settle;
use crate::course::Course;
use crate::feeding::feed;
use crate::groups::end_run;
use crate::log::Log;
use adapter_policies::Setup;
use lane_machine::{How, LaneCall, Lanes};
use orb_base::{NoMemory, Serving, Sink};
use std::alloc::Global;

/// The whole run of a connection's calls: they are made in groups of `batch`, the last of which ends after them, and
/// then the connection ends.
pub fn run_calls<O: Sink, S: Serving>(
    alloc: Global,
    lanes: &mut Lanes,
    log: &mut Log,
    sink: &mut O,
    setup: &Setup,
    servants: &S,
    batch: u8,
    calls: &[LaneCall],
    how: How,
) -> Result<Course, NoMemory>
    requires between { IsBetween lanes.old }
    requires going { lanes.old.ended ≡ [] }
    requires heard { AreHeardCalls lanes.old.pool pipe_conn calls.now }
    requires batch { 1 ≤ batch }
    ensures { Drives result (running batch calls.now how) (served setup.now (S.outcome servants.now)) lanes.old lanes.new
        log.old log.new (O.state sink.old) (O.state sink.new) }
{
    let mut room = batch;
    match feed(
        alloc, lanes, log, sink, setup, servants, batch, &mut room, calls,
    )? {
        Course::Whole => {}
        Course::Stopped => return Ok(Course::Stopped),
    }
    match settle(alloc, lanes, log, sink, setup, servants)? {
        Course::Whole => end_run(alloc, lanes, log, sink, setup, servants, how),
        Course::Stopped => Ok(Course::Stopped),
    }
}
