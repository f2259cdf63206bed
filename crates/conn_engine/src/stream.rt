//! The run of a stream.
ghost use Rattle.std.specs.Prelude.{◌≡◌, ◌≤◌, []};
ghost use Rattle.pipe_laws.specs.Lacking.{served};
ghost use Rattle.lane_driver.specs.Driving.{IsBetween, Drives};
ghost use Rattle.conn_engine.specs.Ends.{finishing};
ghost use Rattle.conn_engine.specs.Streams as Spec;

use crate::feeding::feed_stream;
use crate::read_end::how_of;
use crate::reading::Reading;
use crate::stream_end::StreamEnd;
use adapter_policies::Setup;
use lane_driver::{Course, Log, end_run, open, settle};
use lane_machine::{How, Lanes};
use orb_base::{NoMemory, Serving, Sink, Source};
use std::alloc::Global;

/// Ends the last group, and the connection.
fn finish<O: Sink, S: Serving>(
    alloc: Global,
    lanes: &mut Lanes,
    log: &mut Log,
    sink: &mut O,
    setup: &Setup,
    servants: &S,
    how: How,
) -> Result<Course, NoMemory>
    requires between { IsBetween lanes.old }
    requires going { lanes.old.ended ≡ [] }
    ensures { Drives result (finishing how) (served setup.now (S.outcome servants.now)) lanes.old lanes.new
        log.old log.new (O.state sink.old) (O.state sink.new) }
{
    match settle(alloc, lanes, log, sink, setup, servants)? {
        Course::Whole => end_run(alloc, lanes, log, sink, setup, servants, how),
        Course::Stopped => Ok(Course::Stopped),
    }
}

/// How the run came out whose last group and connection were ended.
fn end_of(course: Course, end: StreamEnd) -> StreamEnd
    ensures { result ≡ Spec.end_of course end }
{
    match course {
        Course::Whole => end,
        Course::Stopped => StreamEnd::WriteFault,
    }
}

/// Runs the stream of the pipe's connection over a setup: reads it piece by piece, makes what its bytes mean in groups of `batch` calls,
/// from the opening of the lane machine to the end of the connection, and writes everything that is owed. What a read completes is made
/// before the next read, and at the end of the input, at a message that ends the reading, at a broken rule, at a limit of the run, at
/// `MAX_TAKEN` bytes and at a failed read or write nothing more is read. The history is noted in `log`, if that keeps one. Memory beside
/// that of the machine and the framer is that of one read and of its calls; the work is that of hearing, and for each call that of one
/// step of the machine. It returns where each read and write returns.
pub fn run_stream<I: Source, O: Sink, S: Serving>(
    alloc: Global,
    setup: &Setup,
    servants: &S,
    batch: u8,
    log: &mut Log,
    source: &mut I,
    sink: &mut O,
) -> Result<StreamEnd, NoMemory>
    requires batch { 1 ≤ batch }
    ensures { Spec.RunsStream result setup.now (S.outcome servants.now) batch (I.state source.old) (I.state source.new)
        log.old log.new (O.state sink.old) (O.state sink.new) }
{
    let mut lanes = open(alloc, setup)?;
    let mut room = batch;
    let reading = feed_stream(
        alloc, &mut lanes, log, source, sink, setup, servants, batch, &mut room,
    )?;
    match reading {
        Reading::Over(end) => {
            let how = how_of(end);
            let course = finish(alloc, &mut lanes, log, sink, setup, servants, how)?;
            Ok(end_of(course, StreamEnd::Ended(end)))
        }
        Reading::Closing => {
            let course = finish(alloc, &mut lanes, log, sink, setup, servants, How::Shut)?;
            Ok(end_of(course, StreamEnd::Closed))
        }
        Reading::Stopped => Ok(StreamEnd::WriteFault),
    }
}
