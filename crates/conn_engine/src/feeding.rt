//! The loop over reads.
ghost use Rattle.std.specs.Prelude.{◌≡◌, ◌≤◌, ◌<◌, ◌+◌, ◌^◌, false, length};
ghost use Rattle.orb_base.specs.Pool.{IsWellFormed};
ghost use Rattle.pipe_laws.specs.Lacking.{served};
ghost use Rattle.lane_driver.specs.Driving.{IsBetween};
ghost use Rattle.conn_engine.specs.Reads as Spec;

use crate::hearing::Hearing;
use crate::pieces::run_piece;
use crate::read_end::{MAX_TAKEN, READ_LEN, ReadEnd};
use crate::reading::Reading;
use adapter_policies::Setup;
use lane_driver::{Log, PIPE_CONN};
use lane_machine::Lanes;
use orb_base::{Got, NoMemory, Serving, Sink, Source};
use std::alloc::Global;

/// Reads a connection from its first byte on, `READ_LEN` bytes at a time at most, and makes the calls of each read before the next one,
/// in groups of `batch` of which the first has so much room. It stops where the reading ends, where a limit of the run is met, and at a
/// failed read or write.
pub fn feed_stream<I: Source, O: Sink, S: Serving>(
    alloc: Global,
    lanes: &mut Lanes,
    log: &mut Log,
    source: &mut I,
    sink: &mut O,
    setup: &Setup,
    servants: &S,
    batch: u8,
    room: &mut u8,
) -> Result<Reading, NoMemory>
    requires well_formed { IsWellFormed setup.now.pool }
    requires pool { lanes.old.pool ≡ setup.now.pool }
    requires between { IsBetween lanes.old }
    requires going { lanes.old.closing ≡ false }
    requires batch { 1 ≤ batch }
    requires room { 1 ≤ room.old }
    ensures { Spec.ReadsStream result setup.now batch (served setup.now (S.outcome servants.now)) lanes.old lanes.new room.old room.new
        (I.state source.old) (I.state source.new) log.old log.new (O.state sink.old) (O.state sink.new) }
{
    let mut hearing = Hearing::new(alloc, setup, PIPE_CONN)?;
    let mut piece = [0u8; READ_LEN];
    let mut taken = 0;
    while taken < MAX_TAKEN {
        let space = piece.len().min(MAX_TAKEN - taken);
        match source.read(&mut piece[..space]) {
            Got::Bytes(n) => {
                taken += n;
                let bytes = &piece[..n];
                if let Some(reading) = run_piece(
                    alloc,
                    &mut hearing,
                    lanes,
                    log,
                    sink,
                    setup,
                    servants,
                    batch,
                    room,
                    bytes,
                )? {
                    return Ok(reading);
                }
            }
            Got::End => return Ok(Reading::Over(ReadEnd::Ended(hearing.at_end()))),
            Got::Failed => return Ok(Reading::Over(ReadEnd::ReadFault)),
        }
    }
    Ok(Reading::Over(ReadEnd::Spent))
}
