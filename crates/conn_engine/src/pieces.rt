//! One read's bytes: what they complete is made before the next read.
ghost use Rattle.std.specs.Prelude.{◌≡◌, ◌≤◌, ◌<◌, ◌+◌, ◌^◌, length};
ghost use Rattle.orb_base.specs.Pool.{IsWellFormed};
ghost use Rattle.pipe_laws.specs.Lacking.{served};
ghost use Rattle.pipe_laws.specs.Setup.{pipe_conn};
ghost use Rattle.lane_driver.specs.Driving.{IsBetween};
ghost use Rattle.conn_engine.specs.Hearers.{IsGoing};
ghost use Rattle.conn_engine.specs.Pieces as Spec;

use crate::hearing::Hearing;
use crate::read_end::ReadEnd;
use crate::reading::Reading;
use adapter_policies::Setup;
use heard_calls::Ending;
use lane_driver::{Course, Log, feed};
use lane_machine::Lanes;
use orb_base::{NoMemory, Serving, Sink};
use std::alloc::Global;

/// How the reading came out with a piece whose calls were made, if it did.
fn out_of(lanes: &Lanes, ending: Option<Ending>) -> Option<Reading>
    ensures { result ≡ Spec.out_of lanes.now.closing ending }
{
    if lanes.is_closing() {
        return Some(Reading::Closing);
    }
    match ending {
        Some(ending) => Some(Reading::Over(ReadEnd::Ended(ending))),
        None => None,
    }
}

/// Hears one piece and makes its calls, in groups of `batch` of which the calls before them left one open, with so much room. None
/// where the reading goes on.
pub fn run_piece<O: Sink, S: Serving>(
    alloc: Global,
    hearing: &mut Hearing<'_>,
    lanes: &mut Lanes,
    log: &mut Log,
    sink: &mut O,
    setup: &Setup,
    servants: &S,
    batch: u8,
    room: &mut u8,
    piece: &[u8],
) -> Result<Option<Reading>, NoMemory>
    requires going { IsGoing hearing.old }
    requires few { length hearing.old.framer.fed + length piece.now < 2 ^ 32 }
    requires setup { hearing.old.setup ≡ setup.now }
    requires conn { hearing.old.conn ≡ pipe_conn }
    requires well_formed { IsWellFormed setup.now.pool }
    requires pool { lanes.old.pool ≡ setup.now.pool }
    requires between { IsBetween lanes.old }
    requires batch { 1 ≤ batch }
    requires room { 1 ≤ room.old }
    ensures { Spec.RunsPiece result batch (served setup.now (S.outcome servants.now)) hearing.old hearing.new piece.now
        lanes.old lanes.new room.old room.new log.old log.new (O.state sink.old) (O.state sink.new) }
{
    let heard = hearing.feed(alloc, piece)?;
    let calls = heard.calls.as_slice();
    match feed(alloc, lanes, log, sink, setup, servants, batch, room, calls)? {
        Course::Whole => Ok(out_of(lanes, heard.ending)),
        Course::Stopped => Ok(Some(Reading::Stopped)),
    }
}
