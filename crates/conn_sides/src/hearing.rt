//! One read's bytes of a connection: what they complete is called before the next read.
ghost use Rattle.std.specs.Prelude.{◌≡◌, ◌+◌, ◌<◌, ◌^◌, length};
ghost use Rattle.orb_base.specs.Pool.{IsWellFormed};
ghost use Rattle.conn_engine.specs.Hearers.{IsGoing};
ghost use Rattle.lane_pool.specs.Pass.{conn_of};
ghost use Rattle.lane_pool.specs.Turns.{Listens, heard_by};
ghost use Rattle.conn_sides.specs.Pieces.{HearsPiece, out_of};

use crate::calling::{Called, make_all};
use crate::read_side_end::ReadSideEnd;
use conn_engine::{Hearing, ReadEnd};
use heard_calls::Ending;
use lane_pool::{LanePool, ReaderPass};
use orb_base::NoMemory;
use std::alloc::Global;
use std::sync::Wait;

/// How the reading side came out with a piece whose calls were made, if it did.
fn out_of(called: Called, ending: Option<Ending>) -> Option<ReadSideEnd>
    ensures { result ≡ out_of called ending }
{
    match (called, ending) {
        (Called::Closing, _) => Some(ReadSideEnd::RunClosed),
        (Called::Heard, Some(ending)) => Some(ReadSideEnd::Read(ReadEnd::Ended(ending))),
        (Called::Heard, None) => None,
    }
}

/// Hears one piece and makes its calls. None where the reading goes on.
pub fn hear_piece<R: Wait>(
    rt: &R,
    alloc: Global,
    pool: &LanePool,
    pass: &mut ReaderPass,
    hearing: &mut Hearing<'_>,
    piece: &[u8],
) -> Option<ReadSideEnd>
    requires going { IsGoing hearing.old }
    requires few { length hearing.old.framer.fed + length piece.now < 2 ^ 32 }
    requires conn { hearing.old.conn ≡ conn_of pass.old }
    requires well_formed { IsWellFormed hearing.old.setup.pool }
    requires pool { pool.now.cell.terms.opening.pool ≡ hearing.old.setup.pool }
    requires listens { Listens pool.now.cell pass.old }
    requires heard { heard_by pass.old ≡ hearing.old.made }
    ensures { HearsPiece result pool.now.cell hearing.old hearing.new piece.now pass.old pass.new }
{
    match hearing.feed(alloc, piece) {
        Ok(heard) => {
            let called = make_all(rt, pool, pass, heard.calls.into_vec());
            out_of(called, heard.ending)
        }
        Err(NoMemory) => Some(ReadSideEnd::NoMemory),
    }
}
