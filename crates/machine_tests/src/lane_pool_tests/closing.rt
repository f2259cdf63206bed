//! A reading side in a run of one call.
ghost use Rattle.std.specs.Prelude.{◌≡◌};
ghost use Rattle.lane_pool.specs.Passes.{IsOpen};
ghost use Rattle.lane_pool.specs.Turns.{AllRest, Listens};

use super::connection::one_slot;
use super::{opened, pool_of};
use lane_pool::{LanePool, Opened, Posting, ReaderPass};
use orb_base::{ConnId, Notice, Order, PoolSpec, What};
use std::alloc::Global;
use std::sync::Wait;

/// An answer that a reading side gives by itself.
fn notice(conn: ConnId, id: u32) -> Notice
    ensures { result.conn ≡ conn }
{
    Notice {
        conn,
        order: Order::Big,
        id,
        what: What::Bound,
    }
}

/// Whether the reading side heard that the run is closing after an answer that is owed, then what became of the next one,
/// and whether it heard it after that.
#[tactic(auto, using(lane_pool::proofs::Turns::listens_on))]
fn hear<R: Wait>(rt: &R, pool: &LanePool, reader: ReaderPass) -> Option<(bool, Posting, bool)>
    requires { Listens pool.now.cell reader }
{
    let mut reader = reader;
    let conn = reader.conn();
    let Posting::Posted = pool.post(rt, &mut reader, notice(conn, 0)) else {
        return None;
    };
    let before = reader.closing();
    let second = pool.post(rt, &mut reader, notice(conn, 1));
    Some((before, second, reader.closing()))
}

/// The reading side of a pool's first connection.
#[tactic(auto, using(lane_pool::proofs::Openings::room_there))]
fn link_and_hear<R: Wait>(rt: &R, spec: &PoolSpec, all: Opened) -> Option<(bool, Posting, bool)>
    requires opened { IsOpen spec.now 1 1 all.pool.cell all.root all.slots.items all.workers.items }
    requires slots { AllRest all.pool.cell 0 all.slots.items }
{
    let _ = spec;
    let Opened {
        pool,
        root: _,
        slots,
        workers: _,
    } = all;
    let slot = one_slot(&pool, slots)?;
    let Ok((reader, _)) = pool.link(slot) else {
        return None;
    };
    hear(rt, &pool, reader)
}

/// What the reading side of a pool hears in a run of one call.
fn heard<R: Wait>(rt: &R, alloc: Global) -> Option<(bool, Posting, bool)> {
    let spec = pool_of(alloc, 1, 1)?;
    if !spec.well_formed() {
        return None;
    }
    let all = opened(alloc, &spec, 1, 1)?;
    link_and_hear(rt, &spec, all)
}

#[test]
fn a_reading_side_hears_that_the_run_is_closing(rt: HostRuntime) {
    assert!(rt; heard(&rt, rt.alloc()) == Some((false, Posting::Closing, true)));
}
