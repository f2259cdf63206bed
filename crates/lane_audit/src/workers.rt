//! How the threads of a pool are put together.
ghost use Rattle.std.specs.Prelude.{◌≡◌, ◌≤◌, OnOk, length};
ghost use Rattle.thread_borrowing.specs.ThreadList.{some_threads, pool_threads};
ghost use Rattle.thread_borrowing.specs.Building.{IsBuilt, IsGrown};
ghost use Rattle.orb_base.specs.declared.limits.TheConstants.{MAX_LANES};

use crate::worker::Worker;
use orb_base::{LaneSpec, List, NoMemory};
use std::alloc::Global;

/// The threads of a pool's lanes: lanes in rising order, and in a lane the static ones first.
#[tactic(auto, using(thread_borrowing::proofs::Growing::built_none, thread_borrowing::proofs::Growing::built_more, thread_borrowing::proofs::Growing::built_all))]
pub fn pool_workers(alloc: Global, lanes: &[LaneSpec]) -> Result<List<Worker>, NoMemory>
    requires { length lanes.now ≤ MAX_LANES }
    ensures { IsBuilt (pool_threads 0 lanes.now) result }
{
    let mut threads = List::new(alloc);
    for (lane, spec) in lanes.iter().enumerate() {
        add_workers(&mut threads, lane as u8, true, spec.statics)?;
        add_workers(&mut threads, lane as u8, false, spec.dynamics)?;
    }
    Ok(threads)
}

/// Puts so many threads of a lane after the last one.
#[tactic(auto, using(thread_borrowing::proofs::Growing::grew_none, thread_borrowing::proofs::Growing::grew_more))]
fn add_workers(
    threads: &mut List<Worker>,
    lane: u8,
    is_static: bool,
    count: u8,
) -> Result<(), NoMemory>
    ensures { OnOk result (IsGrown threads.old (some_threads lane is_static count) threads.new) }
{
    for _ in 0..count {
        match threads.push(Worker::idle(lane, is_static)) {
            Ok(()) => {}
            Err(_) => return Err(NoMemory),
        }
    }
    Ok(())
}
