//! The threads of a run, made once before anything listens.

use adapter_policies::Setup;
use std::alloc::Global;
use std::sync::{Mutex, Wait};
use std::thread;
use std::thread::Threads;

/// How many threads a run has beside the one that it begins in: one for each thread of the pool and one that waits for these, and two for
/// each slot. At most 97.
fn threads_of(setup: &Setup) -> u32 {
    let mut count = 1 + 2 * u32::from(setup.slots());
    for lane in setup.pool().lanes.as_slice() {
        count = count.saturating_add(u32::from(lane.statics) + u32::from(lane.dynamics));
    }
    count
}

/// Waits until the gate is open.
fn pass<R: Wait>(rt: &R, gate: &Mutex<()>) {
    let _passed = gate.lock(rt);
}

/// Whether so many threads can be there at once: each that was made waits for the others, and is joined.
fn can_make<R: Wait + Threads + Sync>(rt: &R, alloc: Global, count: u32) -> bool {
    let gate = Mutex::new(());
    let shut = &gate;
    thread::scope(thread::scope_env(), rt, |scope| {
        let held = shut.lock(rt);
        let mut made = Vec::new(alloc);
        for _nth in 0..count {
            let Ok(handle) = scope.spawn(move || pass(rt, shut)) else {
                return false;
            };
            let Ok(()) = made.push(handle) else {
                return false;
            };
        }
        drop(held);
        for handle in made {
            handle.join(rt);
        }
        true
    })
}

/// Whether the threads of a run can be made now. A server whose threads can't be made would listen and never answer; nothing is said of
/// whether they can be made later.
pub fn can_make_threads<R: Wait + Threads + Sync>(rt: &R, alloc: Global, setup: &Setup) -> bool {
    can_make(rt, alloc, threads_of(setup))
}
