//! Jobs with ample memory: each is done once, and what they leave is in their order.
use side_by_side::*;
use std::alloc::Global;
use std::test::*;
use std::thread::Threads;

/// The squares of these numbers, each made by a job of its own.
fn squares<R: Threads + Sync>(rt: &R, alloc: Global, numbers: &[u64]) -> Option<Vec<u64>> {
    let jobs = Vec::from_slice(alloc, numbers).ok()?;
    let done = Vec::with_capacity(alloc, numbers.len()).ok()?;
    let square = move |n: u64| -> u64 { n.wrapping_mul(n) };
    Some(run_all(rt, &square, jobs, done))
}

/// Whether these are the squares of the numbers, in order.
fn are_squared<R: Threads + Sync>(rt: &R, alloc: Global, numbers: &[u64], want: &[u64]) -> bool {
    match squares(rt, alloc, numbers) {
        Some(given) => given.as_slice() == want,
        None => false,
    }
}

#[test]
fn each_result_stands_in_the_place_of_its_job(rt: HostRuntime) {
    assert!(rt; are_squared(&rt, rt.alloc(), &[3, 1, 4, 1, 5], &[9, 1, 16, 1, 25]));
    assert!(rt; are_squared(&rt, rt.alloc(), &[7], &[49]));
    assert!(rt; are_squared(&rt, rt.alloc(), &[], &[]));
}
