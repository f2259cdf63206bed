//! Choices over pools of several lanes.
ghost use Rattle.std.specs.Prelude.{◌≡◌, ◌+◌, ◌<◌, ◌≤◌, IfSome, IsSomeAnd, slice_get};
ghost use Rattle.thread_borrowing.specs.ThreadList.{task_of};

use orb_base::{Arc, ConnId, Due, Job, LaneSpec, List, Order, PoolSpec, Priority, Text};
use std::alloc::Global;
use std::marker::Brand;
use std::sync::ledger::{Blank, Ledger};
use thread_borrowing::*;

/// A thread's number, whether it is lent, and whether it is started.
type Chosen = Option<(u8, bool, bool)>;

/// Threads 0 and 1 of the lower lane, threads 2 to 4 of the upper one; 1, 3 and 4 are dynamic.
const TWO: &[(u8, u8)] = &[(1, 1), (1, 2)];

/// One static thread in each of sixteen lanes, whose number is that of its lane.
const SIXTEEN: &[(u8, u8)] = &[(1, 0); 16];

/// The threads of the lanes from 1 to 15.
const ABOVE_ZERO: &[u8] = &[1, 2, 3, 4, 5, 6, 7, 8, 9, 10, 11, 12, 13, 14, 15];

/// A pool's static and dynamic threads by lanes, the busy threads, those that were busy before, the request's lane,
/// whether lower lanes lend, and the choice.
const CHOICES: &[(&[(u8, u8)], &[u8], &[u8], u8, bool, Chosen)] = &[
    // A static thread, else a started dynamic one, else the first that is not started.
    (TWO, &[], &[4], 1, false, Some((2, false, false))),
    (TWO, &[2], &[4], 1, false, Some((4, false, false))),
    (TWO, &[2], &[], 1, false, Some((3, false, true))),
    (TWO, &[2, 3], &[], 1, true, Some((4, false, true))),
    // Where the lane has none, a lower one lends, if borrowing is on.
    (TWO, &[2, 3, 4], &[], 1, false, None),
    (TWO, &[2, 3, 4], &[], 1, true, Some((0, true, false))),
    (TWO, &[0, 2, 3, 4], &[1], 1, true, Some((1, true, false))),
    (TWO, &[0, 2, 3, 4], &[], 1, true, Some((1, true, true))),
    (TWO, &[0, 1, 2, 3, 4], &[], 1, true, None),
    // A thread is never lent downward.
    (TWO, &[0, 1], &[], 0, true, None),
    (TWO, &[0, 1], &[2, 3], 0, true, None),
    // A thread that has finished goes before those that are not started, whatever its number.
    (TWO, &[2], &[3, 4], 1, false, Some((3, false, false))),
    (TWO, &[], &[2, 3, 4], 1, false, Some((2, false, false))),
    // No lane of a pool has the number 16, or 255: its requests are lent threads alone.
    (TWO, &[], &[], 16, false, None),
    (TWO, &[], &[], 16, true, Some((2, true, false))),
    (TWO, &[], &[], 255, false, None),
    (TWO, &[2, 3], &[4], 255, true, Some((4, true, false))),
    (TWO, &[2, 3, 4], &[], 255, true, Some((0, true, false))),
    (TWO, &[0, 1, 2, 3, 4], &[], 255, true, None),
    // Of sixteen lanes the lowest alone has a thread without a task.
    (SIXTEEN, ABOVE_ZERO, &[], 15, true, Some((0, true, false))),
    (SIXTEEN, ABOVE_ZERO, &[], 15, false, None),
    (SIXTEEN, ABOVE_ZERO, &[], 0, false, Some((0, false, false))),
    (SIXTEEN, ABOVE_ZERO, &[], 255, true, Some((0, true, false))),
    (SIXTEEN, &[15, 13], &[], 15, true, Some((14, true, false))),
    (SIXTEEN, &[13], &[15], 15, true, Some((15, false, false))),
];

/// Whether this thread is chosen for a request of a lane, with its probes counted too.
fn chooses(threads: &Threads, lane: u8, borrowing: bool, want: Chosen) -> bool {
    is_choice(threads.choose(lane, borrowing), want)
        && is_choice(
            counted::<Brand>(threads, lane, borrowing, Blank::new(1)),
            want,
        )
}

fn is_choice(choice: Option<Choice>, want: Chosen) -> bool {
    match choice {
        Some(choice) => want == Some((choice.thread, choice.lent, choice.starts)),
        None => want == None,
    }
}

/// The choice with its probes counted from none.
fn counted<L: Ledger>(threads: &Threads, lane: u8, borrowing: bool, blank: Blank) -> Option<Choice>
    requires name { blank.name ≡ L.name }
    requires parts { blank.parts ≡ L.parts }
    requires some { 0 < blank.parts }
{
    let mut steps = Steps::<L>::new(blank);
    threads.choose_counted(lane, borrowing, &mut steps)
}

/// Lets threads carry out a request each.
fn runs_each(alloc: Global, threads: &mut Threads, used: &[u8]) -> bool {
    for thread in used {
        if !runs(alloc, threads, *thread) {
            return false;
        }
    }
    true
}

/// Gives requests to threads.
fn gives_each(alloc: Global, threads: &mut Threads, busy: &[u8]) -> bool {
    for thread in busy {
        if !gives(alloc, threads, *thread) {
            return false;
        }
    }
    true
}

fn all_chosen(alloc: Global) -> bool {
    for (pool, busy, used, lane, borrowing, want) in CHOICES {
        let Some(mut threads) = opened(alloc, pool) else {
            return false;
        };
        if !runs_each(alloc, &mut threads, used)
            || !gives_each(alloc, &mut threads, busy)
            || !chooses(&threads, *lane, *borrowing, *want)
        {
            return false;
        }
    }
    true
}

#[test]
fn requests_go_down_the_lanes(rt: HostRuntime) {
    assert!(rt; all_chosen(rt.alloc()));
}

/// Whether the lowest lane lends its thread to a request of the highest of sixteen lanes: sixteen probes at most.
fn lends_the_lowest<L: Ledger>(threads: &Threads, steps: &mut Steps<L>) -> bool
    ensures { steps.new ≤ steps.old + 16 }
{
    is_choice(
        threads.choose_counted(15, true, steps),
        Some((0, true, false)),
    )
}

/// Whether a request of the highest lane finds no thread in its lane: one probe at most.
fn has_none_in_its_lane<L: Ledger>(threads: &Threads, steps: &mut Steps<L>) -> bool
    ensures { steps.new ≤ steps.old + 1 }
{
    threads.choose_counted(15, false, steps).is_none()
}

/// Whether a request of the highest of sixteen lanes comes down to the lowest, if lanes lend.
fn comes_down<L: Ledger>(alloc: Global, blank: Blank) -> bool
    requires name { blank.name ≡ L.name }
    requires parts { blank.parts ≡ L.parts }
    requires some { 0 < blank.parts }
{
    let mut steps = Steps::<L>::new(blank);
    let Some(mut threads) = opened(alloc, SIXTEEN) else {
        return false;
    };
    gives_each(alloc, &mut threads, ABOVE_ZERO)
        && lends_the_lowest(&threads, &mut steps)
        && has_none_in_its_lane(&threads, &mut steps)
}

/// The same, with a ledger of its own.
fn comes_down_uncounted(alloc: Global) -> bool {
    comes_down::<Brand>(alloc, Blank::new(1))
}

#[test]
fn a_request_comes_down_sixteen_lanes(rt: HostRuntime) {
    assert!(rt; comes_down_uncounted(rt.alloc()));
}

/// Gives requests to the threads from 32 to 63.
fn gives_upper_half(alloc: Global, threads: &mut Threads) -> bool {
    for thread in 32..64 {
        if !gives(alloc, threads, thread) {
            return false;
        }
    }
    true
}

fn chooses_among_many(alloc: Global) -> bool {
    let Some(mut threads) = opened(alloc, &[(2, 2); 16]) else {
        return false;
    };
    threads.count() == 64
        && chooses(&threads, 15, true, Some((60, false, false)))
        && gives_upper_half(alloc, &mut threads)
        && chooses(&threads, 15, true, Some((28, true, false)))
        && chooses(&threads, 8, true, Some((28, true, false)))
        && chooses(&threads, 8, false, None)
        && threads.count_for(CONN) == 32
        && threads.first_given() == Some(32)
}

#[test]
fn sixteen_lanes_have_sixty_four_threads(rt: HostRuntime) {
    assert!(rt; chooses_among_many(rt.alloc()));
}

/// Whether a thread was given the request 7, and takes it.
fn begins(threads: &mut Threads, thread: u8) -> bool {
    match task(threads, thread) {
        Some(Task::Given) => {
            let is_seven = threads.job(thread).get().id == 7;
            threads.begin(thread);
            is_seven
        }
        _ => false,
    }
}

/// Whether a thread carries out the request 7, and has finished it.
fn frees(threads: &mut Threads, thread: u8) -> bool {
    match task(threads, thread) {
        Some(Task::Busy) => threads.free(thread).get().id == 7,
        _ => false,
    }
}

fn takes_and_finishes(alloc: Global) -> bool {
    let Some(mut threads) = opened(alloc, &[(0, 1)]) else {
        return false;
    };
    gives(alloc, &mut threads, 0)
        && begins(&mut threads, 0)
        && threads.first_given() == None
        && frees(&mut threads, 0)
        && matches!(task(&threads, 0), Some(Task::Free))
}

#[test]
fn a_thread_takes_and_finishes_its_request(rt: HostRuntime) {
    assert!(rt; takes_and_finishes(rt.alloc()));
    assert!(rt; may_run(true, 0, 1) && !may_run(false, 0, 1) && !may_run(true, 1, 0));
    choice_goes_down();
    choice_stands_first();
}

const CONN: ConnId = ConnId { slot: 0, nth: 3 };

/// Lanes with so many static and dynamic threads, whose priorities count from 0.
fn lanes_of(alloc: Global, counts: &[(u8, u8)]) -> Option<Vec<LaneSpec>> {
    let mut lanes = Vec::new(alloc);
    for (lane, count) in counts.iter().enumerate() {
        let spec = LaneSpec {
            priority: Priority::new((lane % 16) as i16)?,
            statics: count.0,
            dynamics: count.1,
        };
        if lanes.push(spec).is_err() {
            return None;
        }
    }
    Some(lanes)
}

/// The threads of lanes with so many static and dynamic ones.
fn opened(alloc: Global, counts: &[(u8, u8)]) -> Option<Threads> {
    let pool = PoolSpec {
        laned: true,
        lanes: List::from_vec(lanes_of(alloc, counts)?),
        borrowing: true,
        buffering: false,
        max_requests: 0,
        max_bytes: 0,
        run_calls: 9,
        run_bytes: 900,
    };
    if pool.well_formed() {
        Threads::new(alloc, &pool).ok()
    } else {
        None
    }
}

/// A request of the connection, with the id 7.
fn request(alloc: Global) -> Option<Arc<Job>> {
    let priority = Priority::new(0)?;
    let operation = Text::new(alloc, b"ping").ok()?;
    let job = Job {
        conn: CONN,
        serial: 0,
        id: 7,
        order: Order::Big,
        due: Due::Late,
        priority,
        lane: 0,
        size: 48,
        target: 0,
        operation,
        body: List::new(alloc),
    };
    Arc::new(alloc, job).ok()
}

/// Gives a request to a thread that has none.
fn gives(alloc: Global, threads: &mut Threads, thread: u8) -> bool {
    match request(alloc) {
        Some(job) => gives_job(threads, thread, job),
        None => false,
    }
}

fn gives_job(threads: &mut Threads, thread: u8, job: Arc<Job>) -> bool {
    match task(threads, thread) {
        Some(Task::Free) => {
            threads.give(thread, job);
            true
        }
        _ => false,
    }
}

/// Lets a thread carry out a request.
fn runs(alloc: Global, threads: &mut Threads, thread: u8) -> bool {
    gives(alloc, threads, thread) && begins(threads, thread) && frees(threads, thread)
}

/// Whether a thread that is there has a task.
fn task(threads: &Threads, thread: u8) -> Option<Task>
    ensures { IfSome result (λ task. IsSomeAnd (slice_get threads.now thread) (λ t. task ≡ task_of t.doing)) }
{
    if usize::from(thread) < threads.count() {
        Some(threads.task(thread))
    } else {
        None
    }
}
