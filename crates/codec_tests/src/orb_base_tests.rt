//! What no clause says: each public call once with ample memory; those of devices are in `device_tests`.
mod device_tests;

use orb_base::*;
use std::alloc::Global;
use std::test::*;

/// A list of these items, or the empty one when out of memory.
fn list<T: Copy>(alloc: Global, items: &[T]) -> List<T> {
    match Vec::from_slice(alloc, items) {
        Ok(items) => List::from_vec(items),
        Err(_) => List::new(alloc),
    }
}

/// A job that only its id tells from others.
fn job(alloc: Global, id: u32) -> Option<Job> {
    let priority = Priority::new(100)?;
    let operation = Text::new(alloc, b"current").ok()?;
    Some(Job {
        conn: ConnId { slot: 0, nth: 0 },
        serial: 0,
        id,
        order: Order::Big,
        due: Due::Late,
        priority,
        lane: 0,
        size: 48,
        target: 0,
        operation,
        body: List::new(alloc),
    })
}

/// Whether a new list takes three items.
fn takes_three(list: &mut Octets) -> bool {
    list.is_empty()
        && list.reserve(2).is_ok()
        && list.reserve_exact(3).is_ok()
        && list.push(5).is_ok()
        && list.push(6).is_ok()
        && list.push(7).is_ok()
}

/// Whether the list of these three gives and changes its items.
fn changes(list: &mut Octets) -> bool {
    list.len() == 3
        && list.get(1).copied() == Some(6)
        && list.get(3).copied() == None
        && list.replace(0, 9) == 5
        && list.remove(1) == 6
        && list.append(&[1, 2]).is_ok()
        && list.as_slice() == [9, 7, 1, 2].as_slice()
}

fn list_holds(alloc: Global) -> bool {
    let mut list = List::new(alloc);
    let held = takes_three(&mut list) && changes(&mut list);
    list.into_vec().len() == 4 && held
}

#[test]
fn lists_hold_their_items(rt: HostRuntime) {
    assert!(rt; list_holds(rt.alloc()));
}

/// Shorts, and the priorities that they are.
const PRIORITIES: &[(i16, Option<i16>)] = &[
    (-32768, None),
    (-1, None),
    (0, Some(0)),
    (32767, Some(32767)),
];

fn is_priority(row: &(i16, Option<i16>)) -> bool {
    match Priority::new(row.0) {
        Some(priority) => row.1 == Some(priority.get()),
        None => row.1 == None,
    }
}

fn are_priorities(rows: &[(i16, Option<i16>)]) -> bool {
    for row in rows {
        if !is_priority(row) {
            return false;
        }
    }
    true
}

/// Whether a band from 10 to 20 holds its ends and not 9.
fn has_ends(low: Priority, high: Priority, below: Priority) -> bool {
    match Band::new(low, high) {
        Some(band) => {
            band.low() == low
                && band.high() == high
                && band.holds(low)
                && band.holds(high)
                && !band.holds(below)
        }
        None => false,
    }
}

fn band_has_ends() -> bool {
    match (Priority::new(10), Priority::new(20), Priority::new(9)) {
        (Some(low), Some(high), Some(below)) => {
            has_ends(low, high, below) && Band::new(high, low).is_none() && high.level() == 20
        }
        _ => false,
    }
}

#[test]
fn priorities_and_bands_have_their_ends(rt: HostRuntime) {
    assert!(rt; are_priorities(PRIORITIES) && band_has_ends());
}

/// The ends of a band.
type Ends = (i16, i16);

fn band(ends: Ends) -> Option<Band> {
    let (low, high) = ends;
    Band::new(Priority::new(low)?, Priority::new(high)?)
}

/// Three bands, and whether they share no priority.
const BANDS: &[(Ends, Ends, Ends, bool)] = &[
    ((0, 9), (20, 29), (10, 19), true),
    ((0, 9), (20, 29), (9, 19), false),
    ((20, 29), (0, 30), (40, 49), false),
    ((5, 5), (5, 5), (0, 1), false),
];

fn is_told(alloc: Global, row: &(Ends, Ends, Ends, bool)) -> bool {
    match (band(row.0), band(row.1), band(row.2)) {
        (Some(first), Some(second), Some(third)) => {
            are_apart(alloc, &[first, second, third]) == Ok(row.3)
        }
        _ => false,
    }
}

fn all_are_told(alloc: Global, rows: &[(Ends, Ends, Ends, bool)]) -> bool {
    for row in rows {
        if !is_told(alloc, row) {
            return false;
        }
    }
    true
}

fn none_are_apart(alloc: Global) -> bool {
    are_apart(alloc, &[]) == Ok(true)
}

#[test]
fn bands_that_share_a_priority_are_told(rt: HostRuntime) {
    assert!(rt; all_are_told(rt.alloc(), BANDS) && none_are_apart(rt.alloc()));
}

/// Whether a text's copy has so many bytes.
fn has_copy(alloc: Global, text: &Text, len: usize) -> bool {
    match text.copy(alloc) {
        Ok(copy) => copy.len() == len,
        Err(_) => false,
    }
}

/// Whether a text equals the one of its own bytes, which have no NUL.
fn equals_plain(alloc: Global, text: &Text) -> bool {
    match Text::of_plain(alloc, text.as_slice()) {
        Ok(other) => *text == other,
        Err(_) => false,
    }
}

/// Whether a text equals the one of a vector of these bytes.
fn equals_vec(alloc: Global, text: &Text, bytes: &[u8]) -> bool {
    let Ok(bytes) = Vec::from_slice(alloc, bytes) else {
        return false;
    };
    match Text::from_vec(bytes) {
        Ok(other) => *text == other,
        Err(_) => false,
    }
}

/// Whether a text is another one than that of these bytes.
fn differs(alloc: Global, text: &Text, bytes: &[u8]) -> bool {
    match Text::new(alloc, bytes) {
        Ok(other) => *text != other,
        Err(_) => false,
    }
}

fn holds_ping(alloc: Global, text: &Text) -> bool {
    text.as_slice() == b"ping".as_slice()
        && !text.is_empty()
        && has_copy(alloc, text, 4)
        && equals_plain(alloc, text)
        && equals_vec(alloc, text, b"ping")
        && differs(alloc, text, b"pong")
}

fn is_ping(alloc: Global) -> bool {
    match Text::new(alloc, b"ping") {
        Ok(text) => holds_ping(alloc, &text),
        Err(_) => false,
    }
}

/// Whether a vector of these bytes is handed back for a NUL at this place, with so many bytes.
fn is_handed_back(alloc: Global, bytes: &[u8], place: usize, len: usize) -> bool {
    let Ok(bytes) = Vec::from_slice(alloc, bytes) else {
        return false;
    };
    match Text::from_vec(bytes) {
        Ok(_) => false,
        Err(refused) => refused.place == place && refused.bytes.len() == len,
    }
}

fn refuses_nul(alloc: Global) -> bool {
    match Text::new(alloc, b"pi\0g\0") {
        Ok(_) => false,
        Err(fault) => fault == TextFault::Nul(2),
    }
}

fn finds_nul() -> bool {
    first_nul(b"pi\0g\0") == Some(2) && first_nul(b"ping") == None
}

#[test]
fn texts_hold_no_nul(rt: HostRuntime) {
    assert!(rt; is_ping(rt.alloc()) && finds_nul());
    assert!(rt; refuses_nul(rt.alloc()) && is_handed_back(rt.alloc(), b"p\0\0", 1, 3));
}

/// What other threads may have and share.
fn may_go<T: Send + Sync>() -> bool {
    true
}

#[test]
fn values_may_go_to_other_threads(rt: HostRuntime) {
    assert!(rt; may_go::<Arc<Job>>() && may_go::<Item>() && may_go::<PoolSpec>());
}

/// What an item tells of job 7.
enum Tells {
    /// That it returned 1 and 2.
    Returned,
    /// That it raised 1 and 2.
    Raised,
    Early,
    Transient,
    /// A notice of another job.
    Noticed,
}

const NOTICE: Notice = Notice {
    conn: ConnId { slot: 1, nth: 2 },
    order: Order::Little,
    id: 9,
    what: What::Located(true),
};

fn shared_job(alloc: Global) -> Option<Arc<Job>> {
    Arc::new(alloc, job(alloc, 7)?).ok()?.share().ok()
}

fn shared_body(alloc: Global) -> Option<SharedOctets> {
    SharedOctets::new(alloc, list(alloc, &[1, 2]))
        .ok()?
        .share()
        .ok()
}

fn shared_outcome(alloc: Global, raised: bool) -> Option<Outcome> {
    let body = shared_body(alloc)?;
    if raised {
        Outcome::User(body).share().ok()
    } else {
        Outcome::Returned(body).share().ok()
    }
}

fn shared_answer(alloc: Global, raised: bool) -> Option<Answer> {
    let outcome = shared_outcome(alloc, raised)?;
    let job = shared_job(alloc)?;
    Answer { job, outcome }.share().ok()
}

fn item(alloc: Global, tells: &Tells) -> Option<Item> {
    match tells {
        Tells::Returned => Some(Item::Answered(shared_answer(alloc, false)?)),
        Tells::Raised => Some(Item::Answered(shared_answer(alloc, true)?)),
        Tells::Early => Some(Item::Early(shared_job(alloc)?)),
        Tells::Transient => Some(Item::Transient(shared_job(alloc)?)),
        Tells::Noticed => Some(Item::Noticed(NOTICE)),
    }
}

fn is_outcome(outcome: &Outcome, tells: &Tells) -> bool {
    match outcome {
        Outcome::Returned(body) => {
            matches!(tells, Tells::Returned) && body.as_slice() == [1, 2].as_slice()
        }
        Outcome::User(body) => {
            matches!(tells, Tells::Raised) && body.as_slice() == [1, 2].as_slice()
        }
        Outcome::System(_) => false,
    }
}

fn is_item(item: &Item, tells: &Tells) -> bool {
    match item {
        Item::Answered(answer) => answer.job.get().id == 7 && is_outcome(&answer.outcome, tells),
        Item::Early(job) => matches!(tells, Tells::Early) && job.get().id == 7,
        Item::Transient(job) => matches!(tells, Tells::Transient) && job.get().id == 7,
        Item::Noticed(notice) => matches!(tells, Tells::Noticed) && *notice == NOTICE,
    }
}

fn is_shared(item: Item, tells: &Tells) -> bool {
    match item.share() {
        Ok(share) => is_item(&share, tells),
        Err(_) => false,
    }
}

fn row_is_shared(alloc: Global, tells: &Tells) -> bool {
    match item(alloc, tells) {
        Some(item) => is_shared(item, tells),
        None => false,
    }
}

fn all_are_shared(alloc: Global, rows: &[Tells]) -> bool {
    for row in rows {
        if !row_is_shared(alloc, row) {
            return false;
        }
    }
    true
}

const TOLD: &[Tells] = &[
    Tells::Returned,
    Tells::Raised,
    Tells::Early,
    Tells::Transient,
    Tells::Noticed,
];

#[test]
fn shares_are_equal(rt: HostRuntime) {
    assert!(rt; all_are_shared(rt.alloc(), TOLD));
}

fn pool(alloc: Global, laned: bool, lanes: &[LaneSpec]) -> PoolSpec {
    PoolSpec {
        laned,
        lanes: list(alloc, lanes),
        borrowing: false,
        buffering: false,
        max_requests: 0,
        max_bytes: 0,
        run_calls: 65_536,
        run_bytes: 67_108_864,
    }
}

/// A lane: its priority, and how many static and dynamic threads it has.
type Lane = (i16, u8, u8);

const TEN: Lane = (10, 1, 0);

const TWENTY: Lane = (20, 0, 2);

const EMPTY: Lane = (30, 0, 0);

const WIDE: Lane = (40, 60, 4);

fn lane(lane: Lane) -> Option<LaneSpec> {
    let (level, statics, dynamics) = lane;
    Some(LaneSpec {
        priority: Priority::new(level)?,
        statics,
        dynamics,
    })
}

/// Whether a pool has lanes, its lanes, and whether it can be opened.
type Judged = (bool, &'static [Lane], bool);

const POOLS: &[Judged] = &[
    // one lane
    (false, &[TEN], true),
    // two lanes
    (true, &[TEN, TWENTY], true),
    // two lanes without lanes
    (false, &[TEN, TWENTY], false),
    // falling lanes
    (true, &[TWENTY, TEN], false),
    // one priority twice
    (true, &[TEN, TEN], false),
    // a lane without threads
    (true, &[TEN, EMPTY], false),
    // 64 threads
    (true, &[WIDE], true),
    // 65 threads
    (true, &[TEN, WIDE], false),
];

/// Whether this is told of a pool's copy.
fn copy_is(alloc: Global, pool: &PoolSpec, want: bool) -> bool {
    match pool.copy(alloc) {
        Ok(copy) => copy.well_formed() == want,
        Err(_) => false,
    }
}

fn is_judged(alloc: Global, laned: bool, lanes: &[LaneSpec], want: bool) -> bool {
    let pool = pool(alloc, laned, lanes);
    pool.lanes.len() == lanes.len() && copy_is(alloc, &pool, want)
}

fn row_is_judged(alloc: Global, row: &Judged) -> bool {
    match row.1 {
        [one] => match lane(*one) {
            Some(one) => is_judged(alloc, row.0, &[one], row.2),
            None => false,
        },
        [low, high] => match (lane(*low), lane(*high)) {
            (Some(low), Some(high)) => is_judged(alloc, row.0, &[low, high], row.2),
            _ => false,
        },
        _ => false,
    }
}

fn all_are_judged(alloc: Global, rows: &[Judged]) -> bool {
    for row in rows {
        if !row_is_judged(alloc, row) {
            return false;
        }
    }
    true
}

/// Whether one lane may lend its thread.
fn lends(pool: &mut PoolSpec) -> bool {
    pool.borrowing = true;
    pool.well_formed()
}

/// Whether a pool buffers within limits alone.
fn buffers(pool: &mut PoolSpec) -> bool {
    pool.buffering = true;
    let without = pool.well_formed();
    pool.max_requests = 1;
    pool.max_bytes = 1;
    let within = pool.well_formed();
    pool.run_calls = 65_537;
    !without && within && !pool.well_formed()
}

fn lending_is_refused(alloc: Global) -> bool {
    match lane(TEN) {
        Some(ten) => {
            let mut pool = pool(alloc, false, &[ten]);
            pool.lanes.len() == 1 && !lends(&mut pool)
        }
        None => false,
    }
}

fn buffers_are_judged(alloc: Global) -> bool {
    match lane(TEN) {
        Some(ten) => {
            let mut pool = pool(alloc, true, &[ten]);
            pool.lanes.len() == 1 && buffers(&mut pool)
        }
        None => false,
    }
}

#[test]
fn pools_are_judged(rt: HostRuntime) {
    assert!(rt; all_are_judged(rt.alloc(), POOLS));
    assert!(rt; lending_is_refused(rt.alloc()) && buffers_are_judged(rt.alloc()));
}
