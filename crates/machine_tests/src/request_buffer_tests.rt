//! Requests that wait, are taken and are removed.
use orb_base::{Arc, ConnId, Due, Job, List, Order, Priority, Text};
use request_buffer::*;
use std::alloc::Global;

const CONN: ConnId = ConnId { slot: 0, nth: 3 };

const OTHER: ConnId = ConnId { slot: 0, nth: 4 };

/// The limits, the sizes of the requests that wait, the size of one more, and whether it fits.
const LIMITS: &[(u32, u32, &[u32], u32, bool)] = &[
    (2, 100, &[], 100, true),
    (2, 100, &[], 101, false),
    (2, 100, &[40], 60, true),
    (2, 100, &[40], 61, false),
    (2, 100, &[40, 60], 0, false),
    (3, 100, &[40, 60], 0, true),
    (3, 100, &[40, 60], 1, false),
    (0, 0, &[], 0, false),
    (0, 100, &[], 1, false),
];

/// Puts requests of these sizes, and gives the bytes of all of them.
fn puts_sizes(alloc: Global, buffer: &mut Buffer, sizes: &[u32]) -> Option<u64> {
    let mut bytes = 0u64;
    for size in sizes {
        if !puts(alloc, buffer, CONN, 0, (0, 0), *size, Due::Late) {
            return None;
        }
        bytes = bytes.wrapping_add(u64::from(*size));
    }
    Some(bytes)
}

/// Whether one more request fits after requests of these sizes, as it is due.
fn fits_behind(alloc: Global, buffer: &mut Buffer, sizes: &[u32], size: u32, want: bool) -> bool {
    match puts_sizes(alloc, buffer, sizes) {
        Some(bytes) => {
            buffer.requests() as usize == sizes.len()
                && buffer.bytes() == bytes
                && buffer.fits(size) == want
        }
        None => false,
    }
}

fn all_limited(alloc: Global) -> bool {
    for (max_requests, max_bytes, sizes, size, want) in LIMITS {
        let Ok(mut buffer) = Buffer::new(alloc, *max_requests, *max_bytes) else {
            return false;
        };
        if !fits_behind(alloc, &mut buffer, sizes, *size, *want) {
            return false;
        }
    }
    true
}

#[test]
fn both_limits_are_met_and_passed_by_one(rt: HostRuntime) {
    assert!(rt; all_limited(rt.alloc()));
}

/// The lanes and priorities in order of arrival, the thread's lane, whether it is lent, and the ids as they go.
const ORDERS: &[(&[(u8, i16)], u8, bool, &[u32])] = &[
    (&[(0, 5), (0, 5), (0, 5)], 0, false, &[0, 1, 2]),
    (&[(0, 5), (0, 9), (0, 5), (0, 9)], 0, false, &[1, 3, 0, 2]),
    (&[(1, 9), (0, 5), (2, 20), (1, 9)], 0, true, &[2, 0, 3, 1]),
    (&[(1, 9), (0, 5), (2, 20), (1, 9)], 1, true, &[2, 0, 3]),
    (&[(1, 9), (0, 5), (2, 20), (1, 9)], 0, false, &[1]),
    (&[(2, 9), (1, 9), (0, 9)], 0, true, &[0, 1, 2]),
    (&[(0, 9), (2, 9), (1, 9)], 0, true, &[0, 1, 2]),
    (&[(1, 9), (2, 9), (1, 9), (2, 9)], 1, true, &[0, 1, 2, 3]),
    (&[(200, 5), (15, 9), (200, 7), (255, 7)], 0, false, &[]),
    (
        &[(200, 5), (15, 9), (200, 7), (255, 7)],
        0,
        true,
        &[1, 2, 3, 0],
    ),
    (&[(200, 5), (15, 9), (200, 7), (255, 7)], 15, false, &[1]),
    (
        &[(200, 5), (15, 9), (200, 7), (255, 7)],
        16,
        true,
        &[2, 3, 0],
    ),
    (
        &[(200, 5), (15, 9), (200, 7), (255, 7)],
        200,
        false,
        &[2, 0],
    ),
    (&[(200, 5), (15, 9), (200, 7), (255, 7)], 255, false, &[3]),
];

/// Puts a request for each of these lanes and priorities, whose ids count from 0.
fn puts_places(alloc: Global, buffer: &mut Buffer, places: &[(u8, i16)]) -> bool {
    let mut id = 0u32;
    for place in places {
        if !puts(alloc, buffer, CONN, id, *place, 48, Due::Late) {
            return false;
        }
        id = id.wrapping_add(1);
    }
    true
}

/// Whether a thread takes requests of these ids one after another, and then none.
fn takes_just(buffer: &mut Buffer, lane: u8, borrowing: bool, ids: &[u32]) -> bool {
    for id in ids {
        if next(buffer, lane, borrowing) != Some(*id) {
            return false;
        }
    }
    next(buffer, lane, borrowing) == None
}

fn all_ordered(alloc: Global) -> bool {
    for (places, lane, borrowing, ids) in ORDERS {
        let Ok(mut buffer) = Buffer::new(alloc, 9, 900) else {
            return false;
        };
        if !puts_places(alloc, &mut buffer, places)
            || !takes_just(&mut buffer, *lane, *borrowing, ids)
        {
            return false;
        }
    }
    true
}

#[test]
fn the_earliest_of_greatest_priority_is_next(rt: HostRuntime) {
    assert!(rt; all_ordered(rt.alloc()));
    next_is_most_urgent();
}

/// The connections, ids and sizes of requests, in order of arrival.
const KEPT: &[(ConnId, u32, u32)] = &[
    (CONN, 7, 1),
    (OTHER, 8, 2),
    (CONN, 8, 4),
    (CONN, 8, 8),
    (CONN, 9, 16),
];

fn puts_kept(alloc: Global, buffer: &mut Buffer) -> bool {
    for (conn, id, size) in KEPT {
        if !puts(alloc, buffer, *conn, *id, (0, 5), *size, Due::Late) {
            return false;
        }
    }
    true
}

/// Removes a request, and gives its size.
fn removed(buffer: &mut Buffer, conn: ConnId, id: u32) -> Option<u32> {
    match buffer.remove(conn, id) {
        Some(job) => Some(job.get().size),
        None => None,
    }
}

fn holds(buffer: &Buffer, requests: u32, bytes: u64) -> bool {
    buffer.requests() == requests && buffer.bytes() == bytes
}

fn removes_in_order(alloc: Global) -> bool {
    let Ok(mut buffer) = Buffer::new(alloc, 9, 900) else {
        return false;
    };
    puts_kept(alloc, &mut buffer)
        && buffer.count_for(CONN) == 4
        // The earliest one of that connection and id.
        && removed(&mut buffer, CONN, 8) == Some(4)
        && holds(&buffer, 4, 27)
        && removed(&mut buffer, OTHER, 9) == None
        && holds(&buffer, 4, 27)
        && takes_just(&mut buffer, 0, false, &[7, 8, 8, 9])
        && holds(&buffer, 0, 0)
}

#[test]
fn a_removal_in_the_middle_keeps_the_order(rt: HostRuntime) {
    assert!(rt; removes_in_order(rt.alloc()));
}

/// The lanes and priorities in order of arrival, the connection and the id that is removed, and the ids of the others
/// as they go.
const REMOVALS: &[(&[(u8, i16)], ConnId, u32, &[u32])] = &[
    (&[(0, 5), (0, 5), (0, 5)], CONN, 0, &[1, 2]),
    (&[(0, 5), (0, 5), (0, 5)], CONN, 1, &[0, 2]),
    (&[(0, 5), (0, 5), (0, 5)], CONN, 2, &[0, 1]),
    (&[(0, 5), (0, 9), (0, 7)], CONN, 2, &[1, 0]),
    (&[(1, 9), (0, 9), (200, 9)], CONN, 2, &[0, 1]),
    (&[(0, 5), (0, 5)], CONN, 2, &[0, 1]),
    (&[(0, 5), (0, 5)], OTHER, 0, &[0, 1]),
    (&[], CONN, 0, &[]),
];

fn all_removed(alloc: Global) -> bool {
    for (places, conn, id, ids) in REMOVALS {
        let Ok(mut buffer) = Buffer::new(alloc, 9, 900) else {
            return false;
        };
        if !puts_places(alloc, &mut buffer, places) {
            return false;
        }
        removed(&mut buffer, *conn, *id);
        if !takes_just(&mut buffer, 0, true, ids) {
            return false;
        }
    }
    true
}

#[test]
fn a_removal_anywhere_in_a_queue_leaves_the_others(rt: HostRuntime) {
    assert!(rt; all_removed(rt.alloc()));
}

/// When a reply is due, and how many requests stay after a removal.
const STAYS: &[(Due, u32)] = &[(Due::Nothing, 1), (Due::Early, 1), (Due::Late, 0)];

fn all_stay(alloc: Global) -> bool {
    for (due, want) in STAYS {
        let Ok(mut buffer) = Buffer::new(alloc, 9, 900) else {
            return false;
        };
        if !puts(alloc, &mut buffer, CONN, 7, (0, 5), 48, *due) {
            return false;
        }
        removed(&mut buffer, CONN, 7);
        if buffer.requests() != *want {
            return false;
        }
    }
    true
}

#[test]
fn a_request_whose_reply_is_not_due_later_stays(rt: HostRuntime) {
    assert!(rt; all_stay(rt.alloc()));
}

/// Puts a request of a lane and a priority. Whether it fits.
fn puts(
    alloc: Global,
    buffer: &mut Buffer,
    conn: ConnId,
    id: u32,
    place: (u8, i16),
    size: u32,
    due: Due,
) -> bool {
    match request(alloc, conn, id, place, size, due) {
        Some(job) => puts_job(buffer, job),
        None => false,
    }
}

fn puts_job(buffer: &mut Buffer, job: Arc<Job>) -> bool {
    if buffer.fits(job.get().size) {
        buffer.put(job);
        true
    } else {
        false
    }
}

/// Takes the request that is next, and gives its id.
fn next(buffer: &mut Buffer, lane: u8, borrowing: bool) -> Option<u32> {
    let place = buffer.best_for(lane, borrowing)?;
    let job = buffer.take(place);
    Some(job.get().id)
}

/// A request of a lane and a priority.
fn request(
    alloc: Global,
    conn: ConnId,
    id: u32,
    place: (u8, i16),
    size: u32,
    due: Due,
) -> Option<Arc<Job>> {
    let priority = Priority::new(place.1)?;
    let operation = Text::new(alloc, b"ping").ok()?;
    let job = Job {
        conn,
        serial: 0,
        id,
        order: Order::Big,
        due,
        priority,
        lane: place.0,
        size,
        target: 0,
        operation,
        body: List::new(alloc),
    };
    Arc::new(alloc, job).ok()
}
