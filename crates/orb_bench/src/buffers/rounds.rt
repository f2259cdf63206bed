//! Rounds over a buffer of sixteen lanes.

use orb_base::{Arc, ConnId, Due, Job, List, Order, Priority, Text};
use request_buffer::Buffer;
use std::alloc::Global;
use std::io;
use std::time::{Clock, Duration, Instant};

/// The most requests that wait.
const MOST: u32 = 65_536;

/// The bytes of each request.
const SIZE: u32 = 60;

/// A request of lane `n` modulo 16 and of priority `n` modulo 100.
fn job(alloc: Global, n: u32) -> Option<Arc<Job>> {
    let job = Job {
        conn: ConnId { slot: 0, nth: 0 },
        serial: n,
        id: n,
        order: Order::Big,
        due: Due::Late,
        priority: Priority::new((n % 100) as i16)?,
        lane: (n % 16) as u8,
        size: SIZE,
        target: 0,
        operation: Text::new(alloc, b"current").ok()?,
        body: List::new(alloc),
    };
    Arc::new(alloc, job).ok()
}

/// A buffer in which so many requests wait.
fn filled(alloc: Global, waiting: u32) -> Option<Buffer> {
    if waiting > MOST {
        return None;
    }
    let mut buffer = Buffer::new(alloc, waiting, waiting * SIZE).ok()?;
    for n in 0..waiting {
        let job = job(alloc, n)?;
        if !buffer.fits(job.get().size) {
            return None;
        }
        buffer.put(job);
    }
    Some(buffer)
}

/// Looks so often for what a thread takes next, of one lane after another; how often there is something.
fn look(buffer: &Buffer, rounds: u32) -> u32 {
    let mut found: u32 = 0;
    for n in 0..rounds {
        if buffer.best_for((n % 16) as u8, true).is_some() {
            found = found.saturating_add(1);
        }
    }
    found
}

/// Takes what a thread of the lowest lane takes next and puts it after the others, so often.
fn turn(buffer: &mut Buffer, rounds: u32) -> bool {
    for _ in 0..rounds {
        let Some(place) = buffer.best_for(0, true) else {
            return false;
        };
        let job = buffer.take(place);
        if !buffer.fits(job.get().size) {
            return false;
        }
        buffer.put(job);
    }
    true
}

/// How long so many looks take and how many find something, and how long so many turns take.
pub struct Times {
    pub looks: Duration,
    pub found: u32,
    pub turns: Duration,
}

/// How long the rounds take; `None` where so many can't wait, or memory runs out.
pub fn time_rounds<R: Clock>(
    rt: &R,
    alloc: Global,
    waiting: u32,
    rounds: u32,
) -> io::Result<Option<Times>> {
    let Some(mut buffer) = filled(alloc, waiting) else {
        return Ok(None);
    };
    let start = Instant::now(rt)?;
    let found = look(&buffer, rounds);
    let looks = start.elapsed(rt)?;
    let start = Instant::now(rt)?;
    if !turn(&mut buffer, rounds) {
        return Ok(None);
    }
    let turns = start.elapsed(rt)?;
    Ok(Some(Times {
        looks,
        found,
        turns,
    }))
}
