//! The requests that wait.
ghost use Rattle.std.specs.Prelude.{◌≡◌, ◌<◌, [], true, length, count_by, position, Some, None, IfOk, IfSome, IsSome, IsSomeAnd, MatchOption};
ghost use Rattle.orb_base.specs.Conn.{same_conn};
ghost use Rattle.request_buffer.specs.Kept.{has_room, kept_bytes, may_cancel, arrival_of, IsPut, IsTaken};
ghost use Rattle.request_buffer.specs.Next.{next_job};

use crate::queues::{Queues, free_stamp};
use crate::sought::Sought;
use crate::waiting::Waiting;
use orb_base::{Arc, ConnId, Job, NoMemory};
use std::alloc::Global;
use std::marker::Model;

/// The requests that wait: for each lane a queue by falling priority, and in a priority by arrival. No call but `new`
/// takes memory.
#[derive(Drop)]
pub struct Buffer {
    queues: Queues,
    /// The stamp of the next request, greater than those of all that wait.
    next: usize,
    requests: u32,
    bytes: u64,
    max_requests: u32,
    max_bytes: u32,
}

impl Model for Buffer {
    ghost use Rattle.request_buffer.specs.Entries.{requests_of, stamps_of};
    ghost use Rattle.request_buffer.specs.Kept.{Kept};
    ghost use Rattle.request_buffer.specs.Bounds.{IsBounded};

    ghost Value = { Kept };

    ghost view = { λ b. record {
      requests = requests_of b.next b.queues;
      places = stamps_of b.next b.queues;
      max_requests = b.max_requests;
      max_bytes = b.max_bytes;
    } };

    ghost invariant = { λ b. IsBounded b.queues b.next b.requests b.bytes b.max_requests b.max_bytes };
}

impl Buffer {
    /// A buffer for at most so many requests of so many bytes together. Takes the memory for all of them.
    pub fn new(alloc: Global, max_requests: u32, max_bytes: u32) -> Result<Buffer, NoMemory>
        ensures empty { IfOk result (λ b. b.requests ≡ []) }
        ensures limits { IfOk result (λ b. (b.max_requests ≡ max_requests) × (b.max_bytes ≡ max_bytes)) }
    {
        let queues = Queues::new(alloc, max_requests as usize)?;
        Ok(Buffer {
            queues,
            next: 0,
            requests: 0,
            bytes: 0,
            max_requests,
            max_bytes,
        })
    }

    /// Whether one more request of so many bytes passes neither limit.
    pub fn fits(&self, size: u32) -> bool
        ensures { result ≡ has_room self.now size }
    {
        self.requests < self.max_requests
            && self.bytes + u64::from(size) <= u64::from(self.max_bytes)
    }

    /// Puts a request that fits after those that wait. A search of its lane's queue, and a move of no more than half of
    /// that queue; none where all requests of the lane have one priority.
    pub fn put(&mut self, job: Arc<Job>)
        requires fits { has_room self.old job.size ≡ true }
        ensures { IsPut self.old self.new job }
    {
        let size = size_of(job.get());
        let stamp = free_stamp(&mut self.queues, self.next, self.max_requests);
        self.queues.put(Waiting::new(stamp, job));
        self.next = stamp + 1;
        self.requests += 1;
        self.bytes += u64::from(size);
    }

    /// The place of the request that a thread of this lane takes next: the earliest of those of greatest priority
    /// that it may run; None where it may run none. A place names its request until the next call that changes the
    /// buffer, and need not be a position in order of arrival. It looks at the first request of each lane.
    pub fn best_for(&self, lane: u8, borrowing: bool) -> Option<usize>
        ensures exact { MatchOption result (next_job borrowing lane self.now.requests ≡ None)
            (λ place. arrival_of self.now place ≡ next_job borrowing lane self.now.requests) }
        ensures there { IfSome result (λ place. IsSome (arrival_of self.now place)) }
    {
        match self.queues.best(Sought::Next { lane, borrowing }) {
            Some(spot) => Some(spot.found.stamp),
            None => None,
        }
    }

    /// Takes out the request that a place names. Constant work for one that is the first of its lane's queue, as
    /// `best_for` gives it; else a pass over all.
    pub fn take(&mut self, place: usize) -> Arc<Job>
        requires there { IsSome (arrival_of self.old place) }
        ensures { IsSomeAnd (arrival_of self.old place) (IsTaken self.old self.new result) }
    {
        let spot = self.queues.named(place);
        let job = self.queues.take(spot.0, spot.1).into_job();
        self.requests -= 1;
        self.bytes -= u64::from(size_of(job.get()));
        job
    }

    /// Takes out the earliest request of a connection and id whose reply is due when it was carried out, if one
    /// waits. At most two passes over the keys of all.
    pub fn remove(&mut self, conn: ConnId, id: u32) -> Option<Arc<Job>>
        ensures { MatchOption (position (may_cancel conn id) self.old.requests)
            ((result ≡ None) × (self.new ≡ self.old))
            (λ at. IsSomeAnd result (λ job. IsTaken self.old self.new job at)) }
    {
        match self.place_to_cancel(conn, id) {
            Some(place) => Some(self.take(place)),
            None => None,
        }
    }

    /// How many requests wait.
    pub fn requests(&self) -> u32
        ensures { result ≡ length self.now.requests }
    {
        self.requests
    }

    /// How many bytes the waiting requests have together.
    pub fn bytes(&self) -> u64
        ensures { result ≡ kept_bytes self.now.requests }
    {
        self.bytes
    }

    /// How many requests of the connection wait. One pass over the keys of all.
    pub fn count_for(&self, conn: ConnId) -> usize
        ensures { result ≡ count_by (λ job. same_conn job.conn conn) self.now.requests }
    {
        self.queues.count_for(conn)
    }

    /// The place of the earliest request of a connection and id whose reply is still due.
    fn place_to_cancel(&self, conn: ConnId, id: u32) -> Option<usize>
        ensures exact { MatchOption result (position (may_cancel conn id) self.now.requests ≡ None)
            (λ place. arrival_of self.now place ≡ position (may_cancel conn id) self.now.requests) }
        ensures there { IfSome result (λ place. IsSome (arrival_of self.now place)) }
    {
        match self.queues.best(Sought::Late { conn, id }) {
            Some(spot) => Some(spot.found.stamp),
            None => None,
        }
    }
}

/// The size of a request.
fn size_of(job: &Job) -> u32
    ensures { result ≡ job.now.size }
{
    job.size
}
