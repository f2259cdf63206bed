//! The requests of a lane.
ghost use Rattle.std.specs.Prelude.{◌≡◌, ◌≤◌, ◌<◌, ◌+◌, ℕ, [], length, count_by, slice_get, slice_set, remove, Some, IfOk, IsSomeAnd, IsTrue, MatchOption};
ghost use Rattle.orb_base.specs.Conn.{same_conn};
ghost use Rattle.request_buffer.specs.Entries.{Entry, InOrder, restamped};
ghost use Rattle.request_buffer.specs.Ranks.{better};
ghost use Rattle.request_buffer.specs.Finding.{IsBestIn, NoneIn, IsPutIn, found_at};

use crate::found::Found;
use crate::sought::Sought;
use crate::waiting::Waiting;
use orb_base::{ConnId, NoMemory};
use std::alloc::Global;
use std::collections::VecDeque;
use std::marker::Model;

/// Requests by falling priority, and those of one priority by arrival.
#[derive(Drop)]
pub struct Queue {
    inner: VecDeque<Waiting>,
}

impl Model for Queue {
    ghost use Rattle.std.specs.Prelude.{◌-◌};
    ghost use Rattle.std.specs.VecDeque.{deque_len, deque_capacity};
    ghost use Rattle.orb_base.specs.Room.{Room};
    ghost use Rattle.request_buffer.specs.Entries.{Entry};

    ghost Value = { Room Entry };

    ghost view = { λ q. record { items = q.inner.items; spare = deque_capacity q.inner - deque_len q.inner } };
}

impl Queue {
    /// A queue with room for so many requests.
    pub fn new(alloc: Global, room: usize) -> Result<Queue, NoMemory>
        ensures empty { IfOk result (λ q. q.items ≡ []) }
        ensures room { IfOk result (λ q. room ≤ q.spare) }
    {
        match VecDeque::with_capacity(alloc, room) {
            Ok(inner) => Ok(Queue { inner }),
            Err(_) => Err(NoMemory),
        }
    }

    /// Puts a request after all of no lower priority.
    pub fn put(&mut self, request: Waiting)
        requires room { 0 < self.old.spare }
        requires in_order { InOrder self.old.items }
        ensures put { IsPutIn self.old.items self.new.items request }
        ensures room { self.old.spare ≤ self.new.spare + 1 }
    {
        let at = self.place_for(request.priority());
        match self.inner.insert(at, request) {
            Ok(()) => {}
            Err(_) => unreachable!(),
        }
    }

    /// Takes out the request at a position.
    pub fn take(&mut self, at: usize) -> Waiting
        requires { at < length self.old.items }
        ensures value { slice_get self.old.items at ≡ Some result }
        ensures after { self.new.items ≡ remove self.old.items at }
        ensures room { self.new.spare ≡ self.old.spare + 1 }
    {
        match self.inner.remove(at) {
            Some(request) => request,
            None => unreachable!(),
        }
    }

    /// Gives the request at a position another stamp.
    pub fn restamp(&mut self, at: usize, stamp: usize)
        requires { at < length self.old.items }
        ensures after { IsSomeAnd (slice_get self.old.items at)
            (λ e. self.new.items ≡ slice_set self.old.items at (restamped stamp e)) }
        ensures room { self.new.spare ≡ self.old.spare }
    {
        self.inner[at].restamp(stamp);
    }

    /// Whether the first request has this stamp.
    pub fn begins_with(&self, stamp: usize) -> bool
        ensures { IsTrue result → IsSomeAnd (slice_get self.now.items 0) (λ e. e.stamp ≡ stamp) }
    {
        match self.inner.front() {
            Some(request) => request.stamp() == stamp,
            None => false,
        }
    }

    /// The earliest of the requests of greatest weight that are sought.
    pub fn best(&self, sought: Sought) -> Option<Found>
        requires in_order { InOrder self.now.items }
        ensures { MatchOption result (NoneIn sought self.now.items)
            (IsBestIn sought self.now.items) }
    {
        match sought {
            Sought::Next { lane, borrowing } => self.first_for(lane, borrowing),
            other => self.earliest(other),
        }
    }

    /// How many requests of the connection there are.
    pub fn count_for(&self, conn: ConnId) -> usize
        ensures { result ≡ count_by (λ e. same_conn e.job.conn conn) self.now.items }
    {
        self.inner
            .iter()
            .filter(|request| request.is_of(conn))
            .count()
    }
}

impl Queue {
    /// Where a request of this priority goes: after all of no lower priority.
    fn place_for(&self, priority: u16) -> usize
        requires in_order { InOrder self.now.items }
        ensures within { result ≤ length self.now.items }
        ensures before { (k : ℕ) (e : Entry) → k < result → slice_get self.now.items k ≡ Some e
            → priority ≤ e.job.priority }
        ensures after { (k : ℕ) (e : Entry) → result ≤ k → slice_get self.now.items k ≡ Some e
            → e.job.priority < priority }
    {
        self.inner
            .partition_point(|request| priority <= request.priority())
    }

    /// The first request that a thread of the lane may run.
    fn first_for(&self, lane: u8, borrowing: bool) -> Option<Found>
        requires in_order { InOrder self.now.items }
        ensures { MatchOption result (NoneIn (Sought.Next lane borrowing) self.now.items)
            (IsBestIn (Sought.Next lane borrowing) self.now.items) }
    {
        let sought = Sought::Next { lane, borrowing };
        for at in 0..self.inner.len() {
            let request = &self.inner[at];
            if request.is_sought(sought) {
                return Some(found_at(at, request, sought));
            }
        }
        None
    }

    /// The best of all that are sought, by one pass.
    fn earliest(&self, sought: Sought) -> Option<Found>
        ensures { MatchOption result (NoneIn sought self.now.items)
            (IsBestIn sought self.now.items) }
    {
        let mut best = None;
        for at in 0..self.inner.len() {
            let request = &self.inner[at];
            if request.is_sought(sought) {
                best = Some(better(best, found_at(at, request, sought)));
            }
        }
        best
    }
}

/// The better of two, where there are two.
fn better(best: Option<Found>, found: Found) -> Found
    ensures { result ≡ better best found }
{
    match best {
        Some(first) => { if first.is_ahead(found) { first } else { found } }
        None => found,
    }
}

/// What a search says of a request at a position.
fn found_at(at: usize, request: &Waiting, sought: Sought) -> Found
    ensures { result ≡ found_at sought at request.now }
{
    Found {
        at,
        weight: request.weight(sought),
        stamp: request.stamp(),
    }
}
