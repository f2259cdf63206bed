//! The machine of one pool, whose callers keep its counts small.
//!
//! A call that fails when out of memory leaves the machine as it was: what takes memory comes before what changes.
ghost use Rattle.std.specs.Prelude.{◌≡◌, ◌<◌, ◌≤◌, ◌+◌, ◌^◌, length, ◌==◌, ◌&&◌, ◌||◌, is_some, slice_get, IfOk, OnOk, OnErr, ◌∷◌, []};
ghost use Rattle.std.specs.Bool.{OnFalse};
ghost use Rattle.thread_borrowing.specs.ThreadList.{first_given};
ghost use Rattle.lane_machine.specs.State.{CanOpen, opening};
ghost use Rattle.lane_machine.specs.Machine.{step, item_place, end_of, is_over, heard, add_items};
ghost use Rattle.lane_machine.specs.Readiness.{owed, can_take, IsSound};
ghost use Rattle.lane_machine.specs.Bounds.{IsBounded};
ghost use Rattle.lane_machine.specs.Histories.{Steps};

use crate::call::{How, LaneCall, LaneReply};
use crate::look;
use orb_base::limits::{MAX_OWED, MAX_THREADS};
use orb_base::{ConnId, Item, List, NoMemory, PoolSpec};
use request_buffer::Buffer;
use std::alloc::Global;
use std::marker::Model;
use thread_borrowing::{Task, Threads};

mod finishing;
mod handing;
mod offering;
mod reading;

/// The items that one connection may be owed: an early reply can pass the limit before an Offer by two.
const MAX_ITEMS: usize = MAX_OWED + 2;

/// The threads of a pool, the requests that wait, and what is owed to the connections of its slots.
#[derive(Drop)]
pub struct Machine {
    pub(super) pool: PoolSpec,
    slots: u8,
    per_slot: u8,
    pub(super) threads: Threads,
    waiting: Buffer,
    out: List<Item>,
    pub(super) ended: List<(ConnId, How)>,
    told: List<ConnId>,
    pub(super) left: List<u8>,
    calls: u32,
    bytes: u64,
    closing: bool,
}

impl Model for Machine {
    ghost use Rattle.lane_machine.specs.State.{State};
    ghost use Rattle.lane_machine.specs.Bounds.{HasLimits};

    ghost Value = { State };

    ghost view = { λ m. record {
      pool = m.pool;
      slots = m.slots;
      per_slot = m.per_slot;
      threads = m.threads;
      waiting = m.waiting.requests;
      out = m.out.items;
      ended = m.ended.items;
      told = m.told.items;
      left = m.left.items;
      calls = m.calls;
      bytes = m.bytes;
      closing = m.closing;
    } };

    ghost invariant = { λ m. HasLimits m.pool m.waiting };
}

impl Machine {
    /// Opens the machine over a pool. Takes the memory of every list at once.
    pub fn new(alloc: Global, pool: &PoolSpec, slots: u8, per_slot: u8) -> Result<Machine, NoMemory>
        requires can { CanOpen pool.now slots per_slot }
        ensures { IfOk result (λ m. m ≡ opening pool.now slots per_slot) }
    {
        let connections = usize::from(slots) * usize::from(per_slot);
        Ok(Machine {
            pool: pool.copy(alloc)?,
            slots,
            per_slot,
            threads: Threads::new(alloc, pool)?,
            waiting: Buffer::new(alloc, pool.max_requests, pool.max_bytes)?,
            out: with_room(alloc, connections * MAX_ITEMS)?,
            ended: with_room(alloc, connections)?,
            told: with_room(alloc, connections)?,
            left: with_room(alloc, usize::from(slots))?,
            calls: 0,
            bytes: 0,
            closing: false,
        })
    }

    /// Answers a call, with the reply twice.
    #[tactic(auto, using(crate::proofs::Machines::is_within, crate::proofs::Machines::few_after))]
    pub fn apply(&mut self, call: &LaneCall) -> Result<(LaneReply, LaneReply), NoMemory>
        requires sound { IsSound self.old call.now }
        requires bounded { IsBounded self.old }
        ensures { Steps self.old (step self.old call.now) self.new result }
    {
        match call {
            LaneCall::Offer(job) => self.offer(job),
            LaneCall::Post(notice) => self.post(*notice),
            LaneCall::Cancel { conn, id } => self.cancel(*conn, *id),
            LaneCall::Take { thread } => self.take(*thread),
            LaneCall::Finish { thread, answer } => self.finish(*thread, answer),
            LaneCall::Collect { conn } => self.collect(*conn),
            LaneCall::End { conn, how } => self.end(*conn, *how),
            LaneCall::Leave { slot } => self.leave(*slot),
        }
    }

    /// How many threads there are.
    pub fn count_threads(&self) -> usize
        ensures value { result ≡ length self.now.threads }
        ensures few { result ≤ MAX_THREADS }
    {
        self.threads.count()
    }

    /// Whether the run is closing.
    pub fn is_closing(&self) -> bool
        ensures { result ≡ self.now.closing }
    {
        self.closing
    }

    /// What is owed to a connection, in so many bits that no sum of counts wraps.
    #[tactic(auto, unfolding(crate::specs::Readiness::owed))]
    pub fn owed(&self, conn: ConnId) -> u128
        ensures { result ≡ owed self.now conn }
    {
        let waiting = self.waiting.count_for(conn) as u128;
        let at_work = self.threads.count_for(conn) as u128;
        waiting + at_work + look::count_items(self.out.as_slice(), conn) as u128
    }

    /// Whether a thread has a task to take, or will have none any more.
    pub fn can_take(&self, thread: u8) -> bool
        ensures { result ≡ can_take self.now (slice_get self.now.threads thread) }
    {
        if usize::from(thread) >= self.threads.count() {
            return false;
        }
        match self.threads.task(thread) {
            Task::Given => true,
            Task::Free => look::all_left(self.left.as_slice(), self.slots),
            Task::Busy => false,
        }
    }

    /// The first thread with a task that it hasn't taken yet.
    pub fn first_given(&self) -> Option<u8>
        ensures { result ≡ first_given self.now.threads }
    {
        self.threads.first_given()
    }

    /// Whether a message is owed to the connection.
    pub fn has_item(&self, conn: ConnId) -> bool
        ensures { result ≡ is_some (item_place self.now conn) }
    {
        look::first_item(self.out.as_slice(), conn).is_some()
    }

    /// Whether the connection ended, or the run is closing.
    pub fn is_ending(&self, conn: ConnId) -> bool
        ensures { result ≡ (is_some (end_of self.now conn) || self.now.closing) }
    {
        look::how_ended(self.ended.as_slice(), conn).is_some() || self.closing
    }

    /// Whether a limit of the run is met.
    fn is_over(&self, size: u32) -> bool
        ensures value { result ≡ is_over self.now size }
        ensures calls { OnFalse result (self.now.calls + 1 < 2 ^ 32) }
        ensures bytes { OnFalse result (self.now.bytes + size < 2 ^ 64) }
    {
        let size = u64::from(size);
        self.closing
            || self.pool.run_calls <= self.calls
            || self.pool.run_bytes < self.bytes
            || self.pool.run_bytes - self.bytes < size
    }

    /// A call is heard, with the bytes of its request.
    fn hear(&mut self, size: u32)
        requires calls { self.old.calls + 1 < 2 ^ 32 }
        requires bytes { self.old.bytes + size < 2 ^ 64 }
        ensures { self.new ≡ heard self.old size }
    {
        self.calls += 1;
        self.bytes += u64::from(size);
    }

    /// Owes an item.
    fn owe(&mut self, item: Item) -> Result<(), NoMemory>
        ensures ok { OnOk result (self.new ≡ add_items self.old (item ∷ [])) }
        ensures err { OnErr result (self.new ≡ self.old) }
    {
        match self.out.push(item) {
            Ok(()) => Ok(()),
            Err(_) => Err(NoMemory),
        }
    }
}

/// An empty list with room for so many items.
fn with_room<T: Drop>(alloc: Global, count: usize) -> Result<List<T>, NoMemory>
    ensures { IfOk result (λ list. list.items ≡ []) }
{
    let mut list = List::new(alloc);
    list.reserve(count)?;
    Ok(list)
}
