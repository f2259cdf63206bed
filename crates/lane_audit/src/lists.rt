//! The state of the lane machine as plain lists.
//!
//! A call that fails when out of memory, or whose reply is not the step's, leaves the lists as they were.
ghost use Rattle.std.specs.Prelude.{◌≡◌, ◌<◌, ◌+◌, ◌^◌, ℕ, ◌∷◌, [], true, length, ◌≤◌, slice_get, is_some, IfOk, OnOk, OnErr, IsTrue, ◌↔◌};
ghost use Rattle.std.specs.Bool.{OnTrue, OnFalse};
ghost use Rattle.orb_base.specs.declared.limits.TheConstants.{MAX_LANES};
ghost use Rattle.lane_machine.specs.State.{opening};
ghost use Rattle.lane_machine.specs.Machine.{is_over, heard, add_items, end_of};
ghost use Rattle.lane_machine.specs.Readiness.{owed, has_left, can_take, HasLane, IsBusyWith};
ghost use Rattle.trace_lines.specs.ReadBack.{answer_of};
ghost use Rattle.lane_audit.specs.Owing.{item_of};

use crate::asked::Asked;
use crate::owed_item::{Owed, OwedItem};
use crate::scans;
use crate::waiting::Waiting;
use crate::worker::{Work, Worker};
use crate::workers::pool_workers;
use lane_machine::How;
use orb_base::{ConnId, List, NoMemory, PoolSpec};
use std::alloc::Global;
use std::marker::Model;

mod handing;
mod offering;
mod reading;
mod working;

/// The threads of a pool, the requests that wait, what is owed to connections, which of them ended and were told so, which slots left,
/// and the counts of a run.
#[derive(Drop)]
pub struct Lists {
    pool: PoolSpec,
    slots: u8,
    per_slot: u8,
    threads: List<Worker>,
    waiting: Waiting,
    out: List<OwedItem>,
    ended: List<(ConnId, How)>,
    told: List<ConnId>,
    left: List<u8>,
    calls: u32,
    bytes: u64,
    closing: bool,
}

impl Model for Lists {
    ghost use Rattle.lane_machine.specs.State.{State};

    ghost Value = { State };

    ghost view = { λ l. record {
      pool = l.pool;
      slots = l.slots;
      per_slot = l.per_slot;
      threads = l.threads.items;
      waiting = l.waiting;
      out = l.out.items;
      ended = l.ended.items;
      told = l.told.items;
      left = l.left.items;
      calls = l.calls;
      bytes = l.bytes;
      closing = l.closing;
    } };
}

impl Lists {
    /// The lists at the opening of a run.
    pub fn new(alloc: Global, pool: &PoolSpec, slots: u8, per_slot: u8) -> Result<Lists, NoMemory>
        requires few { length pool.now.lanes ≤ MAX_LANES }
        ensures { IfOk result (λ l. l ≡ opening pool.now slots per_slot) }
    {
        Ok(Lists {
            pool: pool.copy(alloc)?,
            slots,
            per_slot,
            threads: pool_workers(alloc, pool.lanes.as_slice())?,
            waiting: Waiting::new(alloc),
            out: List::new(alloc),
            ended: List::new(alloc),
            told: List::new(alloc),
            left: List::new(alloc),
            calls: 0,
            bytes: 0,
            closing: false,
        })
    }

    /// Whether the run is closing.
    pub fn is_closing(&self) -> bool
        ensures { result ≡ self.now.closing }
    {
        self.closing
    }

    /// What is owed to a connection. One pass over what waits, the threads and what is owed.
    #[tactic(auto, unfolding(lane_machine::specs::Readiness::owed))]
    pub fn owed(&self, conn: ConnId) -> u128
        ensures { result ≡ owed self.now conn }
    {
        let waiting = self.waiting.count_for(conn) as u128;
        let at_work = scans::count_workers(self.threads.as_slice(), conn) as u128;
        waiting + at_work + scans::count_items(self.out.as_slice(), conn) as u128
    }

    /// Whether a slot left.
    pub fn has_left(&self, slot: u8) -> bool
        ensures { result ≡ has_left self.now slot }
    {
        scans::has_left(self.left.as_slice(), slot)
    }

    /// Whether a connection ended.
    pub fn has_ended(&self, conn: ConnId) -> bool
        ensures { result ≡ is_some (end_of self.now conn) }
    {
        scans::how_ended(self.ended.as_slice(), conn).is_some()
    }

    /// Whether a thread has a task to take, or will have none any more.
    pub fn can_take(&self, thread: u8) -> bool
        ensures { result ≡ can_take self.now (slice_get self.now.threads thread) }
    {
        match self.threads.get(usize::from(thread)) {
            Some(worker) => match worker.work() {
                Work::Given(_) => true,
                Work::Free => scans::all_left(self.left.as_slice(), self.slots),
                Work::Busy(_) => false,
            },
            None => false,
        }
    }

    /// Whether a thread carries out the request.
    pub fn is_busy_with(&self, thread: u8, asked: &Asked) -> bool
        ensures { (len : ℕ) → IsTrue result ↔ IsBusyWith (answer_of asked.now len) (slice_get self.now.threads thread) }
    {
        match self.threads.get(usize::from(thread)) {
            Some(worker) => match worker.work() {
                Work::Busy(other) => other.is_same(asked),
                _ => false,
            },
            None => false,
        }
    }

    /// Whether the request's lane is there, and with lanes has its priority.
    pub fn has_lane(&self, asked: &Asked) -> bool
        ensures { IsTrue result ↔ HasLane self.now.pool.laned asked.now (slice_get self.now.pool.lanes asked.now.lane) }
    {
        match self.pool.lanes.get(usize::from(asked.lane())) {
            Some(lane) => !self.pool.laned || lane.priority == asked.priority(),
            None => false,
        }
    }

    /// Whether a thread may run a request of a higher lane.
    fn borrowing(&self) -> bool
        ensures { result ≡ self.now.pool.borrowing }
    {
        self.pool.borrowing
    }

    /// Whether a limit of the run is met.
    fn is_over(&self, size: u32) -> bool
        ensures value { result ≡ is_over self.now size }
        ensures calls { OnFalse result (self.now.calls + 1 < 2 ^ 32) }
        ensures bytes { OnFalse result (self.now.bytes + size < 2 ^ 64) }
    {
        let size = u64::from(size);
        self.closing
            || self.pool.run_calls <= self.calls
            || self.pool.run_bytes < self.bytes
            || self.pool.run_bytes - self.bytes < size
    }

    /// From now on the run is closing, if a limit of it is met.
    fn close_if_over(&mut self, size: u32) -> bool
        ensures value { result ≡ is_over self.old size }
        ensures over { OnTrue result (self.new ≡ record self.old { closing = true }) }
        ensures within { OnFalse result (self.new ≡ self.old) }
    {
        if self.is_over(size) {
            self.closing = true;
            return true;
        }
        false
    }

    /// A call is heard, with the bytes of its request.
    fn hear(&mut self, size: u32)
        requires calls { self.old.calls + 1 < 2 ^ 32 }
        requires bytes { self.old.bytes + size < 2 ^ 64 }
        ensures { self.new ≡ heard self.old size }
    {
        self.calls += 1;
        self.bytes += u64::from(size);
    }

    /// Owes a message.
    fn owe(&mut self, owed: Owed) -> Result<(), NoMemory>
        ensures ok { OnOk result (self.new ≡ add_items self.old (item_of owed ∷ [])) }
        ensures err { OnErr result (self.new ≡ self.old) }
    {
        match self.out.push(OwedItem::new(owed)) {
            Ok(()) => Ok(()),
            Err(_) => Err(NoMemory),
        }
    }
}
