//! The lane machine, as its callers see it.
ghost use Rattle.std.specs.Prelude.{◌≡◌, ◌≤◌, ◌==◌, ◌&&◌, ◌||◌, nat_le, is_some, length, IfOk, true};
ghost use Rattle.thread_borrowing.specs.ThreadList.{first_given};
ghost use Rattle.lane_machine.specs.State.{CanOpen, opening};
ghost use Rattle.lane_machine.specs.Machine.{step, end_of, item_place};
ghost use Rattle.lane_machine.specs.Readiness.{is_ready, IsSound, owed};
ghost use Rattle.lane_machine.specs.Histories.{Steps};

use crate::call::{LaneCall, LaneReply};
use crate::look;
use crate::machine::Machine;
use orb_base::limits::{MAX_OWED, MAX_SLOTS, MAX_THREADS};
use orb_base::{ConnId, Due, Job, NoMemory, PoolSpec};
use std::alloc::Global;
use std::marker::Model;
use turn_cell::Object;

#[cfg(test)]
mod tests;

/// The bells of a turn cell.
const BELLS: u32 = 64;

/// The bells of one side of all slots.
const SLOTS: u32 = MAX_SLOTS as u32;

/// The lane machine: the threads of a pool, the requests that wait for them, what is owed to the connections of its
/// slots, and the counts of its run (Real-time CORBA 1.2, Threadpools).
#[derive(Drop)]
pub struct Lanes {
    machine: Machine,
}

impl Model for Lanes {
    ghost use Rattle.lane_machine.specs.State.{State};
    ghost use Rattle.lane_machine.specs.Bounds.{IsBounded};

    ghost Value = { State };

    ghost view = { λ l. l.machine };

    ghost invariant = { λ l. IsBounded l.machine };
}

impl Lanes {
    /// Opens the machine over a pool. Takes memory for the threads, the buffer, a copy of the pool, and every list that
    /// a run of so many slots and connections per slot may fill.
    pub fn new(alloc: Global, pool: &PoolSpec, slots: u8, per_slot: u8) -> Result<Lanes, NoMemory>
        requires can { CanOpen pool.now slots per_slot }
        ensures { IfOk result (λ l. l ≡ opening pool.now slots per_slot) }
    {
        Ok(Lanes {
            machine: Machine::new(alloc, pool, slots, per_slot)?,
        })
    }

    /// How many threads the pool has, at most 64.
    pub fn count_threads(&self) -> usize
        ensures value { result ≡ length self.now.threads }
        ensures few { result ≤ MAX_THREADS }
    {
        self.machine.count_threads()
    }

    /// The first thread, by number, with a task that it hasn't taken yet. One pass over the threads.
    pub fn first_given(&self) -> Option<u8>
        ensures { result ≡ first_given self.now.threads }
    {
        self.machine.first_given()
    }

    /// Whether the run is closing, for a limit that it met.
    pub fn is_closing(&self) -> bool
        ensures { result ≡ self.now.closing }
    {
        self.machine.is_closing()
    }

    /// Whether a message is at hand for the connection. One pass over what is owed to all connections.
    pub fn has_item(&self, conn: ConnId) -> bool
        ensures { result ≡ is_some (item_place self.now conn) }
    {
        self.machine.has_item(conn)
    }

    /// Whether the call is answered now; else it waits. Takes no memory. Work grows with the threads, with what waits,
    /// with what is owed to all connections, and with the connections that ended.
    pub fn ready(&self, call: &LaneCall) -> bool
        ensures { result ≡ is_ready self.now call.now }
    {
        match call {
            LaneCall::Offer(job) => self.may_hear(look::caller_of(job.get())),
            LaneCall::Post(notice) => self.may_hear(notice.conn),
            LaneCall::Cancel { .. } => true,
            LaneCall::Take { thread } => self.machine.can_take(*thread),
            LaneCall::Finish { .. } => true,
            LaneCall::Collect { conn } => self.machine.has_item(*conn) || self.is_done_with(*conn),
            LaneCall::End { .. } => true,
            LaneCall::Leave { .. } => true,
        }
    }

    /// Answers a call, with the reply twice: one for the history, one for the caller. When out of memory nothing
    /// changes. Takes memory for shares of what the call, the reply or an item holds, before the first change. Work
    /// grows as that of `ready`; a Collect moves the items after the one that it hands out.
    pub fn apply(&mut self, call: &LaneCall) -> Result<(LaneReply, LaneReply), NoMemory>
        requires ready { is_ready self.old call.now ≡ true }
        requires sound { IsSound self.old call.now }
        ensures { Steps self.old (step self.old call.now) self.new result }
    {
        self.machine.apply(call)
    }

    /// Whether a connection may be owed more, or is to be told that the run is closing.
    fn may_hear(&self, conn: ConnId) -> bool
        ensures { result ≡ (self.now.closing || nat_le (owed self.now conn) MAX_OWED) }
    {
        self.machine.is_closing() || self.machine.owed(conn) <= MAX_OWED as u128
    }

    /// Whether nothing is owed to the connection any more, and its ending is to be given.
    fn is_done_with(&self, conn: ConnId) -> bool
        ensures { let s = self.now in
            result ≡ ((owed s conn == 0) && (is_some (end_of s conn) || s.closing)) }
    {
        self.machine.is_ending(conn) && self.machine.owed(conn) == 0
    }
}

impl Object for Lanes {
    ghost use Rattle.lane_machine.specs.State.{Opens};
    ghost use Rattle.lane_machine.specs.Machine.{step};
    ghost use Rattle.lane_machine.specs.Readiness.{is_ready, IsSound};
    ghost use Rattle.lane_machine.specs.Callers.{heir, IsFit};
    ghost use Rattle.lane_machine.specs.SeatHeirs.{one_parent_of, never_first_of};
    ghost use Rattle.lane_machine.specs.SeatLaws.{enough};

    type Call = LaneCall;

    type Reply = LaneReply;

    ghost ready = { is_ready };

    ghost sound = { IsSound };

    ghost step = { step };

    ghost opens = { Opens };

    ghost heir = { heir };

    ghost fit = { IsFit };

    fn ready(&self, call: &LaneCall) -> bool {
        Lanes::ready(self, call)
    }

    fn apply(&mut self, call: &LaneCall) -> Result<(LaneReply, LaneReply), NoMemory> {
        Lanes::apply(self, call)
    }

    fn heir_of(n: u32, k: u32) -> Option<u32> {
        if n == 0 {
            return if k < 80 { Some(k + 1) } else { None };
        }
        if n <= 16 && k < 128 {
            Some(81 + 128 * (n - 1) + k)
        } else {
            None
        }
    }

    /// Each thread sleeps at a bell of its own. So do the two sides of a slot's connection, at bells that only threads of
    /// a great pool share.
    fn bell_of(call: &LaneCall) -> u32 {
        match call {
            LaneCall::Offer(job) => reader_bell(job.get().conn),
            LaneCall::Post(notice) => reader_bell(notice.conn),
            LaneCall::Take { thread } => thread_bell(*thread),
            LaneCall::Collect { conn } => writer_bell(*conn),
            LaneCall::Cancel { conn, .. } => reader_bell(*conn),
            LaneCall::End { conn, .. } => reader_bell(*conn),
            LaneCall::Finish { thread, .. } => thread_bell(*thread),
            LaneCall::Leave { .. } => 0,
        }
    }

    /// A request that a thread is given rings the thread; what is owed to a connection, or isn't any more, rings its
    /// sides; a run that closes and a slot that leaves ring all.
    fn rings(&self, call: &LaneCall, reply: &LaneReply, bell: u32) -> bool {
        if matches!(reply, LaneReply::Closing) {
            return true;
        }
        match call {
            LaneCall::Offer(job) => {
                is_given(reply, bell)
                    || bell == writer_bell(job.get().conn) && is_answered(job.get(), reply)
            }
            LaneCall::Post(notice) => bell == writer_bell(notice.conn),
            LaneCall::Cancel { conn, .. } => bell == writer_bell(*conn),
            LaneCall::Take { .. } => false,
            LaneCall::Finish { answer, .. } => {
                let conn = answer.job.get().conn;
                bell == writer_bell(conn) || bell == reader_bell(conn)
            }
            LaneCall::Collect { conn } => bell == reader_bell(*conn),
            LaneCall::End { conn, .. } => bell == writer_bell(*conn),
            LaneCall::Leave { .. } => true,
        }
    }

    ghost one_parent = { one_parent_of };

    ghost never_first = { never_first_of };

    ghost enough = { enough };
}

/// The bell of a thread.
fn thread_bell(thread: u8) -> u32 {
    u32::from(thread) % BELLS
}

/// The bell of the writing side of a slot's connection.
fn writer_bell(conn: ConnId) -> u32 {
    BELLS - 1 - u32::from(conn.slot) % SLOTS
}

/// The bell of the reading side of a slot's connection.
fn reader_bell(conn: ConnId) -> u32 {
    BELLS - 1 - SLOTS - u32::from(conn.slot) % SLOTS
}

/// Whether a thread was given the request, and it is the thread's bell.
fn is_given(reply: &LaneReply, bell: u32) -> bool {
    match reply {
        LaneReply::Run { thread, .. } => bell == thread_bell(*thread),
        _ => false,
    }
}

/// Whether a request that was offered is answered at once: where its reply is due early, and where it was refused.
fn is_answered(job: &Job, reply: &LaneReply) -> bool {
    matches!(job.due, Due::Early) || matches!(reply, LaneReply::Full)
}
