//! The judge of entries, one after another.
ghost use Rattle.std.specs.Prelude.{◌≡◌, ◌≤◌, ◌||◌, nat_le, IfOk};
ghost use Rattle.orb_base.specs.declared.limits.TheConstants.{MAX_OWED};
ghost use Rattle.lane_machine.specs.State.{CanOpen, opening};
ghost use Rattle.lane_machine.specs.Readiness.{owed};
ghost use Rattle.lane_machine.specs.declared.call.LaneCall.TheVariants as call;
ghost use Rattle.lane_machine.specs.declared.call.LaneReply.TheVariants as reply;
ghost use Rattle.trace_lines.specs.ReadBack.{notice_of, answer_of, reply_of_offer, reply_of_post, reply_of_cancel};
ghost use Rattle.lane_audit.specs.Counting.{offer_brings, admitted_brings, refused_brings, post_brings};
ghost use Rattle.lane_audit.specs.Endings.{reply_of_ending};
ghost use Rattle.lane_audit.specs.Verdicts.{Judges, task_reply};

use crate::asked::Asked;
use crate::counts::Counts;
use crate::ending::Ending;
use crate::lists::Lists;
use crate::owed_item::OwedItem;
use lane_machine::How;
use orb_base::limits::{MAX_BODY, MAX_OWED};
use orb_base::{ConnId, Due, NoMemory, PoolSpec};
use std::alloc::Global;
use std::marker::Model;
use trace_lines::{CancelReply, OfferReply, PostReply};

/// The state of the lane machine along a trace, as plain lists, with how much is owed to each connection beside them.
#[derive(Drop)]
pub struct Desk {
    lists: Lists,
    counts: Counts,
}

impl Model for Desk {
    ghost use Rattle.lane_machine.specs.State.{State};
    ghost use Rattle.lane_audit.specs.Counting.{IsCounted};

    ghost Value = { State };

    ghost view = { λ d. d.lists };

    ghost invariant = { λ d. IsCounted d.lists d.counts };
}

impl Desk {
    /// The desk at the opening of a run.
    pub fn new(alloc: Global, pool: &PoolSpec, slots: u8, per_slot: u8) -> Result<Desk, NoMemory>
        requires can { CanOpen pool.now slots per_slot }
        ensures { IfOk result (λ d. d ≡ opening pool.now slots per_slot) }
    {
        let lists = Lists::new(alloc, pool, slots, per_slot)?;
        let counts = Counts::new(alloc)?;
        Ok(Desk { lists, counts })
    }

    /// A request is offered. Work grows with the threads.
    pub fn offer(&mut self, asked: Asked, reply: OfferReply) -> Result<bool, NoMemory>
        ensures { IfOk result (λ right. Judges self.old (call.Offer asked) (reply_of_offer reply) self.new right) }
    {
        if !self.may_hear(asked.conn()) || !self.lists.has_lane(&asked) {
            return Ok(false);
        }
        if !self.lists.offer(asked, reply)? {
            return Ok(false);
        }
        self.counts
            .add(asked.conn(), offer_brings(asked.due(), reply));
        Ok(true)
    }

    /// The reading side of a connection answers by itself. Constant work.
    pub fn post(&mut self, conn: ConnId, id: u32, reply: PostReply) -> Result<bool, NoMemory>
        ensures { IfOk result (λ right. Judges self.old (call.Post (notice_of conn id)) (reply_of_post reply) self.new right) }
    {
        if !self.may_hear(conn) {
            return Ok(false);
        }
        if !self.lists.post(conn, id, reply)? {
            return Ok(false);
        }
        self.counts.add(conn, post_brings(reply));
        Ok(true)
    }

    /// A client withdraws a request. Work grows with what waits, unless the run is closing.
    pub fn cancel(&mut self, conn: ConnId, id: u32, reply: CancelReply) -> bool
        ensures { Judges self.old (call.Cancel conn id) (reply_of_cancel reply) self.new result }
    {
        if !self.lists.cancel(conn, id, reply) {
            return false;
        }
        if matches!(reply, CancelReply::Removed) {
            self.counts.take_one(conn);
        }
        true
    }

    /// A thread asks for its task. Work grows with the slots.
    pub fn take(&mut self, thread: u8, task: Option<Asked>) -> bool
        ensures { Judges self.old (call.Take thread) (task_reply task) self.new result }
    {
        if !self.lists.can_take(thread) {
            return false;
        }
        self.lists.take(thread, task)
    }

    /// A thread has carried out a request, whose answer has a body of so many bytes. Work grows with what waits.
    pub fn finish(&mut self, thread: u8, asked: Asked, body_len: usize) -> Result<bool, NoMemory>
        ensures { IfOk result (λ right.
            Judges self.old (call.Finish thread (answer_of asked body_len)) reply.Finished self.new right) }
    {
        if body_len > MAX_BODY || !self.lists.is_busy_with(thread, &asked) {
            return Ok(false);
        }
        self.lists.finish(thread, asked, body_len)?;
        if !matches!(asked.due(), Due::Late) {
            self.counts.take_one(asked.conn());
        }
        Ok(true)
    }

    /// A writing side is handed a message. Work grows with what is owed to all connections.
    pub fn hand(&mut self, conn: ConnId, item: &OwedItem) -> bool
        ensures { Judges self.old (call.Collect conn) (reply.Handed item.now) self.new result }
    {
        if !self.lists.hand(conn, item) {
            return false;
        }
        self.counts.take_one(conn);
        true
    }

    /// A writing side is told that nothing is owed any more. Work grows with the connections that ended.
    pub fn finish_collecting(&mut self, conn: ConnId, ending: Ending) -> Result<bool, NoMemory>
        ensures { IfOk result (λ right. Judges self.old (call.Collect conn) (reply_of_ending ending) self.new right) }
    {
        if self.owed(conn) != 0 || !(self.lists.has_ended(conn) || self.lists.is_closing()) {
            return Ok(false);
        }
        self.lists.finish_collecting(conn, ending)
    }

    /// A connection's reading side has ended. Work grows with the connections that ended.
    pub fn end(&mut self, conn: ConnId, how: How) -> Result<bool, NoMemory>
        ensures { IfOk result (λ right. Judges self.old (call.End conn how) reply.Noted self.new right) }
    {
        if self.lists.has_ended(conn) {
            return Ok(false);
        }
        self.lists.end(conn, how)?;
        Ok(true)
    }

    /// A slot will read no connection any more. Work grows with the slots that left.
    pub fn leave(&mut self, slot: u8) -> Result<bool, NoMemory>
        ensures { IfOk result (λ right. Judges self.old (call.Leave slot) reply.Noted self.new right) }
    {
        if self.lists.has_left(slot) {
            return Ok(false);
        }
        self.lists.leave(slot)?;
        Ok(true)
    }

    /// What is owed to a connection. Constant work for one that a run may have.
    fn owed(&self, conn: ConnId) -> u128
        ensures { result ≡ owed self.now conn }
    {
        match self.counts.get(conn) {
            Some(count) => u128::from(count),
            None => self.lists.owed(conn),
        }
    }

    /// Whether a connection may be owed more, or is to be told that the run is closing.
    fn may_hear(&self, conn: ConnId) -> bool
        ensures { result ≡ (self.now.closing || nat_le (owed self.now conn) MAX_OWED) }
    {
        self.lists.is_closing() || self.owed(conn) <= MAX_OWED as u128
    }
}

/// How much more is owed after an Offer with this reply.
fn offer_brings(due: Due, reply: OfferReply) -> u8
    ensures value { result ≡ offer_brings due reply }
    ensures few { result ≤ 2 }
{
    match reply {
        OfferReply::Run(_) => admitted_brings(due),
        OfferReply::Lent(_) => admitted_brings(due),
        OfferReply::Kept => admitted_brings(due),
        OfferReply::Full => refused_brings(due),
        OfferReply::Closing => 0,
    }
}

/// How much more is owed for a request that was admitted: the request, and the reply that it asks for at once.
fn admitted_brings(due: Due) -> u8
    ensures value { result ≡ admitted_brings due }
    ensures few { result ≤ 2 }
{
    match due {
        Due::Nothing => 1,
        Due::Early => 2,
        Due::Late => 1,
    }
}

/// How much more is owed for a request that was refused.
fn refused_brings(due: Due) -> u8
    ensures value { result ≡ refused_brings due }
    ensures few { result ≤ 2 }
{
    match due {
        Due::Nothing => 0,
        Due::Early => 1,
        Due::Late => 1,
    }
}

/// How much more is owed after a Post with this reply.
fn post_brings(reply: PostReply) -> u8
    ensures value { result ≡ post_brings reply }
    ensures few { result ≤ 2 }
{
    match reply {
        PostReply::Posted => 1,
        PostReply::Closing => 0,
    }
}
