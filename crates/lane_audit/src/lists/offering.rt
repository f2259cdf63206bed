//! Requests that are offered: to a thread, to those that wait, or refused.
ghost use Rattle.std.specs.Prelude.{◌≡◌, ◌<◌, ◌+◌, ◌^◌, ◌++◌, ◌↔◌, true, false, slice_get, IsTrue, OnOk, OnErr};
ghost use Rattle.thread_borrowing.specs.Choice.{chosen_thread};
ghost use Rattle.request_buffer.specs.Kept.{kept_bytes};
ghost use Rattle.lane_machine.specs.Machine.{step, placed, run_by, kept_or_full, may_wait, heard, early_items, refusals, add_items};
ghost use Rattle.lane_machine.specs.declared.call.LaneCall.TheVariants as call;
ghost use Rattle.lane_machine.specs.declared.call.LaneReply.TheVariants as told;
ghost use Rattle.trace_lines.specs.ReadBack.{reply_of_offer};
ghost use Rattle.lane_audit.specs.Verdicts.{Tries};

use crate::asked::Asked;
use crate::lists::Lists;
use crate::owed_item::{Owed, OwedItem};
use crate::scans;
use orb_base::{Due, List, NoMemory};
use trace_lines::OfferReply;

impl Lists {
    /// A request is to be run.
    pub fn offer(&mut self, asked: Asked, reply: OfferReply) -> Result<bool, NoMemory>
        ensures { Tries self.old (step self.old (call.Offer asked)) (reply_of_offer reply) self.new result }
    {
        if matches!(reply, OfferReply::Closing) {
            return Ok(self.close_if_over(asked.size()));
        }
        if self.is_over(asked.size()) {
            return Ok(false);
        }
        self.place(asked, reply)
    }

    /// Gives the request to the chosen thread, keeps it, or refuses it.
    fn place(&mut self, asked: Asked, reply: OfferReply) -> Result<bool, NoMemory>
        requires calls { self.old.calls + 1 < 2 ^ 32 }
        requires bytes { self.old.bytes + asked.size < 2 ^ 64 }
        ensures { let chosen = chosen_thread self.old.pool.borrowing asked.lane self.old.threads in
            Tries self.old (placed (heard self.old asked.size) asked chosen) (reply_of_offer reply) self.new result }
    {
        match scans::chosen_thread(self.threads.as_slice(), self.pool.borrowing, asked.lane()) {
            Some(at) => self.run(at, asked, reply),
            None => self.keep_or_refuse(asked, reply),
        }
    }

    /// Gives the request to the thread of this number.
    fn run(&mut self, at: usize, asked: Asked, reply: OfferReply) -> Result<bool, NoMemory>
        requires calls { self.old.calls + 1 < 2 ^ 32 }
        requires bytes { self.old.bytes + asked.size < 2 ^ 64 }
        ensures { let s = heard self.old asked.size in
            Tries self.old (run_by s asked at (slice_get s.threads at)) (reply_of_offer reply) self.new result }
    {
        match self.threads.get(at) {
            Some(thread) => {
                let lent = thread.lane() != asked.lane();
                let given = thread.given(asked);
                if !is_run(reply, at, lent) {
                    return Ok(false);
                }
                self.owe_early(asked)?;
                self.threads.replace(at, given);
                self.hear(asked.size());
                Ok(true)
            }
            None => self.hear_full(asked, reply),
        }
    }

    /// Hears a request to which nothing happens.
    fn hear_full(&mut self, asked: Asked, reply: OfferReply) -> Result<bool, NoMemory>
        requires calls { self.old.calls + 1 < 2 ^ 32 }
        requires bytes { self.old.bytes + asked.size < 2 ^ 64 }
        ensures { Tries self.old (heard self.old asked.size, told.Full) (reply_of_offer reply) self.new result }
    {
        if !matches!(reply, OfferReply::Full) {
            return Ok(false);
        }
        self.hear(asked.size());
        Ok(true)
    }

    /// Keeps the request where it may wait, or refuses it.
    fn keep_or_refuse(&mut self, asked: Asked, reply: OfferReply) -> Result<bool, NoMemory>
        requires calls { self.old.calls + 1 < 2 ^ 32 }
        requires bytes { self.old.bytes + asked.size < 2 ^ 64 }
        ensures { let may = may_wait self.old.pool self.old.waiting asked in
            Tries self.old (kept_or_full (heard self.old asked.size) asked may) (reply_of_offer reply) self.new result }
    {
        if self.waiting.may_wait(&self.pool, &asked) {
            self.keep(asked, reply)
        } else {
            self.refuse(asked, reply)
        }
    }

    /// The request waits.
    fn keep(&mut self, asked: Asked, reply: OfferReply) -> Result<bool, NoMemory>
        requires calls { self.old.calls + 1 < 2 ^ 32 }
        requires bytes { self.old.bytes + asked.size < 2 ^ 64 }
        requires room { kept_bytes self.old.waiting + asked.size < 2 ^ 64 }
        ensures { Tries self.old (kept_or_full (heard self.old asked.size) asked true) (reply_of_offer reply) self.new result }
    {
        if !matches!(reply, OfferReply::Kept) {
            return Ok(false);
        }
        self.out.reserve(1)?;
        self.waiting.put(asked)?;
        owe_early_in_room(&mut self.out, asked);
        self.hear(asked.size());
        Ok(true)
    }

    /// Refuses the request.
    fn refuse(&mut self, asked: Asked, reply: OfferReply) -> Result<bool, NoMemory>
        requires calls { self.old.calls + 1 < 2 ^ 32 }
        requires bytes { self.old.bytes + asked.size < 2 ^ 64 }
        ensures { Tries self.old (kept_or_full (heard self.old asked.size) asked false) (reply_of_offer reply) self.new result }
    {
        if !matches!(reply, OfferReply::Full) {
            return Ok(false);
        }
        self.owe_refusal(asked)?;
        self.hear(asked.size());
        Ok(true)
    }

    /// Owes the reply to an admitted request that asks for one at once.
    fn owe_early(&mut self, asked: Asked) -> Result<(), NoMemory>
        ensures ok { OnOk result (self.new ≡ add_items self.old (early_items asked.due asked)) }
        ensures err { OnErr result (self.new ≡ self.old) }
    {
        match asked.due() {
            Due::Early => self.owe(Owed::Early(asked)),
            Due::Nothing => Ok(()),
            Due::Late => Ok(()),
        }
    }

    /// Owes the refusal of a request that asks for a reply.
    fn owe_refusal(&mut self, asked: Asked) -> Result<(), NoMemory>
        ensures ok { OnOk result (self.new ≡ add_items self.old (refusals asked.due asked)) }
        ensures err { OnErr result (self.new ≡ self.old) }
    {
        match asked.due() {
            Due::Nothing => Ok(()),
            Due::Early => self.owe(Owed::Transient(asked)),
            Due::Late => self.owe(Owed::Transient(asked)),
        }
    }
}

/// Owes the reply to an admitted request that asks for one at once. There is room for it.
fn owe_early_in_room(out: &mut List<OwedItem>, asked: Asked)
    requires room { 0 < out.old.spare }
    ensures { out.new.items ≡ out.old.items ++ early_items asked.due asked }
{
    if !matches!(asked.due(), Due::Early) {
        return;
    }
    match out.push(OwedItem::new(Owed::Early(asked))) {
        Ok(()) => {}
        Err(_) => unreachable!(),
    }
}

/// Whether the reply says that the thread of this number was given the request, lent or not.
fn is_run(reply: OfferReply, at: usize, lent: bool) -> bool
    ensures { IsTrue result ↔ (reply_of_offer reply ≡ told.Run at lent) }
{
    match reply {
        OfferReply::Run(thread) => !lent && usize::from(thread) == at,
        OfferReply::Lent(thread) => lent && usize::from(thread) == at,
        _ => false,
    }
}
