//! Requests that are offered: to a thread, to the buffer, or refused.
ghost use Rattle.std.specs.Prelude.{◌≡◌, ◌<◌, ◌+◌, ◌^◌, true, false, slice_get, IsSomeAnd, OnOk, OnErr};
ghost use Rattle.thread_borrowing.specs.Choice.{chosen_thread, Suits};
ghost use Rattle.lane_machine.specs.Machine.{step, placed, run_by, kept_or_full, may_wait, heard, early_items, refusals, add_items};
ghost use Rattle.lane_machine.specs.Histories.{Steps};

use crate::call::{LaneCall, LaneReply};
use crate::look::{due_of, lane_of, size_of};
use crate::machine::Machine;
use orb_base::{Arc, Due, Item, Job, NoMemory};
use thread_borrowing::Choice;

impl Machine {
    /// A request is to be run.
    pub(super) fn offer(&mut self, job: &Arc<Job>) -> Result<(LaneReply, LaneReply), NoMemory>
        ensures { Steps self.old (step self.old (LaneCall.Offer job.now)) self.new result }
    {
        if self.is_over(size_of(job.get())) {
            self.closing = true;
            return Ok((LaneReply::Closing, LaneReply::Closing));
        }
        self.place(job)
    }

    /// Gives the request to the chosen thread, keeps it, or refuses it.
    fn place(&mut self, job: &Arc<Job>) -> Result<(LaneReply, LaneReply), NoMemory>
        requires calls { self.old.calls + 1 < 2 ^ 32 }
        requires bytes { self.old.bytes + job.now.size < 2 ^ 64 }
        ensures { let chosen = chosen_thread self.old.pool.borrowing job.now.lane self.old.threads in
            Steps self.old (placed (heard self.old job.now.size) job.now chosen) self.new result }
    {
        match self.threads.choose(lane_of(job.get()), self.pool.borrowing) {
            Some(choice) => self.run(choice, job),
            None => self.keep_or_refuse(job),
        }
    }

    /// Gives the request to the chosen thread.
    fn run(&mut self, choice: Choice, job: &Arc<Job>) -> Result<(LaneReply, LaneReply), NoMemory>
        requires calls { self.old.calls + 1 < 2 ^ 32 }
        requires bytes { self.old.bytes + job.now.size < 2 ^ 64 }
        requires suits { IsSomeAnd (slice_get self.old.threads choice.thread)
            (Suits self.old.pool.borrowing job.now.lane choice) }
        ensures { let s = heard self.old job.now.size in let t = choice.thread in
            Steps self.old (run_by s job.now t (slice_get s.threads t)) self.new result }
    {
        let given = job.share()?;
        self.note_early(job)?;
        self.threads.give(choice.thread, given);
        self.hear(size_of(job.get()));
        let (thread, lent) = (choice.thread, choice.lent);
        Ok((
            LaneReply::Run { thread, lent },
            LaneReply::Run { thread, lent },
        ))
    }

    /// Keeps the request where it may wait, or refuses it.
    fn keep_or_refuse(&mut self, job: &Arc<Job>) -> Result<(LaneReply, LaneReply), NoMemory>
        requires calls { self.old.calls + 1 < 2 ^ 32 }
        requires bytes { self.old.bytes + job.now.size < 2 ^ 64 }
        ensures { let may = may_wait self.old.pool self.old.waiting job.now in
            Steps self.old (kept_or_full (heard self.old job.now.size) job.now may) self.new result }
    {
        if self.may_wait(size_of(job.get())) {
            self.keep(job)
        } else {
            self.refuse(job)
        }
    }

    /// Whether a request of so many bytes may wait.
    fn may_wait(&self, size: u32) -> bool
        ensures { (job : Job) → job.size ≡ size → result ≡ may_wait self.now.pool self.now.waiting job }
    {
        self.pool.buffering && self.waiting.fits(size)
    }

    /// The request waits.
    fn keep(&mut self, job: &Arc<Job>) -> Result<(LaneReply, LaneReply), NoMemory>
        requires calls { self.old.calls + 1 < 2 ^ 32 }
        requires bytes { self.old.bytes + job.now.size < 2 ^ 64 }
        requires may { may_wait self.old.pool self.old.waiting job.now ≡ true }
        ensures { Steps self.old (kept_or_full (heard self.old job.now.size) job.now true) self.new result }
    {
        let kept = job.share()?;
        self.note_early(job)?;
        self.waiting.put(kept);
        self.hear(size_of(job.get()));
        Ok((LaneReply::Kept, LaneReply::Kept))
    }

    /// Refuses the request.
    fn refuse(&mut self, job: &Arc<Job>) -> Result<(LaneReply, LaneReply), NoMemory>
        requires calls { self.old.calls + 1 < 2 ^ 32 }
        requires bytes { self.old.bytes + job.now.size < 2 ^ 64 }
        ensures { Steps self.old (kept_or_full (heard self.old job.now.size) job.now false) self.new result }
    {
        self.note_refusal(job)?;
        self.hear(size_of(job.get()));
        Ok((LaneReply::Full, LaneReply::Full))
    }

    /// Owes the reply to an admitted request that asks for one at once.
    fn note_early(&mut self, job: &Arc<Job>) -> Result<(), NoMemory>
        ensures ok { OnOk result
            (self.new ≡ add_items self.old (early_items job.now.due job.now)) }
        ensures err { OnErr result (self.new ≡ self.old) }
    {
        match due_of(job.get()) {
            Due::Early => self.owe(Item::Early(job.share()?)),
            Due::Nothing => Ok(()),
            Due::Late => Ok(()),
        }
    }

    /// Owes the refusal of a request that asks for a reply.
    fn note_refusal(&mut self, job: &Arc<Job>) -> Result<(), NoMemory>
        ensures ok { OnOk result
            (self.new ≡ add_items self.old (refusals job.now.due job.now)) }
        ensures err { OnErr result (self.new ≡ self.old) }
    {
        match due_of(job.get()) {
            Due::Nothing => Ok(()),
            Due::Early => self.owe(Item::Transient(job.share()?)),
            Due::Late => self.owe(Item::Transient(job.share()?)),
        }
    }
}
