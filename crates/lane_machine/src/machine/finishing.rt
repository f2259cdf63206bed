//! Threads that take their tasks and finish them.
ghost use Rattle.std.specs.Prelude.{◌≡◌, ◌<◌, ◌+◌, ◌^◌, slice_get, length, IsSomeAnd, OnOk, OnErr};
ghost use Rattle.orb_base.specs.Outcomes.{body_len};
ghost use Rattle.thread_borrowing.specs.ThreadList.{task_of};
ghost use Rattle.lane_machine.specs.Machine.{step, taken, late_items, add_items, answered};
ghost use Rattle.lane_machine.specs.Moving.{given_next, freed_lists};
ghost use Rattle.lane_machine.specs.Readiness.{IsSound};
ghost use Rattle.lane_machine.specs.Histories.{Steps};
ghost use Rattle.request_buffer.specs.Kept.{SameLimits};

use crate::call::{LaneCall, LaneReply};
use crate::look::{body_len, due_of};
use crate::machine::Machine;
use orb_base::{Answer, Due, Item, NoMemory};
use request_buffer::Buffer;
use thread_borrowing::{Task, Threads};

impl Machine {
    /// A thread asks for its task.
    pub(super) fn take(&mut self, thread: u8) -> Result<(LaneReply, LaneReply), NoMemory>
        requires there { thread < length self.old.threads }
        ensures { let s = self.old in
            Steps s (taken s thread (slice_get s.threads thread)) self.new result }
    {
        match self.threads.task(thread) {
            Task::Given => self.begin(thread),
            Task::Free => Ok((LaneReply::Ended, LaneReply::Ended)),
            Task::Busy => Ok((LaneReply::Ended, LaneReply::Ended)),
        }
    }

    /// A thread takes the request that it was given.
    fn begin(&mut self, thread: u8) -> Result<(LaneReply, LaneReply), NoMemory>
        requires given { IsSomeAnd (slice_get self.old.threads thread)
            (λ t. task_of t.doing ≡ Task.Given) }
        ensures { let s = self.old in
            Steps s (taken s thread (slice_get s.threads thread)) self.new result }
    {
        let job = self.threads.job(thread);
        let (first, second) = (job.share()?, job.share()?);
        self.threads.begin(thread);
        Ok((LaneReply::Given(first), LaneReply::Given(second)))
    }

    /// A thread has carried out its task.
    pub(super) fn finish(
        &mut self,
        thread: u8,
        answer: &Answer,
    ) -> Result<(LaneReply, LaneReply), NoMemory>
        requires sound { IsSound self.old (LaneCall.Finish thread answer.now) }
        requires bytes { self.old.bytes + body_len answer.now.outcome < 2 ^ 64 }
        ensures { Steps self.old (step self.old (LaneCall.Finish thread answer.now)) self.new result }
    {
        self.note_late(answer)?;
        self.bytes += body_len(&answer.outcome) as u64;
        self.free(thread);
        Ok((LaneReply::Finished, LaneReply::Finished))
    }

    /// Owes the reply to a request that asks for one when it was carried out.
    fn note_late(&mut self, answer: &Answer) -> Result<(), NoMemory>
        ensures ok { OnOk result
            (self.new ≡ add_items self.old (late_items answer.now.job.due answer.now)) }
        ensures err { OnErr result (self.new ≡ self.old) }
    {
        match due_of(answer.job.get()) {
            Due::Late => self.owe(Item::Answered(answer.share()?)),
            Due::Nothing => Ok(()),
            Due::Early => Ok(()),
        }
    }

    /// A busy thread goes on with the next request that it may run, or is free.
    fn free(&mut self, thread: u8)
        requires busy { IsSomeAnd (slice_get self.old.threads thread)
            (λ t. task_of t.doing ≡ Task.Busy) }
        ensures { self.new ≡ given_next self.old thread (slice_get self.old.threads thread) }
    {
        go_on(
            &mut self.threads,
            &mut self.waiting,
            self.pool.borrowing,
            thread,
        );
    }
}

/// A busy thread goes on with the next request that it may run, or is free.
fn go_on(threads: &mut Threads, waiting: &mut Buffer, borrowing: bool, thread: u8)
    requires busy { IsSomeAnd (slice_get threads.old thread) (λ t. task_of t.doing ≡ Task.Busy) }
    ensures lists { (threads.new, waiting.new.requests)
        ≡ freed_lists borrowing thread threads.old waiting.old.requests (slice_get threads.old thread) }
    ensures limits { SameLimits waiting.old waiting.new }
{
    let lane = threads.lane(thread);
    threads.free(thread);
    if let Some(place) = waiting.best_for(lane, borrowing) {
        let job = waiting.take(place);
        threads.give(thread, job);
    }
}
