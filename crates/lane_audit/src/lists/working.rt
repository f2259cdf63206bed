//! Threads that take their tasks and finish them.
ghost use Rattle.std.specs.Prelude.{◌≡◌, ◌<◌, ◌+◌, ◌^◌, length, slice_get, IsSome, IsSomeAnd, OnOk, OnErr};
ghost use Rattle.lane_machine.specs.Machine.{step, late_items, add_items, freed};
ghost use Rattle.lane_machine.specs.Moving.{given_next};
ghost use Rattle.lane_machine.specs.declared.call.LaneCall.TheVariants as call;
ghost use Rattle.trace_lines.specs.ReadBack.{answer_of};
ghost use Rattle.lane_audit.specs.Verdicts.{Answers, task_reply, gives};

use crate::asked::Asked;
use crate::lists::Lists;
use crate::owed_item::Owed;
use crate::worker::Work;
use orb_base::{Due, NoMemory};

impl Lists {
    /// A thread asks for its task, and is told of this one or that there will be none.
    pub fn take(&mut self, thread: u8, task: Option<Asked>) -> bool
        ensures { Answers self.old (step self.old (call.Take thread)) (task_reply task) self.new result }
    {
        match task {
            Some(asked) => self.begin(usize::from(thread), asked),
            None => !self.has_given(usize::from(thread)),
        }
    }

    /// Whether a thread has a task that it hasn't taken yet.
    fn has_given(&self, at: usize) -> bool
        ensures { result ≡ gives (slice_get self.now.threads at) }
    {
        match self.threads.get(at) {
            Some(worker) => matches!(worker.work(), Work::Given(_)),
            None => false,
        }
    }

    /// A thread takes the request, if it was given that.
    fn begin(&mut self, at: usize, asked: Asked) -> bool
        ensures { Answers self.old (step self.old (call.Take at)) (task_reply (Some asked)) self.new result }
    {
        match self.threads.get(at) {
            Some(worker) => match worker.work() {
                Work::Given(given) => {
                    if !given.is_same(&asked) {
                        return false;
                    }
                    let busy = worker.doing(Work::Busy(given));
                    self.threads.replace(at, busy);
                    true
                }
                Work::Free => false,
                Work::Busy(_) => false,
            },
            None => false,
        }
    }

    /// A thread has carried out its request, whose answer has a body of so many bytes.
    pub fn finish(&mut self, thread: u8, asked: Asked, body_len: usize) -> Result<(), NoMemory>
        requires bytes { self.old.bytes + body_len < 2 ^ 64 }
        requires there { IsSome (slice_get self.old.threads thread) }
        ensures ok { OnOk result (self.new ≡ (step self.old (call.Finish thread (answer_of asked body_len))).0) }
        ensures err { OnErr result (self.new ≡ self.old) }
    {
        self.owe_late(asked, body_len)?;
        self.bytes += body_len as u64;
        self.go_on(usize::from(thread));
        Ok(())
    }

    /// Owes the reply to a request that asks for one when it was carried out.
    fn owe_late(&mut self, asked: Asked, body_len: usize) -> Result<(), NoMemory>
        ensures ok { OnOk result (self.new ≡ add_items self.old (late_items asked.due (answer_of asked body_len))) }
        ensures err { OnErr result (self.new ≡ self.old) }
    {
        match asked.due() {
            Due::Late => self.owe(Owed::Answered(asked, body_len)),
            Due::Nothing => Ok(()),
            Due::Early => Ok(()),
        }
    }

    /// A thread goes on with the next request that it may run, or is free.
    fn go_on(&mut self, at: usize)
        ensures { self.new ≡ given_next self.old at (slice_get self.old.threads at) }
    {
        match self.threads.get(at) {
            Some(worker) => {
                let lane = worker.lane();
                match self.waiting.place_of_next(self.borrowing(), lane) {
                    Some(place) => self.hand_on(at, place),
                    None => self.free(at),
                }
            }
            None => {}
        }
    }

    /// A thread is given the waiting request of this place.
    fn hand_on(&mut self, at: usize, place: usize)
        requires there { at < length self.old.threads }
        requires waits { place < length self.old.waiting }
        ensures { IsSomeAnd (slice_get self.old.threads at)
            (λ thread. self.new ≡ freed self.old at thread (Some place)) }
    {
        let asked = self.waiting.remove(place);
        let given = self.threads.as_slice()[at].given(asked);
        self.threads.replace(at, given);
    }

    /// A thread has no task any more.
    fn free(&mut self, at: usize)
        requires there { at < length self.old.threads }
        ensures { IsSomeAnd (slice_get self.old.threads at)
            (λ thread. self.new ≡ freed self.old at thread None) }
    {
        let free = self.threads.as_slice()[at].doing(Work::Free);
        self.threads.replace(at, free);
    }
}
