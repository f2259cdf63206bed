//! The threads of a pool.
ghost use Rattle.std.specs.Prelude.{◌≡◌, ◌+◌, ◌<◌, ◌≤◌, min, if◌then◌else◌, false, true, slice_get, length, count_by, option_map, IfOk, IfSome, IsSomeAnd, Some};
ghost use Rattle.orb_base.specs.Pool.{IsWellFormed};
ghost use Rattle.thread_borrowing.specs.ThreadList.{pool_threads, is_free, first_given, works_for, task_of, job_of, given, begun, freed, with_thread};
ghost use Rattle.thread_borrowing.specs.declared.doing.Doing.TheVariants.{Busy};
ghost use Rattle.thread_borrowing.specs.Choice.{chosen_thread, Suits};
ghost use Rattle.thread_borrowing.specs.Masks.{AreIdle, ArePlaced, AreSetsOf};

use crate::building::all_threads;
use crate::choice::Choice;
use crate::lane_thread::LaneThread;
use crate::probes::{LaneSet, Steps};
use crate::task::Task;
use orb_base::limits::{MAX_LANES, MAX_THREADS};
use orb_base::{Arc, ConnId, Job, NoMemory, PoolSpec};
use std::alloc::Global;
use std::marker::{Brand, Model};
use std::sync::ledger::{Blank, Ledger};

/// The threads of a pool, by their numbers from 0: lanes in rising order, and in a lane the static threads before the
/// dynamic ones. No call but `new` takes memory.
#[derive(Drop)]
pub struct Threads {
    threads: Vec<LaneThread>,
    /// The threads without a task, by lanes.
    sets: [LaneSet; MAX_LANES],
}

impl Model for Threads {
    ghost use Rattle.std.specs.Prelude.{List};
    ghost use Rattle.thread_borrowing.specs.ThreadList.{Thread};
    ghost use Rattle.thread_borrowing.specs.Masks.{AreMarked};

    ghost Value = { List Thread };

    ghost view = { λ t. t.threads.items };

    ghost invariant = { λ t. AreMarked t.threads.items t.sets };
}

impl Threads {
    /// The threads of a pool, none of which has a task. The static ones alone are started.
    pub fn new(alloc: Global, pool: &PoolSpec) -> Result<Threads, NoMemory>
        requires well_formed { IsWellFormed pool.now }
        ensures { IfOk result (λ threads. threads ≡ pool_threads 0 pool.now.lanes) }
    {
        let threads = all_threads(alloc, pool.lanes.as_slice())?.into_vec();
        let sets = sets_of(threads.as_slice());
        Ok(Threads { threads, sets })
    }

    /// How many threads there are, at most 64.
    pub fn count(&self) -> usize
        ensures value { result ≡ length self.now }
        ensures few { result ≤ MAX_THREADS }
    {
        self.threads.len()
    }

    /// The thread that a request of this lane is given to, or None where none of those that may run it is without
    /// a task. One probe for each lane that is looked at; no pass over the threads.
    pub fn choose(&self, lane: u8, borrowing: bool) -> Option<Choice>
        ensures exact { option_map (λ choice. choice.thread) result
            ≡ chosen_thread borrowing lane self.now }
        ensures suits { IfSome result (λ choice.
            IsSomeAnd (slice_get self.now choice.thread) (Suits borrowing lane choice)) }
    {
        self.choose_uncounted::<Brand>(lane, borrowing, Blank::new(1))
    }

    /// The choice of `choose`, with its probes of lanes counted: one for each lane from the request's down, and without
    /// borrowing one at most.
    pub fn choose_counted<L: Ledger>(
        &self,
        lane: u8,
        borrowing: bool,
        steps: &mut Steps<L>,
    ) -> Option<Choice>
        ensures exact { option_map (λ choice. choice.thread) result
            ≡ chosen_thread borrowing lane self.now }
        ensures suits { IfSome result (λ choice.
            IsSomeAnd (slice_get self.now choice.thread) (Suits borrowing lane choice)) }
        ensures bound { steps.new ≤ steps.old + (lane + 1) }
        ensures alone { borrowing ≡ false → steps.new ≤ steps.old + 1 }
        // A thread of the request's lane is found by one probe, one of the lane below it by two.
        ensures reached { IfSome result (λ choice. IsSomeAnd (slice_get self.now choice.thread)
            (λ thread. steps.new + thread.lane ≡ steps.old + min (lane + 1) MAX_LANES)) }
    {
        let lane = usize::from(lane);
        let lowest = lowest_for(lane, borrowing);
        for at in (lowest..MAX_LANES.min(lane + 1)).rev() {
            if let Some((thread, starts)) = self.sets[at].probe(steps) {
                return Some(Choice {
                    thread,
                    lent: at != lane,
                    starts,
                });
            }
        }
        None
    }

    /// The choice, with probes that nobody counts.
    fn choose_uncounted<L: Ledger>(&self, lane: u8, borrowing: bool, blank: Blank) -> Option<Choice>
        requires name { blank.name ≡ L.name }
        requires parts { blank.parts ≡ L.parts }
        requires some { 0 < blank.parts }
        ensures exact { option_map (λ choice. choice.thread) result
            ≡ chosen_thread borrowing lane self.now }
        ensures suits { IfSome result (λ choice.
            IsSomeAnd (slice_get self.now choice.thread) (Suits borrowing lane choice)) }
    {
        let mut steps = Steps::<L>::new(blank);
        self.choose_counted(lane, borrowing, &mut steps)
    }

    /// Gives a request to a thread without a task, which starts it.
    pub fn give(&mut self, thread: u8, job: Arc<Job>)
        requires free { IsSomeAnd (slice_get self.old thread) (λ t. is_free t.doing ≡ true) }
        ensures { self.new ≡ with_thread (given job) self.old thread }
    {
        let lane = self.lane_of(thread);
        self.sets[lane].remove(thread);
        self.threads[usize::from(thread)].give(job);
    }

    /// The request of a thread with a task.
    pub fn job(&self, thread: u8) -> &Arc<Job>
        requires has_task { IsSomeAnd (slice_get self.now thread) (λ t. is_free t.doing ≡ false) }
        ensures { IsSomeAnd (slice_get self.now thread) (λ t. job_of t.doing ≡ Some result.now) }
    {
        self.threads[usize::from(thread)].job()
    }

    /// A thread begins to carry out the request that it was given.
    pub fn begin(&mut self, thread: u8)
        requires given { IsSomeAnd (slice_get self.old thread)
            (λ t. task_of t.doing ≡ Task.Given) }
        ensures { self.new ≡ with_thread begun self.old thread }
    {
        self.threads[usize::from(thread)].begin();
    }

    /// Takes the request that a thread carried out, which has no task then.
    pub fn free(&mut self, thread: u8) -> Arc<Job>
        requires busy { IsSomeAnd (slice_get self.old thread) (λ t. task_of t.doing ≡ Task.Busy) }
        ensures value { IsSomeAnd (slice_get self.old thread) (λ t. t.doing ≡ Busy result) }
        ensures after { self.new ≡ with_thread freed self.old thread }
    {
        let lane = self.lane_of(thread);
        let freed = &mut self.threads[usize::from(thread)];
        let job = freed.free();
        self.sets[lane].put(thread, freed.standing());
        job
    }

    /// Whether a thread has a task.
    pub fn task(&self, thread: u8) -> Task
        requires there { thread < length self.now }
        ensures { IsSomeAnd (slice_get self.now thread) (λ t. result ≡ task_of t.doing) }
    {
        self.threads[usize::from(thread)].task()
    }

    /// The lane of a thread.
    pub fn lane(&self, thread: u8) -> u8
        requires there { thread < length self.now }
        ensures { IsSomeAnd (slice_get self.now thread) (λ t. result ≡ t.lane) }
    {
        self.threads[usize::from(thread)].lane()
    }

    /// How many threads have a request of the connection. One pass over the threads.
    pub fn count_for(&self, conn: ConnId) -> usize
        ensures { result ≡ count_by (λ t. works_for conn t.doing) self.now }
    {
        self.threads
            .iter()
            .filter(|thread| thread.works_for(conn))
            .count()
    }

    /// The first thread, by number, with a task that it hasn't taken yet. One pass over the threads.
    pub fn first_given(&self) -> Option<u8>
        ensures { result ≡ first_given self.now }
    {
        let at = self.given_place()?;
        Some(at as u8)
    }

    /// The place of the first thread with a task that it hasn't taken yet.
    fn given_place(&self) -> Option<usize>
        ensures given { result ≡ first_given self.now }
        ensures few { IfSome result (λ at. at < MAX_THREADS) }
    {
        self.threads.iter().position(|thread| thread.is_given())
    }

    /// The lane of a thread, as an index of the sets.
    fn lane_of(&self, thread: u8) -> usize
        requires there { thread < length self.now }
        ensures lane { IsSomeAnd (slice_get self.now thread) (λ t. result ≡ t.lane) }
        ensures few { result < MAX_LANES }
        ensures number { thread < MAX_THREADS }
    {
        usize::from(self.threads[usize::from(thread)].lane())
    }
}

/// The lowest lane with threads that may run a request of this lane.
fn lowest_for(lane: usize, borrowing: bool) -> usize
    ensures { result ≡ (if borrowing then 0 else lane) }
{
    if borrowing { 0 } else { lane }
}

/// The sets of threads none of which has a task, by lanes.
fn sets_of(threads: &[LaneThread]) -> [LaneSet; MAX_LANES]
    requires few { length threads.now ≤ MAX_THREADS }
    requires placed { ArePlaced threads.now }
    requires idle { AreIdle threads.now }
    ensures { AreSetsOf threads.now result }
{
    let mut sets = [LaneSet::empty(); MAX_LANES];
    for (number, thread) in threads.iter().enumerate() {
        let lane = usize::from(thread.lane());
        sets[lane].put(number as u8, thread.standing());
    }
    sets
}
