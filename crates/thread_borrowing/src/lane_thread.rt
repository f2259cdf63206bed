//! One thread of a lane.
ghost use Rattle.std.specs.Prelude.{◌≡◌, true, false};
ghost use Rattle.thread_borrowing.specs.ThreadList.{is_free, is_given, works_for, task_of, job_of, given, begun, freed};
ghost use Rattle.thread_borrowing.specs.Choice.{standing};
ghost use Rattle.thread_borrowing.specs.Masks.{level};
ghost use Rattle.std.specs.Prelude.{Some};

use crate::doing::Doing;
use crate::standing::Standing;
use crate::task::Task;
use orb_base::{Arc, ConnId, Job};
use std::marker::Model;

/// A thread of a lane.
#[derive(Drop)]
pub struct LaneThread {
    /// Its lane, from 0.
    lane: u8,
    /// Whether it is ready from the start.
    is_static: bool,
    /// Whether it was started.
    started: bool,
    /// What it does.
    doing: Doing,
}

impl Model for LaneThread {
    ghost use Rattle.thread_borrowing.specs.ThreadList.{Thread};

    ghost Value = { Thread };

    ghost view = { λ t. record {
      lane = t.lane;
      is_static = t.is_static;
      started = t.started;
      doing = t.doing;
    } };
}

impl LaneThread {
    /// A thread that does nothing yet. A static one is started.
    pub fn idle(lane: u8, is_static: bool) -> LaneThread
        ensures { result ≡ record {
          lane = lane;
          is_static = is_static;
          started = is_static;
          doing = Doing.Free;
        } }
    {
        LaneThread {
            lane,
            is_static,
            started: is_static,
            doing: Doing::Free,
        }
    }

    /// Its lane.
    pub fn lane(&self) -> u8
        ensures { result ≡ self.now.lane }
    {
        self.lane
    }

    /// How it is among the threads of its lane.
    pub fn standing(&self) -> Standing
        ensures { level result ≡ standing self.now }
    {
        if self.is_static {
            Standing::Static
        } else if self.started {
            Standing::Started
        } else {
            Standing::Resting
        }
    }

    /// Whether it has a request of the connection.
    pub fn works_for(&self, conn: ConnId) -> bool
        ensures { result ≡ works_for conn self.now.doing }
    {
        match &self.doing {
            Doing::Free => false,
            Doing::Given(job) => caller_of(job.get()).is_same(conn),
            Doing::Busy(job) => caller_of(job.get()).is_same(conn),
        }
    }

    /// Whether it has a task.
    pub fn task(&self) -> Task
        ensures { result ≡ task_of self.now.doing }
    {
        match &self.doing {
            Doing::Free => Task::Free,
            Doing::Given(_) => Task::Given,
            Doing::Busy(_) => Task::Busy,
        }
    }

    /// Whether it has a task that it hasn't taken yet.
    pub fn is_given(&self) -> bool
        ensures { result ≡ is_given self.now.doing }
    {
        matches!(&self.doing, Doing::Given(_))
    }

    /// Its request. It has a task.
    pub fn job(&self) -> &Arc<Job>
        requires { is_free self.now.doing ≡ false }
        ensures { job_of self.now.doing ≡ Some result.now }
    {
        match &self.doing {
            Doing::Given(job) => job,
            Doing::Busy(job) => job,
            Doing::Free => unreachable!(),
        }
    }

    /// Gives it a request, which starts it.
    pub fn give(&mut self, job: Arc<Job>)
        ensures { self.new ≡ given job self.old }
    {
        self.started = true;
        self.doing = Doing::Given(job);
    }

    /// It carries out the request that it was given.
    pub fn begin(&mut self)
        ensures { self.new ≡ begun self.old }
    {
        self.doing = match std::mem::replace(&mut self.doing, Doing::Free) {
            Doing::Given(job) => Doing::Busy(job),
            Doing::Busy(job) => Doing::Busy(job),
            Doing::Free => Doing::Free,
        };
    }

    /// Takes the request that it carried out.
    pub fn free(&mut self) -> Arc<Job>
        requires { task_of self.old.doing ≡ Task.Busy }
        ensures value { self.old.doing ≡ Doing.Busy result }
        ensures after { self.new ≡ freed self.old }
    {
        match std::mem::replace(&mut self.doing, Doing::Free) {
            Doing::Busy(job) => job,
            _ => unreachable!(),
        }
    }
}

/// The connection of a request.
fn caller_of(job: &Job) -> ConnId
    ensures { result ≡ job.now.conn }
{
    job.conn
}
