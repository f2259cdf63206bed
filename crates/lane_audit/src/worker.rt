//! A thread of a pool, and what it does.
ghost use Rattle.std.specs.Prelude.{◌≡◌, ◌≤◌};
ghost use Rattle.thread_borrowing.specs.ThreadList.{works_for, given, doing};
ghost use Rattle.thread_borrowing.specs.Choice.{may_run, can_start, rank, standing};

use crate::asked::Asked;
use orb_base::ConnId;
use std::marker::Model;

/// What a thread does.
#[derive(Clone, Copy)]
pub enum Work {
    /// It has no task.
    Free,
    /// It was given a request that it has not taken yet.
    Given(Asked),
    /// It carries out a request.
    Busy(Asked),
}

/// A thread of a lane.
#[derive(Drop)]
pub struct Worker {
    lane: u8,
    is_static: bool,
    started: bool,
    work: Work,
}

impl Model for Worker {
    ghost use Rattle.thread_borrowing.specs.ThreadList.{Thread};

    ghost Value = { Thread };

    ghost use Rattle.lane_audit.specs.Working.{doing_of};

    ghost view = { λ w. record {
      lane = w.lane;
      is_static = w.is_static;
      started = w.started;
      doing = doing_of w.work;
    } };
}

impl Worker {
    ghost use Rattle.lane_audit.specs.Working.{doing_of};
    ghost use Rattle.thread_borrowing.specs.declared.doing.Doing.TheVariants as task;

    /// A thread that does nothing yet. A static one is started.
    pub fn idle(lane: u8, is_static: bool) -> Worker
        ensures { result ≡ record {
          lane = lane;
          is_static = is_static;
          started = is_static;
          doing = task.Free;
        } }
    {
        Worker {
            lane,
            is_static,
            started: is_static,
            work: Work::Free,
        }
    }

    /// Its lane.
    pub fn lane(&self) -> u8
        ensures { result ≡ self.now.lane }
    {
        self.lane
    }

    /// What it does.
    pub fn work(&self) -> Work
        ensures { doing_of result ≡ self.now.doing }
    {
        self.work
    }

    /// Whether it has a request of the connection.
    pub fn works_for(&self, conn: ConnId) -> bool
        ensures { result ≡ works_for conn self.now.doing }
    {
        match &self.work {
            Work::Free => false,
            Work::Given(asked) => asked.conn().is_same(conn),
            Work::Busy(asked) => asked.conn().is_same(conn),
        }
    }

    /// Whether it has no task, and may run a request of this lane.
    pub fn can_start(&self, borrowing: bool, lane: u8) -> bool
        ensures { result ≡ can_start borrowing lane self.now }
    {
        matches!(&self.work, Work::Free) && may_run(borrowing, self.lane, lane)
    }

    /// A number that is greater for a thread that goes first: of a higher lane, and in a lane a static one, then one that was started.
    pub fn rank(&self) -> u32
        ensures { result ≡ rank self.now }
    {
        3 * u32::from(self.lane) + self.standing()
    }

    /// A number that is greater for a thread that goes first in its lane.
    fn standing(&self) -> u32
        ensures value { result ≡ standing self.now }
        ensures few { result ≤ 2 }
    {
        if self.is_static {
            2
        } else if self.started {
            1
        } else {
            0
        }
    }

    /// The thread as it is given a request, which starts it.
    pub fn given(&self, asked: Asked) -> Worker
        ensures { result ≡ given asked self.now }
    {
        Worker {
            lane: self.lane,
            is_static: self.is_static,
            started: true,
            work: Work::Given(asked),
        }
    }

    /// The thread with this to do.
    pub fn doing(&self, work: Work) -> Worker
        ensures { result ≡ doing self.now (doing_of work) }
    {
        Worker {
            lane: self.lane,
            is_static: self.is_static,
            started: self.started,
            work,
        }
    }
}

/// Whether a thread of one lane may run a request of another: of its own lane, and with borrowing of a higher one.
pub fn may_run(borrowing: bool, thread_lane: u8, lane: u8) -> bool
    ensures { result ≡ may_run borrowing thread_lane lane }
{
    thread_lane == lane || (borrowing && thread_lane < lane)
}
