//! A request that waits, and what a call seeks among those.
ghost use Rattle.std.specs.Prelude.{◌≡◌};
ghost use Rattle.orb_base.specs.Conn.{same_conn};
ghost use Rattle.request_buffer.specs.Entries.{is_sought, restamped, weight};

use crate::key::Key;
use crate::sought::Sought;
use orb_base::{Arc, ConnId, Job};
use std::marker::Model;
use thread_borrowing::may_run;

/// A request that waits, with the stamp of its arrival. Of two requests the one with the smaller stamp came earlier.
#[derive(Drop)]
pub struct Waiting {
    stamp: usize,
    key: Key,
    job: Arc<Job>,
}

impl Model for Waiting {
    ghost use Rattle.std.specs.Prelude.{◌≡◌};
    ghost use Rattle.request_buffer.specs.Entries.{Entry};
    ghost use Rattle.request_buffer.specs.Keys.{key_of};

    ghost Value = { Entry };

    ghost view = { λ w. record { stamp = w.stamp; job = w.job } };

    ghost invariant = { λ w. w.key ≡ key_of w.job };
}

impl Waiting {
    /// A request with its stamp.
    pub fn new(stamp: usize, job: Arc<Job>) -> Waiting
        ensures stamp { result.stamp ≡ stamp }
        ensures job { result.job ≡ job }
    {
        let key = Key::of(job.get());
        Waiting { stamp, key, job }
    }

    /// The stamp of its arrival.
    pub fn stamp(&self) -> usize
        ensures { result ≡ self.now.stamp }
    {
        self.stamp
    }

    /// Its lane, from 0.
    pub fn lane(&self) -> u8
        ensures { result ≡ self.now.job.lane }
    {
        self.key.lane
    }

    /// Its priority, 0 to 32767.
    pub fn priority(&self) -> u16
        ensures { result ≡ self.now.job.priority }
    {
        self.key.priority
    }

    /// Whether it is one of those that are sought.
    pub fn is_sought(&self, sought: Sought) -> bool
        ensures { result ≡ is_sought sought self.now }
    {
        match sought {
            Sought::Next { lane, borrowing } => may_run(borrowing, lane, self.key.lane),
            Sought::Late { conn, id } => self.key.may_cancel(conn, id),
            Sought::Stamped(stamp) => self.stamp == stamp,
            Sought::From(least) => least <= self.stamp,
        }
    }

    /// What it weighs among those that are sought.
    pub fn weight(&self, sought: Sought) -> u16
        ensures { result ≡ weight sought self.now }
    {
        match sought {
            Sought::Next { .. } => self.key.priority,
            Sought::Late { .. } => 0,
            Sought::Stamped(_) => 0,
            Sought::From(_) => 0,
        }
    }

    /// Whether it came by the connection.
    pub fn is_of(&self, conn: ConnId) -> bool
        ensures { result ≡ same_conn self.now.job.conn conn }
    {
        self.key.conn.is_same(conn)
    }

    /// Gives it another stamp.
    pub fn restamp(&mut self, stamp: usize)
        ensures { self.new ≡ restamped stamp self.old }
    {
        self.stamp = stamp;
    }

    /// The request alone.
    pub fn into_job(self) -> Arc<Job>
        ensures { result ≡ self.job }
    {
        self.job
    }
}
