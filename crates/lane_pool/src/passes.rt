//! The passes of a pool. Each is a seat at the lane machine that makes the calls of its kind alone.
ghost use Rattle.std.specs.Prelude.{◌≡◌};
ghost use Rattle.lane_machine.specs.Callers.{was_closed};
ghost use Rattle.lane_pool.specs.Pass.{conn_of};

use lane_machine::Lanes;
use orb_base::ConnId;
use std::marker::Model;
use turn_cell::Seat;

/// The pass of the pool itself, to which all others come back.
#[derive(Drop)]
pub struct RootPass {
    pub(crate) main: Seat<Lanes>,
}

impl Model for RootPass {
    ghost use Rattle.lane_pool.specs.Pass.{Sitting};
    ghost use Rattle.std.specs.Prelude.{◌≡◌};

    ghost Value = { Sitting };

    ghost view = { λ p. p.main };

    ghost invariant = { λ p. p.main.number ≡ 0 };
}

/// The pass of a slot between its connections.
#[derive(Drop)]
pub struct SlotPass {
    pub(crate) seat: Seat<Lanes>,
    pub(crate) slot: u8,
    pub(crate) links: u8,
}

impl Model for SlotPass {
    ghost use Rattle.std.specs.Prelude.{◌≡◌, ◌<◌, ◌≤◌, ◌+◌};
    ghost use Rattle.lane_pool.specs.Pass.{Pass};

    ghost Value = { Pass };

    ghost view = { λ p. record { seat = p.seat; who = p.slot; nth = p.links } };

    ghost invariant = { λ p. (p.seat.number ≡ p.slot + 1) × (p.seat.splits ≡ p.links) × (p.slot < 16) × (p.links ≤ 128) };
}

/// The pass of the reading side of a connection.
#[derive(Drop)]
pub struct ReaderPass {
    pub(crate) seat: Seat<Lanes>,
    pub(crate) slot: u8,
    pub(crate) nth: u8,
    /// Whether a call was answered Closing.
    pub(crate) closed: bool,
}

impl Model for ReaderPass {
    ghost use Rattle.std.specs.Prelude.{◌≡◌, ◌<◌, ◌+◌};
    ghost use Rattle.lane_machine.specs.Callers.{was_closed};
    ghost use Rattle.lane_pool.specs.Pass.{Pass};

    ghost Value = { Pass };

    ghost view = { λ p. record { seat = p.seat; who = p.slot; nth = p.nth } };

    ghost invariant = { λ p. (p.seat.number ≡ p.slot + 1) × (p.seat.splits ≡ p.nth + 1) × (p.slot < 16) × (p.nth < 128)
        × (p.closed ≡ was_closed (record { slot = p.slot; nth = p.nth }) p.seat.mine) };
}

/// The pass of the writing side of a connection.
#[derive(Drop)]
pub struct WriterPass {
    pub(crate) seat: Seat<Lanes>,
    pub(crate) slot: u8,
    pub(crate) nth: u8,
}

impl Model for WriterPass {
    ghost use Rattle.lane_pool.specs.Pass.{Pass};

    ghost Value = { Pass };

    ghost view = { λ p. record { seat = p.seat; who = p.slot; nth = p.nth } };
}

/// The pass of a worker, by which its thread takes and finishes its tasks.
#[derive(Drop)]
pub struct WorkerPass {
    pub(crate) seat: Seat<Lanes>,
    pub(crate) thread: u8,
}

impl Model for WorkerPass {
    ghost use Rattle.lane_pool.specs.Pass.{Pass};

    ghost Value = { Pass };

    ghost view = { λ p. record { seat = p.seat; who = p.thread; nth = 0 } };
}

impl SlotPass {
    /// The number of the slot, from 0.
    pub fn slot(&self) -> u8
        ensures { result ≡ self.now.who }
    {
        self.slot
    }

    /// How many connections the slot had.
    pub fn nth(&self) -> u8
        ensures { result ≡ self.now.nth }
    {
        self.links
    }
}

impl ReaderPass {
    /// The connection that is read.
    pub fn conn(&self) -> ConnId
        ensures { result ≡ conn_of self.now }
    {
        ConnId {
            slot: self.slot,
            nth: self.nth,
        }
    }

    /// Whether a call of this connection was answered Closing.
    pub fn closing(&self) -> bool
        ensures { result ≡ was_closed (conn_of self.now) self.now.seat.mine }
    {
        self.closed
    }
}

impl WriterPass {
    /// The connection that is written.
    pub fn conn(&self) -> ConnId
        ensures { result ≡ conn_of self.now }
    {
        ConnId {
            slot: self.slot,
            nth: self.nth,
        }
    }
}

impl WorkerPass {
    /// The number of the thread, from 0.
    pub fn thread(&self) -> u8
        ensures { result ≡ self.now.who }
    {
        self.thread
    }
}
