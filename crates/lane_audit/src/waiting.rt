//! The requests that wait.
ghost use Rattle.std.specs.Prelude.{◌≡◌, ◌<◌, ◌+◌, ◌^◌, [], ◌∷◌, ◌++◌, length, position, count_by, slice_get, remove, max, nat_le, OnOk, OnErr, Some, if◌then◌else◌};
ghost use Rattle.std.specs.Bool.{OnTrue};
ghost use Rattle.orb_base.specs.Conn.{same_conn};
ghost use Rattle.thread_borrowing.specs.Choice.{greatest, may_run};
ghost use Rattle.request_buffer.specs.Kept.{kept_bytes, may_cancel};
ghost use Rattle.request_buffer.specs.Next.{next_job};
ghost use Rattle.lane_machine.specs.Machine.{may_wait};

use crate::asked::Asked;
use crate::worker::may_run;
use orb_base::{ConnId, Due, List, NoMemory, PoolSpec};
use std::alloc::Global;
use std::marker::Model;

/// The requests that wait, in order of arrival, with the sum of their bytes.
#[derive(Drop)]
pub struct Waiting {
    requests: List<Asked>,
    bytes: u64,
}

impl Model for Waiting {
    ghost use Rattle.std.specs.Prelude.{◌≡◌, List};
    ghost use Rattle.orb_base.specs.JobRecord.{JobRecord};
    ghost use Rattle.request_buffer.specs.Kept.{kept_bytes};

    ghost Value = { List JobRecord };

    ghost view = { λ w. w.requests.items };

    ghost invariant = { λ w. w.bytes ≡ kept_bytes w.requests.items };
}

impl Waiting {
    /// Nothing waits. Takes no memory.
    pub fn new(alloc: Global) -> Waiting
        ensures { result ≡ [] }
    {
        Waiting {
            requests: List::new(alloc),
            bytes: 0,
        }
    }

    /// Whether a request may wait: neither limit of the pool is passed. Constant work.
    pub fn may_wait(&self, pool: &PoolSpec, asked: &Asked) -> bool
        ensures value { result ≡ may_wait pool.now self.now asked.now }
        ensures room { OnTrue result (kept_bytes self.now + asked.now.size < 2 ^ 64) }
    {
        pool.buffering
            && self.requests.len() < pool.max_requests as usize
            && self.has_bytes(pool.max_bytes, asked.size())
    }

    /// Whether so many bytes more are within the limit.
    fn has_bytes(&self, most: u32, size: u32) -> bool
        ensures value { result ≡ nat_le (kept_bytes self.now + size) most }
        ensures room { OnTrue result (kept_bytes self.now + size < 2 ^ 64) }
    {
        let (most, size) = (u64::from(most), u64::from(size));
        self.bytes <= most && size <= most - self.bytes
    }

    /// Puts a request after those that wait. Out of memory nothing changes.
    #[tactic(auto, using(crate::proofs::Sums::kept_one_more))]
    pub fn put(&mut self, asked: Asked) -> Result<(), NoMemory>
        requires room { kept_bytes self.old + asked.size < 2 ^ 64 }
        ensures ok { OnOk result (self.new ≡ self.old ++ asked ∷ []) }
        ensures err { OnErr result (self.new ≡ self.old) }
    {
        match self.requests.push(asked) {
            Ok(()) => {
                self.bytes += u64::from(asked.size());
                Ok(())
            }
            Err(_) => Err(NoMemory),
        }
    }

    /// Takes out the request at a place.
    #[tactic(auto, using(crate::proofs::Sums::kept_one_less))]
    pub fn remove(&mut self, at: usize) -> Asked
        requires there { at < length self.old }
        ensures value { slice_get self.old at ≡ Some result }
        ensures after { self.new ≡ remove self.old at }
    {
        let asked = self.requests.remove(at);
        self.bytes -= u64::from(asked.size());
        asked
    }

    /// The place of the earliest request of a connection and id whose reply is still due. One pass.
    pub fn place_to_cancel(&self, conn: ConnId, id: u32) -> Option<usize>
        ensures { result ≡ position (may_cancel conn id) self.now }
    {
        self.requests
            .as_slice()
            .iter()
            .position(|asked| may_cancel(asked, conn, id))
    }

    /// The place of the request that a thread of this lane takes next: the earliest of those of greatest priority that it may run. Two
    /// passes.
    #[tactic(auto, unfolding(request_buffer::specs::Next::next_job))]
    pub fn place_of_next(&self, borrowing: bool, lane: u8) -> Option<usize>
        ensures { result ≡ next_job borrowing lane self.now }
    {
        let requests = self.requests.as_slice();
        let most = greatest_priority(requests, borrowing, lane);
        requests.iter().position(|asked| {
            may_run(borrowing, lane, asked.lane()) && asked.priority().level() == most
        })
    }

    /// How many requests of the connection wait. One pass.
    pub fn count_for(&self, conn: ConnId) -> usize
        ensures { result ≡ count_by (λ job. same_conn job.conn conn) self.now }
    {
        self.requests
            .as_slice()
            .iter()
            .filter(|asked| asked.conn().is_same(conn))
            .count()
    }
}

/// Whether the request is one of the connection with this id, whose reply is still due.
fn may_cancel(asked: &Asked, conn: ConnId, id: u32) -> bool
    ensures { result ≡ may_cancel conn id asked.now }
{
    matches!(asked.due(), Due::Late) && asked.conn().is_same(conn) && asked.id() == id
}

/// The greatest priority of the requests that a thread of this lane may run, or 0.
fn greatest_priority(requests: &[Asked], borrowing: bool, lane: u8) -> u16
    ensures { result ≡ greatest (λ job. may_run borrowing lane job.lane) (λ job. job.priority) requests.now }
{
    let mut most = 0;
    for asked in requests {
        most = higher_priority(most, asked, borrowing, lane);
    }
    most
}

/// The greater of this priority and that of the request, if a thread of this lane may run it.
fn higher_priority(most: u16, asked: &Asked, borrowing: bool, lane: u8) -> u16
    ensures { result ≡ (if may_run borrowing lane asked.now.lane then max most asked.now.priority else most) }
{
    if may_run(borrowing, lane, asked.lane()) {
        most.max(asked.priority().level())
    } else {
        most
    }
}
