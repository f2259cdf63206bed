//! The queues of all lanes.
ghost use Rattle.std.specs.Prelude.{◌≡◌, ◌≤◌, ◌<◌, ◌+◌, ℕ, [], length, count_by, slice_get, Some, IfOk, IfSome, IsSomeAnd, IsFalse, MatchOption, false, ◌-◌, ◌^◌};
ghost use Rattle.orb_base.specs.Conn.{same_conn};
ghost use Rattle.request_buffer.specs.Entries.{Entry, InOrder, entries, is_sought};
ghost use Rattle.request_buffer.specs.Finding.{AreQueues, AreStamped, IsBest, IsBestIn, NoneIn, StandsAt, IsPutAmong, IsTakenFrom, IsRestamped, IsRenumbered, HasStamp, queue_of, better_spot};

use crate::found::{Found, Spot};
use crate::queue::Queue;
use crate::sought::Sought;
use crate::waiting::Waiting;
use orb_base::{ConnId, NoMemory};
use std::alloc::Global;
use std::marker::Model;

/// How many queues there are.
const QUEUES: usize = 16;

/// A queue for each lane. The last one has all lanes from 15 on.
#[derive(Drop)]
pub struct Queues {
    lanes: Vec<Queue>,
}

impl Model for Queues {
    ghost use Rattle.std.specs.Prelude.{List};
    ghost use Rattle.orb_base.specs.Room.{Room};
    ghost use Rattle.request_buffer.specs.Entries.{Entry};

    ghost Value = { List (Room Entry) };

    ghost view = { λ q. q.lanes.items };
}

impl Queues {
    /// Empty queues, each with room for so many requests.
    #[tactic(auto, using(crate::proofs::Spots::built_steps))]
    pub fn new(alloc: Global, room: usize) -> Result<Queues, NoMemory>
        ensures stamped { IfOk result (λ queues. AreStamped room 0 queues) }
        ensures empty { IfOk result (λ queues. entries queues ≡ []) }
    {
        let mut lanes = match Vec::with_capacity(alloc, QUEUES) {
            Ok(lanes) => lanes,
            Err(_) => return Err(NoMemory),
        };
        for _ in 0..QUEUES {
            let queue = Queue::new(alloc, room)?;
            match lanes.push(queue) {
                Ok(()) => {}
                Err(_) => return Err(NoMemory),
            }
        }
        Ok(Queues { lanes })
    }

    /// Puts a request into the queue of its lane.
    pub fn put(&mut self, request: Waiting)
        requires room { IsSomeAnd (slice_get self.old (queue_of request.job.lane))
            (λ queue. (0 < queue.spare) × InOrder queue.items) }
        ensures { IsPutAmong self.old self.new request }
    {
        let number = queue_of(request.lane());
        self.lanes[number].put(request);
    }

    /// Takes out the request at a place.
    pub fn take(&mut self, number: usize, at: usize) -> Waiting
        requires there { IsSomeAnd (slice_get self.old number) (λ q. at < length q.items) }
        ensures { IsTakenFrom self.old self.new number at result }
    {
        self.lanes[number].take(at)
    }

    /// Gives the request at a place another stamp.
    pub fn restamp(&mut self, number: usize, at: usize, stamp: usize)
        requires there { IsSomeAnd (slice_get self.old number) (λ q. at < length q.items) }
        ensures { (entry : Entry) → StandsAt self.old number at entry
            → IsRestamped self.old self.new number at stamp entry }
    {
        self.lanes[number].restamp(at, stamp);
    }

    /// The place of the request with a stamp, its queue and its position there. It looks at the first request of each
    /// queue, and where none of them is that one, at all requests.
    pub fn named(&self, stamp: usize) -> (usize, usize)
        requires queues { AreQueues self.now }
        requires there { ¬ (NoneIn (Sought.Stamped stamp) (entries self.now)) }
        ensures { HasStamp self.now result.0 result.1 stamp }
    {
        match self.begun_by(stamp) {
            Some(number) => (number, 0),
            None => self.found_by(stamp),
        }
    }

    /// The earliest of the requests of greatest weight that are sought. It looks at the first request of each queue for
    /// the next one, and at all requests for any other.
    #[tactic(auto, using(crate::proofs::Spots::spot_start, crate::proofs::Spots::spot_more, crate::proofs::Spots::spot_end))]
    pub fn best(&self, sought: Sought) -> Option<Spot>
        requires queues { AreQueues self.now }
        ensures { MatchOption result (NoneIn sought (entries self.now)) (IsBest sought self.now) }
    {
        let mut best = None;
        for number in 0..self.lanes.len() {
            best = better_spot(best, number, self.best_in(number, sought));
        }
        best
    }

    /// How many requests of the connection there are.
    #[tactic(auto, using(crate::proofs::Counting::count_steps))]
    pub fn count_for(&self, conn: ConnId) -> usize
        requires few { length (entries self.now) < 2 ^ 32 }
        ensures { result ≡ count_by (λ e. same_conn e.job.conn conn) (entries self.now) }
    {
        let mut count = 0;
        for number in 0..self.lanes.len() {
            count += self.lanes[number].count_for(conn);
        }
        count
    }

    /// The number of the queue whose first request has this stamp.
    fn begun_by(&self, stamp: usize) -> Option<usize>
        ensures { IfSome result (λ q. HasStamp self.now q 0 stamp) }
    {
        for number in 0..self.lanes.len() {
            if self.lanes[number].begins_with(stamp) {
                return Some(number);
            }
        }
        None
    }

    /// The place of the request with a stamp, by a pass over all.
    #[tactic(auto, using(crate::proofs::Spots::has_stamp))]
    fn found_by(&self, stamp: usize) -> (usize, usize)
        requires queues { AreQueues self.now }
        requires there { ¬ (NoneIn (Sought.Stamped stamp) (entries self.now)) }
        ensures { HasStamp self.now result.0 result.1 stamp }
    {
        match self.best(Sought::Stamped(stamp)) {
            Some(spot) => (spot.queue, spot.found.at),
            None => unreachable!(),
        }
    }

    /// The best of a queue.
    #[tactic(auto, using(crate::proofs::Spots::best_there, crate::proofs::Spots::none_there))]
    fn best_in(&self, number: usize, sought: Sought) -> Option<Found>
        requires within { number < length self.now }
        requires queues { AreQueues self.now }
        ensures { IsSomeAnd (slice_get self.now number)
            (λ queue. MatchOption result (NoneIn sought queue.items) (IsBestIn sought queue.items)) }
    {
        if may_hold(number, sought) {
            self.lanes[number].best(sought)
        } else {
            None
        }
    }
}

/// The number of a lane's queue.
fn queue_of(lane: u8) -> usize
    ensures value { result ≡ queue_of lane }
    ensures few { result < 16 }
{
    usize::from(lane).min(QUEUES - 1)
}

/// Whether a queue can have a request that is sought.
fn may_hold(number: usize, sought: Sought) -> bool
    ensures { IsFalse result → (entry : Entry) → queue_of entry.job.lane ≡ number → is_sought sought entry ≡ false }
{
    match sought {
        Sought::Next { lane, borrowing } => {
            let own = queue_of(lane);
            own == number || (borrowing && own < number)
        }
        Sought::Late { .. } => true,
        Sought::Stamped(_) => true,
        Sought::From(_) => true,
    }
}

/// The better of a place and of what one more queue has.
fn better_spot(best: Option<Spot>, number: usize, found: Option<Found>) -> Option<Spot>
    ensures { result ≡ better_spot best number found }
{
    let Some(found) = found else {
        return best;
    };
    match best {
        Some(first) => {
            if first.found.is_ahead(found) {
                Some(first)
            } else {
                Some(Spot {
                    queue: number,
                    found,
                })
            }
        }
        None => Some(Spot {
            queue: number,
            found,
        }),
    }
}

/// A stamp that is greater than that of each request. Where the stamps come to an end, the requests get new ones from 0
/// on, in the same order: work that grows with the square of their number, once in 2^64 calls.
#[tactic(auto, using(crate::proofs::Renumbering::not_renumbered))]
pub fn free_stamp(queues: &mut Queues, next: usize, room: u32) -> usize
    requires stamped { AreStamped room next queues.old }
    requires few { length (entries queues.old) < 2 ^ 32 }
    ensures renumbered { IsRenumbered room next result queues.old queues.new }
    ensures left { result < 2 ^ 64 - 1 }
{
    if next < usize::MAX {
        next
    } else {
        renumber(queues, next, room)
    }
}

/// Gives the requests stamps from 0 on, in the same order, and says how many there are.
#[tactic(auto, using(crate::proofs::Renumbering::so_far_steps))]
fn renumber(queues: &mut Queues, next: usize, room: u32) -> usize
    requires stamped { AreStamped room next queues.old }
    ensures renumbered { IsRenumbered room next result queues.old queues.new }
    ensures few { result ≤ length (entries queues.old) }
{
    let _ = room;
    let mut count = 0;
    while let Some(spot) = queues.best(Sought::From(count)) {
        queues.restamp(spot.queue, spot.found.at, count);
        count += 1;
    }
    let _ = next;
    count
}
