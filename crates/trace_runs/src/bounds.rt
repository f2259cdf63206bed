//! What the entries of a run may name.
ghost use Rattle.std.specs.Prelude.{◌≡◌, ◌↔◌, ◌≤◌, IsTrue, length, sum_by};
ghost use Rattle.orb_base.specs.Pool.{lane_threads};
ghost use Rattle.orb_base.specs.declared.limits.TheConstants.{MAX_LANES};
ghost use Rattle.trace_reading.specs.Traces.{HasConn, HasThread, NamesThread, IsOf};

use crate::run::Run;
use orb_base::{ConnId, LaneSpec};
use trace_lines::{Action, OfferReply, OfferedRequest};

/// How many threads lanes have together.
fn count_threads(lanes: &[LaneSpec]) -> usize
    requires { length lanes.now ≤ MAX_LANES }
    ensures { result ≡ sum_by lane_threads lanes.now }
{
    lanes
        .iter()
        .map(|lane| usize::from(lane.statics) + usize::from(lane.dynamics))
        .sum()
}

impl Run {
    /// Whether the run has such a connection.
    fn has_conn(&self, conn: ConnId) -> bool
        ensures { IsTrue result ↔ HasConn self.now conn }
    {
        conn.slot < self.slots && conn.nth < self.per_slot
    }

    /// Whether it has such a thread. One pass over the lanes.
    fn has_thread(&self, n: u8) -> bool
        requires { length self.now.pool.lanes ≤ MAX_LANES }
        ensures { IsTrue result ↔ HasThread self.now n }
    {
        usize::from(n) < count_threads(self.pool.lanes.as_slice())
    }

    /// Whether it has the thread that a request was given to.
    fn has_thread_of(&self, reply: OfferReply) -> bool
        requires { length self.now.pool.lanes ≤ MAX_LANES }
        ensures { IsTrue result ↔ NamesThread self.now reply }
    {
        match reply {
            OfferReply::Run(n) => self.has_thread(n),
            OfferReply::Lent(n) => self.has_thread(n),
            OfferReply::Kept => true,
            OfferReply::Full => true,
            OfferReply::Closing => true,
        }
    }

    /// Whether an offered request and its reply name what the run has.
    fn may_offer(&self, request: &OfferedRequest, reply: OfferReply) -> bool
        requires { length self.now.pool.lanes ≤ MAX_LANES }
        ensures { IsTrue result ↔ IsOf self.now (Action.Offer request.now reply) }
    {
        self.has_conn(request.conn)
            && usize::from(request.lane) < self.pool.lanes.len()
            && self.has_thread_of(reply)
    }

    /// Whether the connection, thread, lane and slot that a call and its reply name are the run's.
    pub fn has_named(&self, action: &Action) -> bool
        requires { length self.now.pool.lanes ≤ MAX_LANES }
        ensures { IsTrue result ↔ IsOf self.now action.now }
    {
        match action {
            Action::Offer { request, reply } => self.may_offer(request, *reply),
            Action::Post { conn, .. } => self.has_conn(*conn),
            Action::Cancel { conn, .. } => self.has_conn(*conn),
            Action::Take { thread, .. } => self.has_thread(*thread),
            Action::Finish { thread, .. } => self.has_thread(*thread),
            Action::Collect { conn, .. } => self.has_conn(*conn),
            Action::End { conn, .. } => self.has_conn(*conn),
            Action::Leave { slot } => *slot < self.slots,
        }
    }
}
