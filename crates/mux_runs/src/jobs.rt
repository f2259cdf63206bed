//! What callers of a link begin with, and what they leave.
ghost use Rattle.std.specs.Prelude.{◌≡◌, ◌≤◌, [], length};
ghost use Rattle.std.specs.Vec.{vec_capacity};
ghost use Rattle.shared_link.specs.Turns.{AreFrom};
ghost use Rattle.mux_runs.specs.Callers as Spec;

use giop_messages::Request;
use mux_sides::CallEnd;
use orb_base::Arc;
use shared_link::{MuxSeat, Shared};

/// A call that a caller of a link makes.
#[derive(Debug, Drop)]
pub struct Asking {
    /// The request, whose id is the link's to give.
    pub request: Arc<Request>,
    /// Whether a reply is due.
    pub due: bool,
}

/// What a caller begins with.
#[derive(Drop)]
pub struct CallJob {
    pub seat: MuxSeat,
    pub asking: Asking,
}

/// What a caller leaves.
#[derive(Drop)]
pub struct CallDone {
    pub seat: MuxSeat,
    pub end: CallEnd,
}

/// What the callers leave, taken apart.
#[derive(Drop)]
pub struct CallParts {
    pub seats: Vec<MuxSeat>,
    pub ends: Vec<CallEnd>,
}

/// Gives each caller its call.
#[tactic(auto, using(crate::proofs::CallerJobs::from_front, crate::proofs::CallerJobs::from_last, crate::proofs::CallerJobs::short_front, crate::proofs::CallerJobs::short_last, crate::proofs::CallerJobs::jobs_none, crate::proofs::CallerJobs::jobs_grow, crate::proofs::CallerJobs::asked_none, crate::proofs::CallerJobs::asked_grow, crate::proofs::CallerJobs::same_lengths))]
pub fn give_calls(
    shared: &Shared,
    seats: Vec<MuxSeat>,
    calls: Vec<Asking>,
    none: Vec<CallJob>,
) -> Vec<CallJob>
    requires seats { AreFrom shared.now.cell 1 seats.items }
    requires short { Spec.AreShort calls.items }
    requires same { length seats.items ≡ length calls.items }
    requires few { length seats.items ≤ shared.now.cell.terms.opening.callers }
    requires room { (none.items ≡ []) × (length seats.items ≤ vec_capacity none) }
    ensures jobs { Spec.AreReady shared.now.cell 1 result.items }
    ensures asked { Spec.asked_by result.items ≡ calls.items }
    ensures all { length result.items ≡ length seats.items }
    ensures room { vec_capacity result ≡ vec_capacity none }
{
    let mut seats = seats;
    let mut calls = calls;
    match seats.pop() {
        None => none,
        Some(seat) => match calls.pop() {
            None => unreachable!(),
            Some(asking) => {
                let mut jobs = give_calls(shared, seats, calls, none);
                jobs.push_reserved(CallJob { seat, asking });
                jobs
            }
        },
    }
}

/// Takes apart what the callers left, in order.
#[tactic(auto, using(crate::proofs::CallerJobs::seats_grow, crate::proofs::CallerJobs::ends_grow, crate::proofs::CallerJobs::seats_none, crate::proofs::CallerJobs::ends_none, crate::proofs::CallerJobs::done_lengths))]
pub fn take_apart(done: Vec<CallDone>, none: CallParts) -> CallParts
    requires empty { (none.seats.items ≡ []) × (none.ends.items ≡ []) }
    requires room { (length done.items ≤ vec_capacity none.seats) × (length done.items ≤ vec_capacity none.ends) }
    ensures seats { result.seats.items ≡ Spec.seats_of done.items }
    ensures ends { result.ends.items ≡ Spec.ends_of done.items }
    ensures room { (vec_capacity result.seats ≡ vec_capacity none.seats) × (vec_capacity result.ends ≡ vec_capacity none.ends) }
{
    let mut before = done;
    match before.pop() {
        None => none,
        Some(CallDone { seat, end }) => {
            let mut parts = take_apart(before, none);
            parts.seats.push_reserved(seat);
            parts.ends.push_reserved(end);
            parts
        }
    }
}
