//! The callers of the link.
ghost use Rattle.std.specs.Prelude.{◌≤◌, ◌+◌, ◌≡◌, length, IfSome};
ghost use Rattle.std.specs.Thread.{IsSync};
ghost use Rattle.client_mux.specs.declared.limits.TheConstants.{MAX_STARTS};
ghost use Rattle.client_mux.specs.Callers.{IsShort, starts};
ghost use Rattle.shared_link.specs.Turns.{AreFrom};
ghost use Rattle.link_callers.specs.Going.{CanGoOn};

use giop_messages::Request;
use link_callers::LinkCaller;
use mux_sides::CallEnd;
use orb_base::Arc;
use shared_link::{MuxSeat, Shared};
use std::sync::Wait;
use std::thread;
use std::thread::Threads;

/// Makes so many calls, one after another, up to the first without a reply: how many replies came.
fn call_often<R: Wait>(
    rt: &R,
    shared: &Shared,
    caller: &mut LinkCaller,
    request: &Arc<Request>,
    calls: u32,
) -> u32
    requires goes { CanGoOn shared.now.cell caller.old }
    requires few { starts caller.old.mine + calls ≤ MAX_STARTS }
    requires short { IsShort request.now }
    ensures goes { CanGoOn shared.now.cell caller.new }
    ensures few { result ≤ calls }
{
    if calls == 0 {
        return 0;
    }
    let Ok(share) = request.share() else {
        return 0;
    };
    match caller.call(rt, shared, share, true) {
        CallEnd::Reply(_reply) => 1 + call_often(rt, shared, caller, request, calls - 1),
        CallEnd::Gone(_why) => 0,
        CallEnd::NoneDue => 0,
    }
}

/// One caller: how many replies came.
fn call_all<R: Wait>(
    rt: &R,
    shared: &Shared,
    caller: LinkCaller,
    request: &Arc<Request>,
    calls: u32,
) -> u32
    requires goes { CanGoOn shared.now.cell caller }
    requires few { starts caller.mine + calls ≤ MAX_STARTS }
    requires short { IsShort request.now }
{
    let mut caller = caller;
    let answered = call_often(rt, shared, &mut caller, request, calls);
    caller.leave(rt, shared);
    answered
}

/// The caller by the last seat, which is taken from the others; None where there is none.
#[tactic(auto, using(mux_runs::proofs::CallerJobs::from_front, mux_runs::proofs::CallerJobs::from_last, crate::proofs::Firsts::first_goes, crate::proofs::Firsts::first_starts, crate::proofs::Firsts::first_unused, crate::proofs::Firsts::one_less))]
fn next_caller(shared: &Shared, seats: &mut Vec<MuxSeat>) -> Option<LinkCaller>
    requires seats { AreFrom shared.now.cell 1 seats.old.items }
    requires all { length seats.old.items ≤ shared.now.cell.terms.opening.callers }
    ensures seats { AreFrom shared.now.cell 1 seats.new.items }
    ensures less { IfSome result (λ _. length seats.old.items ≡ length seats.new.items + 1) }
    ensures goes { IfSome result (λ c. CanGoOn shared.now.cell c) }
    ensures first { IfSome result (λ c. starts c.mine ≡ 0) }
{
    match seats.pop() {
        Some(seat) => Some(LinkCaller::new(seat)),
        None => None,
    }
}

/// All callers, each in a thread of its own where one can be made: how many replies came to all of them.
#[cycle(callers)]
pub fn run_callers<R: Wait + Threads + Sync>(
    rt: &R,
    shared: &Shared,
    seats: Vec<MuxSeat>,
    request: &Arc<Request>,
    calls: u32,
) -> u32
    requires seats { AreFrom shared.now.cell 1 seats.items }
    requires all { length seats.items ≤ shared.now.cell.terms.opening.callers }
    requires few { calls ≤ MAX_STARTS }
    requires short { IsShort request.now }
{
    let mut seats = seats;
    let Some(caller) = next_caller(shared, &mut seats) else {
        return 0;
    };
    let (one, others) = thread::join(
        rt,
        move || -> u32
            requires { CanGoOn shared.now.cell caller × (starts caller.mine + calls ≤ MAX_STARTS) × IsShort request.now }
        { call_all(rt, shared, caller, request, calls) },
        move || -> u32
            requires { IsSync R.row × AreFrom shared.now.cell 1 seats.items
                × (length seats.items ≤ shared.now.cell.terms.opening.callers) × (calls ≤ MAX_STARTS) × IsShort request.now }
        { run_callers(rt, shared, seats, request, calls) },
    );
    one.saturating_add(others)
}
