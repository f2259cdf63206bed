//! What the callers ask.
ghost use Rattle.std.specs.Prelude.{◌≡◌, ◌+◌, length, IsTrue, IfOk};
ghost use Rattle.client_stub.specs.Asking.{arguments_fit, asked_of};
ghost use Rattle.client_stub.specs.Sending.{IsSendable};
ghost use Rattle.mux_runs.specs.Callers.{AreShort};
ghost use Rattle.shared_calls.specs.Asking as Spec;

use client_mux::CallerCount;
use client_stub::{Asked, call_of};
use mux_runs::Asking;
use orb_base::{Arc, List, NoMemory};
use std::alloc::Global;

/// The id of a request whose id is the link's to give.
const NO_ID: u32 = 0;

/// What one caller asks.
fn asking_of(alloc: Global, asked: &Asked) -> Result<Asking, NoMemory>
    requires fits { IsTrue (arguments_fit (asked_of asked.now)) }
    ensures { IfOk result (Spec.Asks (asked_of asked.now)) }
{
    let request = call_of(alloc, asked, NO_ID)?;
    let oneway = asked.operation.oneway;
    match Arc::new(alloc, request) {
        Ok(request) => Ok(Asking {
            request,
            due: !oneway,
        }),
        Err(_) => Err(NoMemory),
    }
}

/// Another caller asks the same.
fn again(asking: &Asking) -> Result<Asking, NoMemory>
    ensures { IfOk result (λ a. a ≡ asking.now) }
{
    let request = asking.request.share()?;
    Ok(Asking {
        request,
        due: asking.due,
    })
}

/// One more caller asks the same.
#[tactic(auto, using(crate::proofs::AllAsking::all_more))]
fn put_again(calls: &mut List<Asking>, asking: &Asking, asked: &Asked) -> Result<(), NoMemory>
    requires all { Spec.AllAsk (asked_of asked.now) calls.old.items }
    requires one { Spec.Asks (asked_of asked.now) asking.now }
    ensures all { IfOk result (λ _. Spec.AllAsk (asked_of asked.now) calls.new.items) }
    ensures one { IfOk result (λ _. length calls.new.items ≡ length calls.old.items + 1) }
{
    let next = again(asking)?;
    match calls.push(next) {
        Ok(()) => Ok(()),
        Err(_) => Err(NoMemory),
    }
}

/// What so many callers ask: each the same call. The request is held once.
#[tactic(auto, using(crate::proofs::AllAsking::all_short))]
pub(crate) fn calls_of(
    alloc: Global,
    asked: &Asked,
    callers: CallerCount,
) -> Result<List<Asking>, NoMemory>
    requires fits { IsTrue (arguments_fit (asked_of asked.now)) }
    requires short { IsSendable (asked_of asked.now) }
    ensures all { IfOk result (λ calls. Spec.AllAsk (asked_of asked.now) calls.items) }
    ensures many { IfOk result (λ calls. length calls.items ≡ callers) }
    ensures short { IfOk result (λ calls. AreShort calls.items) }
{
    let asking = asking_of(alloc, asked)?;
    let mut calls = List::new(alloc);
    for _ in 0..callers.count() {
        put_again(&mut calls, &asking, asked)?;
    }
    Ok(calls)
}
