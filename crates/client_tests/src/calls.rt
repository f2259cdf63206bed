//! The calls of callers.
ghost use Rattle.std.specs.Prelude.{IfSome};
ghost use Rattle.client_mux.specs.Callers.{IsShort};
ghost use Rattle.mux_runs.specs.Callers.{AreShort};

use giop_messages::{Message, Request, Target};
use link_callers::short_request;
use mux_runs::Asking;
use orb_base::{Arc, List, Text};
use std::alloc::Global;

/// The message of a request for `current` of `ping`.
pub fn message(alloc: Global) -> Option<Message> {
    let operation = Text::new(alloc, b"current").ok()?;
    let mut key = List::new(alloc);
    key.append(b"ping").ok()?;
    Some(Message::Request(Request {
        id: 0,
        flags: 3,
        target: Target::Key(key),
        operation,
        contexts: List::new(alloc),
        body: List::new(alloc),
    }))
}

/// A call by it.
fn asking(alloc: Global, due: bool) -> Option<Asking>
    ensures { IfSome result (λ a. IsShort a.request) }
{
    let request = short_request(message(alloc)?)?;
    let request = Arc::new(alloc, request).ok()?;
    Some(Asking { request, due })
}

/// Puts a call after the others.
#[tactic(auto, using(crate::proofs::Shorts::short_push))]
fn put(calls: &mut Vec<Asking>, call: Asking) -> Option<()>
    requires short { AreShort calls.old.items }
    requires one { IsShort call.request }
    ensures { AreShort calls.new.items }
{
    match calls.push(call) {
        Ok(()) => Some(()),
        Err(_) => None,
    }
}

/// So many calls.
pub fn calls_of(alloc: Global, count: usize, due: bool) -> Option<List<Asking>>
    ensures { IfSome result (λ calls. AreShort calls.items) }
{
    let mut calls = Vec::new(alloc);
    for _ in 0..count {
        put(&mut calls, asking(alloc, due)?)?;
    }
    Some(List::from_vec(calls))
}
