//! The request of the calls.
ghost use Rattle.std.specs.Prelude.{IfSome};
ghost use Rattle.client_mux.specs.Callers.{IsShort};

use giop_messages::{Message, Request, Target};
use link_callers::short_request;
use orb_base::{Arc, List, Text};
use std::alloc::Global;

/// The message of a request for `current` of `ping`.
fn message(alloc: Global) -> Option<Message> {
    let operation = Text::new(alloc, b"current").ok()?;
    let mut key = List::new(alloc);
    key.append(b"ping").ok()?;
    Some(Message::Request(Request {
        id: 0,
        flags: 3,
        target: Target::Key(key),
        operation,
        contexts: List::new(alloc),
        body: List::new(alloc),
    }))
}

/// A request for `current` of `ping`, to be shared by all calls.
pub fn shared_request(alloc: Global) -> Option<Arc<Request>>
    ensures { IfSome result (λ r. IsShort r) }
{
    let request = short_request(message(alloc)?)?;
    Arc::new(alloc, request).ok()
}
