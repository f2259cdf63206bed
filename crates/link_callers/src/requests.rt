//! Requests that a shared link takes.
ghost use Rattle.std.specs.Prelude.{◌≡◌, ◌↔◌, IfSome, IsSome};
ghost use Rattle.giop_messages.specs.Message as Spec;
ghost use Rattle.giop_messages.specs.Views.{message_of};
ghost use Rattle.client_mux.specs.Callers.{IsShort};
ghost use Rattle.link_callers.specs.Requests.{request_in, IsShortRequest};

use giop_messages::{Message, Request, message_len};
use orb_base::limits::MAX_MESSAGE;

/// The request of a message.
fn only_request(message: Message) -> Option<Request>
    ensures { result ≡ request_in (message_of message) }
{
    match message {
        Message::Request(request) => Some(request),
        Message::Reply(_reply) => None,
        Message::Cancel(_id) => None,
        Message::Locate(_locate) => None,
        Message::Located(_located) => None,
        Message::Close => None,
        Message::Error => None,
    }
}

/// The request of a message, where it is one of at most 67,108,864 bytes, header and all, whatever id the link gives it. Takes
/// no memory, and passes once over its contexts.
#[tactic(auto, using(crate::proofs::Shorts::short_same))]
pub fn short_request(message: Message) -> Option<Request>
    ensures same { IfSome result (λ r. message_of message ≡ Spec.request r) }
    ensures short { IfSome result (λ r. IsShort r) }
    ensures some { IsSome result ↔ IsShortRequest (message_of message) }
{
    if message_len(&message) > MAX_MESSAGE {
        return None;
    }
    only_request(message)
}
