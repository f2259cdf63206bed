//! What the types of a message say of it, shown to contracts: each function here does nothing else.
ghost use Rattle.std.specs.Prelude.{◌<◌, ◌^◌, All};
ghost use Rattle.orb_base.specs.NulFree.{HasNoNul};
ghost use Rattle.giop_messages.specs.Message as Spec;
ghost use Rattle.giop_messages.specs.Ranges.{HasTag, HasId, TargetInRange, InRange};
ghost use Rattle.giop_messages.specs.TargetView.{target_of};
ghost use Rattle.giop_messages.specs.Views.{message_of};

use crate::locate::Locate;
use crate::located::Located;
use crate::message::Message;
use crate::reply::Reply;
use crate::request::Request;
use crate::target::Target;
use orb_base::{Context, Tagged, Text};

/// Shows that an octet has 8 bits.
fn see_octet(octet: u8)
    ensures { octet < 2 ^ 8 }
{}

/// Shows that an unsigned long has 32 bits.
pub fn see_long(long: u32)
    ensures { long < 2 ^ 32 }
{}

/// Shows that a text has no NUL.
fn see_text(text: &Text)
    ensures { HasNoNul text.now }
{
    text.as_slice();
}

/// Shows that a tag has 32 bits.
fn see_tagged(tagged: &Tagged)
    ensures { HasTag tagged.now }
{
    see_long(tagged.tag);
}

/// Shows that the id of a context has 32 bits.
fn see_context(context: &Context)
    ensures { HasId context.now }
{
    see_long(context.id);
}

/// Shows that each tag has 32 bits.
fn see_profiles(profiles: &[Tagged])
    ensures { All HasTag profiles.now }
{
    for tagged in profiles {
        see_tagged(tagged);
    }
}

/// Shows that the id of each context has 32 bits.
pub fn see_contexts(contexts: &[Context])
    ensures { All HasId contexts.now }
{
    for context in contexts {
        see_context(context);
    }
}

/// Shows the ranges of a target.
fn see_target(target: &Target)
    ensures { TargetInRange (target_of target.now) }
{
    match target {
        Target::Key(_) => {}
        Target::Profile(tagged) => see_tagged(tagged),
        Target::Addressing {
            index,
            type_id,
            profiles,
        } => {
            see_long(*index);
            see_text(type_id);
            see_profiles(profiles.as_slice());
        }
    }
}

/// Shows the ranges of a request.
fn see_request(request: &Request)
    ensures { InRange (Spec.request request.now) }
{
    see_long(request.id);
    see_octet(request.flags);
    see_target(&request.target);
    see_text(&request.operation);
    see_contexts(request.contexts.as_slice());
}

/// Shows the ranges of a reply.
fn see_reply(reply: &Reply)
    ensures { InRange (Spec.reply reply.now) }
{
    see_long(reply.id);
    see_contexts(reply.contexts.as_slice());
}

/// Shows the ranges of a question.
fn see_locate(locate: &Locate)
    ensures { InRange (Spec.locate locate.now) }
{
    see_long(locate.id);
    see_target(&locate.target);
}

/// Shows the ranges of an answer.
fn see_located(located: Located)
    ensures { InRange (message_of (Message.Located located)) }
{
    see_long(located.id);
    see_long(located.status);
}

/// Shows the ranges of a message.
pub fn see_message(message: &Message)
    ensures { InRange (message_of message.now) }
{
    match message {
        Message::Request(request) => see_request(request),
        Message::Reply(reply) => see_reply(reply),
        Message::Cancel(id) => see_long(*id),
        Message::Locate(locate) => see_locate(locate),
        Message::Located(located) => see_located(*located),
        Message::Close => {}
        Message::Error => {}
    }
}
