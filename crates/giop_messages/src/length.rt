//! How long messages are as they are spelled.
ghost use Rattle.std.specs.Prelude.{◌≡◌, ◌+◌, ◌<◌, ◌≤◌, ℕ, List, [], ◌∷◌, length, map};
ghost use Rattle.std.specs.Int.{w32};
ghost use Rattle.std.specs.List.{flat_map};
ghost use Rattle.orb_base.specs.declared.order.Order.{Order};
ghost use Rattle.cdr_core.specs.Alignment.{pad_len};
ghost use Rattle.cdr_core.specs.Field.{number, string_fields, octets_fields};
ghost use Rattle.cdr_core.specs.Lists.{tagged_fields, context_fields};
ghost use Rattle.giop_messages.specs.Message as Spec;
ghost use Rattle.giop_messages.specs.Layout.{target_fields, contexts_fields, body_fields};
ghost use Rattle.giop_messages.specs.Spelling.{spelled, all_fields};
ghost use Rattle.giop_messages.specs.TargetView.{target_of};
ghost use Rattle.giop_messages.specs.Views.{message_of};
ghost use Rattle.giop_messages.specs.Lengths.{Ends, held, data_len};

use crate::message::Message;
use crate::request::Request;
use crate::target::Target;
use orb_base::{Context, Tagged};

/// The place after a field of this alignment and length.
fn behind(place: usize, alignment: usize, len: usize) -> usize
    requires some { 0 < alignment }
    requires few { alignment ≤ 8 }
    ensures { result ≡ held (place + pad_len alignment place + len) }
{
    let pad = (alignment - place % alignment) % alignment;
    place.saturating_add(pad).saturating_add(len)
}

fn behind_u32(place: usize) -> usize
    ensures { (n : ℕ) → Ends place (number w32 n ∷ []) result }
{
    behind(place, 4, 4)
}

fn behind_octets(place: usize, len: usize) -> usize
    ensures { (bytes : List ℕ) → length bytes ≡ len → Ends place (octets_fields bytes) result }
{
    behind(behind_u32(place), 1, len)
}

fn behind_text(place: usize, len: usize) -> usize
    ensures { (text : List ℕ) → length text ≡ len → Ends place (string_fields text) result }
{
    behind(behind(behind_u32(place), 1, len), 1, 1)
}

fn behind_tagged_list(place: usize, list: &[Tagged]) -> usize
    ensures { Ends place (flat_map tagged_fields list.now) result }
{
    let mut at = place;
    for tagged in list {
        at = behind_octets(behind_u32(at), tagged.bytes.len());
    }
    at
}

fn behind_context_list(place: usize, list: &[Context]) -> usize
    ensures { Ends place (flat_map context_fields list.now) result }
{
    let mut at = place;
    for context in list {
        at = behind_octets(behind_u32(at), context.bytes.len());
    }
    at
}

fn behind_contexts(place: usize, list: &[Context]) -> usize
    ensures { Ends place (contexts_fields list.now) result }
{
    behind_context_list(behind_u32(place), list)
}

fn behind_reference(place: usize, type_id: usize, profiles: &[Tagged]) -> usize
    ensures { (index : ℕ) (text : List ℕ) → length text ≡ type_id
        → Ends place (target_fields (Spec.addressing index text profiles.now)) result }
{
    let at = behind_u32(behind(place, 2, 2));
    behind_tagged_list(behind_u32(behind_text(at, type_id)), profiles)
}

fn behind_target(place: usize, target: &Target) -> usize
    ensures { Ends place (target_fields (target_of target.now)) result }
{
    match target {
        Target::Key(bytes) => behind_octets(behind(place, 2, 2), bytes.len()),
        Target::Profile(tagged) => {
            behind_octets(behind_u32(behind(place, 2, 2)), tagged.bytes.len())
        }
        Target::Addressing {
            type_id,
            profiles,
            ..
        } => behind_reference(place, type_id.len(), profiles.as_slice()),
    }
}

fn behind_body(place: usize, len: usize) -> usize
    ensures { (body : List ℕ) → length body ≡ len → Ends place (body_fields body) result }
{
    if len == 0 {
        place
    } else {
        behind(place, 8, len)
    }
}

fn whole_request_len(request: &Request) -> usize
    ensures { Ends 12 (all_fields (Spec.request request.now)) result }
{
    let target = behind_target(20, &request.target);
    let operation = behind_text(target, request.operation.len());
    let contexts = behind_contexts(operation, request.contexts.as_slice());
    behind_body(contexts, request.body.len())
}

/// The place after contexts of which the data have these lengths in octets.
fn behind_sizes(place: usize, sizes: &[usize]) -> usize
    ensures { (contexts : List Context) → map data_len contexts ≡ sizes.now → Ends place (flat_map context_fields contexts) result }
{
    let mut at = place;
    for size in sizes {
        at = behind_octets(behind_u32(at), *size);
    }
    at
}

/// The same after their number.
fn behind_sized_contexts(place: usize, sizes: &[usize]) -> usize
    ensures { (contexts : List Context) → map data_len contexts ≡ sizes.now → Ends place (contexts_fields contexts) result }
{
    behind_sizes(behind_u32(place), sizes)
}

/// The place after a target that is a key of so many octets.
fn behind_key(place: usize, len: usize) -> usize
    ensures { (bytes : List ℕ) → length bytes ≡ len → Ends place (target_fields (Spec.key bytes)) result }
{
    behind_octets(behind(place, 2, 2), len)
}

/// The length in bytes of a request for the object of a key, as it is spelled, or usize::MAX where that is greater: by the
/// key, the operation's name, how many octets the data of each context have, and how many the body has. A pad is before
/// a body that isn't empty. Takes no memory; one pass over the contexts. CORBA 3.0.3, section 15.4.2.
pub fn request_len(key: &[u8], operation: &[u8], contexts: &[usize], len: usize) -> usize
    ensures { (order : Order) (id flags : ℕ) (told : List Context) (body : List ℕ) → map data_len told ≡ contexts.now → length body ≡ len
        → result ≡ held (length (spelled order (Spec.request_of id flags (Spec.key key.now) operation.now told body))) }
{
    let target = behind_key(20, key.len());
    let named = behind_text(target, operation.len());
    let at = behind_sized_contexts(named, contexts);
    behind_body(at, len)
}

/// The length in bytes of a reply with these contexts and a body of so many octets as it is spelled, or usize::MAX where
/// that is greater. One pass over the contexts. CORBA 3.0.3, section 15.4.3.
pub fn reply_len(contexts: &[Context], len: usize) -> usize
    ensures { (order : Order) (id status : ℕ) (body : List ℕ) → length body ≡ len
        → result ≡ held (length (spelled order (Spec.reply_of id status contexts.now body))) }
{
    let at = behind_contexts(20, contexts);
    behind_body(at, len)
}

/// The length in bytes of the message as it is spelled, or usize::MAX where that is greater. One pass
/// over its contexts and profiles. CORBA 3.0.3, section 15.4.
pub fn message_len(message: &Message) -> usize
    ensures { (order : Order) → result ≡ held (length (spelled order (message_of message.now))) }
{
    match message {
        Message::Request(request) => whole_request_len(request),
        Message::Reply(reply) => reply_len(reply.contexts.as_slice(), reply.body.len()),
        Message::Cancel(_) => 16,
        Message::Locate(locate) => behind_target(16, &locate.target),
        Message::Located(_) => 20,
        Message::Close => 12,
        Message::Error => 12,
    }
}
