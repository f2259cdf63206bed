//! Whole messages, written.
ghost use Rattle.std.specs.Prelude.{◌≡◌, ◌≤◌, ◌<◌, ◌+◌, ◌^◌, ℕ, [], ◌∷◌, ◌++◌, length, OnOk, OnErr};
ghost use Rattle.std.specs.Int.{w8, w32};
ghost use Rattle.cdr_core.specs.Field.{number, run, fields_end};
ghost use Rattle.cdr_core.specs.Writing.{Puts};
ghost use Rattle.giop_frames.specs.declared.kind.Kind.TheVariants as kinds;
ghost use Rattle.giop_frames.specs.Headers.{magic};
ghost use Rattle.giop_frames.specs.Kinds.{number as kind_number};
ghost use Rattle.giop_messages.specs.Message as Spec;
ghost use Rattle.cdr_core.specs.Encapsulation.{order_byte};
ghost use Rattle.giop_messages.specs.Layout.{header_fields};
ghost use Rattle.giop_messages.specs.Spelling.{all_fields, spelled};
ghost use Rattle.giop_messages.specs.Views.{message_of};
ghost use Rattle.giop_messages.specs.Reading.{ReadsIn};
ghost use Rattle.giop_messages.specs.Front.{IsFront};

use crate::length::{message_len, reply_len};
use crate::locate::Locate;
use crate::located::Located;
use crate::message::Message;
use crate::part::{put_body, put_contexts, put_target};
use crate::ranges::{see_contexts, see_long, see_message};
use crate::reply::Reply;
use crate::request::Request;
use cdr_core::Writer;
use giop_frames::Kind;
use orb_base::limits::MAX_MESSAGE;
use orb_base::{Context, NoMemory, Order};

/// Bit 0 of the flags.
fn flag(order: Order) -> u8
    ensures { result ≡ order_byte order }
{
    match order {
        Order::Big => 0,
        Order::Little => 1,
    }
}

/// The first eight octets of a header, before the size: the magic number, GIOP 1.2, the byte order in bit 0 of the
/// flags, and the number of the message's kind (CORBA 3.0.3, section 15.4.1). Takes no memory.
pub fn header_start(order: Order, kind: u8) -> [u8; 8]
    ensures { result ≡ magic ++ 1 ∷ 2 ∷ order_byte order ∷ kind ∷ [] }
{
    [b'G', b'I', b'O', b'P', 1, 2, flag(order), kind]
}

/// The number of a message's kind.
fn kind(message: &Message) -> u8
    ensures { result ≡ Spec.kind_of (message_of message.now) }
{
    match message {
        Message::Request(_) => Kind::Request.number(),
        Message::Reply(_) => Kind::Reply.number(),
        Message::Cancel(_) => Kind::CancelRequest.number(),
        Message::Locate(_) => Kind::LocateRequest.number(),
        Message::Located(_) => Kind::LocateReply.number(),
        Message::Close => Kind::CloseConnection.number(),
        Message::Error => Kind::MessageError.number(),
    }
}

/// Puts the header.
fn put_header(into: &mut Writer, order: Order, kind: u8, size: u32) -> Result<(), NoMemory>
    ensures { Puts result into.old into.new (header_fields order kind size) }
{
    let head = header_start(order, kind);
    into.put_run(1, &head)?;
    into.put_u32(size)
}

/// Puts the header of a reply.
fn put_reply_header(into: &mut Writer, order: Order, size: u32) -> Result<(), NoMemory>
    ensures { Puts result into.old into.new (header_fields order (kind_number kinds.Reply) size) }
{
    put_header(into, order, Kind::Reply.number(), size)
}

/// Puts the id and the flags of a request, and the reserved octets.
fn put_request_head(into: &mut Writer, id: u32, flags: u8) -> Result<(), NoMemory>
    ensures { Puts result into.old into.new
        (number w32 id ∷ number w8 flags ∷ run 1 (0 ∷ 0 ∷ 0 ∷ []) ∷ []) }
{
    into.put_u32(id)?;
    into.put_u8(flags)?;
    into.put_run(1, &[0, 0, 0])
}

/// Puts a request after its header.
fn put_request(into: &mut Writer, request: &Request) -> Result<(), NoMemory>
    requires { fields_end into.old.place (all_fields (Spec.request request.now)) < 2 ^ 32 }
    ensures { Puts result into.old into.new (all_fields (Spec.request request.now)) }
{
    put_request_head(into, request.id, request.flags)?;
    put_target(into, &request.target)?;
    into.put_string(&request.operation)?;
    put_contexts(into, request.contexts.as_slice())?;
    put_body(into, request.body.as_slice())
}

/// Puts the parts of a reply after its header.
fn put_reply_parts(
    into: &mut Writer,
    id: u32,
    status: u32,
    contexts: &[Context],
    body: &[u8],
) -> Result<(), NoMemory>
    requires { fields_end into.old.place (all_fields (Spec.reply_of id status contexts.now body.now)) < 2 ^ 32 }
    ensures { Puts result into.old into.new (all_fields (Spec.reply_of id status contexts.now body.now)) }
{
    into.put_u32(id)?;
    into.put_u32(status)?;
    put_contexts(into, contexts)?;
    put_body(into, body)
}

/// Puts a reply after its header.
fn put_reply(into: &mut Writer, reply: &Reply) -> Result<(), NoMemory>
    requires { fields_end into.old.place (all_fields (Spec.reply reply.now)) < 2 ^ 32 }
    ensures { Puts result into.old into.new (all_fields (Spec.reply reply.now)) }
{
    put_reply_parts(
        into,
        reply.id,
        reply.status,
        reply.contexts.as_slice(),
        reply.body.as_slice(),
    )
}

/// Puts a question after its header.
fn put_locate(into: &mut Writer, locate: &Locate) -> Result<(), NoMemory>
    requires { fields_end into.old.place (all_fields (Spec.locate locate.now)) < 2 ^ 32 }
    ensures { Puts result into.old into.new (all_fields (Spec.locate locate.now)) }
{
    into.put_u32(locate.id)?;
    put_target(into, &locate.target)
}

/// Puts an answer after its header.
fn put_located(into: &mut Writer, located: Located) -> Result<(), NoMemory>
    ensures { Puts result into.old into.new (number w32 located.id ∷ number w32 located.status ∷ []) }
{
    into.put_u32(located.id)?;
    into.put_u32(located.status)
}

/// Puts a message after its header.
fn put_fields(into: &mut Writer, message: &Message) -> Result<(), NoMemory>
    requires { fields_end into.old.place (all_fields (message_of message.now)) < 2 ^ 32 }
    ensures { Puts result into.old into.new (all_fields (message_of message.now)) }
{
    match message {
        Message::Request(request) => put_request(into, request),
        Message::Reply(reply) => put_reply(into, reply),
        Message::Cancel(id) => into.put_u32(*id),
        Message::Locate(locate) => put_locate(into, locate),
        Message::Located(located) => put_located(into, *located),
        Message::Close => Ok(()),
        Message::Error => Ok(()),
    }
}

/// Writes a message as it is spelled, in this order, into an empty writer at place 0. Pads, the reserved
/// octets and all flag bits but that of the order are 0. Once out of memory the writer holds a prefix
/// of it. What it wrote is read as that message. Memory is asked for once, and work grows with the message's length.
/// CORBA 3.0.3, section 15.4.
pub fn write_message(order: Order, message: &Message, into: &mut Writer) -> Result<(), NoMemory>
    requires empty { into.old ≡ record { order = order; place = 0; bytes = [] } }
    requires len { length (spelled order (message_of message.now)) ≤ MAX_MESSAGE }
    requires status { Spec.HasStatus (message_of message.now) }
    ensures ok { OnOk result (into.new.bytes ≡ spelled order (message_of message.now)) }
    ensures reads_back { OnOk result (ReadsIn order (message_of message.now) into.new.bytes) }
    ensures memory { OnErr result (IsFront into.new.bytes (spelled order (message_of message.now))) }
{
    see_message(message);
    let len = message_len(message);
    into.reserve(len)?;
    let size = len - 12;
    put_header(into, order, kind(message), size as u32)?;
    put_fields(into, message)
}

/// Writes a reply of parts that are borrowed, as `write_message` does the same reply, without a copy of them. Memory is
/// asked for once, and work grows with the reply's length. CORBA 3.0.3, section 15.4.3.
pub fn write_reply(
    order: Order,
    id: u32,
    status: u32,
    contexts: &[Context],
    body: &[u8],
    into: &mut Writer,
) -> Result<(), NoMemory>
    requires empty { into.old ≡ record { order = order; place = 0; bytes = [] } }
    requires len { length (spelled order (Spec.reply_of id status contexts.now body.now)) ≤ MAX_MESSAGE }
    requires status { status ≤ 5 }
    ensures ok { OnOk result (into.new.bytes ≡ spelled order (Spec.reply_of id status contexts.now body.now)) }
    ensures reads_back { OnOk result (ReadsIn order (Spec.reply_of id status contexts.now body.now) into.new.bytes) }
    ensures memory { OnErr result (IsFront into.new.bytes (spelled order (Spec.reply_of id status contexts.now body.now))) }
{
    see_long(id);
    see_contexts(contexts);
    let len = reply_len(contexts, body.len());
    into.reserve(len)?;
    let size = len - 12;
    put_reply_header(into, order, size as u32)?;
    put_reply_parts(into, id, status, contexts, body)
}
