//! The reading of whole messages, whose parts stay in their bytes.
ghost use Rattle.std.specs.Prelude.{◌≢◌, IfOk, IfErr, Err};
ghost use Rattle.cdr_core.specs.Cursor.{AreBytes};
ghost use Rattle.giop_messages.specs.Message as Spec;
ghost use Rattle.giop_messages.specs.Answers.{Finds, Means};
ghost use Rattle.giop_messages.specs.MessageReading.{IsMessage, reserved_at, status_at, asked_at, request_at, reply_at, cancel_at};
ghost use Rattle.giop_messages.specs.MessageReading.{locate_at, located_at, as_message, kind_at, message_at};
ghost use Rattle.giop_messages.specs.PartsView.{parts_target, parts_message, IsSoundTarget, AreSound};
ghost use Rattle.giop_messages.specs.Reading.{Reads};
ghost use Rattle.giop_messages.specs.Refusing.{Refuses};
ghost use Rattle.giop_messages.specs.declared.message_fault.MessageFault.{MessageFault as Refusal};
ghost use Rattle.giop_messages.specs.declared.message_fault.MessageFault.TheVariants.{NoMemory};

use crate::message_fault::MessageFault;
use crate::parts::{PartTarget, Parts};
use crate::read_basic::{body_in, text_at, u8_at, u32_at};
use crate::read_shared::{contexts, target};
use cdr_core::Reader;
use giop_frames::Whole;

/// Takes three octets.
#[tactic(auto, unfolding(crate::specs::MessageReading::reserved_at))]
fn reserved(reader: &mut Reader<'_>) -> Result<u8, MessageFault>
    ensures { Finds (λ n. n) result reader.new (reserved_at reader.old) }
{
    u8_at(reader)?;
    u8_at(reader)?;
    u8_at(reader)
}

/// Takes the status of a reply.
#[tactic(auto, unfolding(crate::specs::MessageReading::status_at))]
fn status(reader: &mut Reader<'_>) -> Result<u32, MessageFault>
    ensures { Finds (λ n. n) result reader.new (status_at reader.old) }
{
    let status = u32_at(reader)?;
    if status > 5 {
        return Err(MessageFault::BadStatus(reader.place().saturating_sub(4)));
    }
    Ok(status)
}

/// Takes the id, the response flags and the target of a request.
#[tactic(auto, unfolding(crate::specs::MessageReading::asked_at))]
fn asked<'a>(reader: &mut Reader<'a>) -> Result<(u32, u8, PartTarget<'a>), MessageFault>
    ensures exact { Finds (λ x. (x.0, x.1, parts_target x.2)) result reader.new (asked_at reader.old) }
    ensures sound { IfOk result (λ x. IsSoundTarget x.2) }
{
    let id = u32_at(reader)?;
    let flags = u8_at(reader)?;
    reserved(reader)?;
    let target = target(reader)?;
    Ok((id, flags, target))
}

/// Takes a request within the bytes of its message.
#[tactic(auto, unfolding(crate::specs::MessageReading::request_at))]
fn request<'a>(bytes: &'a [u8], reader: &mut Reader<'a>) -> Result<Parts<'a>, MessageFault>
    ensures exact { Means parts_message result (as_message Spec.request (request_at bytes.now reader.old)) }
    ensures sound { IfOk result AreSound }
{
    let (id, flags, target) = asked(reader)?;
    let operation = text_at(reader)?;
    let contexts = contexts(reader)?;
    let body = body_in(bytes, reader.place());
    Ok(Parts::Request {
        id,
        flags,
        target,
        operation,
        contexts,
        body,
    })
}

/// Takes a reply within the bytes of its message.
#[tactic(auto, unfolding(crate::specs::MessageReading::reply_at))]
fn reply<'a>(bytes: &'a [u8], reader: &mut Reader<'a>) -> Result<Parts<'a>, MessageFault>
    ensures exact { Means parts_message result (as_message Spec.reply (reply_at bytes.now reader.old)) }
    ensures sound { IfOk result AreSound }
{
    let id = u32_at(reader)?;
    let status = status(reader)?;
    let contexts = contexts(reader)?;
    let body = body_in(bytes, reader.place());
    Ok(Parts::Reply {
        id,
        status,
        contexts,
        body,
    })
}

/// Takes the id of a request that is given up.
#[tactic(auto, unfolding(crate::specs::MessageReading::cancel_at))]
fn cancel<'a>(reader: &mut Reader<'a>) -> Result<Parts<'a>, MessageFault>
    ensures exact { Means parts_message result (as_message Spec.cancel (cancel_at reader.old)) }
    ensures sound { IfOk result AreSound }
{
    let id = u32_at(reader)?;
    Ok(Parts::Cancel(id))
}

/// Takes a question where an object is.
#[tactic(auto, unfolding(crate::specs::MessageReading::locate_at))]
fn locate<'a>(reader: &mut Reader<'a>) -> Result<Parts<'a>, MessageFault>
    ensures exact { Means parts_message result (as_message Spec.locate (locate_at reader.old)) }
    ensures sound { IfOk result AreSound }
{
    let id = u32_at(reader)?;
    let target = target(reader)?;
    Ok(Parts::Locate { id, target })
}

/// Takes its answer.
#[tactic(auto, unfolding(crate::specs::MessageReading::located_at))]
fn located<'a>(reader: &mut Reader<'a>) -> Result<Parts<'a>, MessageFault>
    ensures exact { Means parts_message result (as_message Spec.located (located_at reader.old)) }
    ensures sound { IfOk result AreSound }
{
    let id = u32_at(reader)?;
    let status = u32_at(reader)?;
    Ok(Parts::Located { id, status })
}

/// Takes a message of a kind up to 6 within its bytes.
#[tactic(auto, unfolding(crate::specs::MessageReading::kind_at))]
fn of_kind<'a>(
    kind: u8,
    bytes: &'a [u8],
    reader: &mut Reader<'a>,
) -> Result<Parts<'a>, MessageFault>
    ensures exact { Means parts_message result (kind_at kind bytes.now reader.old) }
    ensures sound { IfOk result AreSound }
    ensures octets { AreBytes bytes.now }
{
    match kind {
        0 => request(bytes, reader),
        1 => reply(bytes, reader),
        2 => cancel(reader),
        3 => locate(reader),
        4 => located(reader),
        5 => Ok(Parts::Close),
        _ => Ok(Parts::Error),
    }
}

/// Takes what comes after the header.
#[tactic(auto, unfolding(crate::specs::MessageReading::message_at))]
pub fn behind_header<'a>(whole: &'a Whole) -> Result<Parts<'a>, MessageFault>
    requires { IsMessage whole.now }
    ensures exact { Means parts_message result (message_at whole.now) }
    ensures sound { IfOk result AreSound }
    ensures octets { AreBytes whole.now.bytes }
{
    let bytes = whole.bytes.as_slice();
    let mut reader = Reader::new(whole.order, 12, &bytes[12..]);
    of_kind(whole.kind, bytes, &mut reader)
}

/// Reads a whole message, in either order, and leaves its parts where they lie. Pads and reserved octets may have any
/// content, and bytes after the named fields of a kind without a body are ignored: CORBA 3.0.3, section 15.4. Refuses
/// the first fault from left to right. One pass over the bytes before the body; takes no memory.
#[tactic(auto, using(crate::proofs::PartsWhole::parts_found, crate::proofs::PartsWhole::parts_fail, crate::proofs::PartsWhole::parts_enough))]
pub fn read_parts<'a>(whole: &'a Whole) -> Result<Parts<'a>, MessageFault>
    requires { IsMessage whole.now }
    // The message, or which fault it is.
    ensures exact { Means parts_message result (message_at whole.now) }
    // What is read is what the bytes mean.
    ensures found { IfOk result (λ parts. Reads (parts_message parts) whole.now.bytes) }
    // What the bytes mean is read.
    ensures only { (m : Spec.Message) → Reads m whole.now.bytes → Means parts_message result (Ok m) }
    // A fault that is given is the header's first fault.
    ensures fails { IfErr result (λ fault. Refuses whole.now fault) }
    // The header's first fault is given.
    ensures told { (fault : Refusal) → Refuses whole.now fault → Means parts_message result (Err fault) }
    // No text has a NUL, and each reader is at the count of a list that has a reading.
    ensures sound { IfOk result AreSound }
    // Memory never runs out.
    ensures enough { IfErr result (λ fault. fault ≢ NoMemory) }
{
    behind_header(whole)
}
