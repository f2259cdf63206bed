//! Messages of their own, copied from the parts that lie in their bytes.
ghost use Rattle.std.specs.Prelude.{◌≢◌, IfOk, IfErr, Ok, Err};
ghost use Rattle.orb_base.specs.NulFree.{HasNoNul};
ghost use Rattle.cdr_core.specs.Cursor.{AreBytes};
ghost use Rattle.cdr_core.specs.Lists.{listed, IsAtList, tagged_of, context_of};
ghost use Rattle.giop_messages.specs.Message as Spec;
ghost use Rattle.giop_messages.specs.Answers.{Answers};
ghost use Rattle.giop_messages.specs.MessageReading.{IsMessage, message_at};
ghost use Rattle.giop_messages.specs.PartsView.{parts_target, parts_message, IsSoundTarget, AreSound};
ghost use Rattle.giop_messages.specs.Reading.{Reads};
ghost use Rattle.giop_messages.specs.Refusing.{Refuses};
ghost use Rattle.giop_messages.specs.TargetView.{target_of};
ghost use Rattle.giop_messages.specs.Views.{message_of};
ghost use Rattle.giop_messages.specs.declared.message_fault.MessageFault.{MessageFault as Refusal};
ghost use Rattle.giop_messages.specs.declared.message_fault.MessageFault.TheVariants.{NoMemory};

use crate::locate::Locate;
use crate::located::Located;
use crate::message::Message;
use crate::message_fault::MessageFault;
use crate::parts::{PartTarget, Parts};
use crate::read::behind_header;
use crate::reply::Reply;
use crate::request::Request;
use crate::target::Target;
use cdr_core::{Reader, take_list};
use giop_frames::Whole;
use orb_base::{Context, List, Octets, Tagged, Text};
use std::alloc::Global;

/// A copy of the bytes.
fn octets(alloc: Global, bytes: &[u8]) -> Result<Octets, MessageFault>
    ensures { Answers (λ o. o.items) result (Ok bytes.now) }
{
    Ok(List::from_vec(Vec::from_slice(alloc, bytes)?))
}

/// A text of the bytes of a string, which are known to have no NUL.
fn text(alloc: Global, bytes: &[u8]) -> Result<Text, MessageFault>
    requires { HasNoNul bytes.now }
    ensures { Answers (λ t. t) result (Ok bytes.now) }
{
    match Text::of_plain(alloc, bytes) {
        Ok(text) => Ok(text),
        Err(_) => Err(MessageFault::NoMemory),
    }
}

/// The profiles that a reader is at.
#[tactic(auto, using(crate::proofs::PartsPassed::profiles_listed))]
fn profiles(alloc: Global, list: &Reader<'_>) -> Result<List<Tagged>, MessageFault>
    requires { IsAtList tagged_of list.now }
    ensures { Answers (λ l. l.items) result (Ok (listed tagged_of list.now)) }
{
    let mut reader = list.copy();
    match take_list(alloc, &mut reader) {
        Ok(profiles) => Ok(profiles),
        Err(_) => Err(MessageFault::NoMemory),
    }
}

/// The service contexts that a reader is at.
#[tactic(auto, using(crate::proofs::PartsPassed::contexts_listed))]
fn contexts(alloc: Global, list: &Reader<'_>) -> Result<List<Context>, MessageFault>
    requires { IsAtList context_of list.now }
    ensures { Answers (λ l. l.items) result (Ok (listed context_of list.now)) }
{
    let mut reader = list.copy();
    match take_list(alloc, &mut reader) {
        Ok(contexts) => Ok(contexts),
        Err(_) => Err(MessageFault::NoMemory),
    }
}

/// A target of its own.
fn target(alloc: Global, parts: &PartTarget<'_>) -> Result<Target, MessageFault>
    requires { IsSoundTarget parts.now }
    ensures { Answers target_of result (Ok (parts_target parts.now)) }
{
    match parts {
        PartTarget::Key(bytes) => Ok(Target::Key(octets(alloc, bytes)?)),
        PartTarget::Profile { tag, bytes } => {
            let bytes = octets(alloc, bytes)?;
            Ok(Target::Profile(Tagged { tag: *tag, bytes }))
        }
        PartTarget::Addressing {
            index,
            type_id,
            profiles: list,
        } => {
            let type_id = text(alloc, type_id)?;
            let profiles = profiles(alloc, list)?;
            Ok(Target::Addressing {
                index: *index,
                type_id,
                profiles,
            })
        }
    }
}

/// A message of its own.
fn copied(alloc: Global, parts: &Parts<'_>) -> Result<Message, MessageFault>
    requires { AreSound parts.now }
    ensures { Answers message_of result (Ok (parts_message parts.now)) }
{
    match parts {
        Parts::Request {
            id,
            flags,
            target: object,
            operation,
            contexts: list,
            body,
        } => {
            let target = target(alloc, object)?;
            let operation = text(alloc, operation)?;
            let contexts = contexts(alloc, list)?;
            let body = octets(alloc, body)?;
            Ok(Message::Request(Request {
                id: *id,
                flags: *flags,
                target,
                operation,
                contexts,
                body,
            }))
        }
        Parts::Reply {
            id,
            status,
            contexts: list,
            body,
        } => {
            let contexts = contexts(alloc, list)?;
            let body = octets(alloc, body)?;
            Ok(Message::Reply(Reply {
                id: *id,
                status: *status,
                contexts,
                body,
            }))
        }
        Parts::Cancel(id) => Ok(Message::Cancel(*id)),
        Parts::Locate { id, target: object } => {
            let target = target(alloc, object)?;
            Ok(Message::Locate(Locate { id: *id, target }))
        }
        Parts::Located { id, status } => Ok(Message::Located(Located {
            id: *id,
            status: *status,
        })),
        Parts::Close => Ok(Message::Close),
        Parts::Error => Ok(Message::Error),
    }
}

/// Copies what comes after the header.
#[tactic(auto, using(crate::proofs::PartsWhole::copied_so, crate::proofs::PartsWhole::refused_so))]
fn copied_whole(alloc: Global, whole: &Whole) -> Result<Message, MessageFault>
    requires { IsMessage whole.now }
    ensures exact { Answers message_of result (message_at whole.now) }
    ensures octets { AreBytes whole.now.bytes }
{
    match behind_header(whole) {
        Ok(parts) => copied(alloc, &parts),
        Err(fault) => Err(fault),
    }
}

/// Reads a whole message, in either order: copies what `read_parts` reads. Pads and reserved octets may have any content,
/// and bytes after the named fields of a kind without a body are ignored: CORBA 3.0.3, section 15.4. Refuses the first
/// fault from left to right, before memory is asked for. Lists are read twice; each byte is copied at most once.
#[tactic(auto, using(crate::proofs::WholeFound::found_so))]
pub fn read_message(alloc: Global, whole: &Whole) -> Result<Message, MessageFault>
    requires { IsMessage whole.now }
    // The message, or which fault it is.
    ensures exact { Answers message_of result (message_at whole.now) }
    // What is read is what the bytes mean.
    ensures found { IfOk result (λ m. Reads (message_of m) whole.now.bytes) }
    // What the bytes mean is read, unless memory runs out.
    ensures only { (m : Spec.Message) → Reads m whole.now.bytes → Answers message_of result (Ok m) }
    // A fault that is given is the header's first fault.
    ensures fails { IfErr result (λ fault. fault ≢ NoMemory → Refuses whole.now fault) }
    // The header's first fault is given, unless memory runs out.
    ensures told { (fault : Refusal) → Refuses whole.now fault → Answers message_of result (Err fault) }
{
    copied_whole(alloc, whole)
}
