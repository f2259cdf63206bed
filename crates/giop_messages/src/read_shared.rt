//! Parts of messages that several kinds share: targets and service contexts, which lie in the bytes.
ghost use Rattle.std.specs.Prelude.{IfOk};
ghost use Rattle.cdr_core.specs.Lists.{listed, IsAtList, tagged_of, context_of};
ghost use Rattle.giop_messages.specs.Answers.{Finds};
ghost use Rattle.giop_messages.specs.MessageReading.{profiles_at, contexts_at, key_at, profile_at, addressing_at, form_at, target_at};
ghost use Rattle.giop_messages.specs.PartsView.{parts_target, IsSoundTarget};

use crate::message_fault::MessageFault;
use crate::parts::PartTarget;
use crate::read_basic::{octets_at, text_at, u16_at, u32_at};
use cdr_core::{Reader, pass_list};

/// Passes over profiles after their number, and gives a reader that is at the number.
#[tactic(auto, using(crate::proofs::PartsPassed::profiles_passed, crate::proofs::PartsPassed::profiles_refused, crate::proofs::PartsPassed::at_profiles))]
fn profiles<'a>(reader: &mut Reader<'a>) -> Result<Reader<'a>, MessageFault>
    ensures exact { Finds (λ list. listed tagged_of list) result reader.new (profiles_at reader.old) }
    ensures list { IfOk result (λ list. IsAtList tagged_of list) }
{
    let profiles = reader.copy();
    match pass_list(reader) {
        Ok(()) => Ok(profiles),
        Err(fault) => Err(MessageFault::Cdr(fault)),
    }
}

/// Passes over service contexts after their number, and gives a reader that is at the number.
#[tactic(auto, using(crate::proofs::PartsPassed::contexts_passed, crate::proofs::PartsPassed::contexts_refused, crate::proofs::PartsPassed::at_contexts))]
pub fn contexts<'a>(reader: &mut Reader<'a>) -> Result<Reader<'a>, MessageFault>
    ensures exact { Finds (λ list. listed context_of list) result reader.new (contexts_at reader.old) }
    ensures list { IfOk result (λ list. IsAtList context_of list) }
{
    let contexts = reader.copy();
    match pass_list(reader) {
        Ok(()) => Ok(contexts),
        Err(fault) => Err(MessageFault::Cdr(fault)),
    }
}

/// Takes a key.
#[tactic(auto, unfolding(crate::specs::MessageReading::key_at))]
fn key<'a>(reader: &mut Reader<'a>) -> Result<PartTarget<'a>, MessageFault>
    ensures exact { Finds parts_target result reader.new (key_at reader.old) }
    ensures sound { IfOk result IsSoundTarget }
{
    let bytes = octets_at(reader)?;
    Ok(PartTarget::Key(bytes))
}

/// Takes a profile.
#[tactic(auto, unfolding(crate::specs::MessageReading::profile_at))]
fn profile<'a>(reader: &mut Reader<'a>) -> Result<PartTarget<'a>, MessageFault>
    ensures exact { Finds parts_target result reader.new (profile_at reader.old) }
    ensures sound { IfOk result IsSoundTarget }
{
    let (tag, bytes) = reader.take_item()?;
    Ok(PartTarget::Profile { tag, bytes })
}

/// Takes a reference of which one profile is meant.
#[tactic(auto, unfolding(crate::specs::MessageReading::addressing_at))]
fn addressing<'a>(reader: &mut Reader<'a>) -> Result<PartTarget<'a>, MessageFault>
    ensures exact { Finds parts_target result reader.new (addressing_at reader.old) }
    ensures sound { IfOk result IsSoundTarget }
{
    let index = u32_at(reader)?;
    let type_id = text_at(reader)?;
    let profiles = profiles(reader)?;
    Ok(PartTarget::Addressing {
        index,
        type_id,
        profiles,
    })
}

/// Takes a target of the form that was at the place.
#[tactic(auto, unfolding(crate::specs::MessageReading::form_at))]
fn of_form<'a>(
    place: usize,
    form: u16,
    reader: &mut Reader<'a>,
) -> Result<PartTarget<'a>, MessageFault>
    ensures exact { Finds parts_target result reader.new (form_at place form reader.old) }
    ensures sound { IfOk result IsSoundTarget }
{
    match form {
        0 => key(reader),
        1 => profile(reader),
        2 => addressing(reader),
        _ => Err(MessageFault::BadTarget(place)),
    }
}

/// Takes a target: its form, and what the form says.
#[tactic(auto, unfolding(crate::specs::MessageReading::target_at))]
pub fn target<'a>(reader: &mut Reader<'a>) -> Result<PartTarget<'a>, MessageFault>
    ensures exact { Finds parts_target result reader.new (target_at reader.old) }
    ensures sound { IfOk result IsSoundTarget }
{
    let form = u16_at(reader)?;
    let place = reader.place().saturating_sub(2);
    of_form(place, form, reader)
}
