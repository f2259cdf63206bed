//! The parts of messages, one after the other.
ghost use Rattle.std.specs.Prelude.{◌<◌, ◌^◌};
ghost use Rattle.cdr_core.specs.Field.{fields_end};
ghost use Rattle.cdr_core.specs.Lists.{tagged_fields};
ghost use Rattle.cdr_core.specs.Writing.{Puts};
ghost use Rattle.giop_messages.specs.Message as Spec;
ghost use Rattle.giop_messages.specs.Layout.{target_fields, contexts_fields, body_fields, profiles_fields};
ghost use Rattle.giop_messages.specs.TargetView.{target_of};

use cdr_core::{Writer, put_list};
use giop_messages::Target;
use orb_base::{Context, NoMemory, Tagged, Text};

/// Puts a tag and what it tells of.
pub fn put_tagged(into: &mut Writer, tagged: &Tagged) -> Result<(), NoMemory>
    requires { fields_end into.old.place (tagged_fields tagged.now) < 2 ^ 32 }
    ensures { Puts result into.old into.new (tagged_fields tagged.now) }
{
    into.put_item(tagged.tag, tagged.bytes.as_slice())
}

/// Puts profiles after their number.
fn put_profiles(into: &mut Writer, profiles: &[Tagged]) -> Result<(), NoMemory>
    requires { fields_end into.old.place (profiles_fields profiles.now) < 2 ^ 32 }
    ensures { Puts result into.old into.new (profiles_fields profiles.now) }
{
    put_list(into, profiles)
}

/// Puts service contexts after their number.
pub fn put_contexts(into: &mut Writer, contexts: &[Context]) -> Result<(), NoMemory>
    requires { fields_end into.old.place (contexts_fields contexts.now) < 2 ^ 32 }
    ensures { Puts result into.old into.new (contexts_fields contexts.now) }
{
    put_list(into, contexts)
}

/// Puts a target that is a key.
fn put_key(into: &mut Writer, bytes: &[u8]) -> Result<(), NoMemory>
    requires { fields_end into.old.place (target_fields (Spec.key bytes.now)) < 2 ^ 32 }
    ensures { Puts result into.old into.new (target_fields (Spec.key bytes.now)) }
{
    into.put_u16(0)?;
    into.put_octets(bytes)
}

/// Puts a target that is a profile.
fn put_profile(into: &mut Writer, tagged: &Tagged) -> Result<(), NoMemory>
    requires { fields_end into.old.place (target_fields (Spec.profile tagged.now)) < 2 ^ 32 }
    ensures { Puts result into.old into.new (target_fields (Spec.profile tagged.now)) }
{
    into.put_u16(1)?;
    put_tagged(into, tagged)
}

/// Puts a target that is a profile of a whole reference.
fn put_addressing(
    into: &mut Writer,
    index: u32,
    type_id: &Text,
    profiles: &[Tagged],
) -> Result<(), NoMemory>
    requires { fields_end into.old.place
        (target_fields (Spec.addressing index type_id.now profiles.now)) < 2 ^ 32 }
    ensures { Puts result into.old into.new
        (target_fields (Spec.addressing index type_id.now profiles.now)) }
{
    into.put_u16(2)?;
    into.put_u32(index)?;
    into.put_string(type_id)?;
    put_profiles(into, profiles)
}

/// Puts a target.
pub fn put_target(into: &mut Writer, target: &Target) -> Result<(), NoMemory>
    requires { fields_end into.old.place (target_fields (target_of target.now)) < 2 ^ 32 }
    ensures { Puts result into.old into.new (target_fields (target_of target.now)) }
{
    match target {
        Target::Key(bytes) => put_key(into, bytes.as_slice()),
        Target::Profile(tagged) => put_profile(into, tagged),
        Target::Addressing {
            index,
            type_id,
            profiles,
        } => put_addressing(into, *index, type_id, profiles.as_slice()),
    }
}

/// Puts a body at the next multiple of 8, and nothing where it is empty.
pub fn put_body(into: &mut Writer, body: &[u8]) -> Result<(), NoMemory>
    ensures { Puts result into.old into.new (body_fields body.now) }
{
    if body.is_empty() {
        Ok(())
    } else {
        into.put_run(8, body)
    }
}
