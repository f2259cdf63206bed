//! Members of JSON objects, by names.
ghost use Rattle.std.specs.Prelude.{◌≡◌, ◌==◌, OnOk, option_map, string_bytes};
ghost use Rattle.serde_json.specs.Data.{put};
ghost use Rattle.serde_json.specs.Events.{members_len};
ghost use Rattle.serde_json.specs.Find.{get_member};
ghost use Rattle.serde_json.specs.View.{view, members_view};
ghost use Rattle.value_json.specs.Gives.{Gives};
ghost use Rattle.value_json.specs.Texts.{text_of};

use crate::fault::JsonError;
use crate::texts::{plain_text, text_of};
use orb_base::NoMemory;
use serde_json::{Map, Value};
use std::alloc::Global;

/// What an object holds at a key.
pub(crate) fn found<'a>(object: &'a Map<String, Value>, key: &str) -> Option<&'a Value>
    ensures { option_map (λ v. view v.now) result ≡ get_member key.now (members_view object.now.entries) }
{
    object.get(key)
}

/// What an object holds at a name of these bytes. Costs a logarithm; takes memory only where a byte isn't ASCII.
pub(crate) fn named<'a>(
    alloc: Global,
    object: &'a Map<String, Value>,
    name: &[u8],
) -> Result<&'a Value, JsonError>
    ensures { Gives (λ v. view v.now) result (get_member (text_of name.now) (members_view object.now.entries)) }
{
    match plain_text(name) {
        Some(key) => held(found(object, key)),
        None => {
            let key = text_of(alloc, name)?;
            held(found(object, key.as_str()))
        }
    }
}

fn held(value: Option<&Value>) -> Result<&Value, JsonError>
    ensures { Gives (λ v. view v.now) result (option_map (λ v. view v.now) value.entry) }
{
    match value {
        Some(value) => Ok(value),
        None => Err(JsonError::NotOfType),
    }
}

/// Whether an object has so many members.
#[tactic(auto, using(crate::proofs::Loops::object_len))]
pub(crate) fn has_len(object: &Map<String, Value>, len: usize) -> bool
    ensures { result ≡ (members_len (members_view object.now.entries) == len) }
{
    object.len() == len
}

/// Puts a value at a key, in place of what it held.
pub(crate) fn put(
    object: &mut Map<String, Value>,
    key: String,
    value: Value,
) -> Result<(), NoMemory>
    ensures { OnOk result (members_view object.new.entries ≡ put (string_bytes key) (view value) (members_view object.old.entries)) }
{
    object.insert(key, value)?;
    Ok(())
}
