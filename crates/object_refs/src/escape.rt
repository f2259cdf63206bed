//! Keys with escapes in object URLs.
ghost use Rattle.std.specs.Prelude.{◌≡◌, IfOk};
ghost use Rattle.percent_encoding.specs.Percent.{percent_decode};
ghost use Rattle.object_refs.specs.Answers.{Answers};
ghost use Rattle.object_refs.specs.Locations.{begins_with_byte, is_escaped};
ghost use Rattle.object_refs.specs.LocationReading.{part, key_of};
ghost use Rattle.object_refs.specs.declared.fault.RefCause.TheVariants.{BadEscape};

use crate::fault::{RefCause, RefError, refused_at};
use orb_base::{List, NoMemory, Octets};
use percent_encoding::percent_decode;
use std::alloc::Global;

/// Whether two hexadecimal digits come before.
fn begins_with_byte(text: &[u8]) -> bool
    ensures { result ≡ begins_with_byte text.now }
{
    match text {
        [high, low, ..] => high.is_ascii_hexdigit() && low.is_ascii_hexdigit(),
        _ => false,
    }
}

/// Whether two hexadecimal digits are after each percent sign. One pass over the text.
fn is_escaped(text: &[u8]) -> bool
    ensures { result ≡ is_escaped text.now }
{
    for at in 0..text.len() {
        if text[at] == b'%' && !begins_with_byte(&text[at + 1..]) {
            return false;
        }
    }
    true
}

/// The bytes with each escape read.
fn unescaped(alloc: Global, text: &[u8]) -> Result<Octets, NoMemory>
    ensures { IfOk result (λ o. o.items ≡ percent_decode text.now) }
{
    let mut key = Vec::new(alloc);
    percent_decode(text).append_to(&mut key)?;
    Ok(List::from_vec(key))
}

/// The key that the rest of a text is.
#[tactic(auto, unfolding(crate::specs::LocationReading::key_of))]
pub fn key(alloc: Global, text: &[u8], rest: &[u8]) -> Result<Octets, RefError>
    ensures { Answers (λ o. o.items) result (part BadEscape text.now rest.now (key_of rest.now)) }
{
    if !is_escaped(rest) {
        return Err(refused_at(RefCause::BadEscape, text, rest));
    }
    match unescaped(alloc, rest) {
        Ok(key) => Ok(key),
        Err(_) => Err(RefError::NoMemory),
    }
}
