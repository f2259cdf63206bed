//! The parameters of requests.
ghost use Rattle.std.specs.Prelude.{◌≡◌, IfOk};
ghost use Rattle.orb_base.specs.NulFree.{HasNoNul};
ghost use Rattle.cdr_core.specs.Cursor.{Takes};
ghost use Rattle.cdr_core.specs.Reading.{string_at};
ghost use Rattle.name_calls.specs.Parameters as Spec;

use crate::limits::{MAX_KEY, MAX_TARGET};
use cdr_core::{CdrFault, Reader};
use orb_base::{Arc, NoMemory, Text};
use std::alloc::Global;

/// Takes a string.
pub(crate) fn take_string<'a>(reader: &mut Reader<'a>) -> Result<&'a [u8], CdrFault>
    ensures exact { Takes (λ bytes. bytes.now) result reader.old reader.new (string_at reader.old) }
    ensures no_nul { IfOk result (λ bytes. HasNoNul bytes.now) }
{
    reader.take_string()
}

/// Takes two strings.
#[tactic(auto, unfolding(crate::specs::Parameters::strings_at))]
pub(crate) fn take_strings<'a>(reader: &mut Reader<'a>) -> Result<(&'a [u8], &'a [u8]), CdrFault>
    ensures exact { Takes (λ x. (x.0.now, x.1.now)) result reader.old reader.new (Spec.strings_at reader.old) }
    ensures no_nul { IfOk result (λ x. HasNoNul x.0.now × HasNoNul x.1.now) }
{
    let mut copy = reader.copy();
    let first = take_string(&mut copy)?;
    let second = take_string(&mut copy)?;
    *reader = copy;
    Ok((first, second))
}

/// Whether a key may be bound to a target. Takes no memory.
pub(crate) fn keep_limits(key: &[u8], target: &[u8]) -> bool
    ensures { result ≡ Spec.keep_limits key.now target.now }
{
    1 <= key.len() && key.len() <= MAX_KEY && target.len() <= MAX_TARGET
}

/// A shared text of bytes of its own.
pub(crate) fn shared(alloc: Global, bytes: &[u8]) -> Result<Arc<Text>, NoMemory>
    requires { HasNoNul bytes.now }
    ensures { IfOk result (λ t. t ≡ bytes.now) }
{
    match Arc::new(alloc, Text::of_plain(alloc, bytes)?) {
        Ok(text) => Ok(text),
        Err(_) => Err(NoMemory),
    }
}
