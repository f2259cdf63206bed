//! The bodies of replies.
ghost use Rattle.std.specs.Prelude.{◌≡◌, ◌≤◌, ◌∷◌, ◌++◌, [], length, IfOk};
ghost use Rattle.std.specs.Int.{w8, w32, from_bool};
ghost use Rattle.orb_base.specs.NulFree.{HasNoNul};
ghost use Rattle.orb_base.specs.Outcomes.{body_len};
ghost use Rattle.orb_base.specs.declared.limits.TheConstants.{MAX_BODY};
ghost use Rattle.cdr_core.specs.Field.{number, string_fields};
ghost use Rattle.name_calls.specs.Bodies as Spec;

use crate::exceptions::limited;
use crate::limits::{BODY_PLACE, MAX_ANSWERED};
use cdr_core::Writer;
use orb_base::{NoMemory, Order, Outcome, SharedOctets, Text};
use std::alloc::Global;

/// A truth is returned.
pub(crate) fn truth(alloc: Global, order: Order, holds: bool) -> Result<Outcome, NoMemory>
    ensures value { IfOk result (λ o. o ≡ Spec.truth order holds) }
    ensures short { IfOk result (λ o. body_len o ≤ MAX_BODY) }
{
    let mut writer = Writer::new(alloc, order, BODY_PLACE);
    writer.put_bool(holds)?;
    Ok(Outcome::Returned(SharedOctets::new(alloc, writer.finish())?))
}

/// A number is returned.
pub(crate) fn count(alloc: Global, order: Order, n: u32) -> Result<Outcome, NoMemory>
    ensures value { IfOk result (λ o. o ≡ Spec.count order n) }
    ensures short { IfOk result (λ o. body_len o ≤ MAX_BODY) }
{
    let mut writer = Writer::new(alloc, order, BODY_PLACE);
    writer.put_u32(n)?;
    Ok(Outcome::Returned(SharedOctets::new(alloc, writer.finish())?))
}

/// A text as a body.
fn spelled(alloc: Global, order: Order, text: &Text) -> Result<SharedOctets, NoMemory>
    requires { length text.now ≤ MAX_ANSWERED }
    ensures value { IfOk result (λ b. b ≡ Spec.body order (string_fields text.now)) }
    ensures short { IfOk result (λ b. length b ≤ MAX_BODY) }
{
    let mut writer = Writer::new(alloc, order, BODY_PLACE);
    writer.put_string(text)?;
    SharedOctets::new(alloc, writer.finish())
}

/// A text is returned, where a reply has room for it.
pub(crate) fn text(alloc: Global, order: Order, text: &Text) -> Result<Outcome, NoMemory>
    ensures value { IfOk result (λ o. o ≡ Spec.text order text.now) }
    ensures short { IfOk result (λ o. body_len o ≤ MAX_BODY) }
{
    if text.len() <= MAX_ANSWERED {
        Ok(Outcome::Returned(spelled(alloc, order, text)?))
    } else {
        Ok(limited())
    }
}

/// An exception is raised by its id.
pub(crate) fn raised(alloc: Global, order: Order, id: &[u8]) -> Result<Outcome, NoMemory>
    requires no_nul { HasNoNul id.now }
    requires short { length id.now ≤ MAX_ANSWERED }
    ensures value { IfOk result (λ o. o ≡ Spec.raised order id.now) }
    ensures short { IfOk result (λ o. body_len o ≤ MAX_BODY) }
{
    let id = Text::of_plain(alloc, id)?;
    Ok(Outcome::User(spelled(alloc, order, &id)?))
}
