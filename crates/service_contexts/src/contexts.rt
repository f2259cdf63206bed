//! The service contexts that carry priorities.
ghost use Rattle.std.specs.Prelude.{◌≡◌, ◌∷◌, ◌++◌, ◌↔◌, [], List, IfOk, IfErr, IsOk, Ok, Err};
ghost use Rattle.cdr_core.specs.Lists.{made_at, context_of, listed, read_or_none, IsAtList};
ghost use Rattle.cdr_core.specs.Sequence.{times};
ghost use Rattle.orb_base.specs.Tagged as Plain;
ghost use Rattle.service_contexts.specs.Telling.{Tells, IsFirstFault};

use crate::read::{read_band, read_priority};
use cdr_core::Reader;
use orb_base::{Band, Context, Priority};
use thiserror::Error;

/// The id of a context RTCorbaPriority, which carries the priority that its sender asks for.
pub const PRIORITY_CONTEXT: u32 = 10;

/// The id of a context RTCorbaPriorityRange, which carries the band that a connection is bound to.
pub const RANGE_CONTEXT: u32 = 11;

/// What the contexts of a message tell of priorities; None where there is no context of the id.
#[derive(Clone, Copy, Debug, PartialEq, Eq)]
pub struct Contexts {
    /// What the first context RTCorbaPriority carries.
    pub priority: Option<Priority>,
    /// What the first context RTCorbaPriorityRange carries.
    pub range: Option<Band>,
}

/// A context that counts has no reading.
#[derive(Clone, Copy, Debug, PartialEq, Eq, Error)]
#[error("context {id}")]
pub struct ContextFault {
    /// The id of the context.
    pub id: u32,
}

/// What the contexts of a message tell of priorities. The first context of each id counts, and the others are ignored.
/// A fault names the first context in the list that counts and has no reading: it is no encapsulation, is cut short, or
/// carries a negative priority or a low end above the high one. Takes no memory; one pass over the list.
pub fn contexts_of(list: &orb_base::List<Context>) -> Result<Contexts, ContextFault>
    ensures told { (told : Contexts) → (result ≡ Ok told) ↔ Tells list.now.items told }
    // One of the two comes, and one alone.
    ensures fault { (f : ContextFault) → (result ≡ Err f) ↔ IsFirstFault list.now.items f }
{
    let mut told = Contexts {
        priority: None,
        range: None,
    };
    for context in list.as_slice() {
        told = with_next(told, context)?;
    }
    Ok(told)
}

/// What the contexts tell that a reader is at, by the count of their list, which has a reading: the answer of
/// `contexts_of` for that list. Takes no memory; one pass over the list.
pub fn contexts_at(mut list: Reader<'_>) -> Result<Contexts, ContextFault>
    requires { IsAtList context_of list }
    ensures told { (told : Contexts) → (result ≡ Ok told) ↔ Tells (listed context_of list.entry) told }
    // One of the two comes, and one alone.
    ensures fault { (f : ContextFault) → (result ≡ Err f) ↔ IsFirstFault (listed context_of list.entry) f }
{
    match list.take_count() {
        Ok(count) => told_by(count, &mut list),
        // A count is there, since the list has a reading.
        Err(_) => Ok(Contexts {
            priority: None,
            range: None,
        }),
    }
}

/// What so many contexts tell that are there.
fn told_by(count: u32, reader: &mut Reader<'_>) -> Result<Contexts, ContextFault>
    requires { IsOk (times (made_at context_of) count reader.old) }
    ensures told { (told : Contexts)
        → (result ≡ Ok told) ↔ Tells (read_or_none (times (made_at context_of) count reader.old)) told }
    ensures fault { (f : ContextFault)
        → (result ≡ Err f) ↔ IsFirstFault (read_or_none (times (made_at context_of) count reader.old)) f }
{
    let mut told = Contexts {
        priority: None,
        range: None,
    };
    for _ in 0..count {
        match reader.take_item() {
            Ok((id, bytes)) => told = with_item(told, id, bytes)?,
            // Each of them is there.
            Err(_) => return Ok(told),
        }
    }
    Ok(told)
}

/// What is given with one more context after those that told so much.
fn with_next(told: Contexts, next: &Context) -> Result<Contexts, ContextFault>
    ensures told { IfOk result (λ more. (list : List Plain.Context)
        → Tells list told → Tells (list ++ next.now ∷ []) more) }
    ensures fault { IfErr result (λ f. (list behind : List Plain.Context)
        → Tells list told → IsFirstFault (list ++ next.now ∷ behind) f) }
{
    with_item(told, next.id, next.bytes.as_slice())
}

/// The same for a context of this id and these bytes.
fn with_item(told: Contexts, id: u32, bytes: &[u8]) -> Result<Contexts, ContextFault>
    ensures told { IfOk result (λ more. (list : List Plain.Context)
        → Tells list told → Tells (list ++ context_of (id, bytes.now) ∷ []) more) }
    ensures fault { IfErr result (λ f. (list behind : List Plain.Context)
        → Tells list told → IsFirstFault (list ++ context_of (id, bytes.now) ∷ behind) f) }
{
    if id == PRIORITY_CONTEXT {
        with_priority(told, bytes)
    } else if id == RANGE_CONTEXT {
        with_range(told, bytes)
    } else {
        Ok(told)
    }
}

/// The same for a context RTCorbaPriority.
fn with_priority(told: Contexts, bytes: &[u8]) -> Result<Contexts, ContextFault>
    ensures told { IfOk result (λ more. (list : List Plain.Context)
        → Tells list told → Tells (list ++ context_of (PRIORITY_CONTEXT, bytes.now) ∷ []) more) }
    ensures fault { IfErr result (λ f. (list behind : List Plain.Context)
        → Tells list told → IsFirstFault (list ++ context_of (PRIORITY_CONTEXT, bytes.now) ∷ behind) f) }
{
    if told.priority.is_some() {
        return Ok(told);
    }
    match read_priority(bytes) {
        Some(priority) => Ok(Contexts {
            priority: Some(priority),
            range: told.range,
        }),
        None => Err(ContextFault {
            id: PRIORITY_CONTEXT,
        }),
    }
}

/// The same for a context RTCorbaPriorityRange.
fn with_range(told: Contexts, bytes: &[u8]) -> Result<Contexts, ContextFault>
    ensures told { IfOk result (λ more. (list : List Plain.Context)
        → Tells list told → Tells (list ++ context_of (RANGE_CONTEXT, bytes.now) ∷ []) more) }
    ensures fault { IfErr result (λ f. (list behind : List Plain.Context)
        → Tells list told → IsFirstFault (list ++ context_of (RANGE_CONTEXT, bytes.now) ∷ behind) f) }
{
    if told.range.is_some() {
        return Ok(told);
    }
    match read_band(bytes) {
        Some(band) => Ok(Contexts {
            priority: told.priority,
            range: Some(band),
        }),
        None => Err(ContextFault { id: RANGE_CONTEXT }),
    }
}
