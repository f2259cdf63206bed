//! What requests mean.
ghost use Rattle.std.specs.Prelude.{◌≡◌, IfOk};
ghost use Rattle.cdr_core.specs.Reading.{string_at};
ghost use Rattle.name_map.specs.declared.call.NamesCall.TheVariants as call;
ghost use Rattle.name_calls.specs.Meanings as Spec;
ghost use Rattle.name_calls.specs.Meanings.{IsShort};
ghost use Rattle.name_calls.specs.Parameters.{strings_at};

use crate::bodies::truth;
use crate::exceptions::{bad_operation, limited, marshal};
use crate::limits::BODY_PLACE;
use crate::meaning::Meaning;
use crate::operation::{Operation, operation_of};
use crate::reading::{keep_limits, shared, take_string, take_strings};
use cdr_core::Reader;
use name_map::NamesCall;
use orb_base::{NoMemory, Order};
use std::alloc::Global;

/// Whether the service is of the interface of an id.
fn is_of(id: &[u8]) -> bool
    ensures { result ≡ Spec.is_of id.now }
{
    id == b"IDL:Orb/Names:1.0".as_slice() || id == b"IDL:omg.org/CORBA/Object:1.0".as_slice()
}

fn kinship(alloc: Global, order: Order, reader: &mut Reader<'_>) -> Result<Meaning, NoMemory>
    ensures value { IfOk result (λ m. m ≡ Spec.kinship order (string_at reader.old)) }
    ensures short { IfOk result IsShort }
{
    match take_string(reader) {
        Ok(id) => Ok(Meaning::Tells(truth(alloc, order, is_of(id))?)),
        Err(_) => Ok(Meaning::Tells(marshal())),
    }
}

fn bind(alloc: Global, reader: &mut Reader<'_>) -> Result<Meaning, NoMemory>
    ensures value { IfOk result (λ m. m ≡ Spec.binds (λ key target. call.Bind key target) (strings_at reader.old)) }
    ensures short { IfOk result IsShort }
{
    match take_strings(reader) {
        Ok((key, target)) => {
            if !keep_limits(key, target) {
                return Ok(Meaning::Tells(limited()));
            }
            let key = shared(alloc, key)?;
            let target = shared(alloc, target)?;
            Ok(Meaning::Asks(NamesCall::Bind { key, target }))
        }
        Err(_) => Ok(Meaning::Tells(marshal())),
    }
}

fn rebind(alloc: Global, reader: &mut Reader<'_>) -> Result<Meaning, NoMemory>
    ensures value { IfOk result (λ m. m ≡ Spec.binds (λ key target. call.Rebind key target) (strings_at reader.old)) }
    ensures short { IfOk result IsShort }
{
    match take_strings(reader) {
        Ok((key, target)) => {
            if !keep_limits(key, target) {
                return Ok(Meaning::Tells(limited()));
            }
            let key = shared(alloc, key)?;
            let target = shared(alloc, target)?;
            Ok(Meaning::Asks(NamesCall::Rebind { key, target }))
        }
        Err(_) => Ok(Meaning::Tells(marshal())),
    }
}

fn resolve(alloc: Global, reader: &mut Reader<'_>) -> Result<Meaning, NoMemory>
    ensures value { IfOk result (λ m. m ≡ Spec.asks_of (λ key. call.Resolve key) (string_at reader.old)) }
    ensures short { IfOk result IsShort }
{
    match take_string(reader) {
        Ok(key) => Ok(Meaning::Asks(NamesCall::Resolve {
            key: shared(alloc, key)?,
        })),
        Err(_) => Ok(Meaning::Tells(marshal())),
    }
}

fn unbind(alloc: Global, reader: &mut Reader<'_>) -> Result<Meaning, NoMemory>
    ensures value { IfOk result (λ m. m ≡ Spec.asks_of (λ key. call.Unbind key) (string_at reader.old)) }
    ensures short { IfOk result IsShort }
{
    match take_string(reader) {
        Ok(key) => Ok(Meaning::Asks(NamesCall::Unbind {
            key: shared(alloc, key)?,
        })),
        Err(_) => Ok(Meaning::Tells(marshal())),
    }
}

fn next(alloc: Global, reader: &mut Reader<'_>) -> Result<Meaning, NoMemory>
    ensures value { IfOk result (λ m. m ≡ Spec.asks_of (λ after. call.Next after) (string_at reader.old)) }
    ensures short { IfOk result IsShort }
{
    match take_string(reader) {
        Ok(after) => Ok(Meaning::Asks(NamesCall::Next {
            after: shared(alloc, after)?,
        })),
        Err(_) => Ok(Meaning::Tells(marshal())),
    }
}

/// What a request to a name service means, by its operation's name and its body, which is in a byte order. First the
/// operation is judged, then its parameters, then their limits. Work and memory grow with the parameters.
pub fn meaning_of(
    alloc: Global,
    order: Order,
    operation: &[u8],
    body: &[u8],
) -> Result<Meaning, NoMemory>
    ensures value { IfOk result (λ m. m ≡ Spec.meaning order operation.now body.now) }
    ensures short { IfOk result IsShort }
{
    let mut reader = Reader::new(order, BODY_PLACE, body);
    match operation_of(operation) {
        None => Ok(Meaning::Tells(bad_operation())),
        Some(Operation::IsA) => kinship(alloc, order, &mut reader),
        Some(Operation::NonExistent) => Ok(Meaning::Tells(truth(alloc, order, false)?)),
        Some(Operation::Bind) => bind(alloc, &mut reader),
        Some(Operation::Rebind) => rebind(alloc, &mut reader),
        Some(Operation::Resolve) => resolve(alloc, &mut reader),
        Some(Operation::Unbind) => unbind(alloc, &mut reader),
        Some(Operation::Next) => next(alloc, &mut reader),
        Some(Operation::Size) => Ok(Meaning::Asks(NamesCall::Size)),
    }
}
