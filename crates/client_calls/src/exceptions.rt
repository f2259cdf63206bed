//! The exceptions that replies tell.
ghost use Rattle.cdr_core.specs.Cursor.{cursor};
ghost use Rattle.cdr_core.specs.Reading.{string_at};
ghost use Rattle.cdr_values.specs.Gives.{Gives};
ghost use Rattle.client_calls.specs.Bodies.{Took};
ghost use Rattle.client_calls.specs.Replies.{system_at};

use crate::system_exception::SystemException;
use cdr_core::Reader;
use cdr_values::DecodeFault;
use orb_base::{Order, Text};
use std::alloc::Global;

/// Takes a text that a string holds.
fn take_text(alloc: Global, reader: &mut Reader<'_>) -> Result<Text, DecodeFault>
    ensures { Gives (λ t. t) result reader.new (string_at reader.old) }
{
    let bytes = reader.take_string()?;
    match Text::new(alloc, bytes) {
        Ok(text) => Ok(text),
        Err(_) => Err(DecodeFault::NoMemory),
    }
}

/// The id of the exception of an IDL file that the body of a reply tells. Its members are not read.
pub(crate) fn user_in(alloc: Global, order: Order, body: &[u8]) -> Result<Text, DecodeFault>
    ensures { Took (λ t. t) result (string_at (cursor order 0 body.now)) }
{
    let mut reader = Reader::new(order, 0, body);
    take_text(alloc, &mut reader)
}

/// The system exception that the body of a reply tells.
pub(crate) fn system_in(
    alloc: Global,
    order: Order,
    body: &[u8],
) -> Result<SystemException, DecodeFault>
    ensures { Took (λ e. e) result (system_at (cursor order 0 body.now)) }
{
    let mut reader = Reader::new(order, 0, body);
    let id = take_text(alloc, &mut reader)?;
    let minor = reader.take_u32()?;
    let completed = reader.take_u32()?;
    Ok(SystemException {
        id,
        minor,
        completed,
    })
}
