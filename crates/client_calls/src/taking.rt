//! Values that are taken from the body of a reply.
ghost use Rattle.cdr_values.specs.Gives.{Gives};
ghost use Rattle.cdr_values.specs.Kinds.{kind_of};
ghost use Rattle.cdr_values.specs.Values.{value_of};
ghost use Rattle.client_calls.specs.Bodies as Spec;
ghost use Rattle.client_calls.specs.Replies.{value_at};

use crate::body::Body;
use cdr_values::{DecodeFault, IdlType, IdlValue, decode};
use std::alloc::Global;

/// Takes a value of a type from the front of the body.
pub(crate) fn take(
    alloc: Global,
    kind: &IdlType,
    body: &mut Body<'_>,
) -> Result<IdlValue, DecodeFault>
    ensures { Gives value_of result (Spec.cursor_of body.new) (value_at (kind_of kind.now) (Spec.cursor_of body.old)) }
{
    let (value, len) = decode(alloc, body.order, body.place, kind, body.rest)?;
    let (_, rest) = body.rest.split_at(len);
    *body = Body {
        order: body.order,
        place: (body.place + len) % 8,
        rest,
    };
    Ok(value)
}
