//! The variables that an operation begins with.
ghost use Rattle.std.specs.Prelude.{[], map};
ghost use Rattle.cdr_core.specs.Cursor.{Cursor, cursor};
ghost use Rattle.cdr_values.specs.Kinds.{kind_of};
ghost use Rattle.cdr_values.specs.Reading.{read};
ghost use Rattle.idl_types.specs.Views.{param_of};
ghost use Rattle.dynamic_servants.specs.Arguments as Spec;
ghost use Rattle.dynamic_servants.specs.Beginning.{StandsAt, Takes, Begins};

use crate::body::Body;
use crate::zeros::zero;
use cdr_values::{DecodeFault, IdlType, IdlValue, decode};
use idl_types::{Param, Way};
use orb_base::Order;
use std::alloc::Global;

/// Takes a value of a type from the front of the body.
fn take(kind: &IdlType, body: &mut Body<'_>, alloc: Global) -> Result<IdlValue, DecodeFault>
    ensures { (c : Cursor) → StandsAt body.old c → Takes result body.new (read (kind_of kind.now) c) }
{
    let (value, len) = decode(alloc, body.order, body.place, kind, body.rest)?;
    let (_, rest) = body.rest.split_at(len);
    *body = Body {
        order: body.order,
        place: (body.place + len) % 8,
        rest,
    };
    Ok(value)
}

/// What a parameter begins with.
fn argument(param: &Param, body: &mut Body<'_>, alloc: Global) -> Result<IdlValue, DecodeFault>
    ensures { (c : Cursor) → StandsAt body.old c
        → Takes result body.new (Spec.argument (param_of param.now).way (param_of param.now).kind c) }
{
    match param.way {
        Way::Input => take(&param.kind, body, alloc),
        Way::Both => take(&param.kind, body, alloc),
        Way::Output => Ok(zero(alloc, &param.kind)?),
    }
}

/// What the parameters begin with, in order: `in` and `inout` parameters are taken from a request's body, one after the other,
/// and an `out` parameter is the zero of its type. Work and memory grow with the bytes taken and the leaves of the zeros.
pub(crate) fn arguments(
    params: &[Param],
    order: Order,
    body: &[u8],
    alloc: Global,
) -> Result<Vec<IdlValue>, DecodeFault>
    ensures { Begins result (Spec.arguments (map param_of params.now) [] (cursor order 24 body.now)) }
{
    let mut rest = Body {
        order,
        place: 0,
        rest: body,
    };
    let mut values = Vec::new(alloc);
    for param in params {
        values.push(argument(param, &mut rest, alloc)?)?;
    }
    Ok(values)
}
