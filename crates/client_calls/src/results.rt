//! The results of an operation, as a reply carries them.
ghost use Rattle.std.specs.Prelude.{◌≡◌, ◌∷◌, map};
ghost use Rattle.cdr_core.specs.Cursor.{cursor};
ghost use Rattle.cdr_values.specs.Kinds.{kind_of};
ghost use Rattle.cdr_values.specs.Reading.{with_front};
ghost use Rattle.cdr_values.specs.Values.{values_view};
ghost use Rattle.idl_types.specs.Views.{param_of, operation_of};
ghost use Rattle.value_json.specs.Operations.{goes_out, kinds_back, kinds_out};
ghost use Rattle.client_calls.specs.Bodies as Spec;
ghost use Rattle.client_calls.specs.Replies.{values_at};

use crate::body::Body;
use crate::taking::take;
use cdr_values::{DecodeFault, IdlType, IdlValue};
use idl_types::{Operation, Param, Way};
use orb_base::{List, Order};
use std::alloc::Global;

/// Whether a parameter comes back.
fn goes_out(way: Way) -> bool
    ensures { result ≡ goes_out way }
{
    match way {
        Way::Input => false,
        Way::Output => true,
        Way::Both => true,
    }
}

/// Puts a value after the others.
fn add(values: &mut List<IdlValue>, value: IdlValue) -> Result<(), DecodeFault>
    ensures { Spec.Adds result values.old values.new value }
{
    match values.push(value) {
        Ok(()) => Ok(()),
        Err(_) => Err(DecodeFault::NoMemory),
    }
}

/// Takes the values of the parameters that come back, and puts them after those before.
fn take_backs(
    alloc: Global,
    params: &[Param],
    before: List<IdlValue>,
    body: &mut Body<'_>,
) -> Result<List<IdlValue>, DecodeFault>
    ensures { Spec.GivesAll result (with_front (values_view before.items)
        (values_at (kinds_back (map param_of params.now)) (Spec.cursor_of body.old))) }
{
    let mut values = before;
    for param in params {
        if !goes_out(param.way) {
            continue;
        }
        let value = take(alloc, &param.kind, body)?;
        add(&mut values, value)?;
    }
    Ok(values)
}

/// Takes the result, and the values of the parameters that come back.
fn take_result(
    alloc: Global,
    kind: &IdlType,
    params: &[Param],
    body: &mut Body<'_>,
) -> Result<List<IdlValue>, DecodeFault>
    ensures { Spec.GivesAll result (values_at (kind_of kind.now ∷ kinds_back (map param_of params.now)) (Spec.cursor_of body.old)) }
{
    let value = take(alloc, kind, body)?;
    let mut values = List::new(alloc);
    add(&mut values, value)?;
    take_backs(alloc, params, values, body)
}

/// The results that the body of a reply carries: the result, where there is one, and the values of the `out` and `inout` parameters, in
/// order. What follows them is not looked at. Work and memory grow with the bytes taken.
#[tactic(auto, using(crate::proofs::Readings::none_before))]
pub(crate) fn results_in(
    alloc: Global,
    operation: &Operation,
    order: Order,
    body: &[u8],
) -> Result<List<IdlValue>, DecodeFault>
    ensures { Spec.GivesAll result (values_at (kinds_out (operation_of operation.now)) (cursor order 0 body.now)) }
{
    let mut rest = Body {
        order,
        place: 0,
        rest: body,
    };
    let params = operation.params.as_slice();
    match &operation.result {
        None => take_backs(alloc, params, List::new(alloc), &mut rest),
        Some(kind) => take_result(alloc, kind, params, &mut rest),
    }
}
