//! The results of an operation as a JSON text.
ghost use Rattle.std.specs.Prelude.{◌≡◌, ◌∷◌, map, IfOk, string_bytes};
ghost use Rattle.serde_json.specs.View.{view, items_view};
ghost use Rattle.cdr_values.specs.Kinds.{kind_of};
ghost use Rattle.cdr_values.specs.Values.{values_view};
ghost use Rattle.idl_types.specs.Views.{param_of, operation_of};
ghost use Rattle.value_json.specs.Operations.{goes_out, kinds_out, kinds_back, results_text, shown_of_each};
ghost use Rattle.value_json.specs.Shown.{ahead};

use crate::showing::to_json;
use cdr_values::{IdlType, IdlValue};
use idl_types::{Operation, Param, Way};
use orb_base::NoMemory;
use serde_json::Value;
use std::alloc::Global;

/// The results of an operation as a JSON text without spaces: an array of the result, where there is one, and the values of
/// the `out` and `inout` parameters in order. An object has its keys in ascending order. Characters above code 127 are
/// UTF-8. Work and memory grow with the values.
pub fn results_json(
    alloc: Global,
    operation: &Operation,
    values: &[IdlValue],
) -> Result<String, NoMemory>
    ensures { IfOk result (λ s. string_bytes s ≡ results_text (kinds_out (operation_of operation.now)) (values_view values.now)) }
{
    let list = items_json(alloc, operation, values)?;
    let json = Value::Array(list);
    Ok(json.to_string(alloc)?)
}

fn items_json(
    alloc: Global,
    operation: &Operation,
    values: &[IdlValue],
) -> Result<Vec<Value>, NoMemory>
    ensures { IfOk result (λ v. items_view v.items ≡ shown_of_each (kinds_out (operation_of operation.now)) (values_view values.now)) }
{
    match &operation.result {
        None => outs_json(alloc, operation.params.as_slice(), values, Vec::new(alloc)),
        Some(kind) => result_json(alloc, kind, operation.params.as_slice(), values),
    }
}

/// The result, and the parameters that come back.
fn result_json(
    alloc: Global,
    kind: &IdlType,
    params: &[Param],
    values: &[IdlValue],
) -> Result<Vec<Value>, NoMemory>
    ensures { IfOk result (λ v. items_view v.items
        ≡ shown_of_each (kind_of kind.now ∷ kinds_back (map param_of params.now)) (values_view values.now)) }
{
    let mut list = Vec::with_capacity(alloc, values.len())?;
    let [value, later @ ..] = values else {
        return Ok(list);
    };
    list.push(to_json(alloc, kind, value)?)?;
    outs_json(alloc, params, later, list)
}

/// Puts the values of the parameters that come back after the items of a list.
fn outs_json(
    alloc: Global,
    params: &[Param],
    values: &[IdlValue],
    before: Vec<Value>,
) -> Result<Vec<Value>, NoMemory>
    ensures { IfOk result (λ v. items_view v.items
        ≡ ahead (map view before.items) (shown_of_each (kinds_back (map param_of params.now)) (values_view values.now))) }
{
    let mut list = before;
    let mut rest = values;
    for param in params {
        if !goes_out(param.way) {
            continue;
        }
        let [value, later @ ..] = rest else {
            return Ok(list);
        };
        list.push(to_json(alloc, &param.kind, value)?)?;
        rest = later;
    }
    Ok(list)
}

/// Whether a parameter comes back.
fn goes_out(way: Way) -> bool
    ensures { result ≡ goes_out way }
{
    match way {
        Way::Input => false,
        Way::Output => true,
        Way::Both => true,
    }
}
