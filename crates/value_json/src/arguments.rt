//! The arguments of an operation from a JSON text.
ghost use Rattle.std.specs.Prelude.{◌≡◌, map, IfOk, IsTrue};
ghost use Rattle.serde_json.specs.Read.{read};
ghost use Rattle.serde_json.specs.View.{view, items_view};
ghost use Rattle.cdr_values.specs.Values.{values_view};
ghost use Rattle.idl_types.specs.Views.{param_of};
ghost use Rattle.value_json.specs.Operations.{arguments_in, goes_in, kinds_in, meant_of_each, are_of};
ghost use Rattle.value_json.specs.Gives.{Gives};

use crate::fault::JsonError;
use crate::reading::from_json;
use cdr_values::IdlValue;
use idl_types::{Param, Way};
use orb_base::List;
use serde_json::Value;
use std::alloc::Global;

/// The values of the `in` and `inout` parameters that a JSON text means: an array of one value each, in order. No JSON, no
/// array, a wrong count and a value that is not of its type are all NotOfType; JSON that nests more than 127 levels deep is
/// none. Work and memory grow with the text.
pub fn arguments_from(
    alloc: Global,
    params: &[Param],
    text: &str,
) -> Result<List<IdlValue>, JsonError>
    ensures gives { Gives (λ l. values_view l.items) result (arguments_in (kinds_in (map param_of params.now)) text.now) }
    ensures of_type { IfOk result (λ l. IsTrue (are_of (kinds_in (map param_of params.now)) (values_view l.items))) }
{
    values_from(alloc, params, text)
}

#[tactic(auto, using(crate::proofs::Loops::refuses_then))]
fn values_from(alloc: Global, params: &[Param], text: &str) -> Result<List<IdlValue>, JsonError>
    ensures { Gives (λ l. values_view l.items) result (arguments_in (kinds_in (map param_of params.now)) text.now) }
{
    let json = parsed(alloc, text)?;
    match json.as_array() {
        Some(list) => each_from(alloc, params, list.as_slice()),
        None => Err(JsonError::NotOfType),
    }
}

/// The JSON of a text.
fn parsed(alloc: Global, text: &str) -> Result<Value, JsonError>
    ensures { Gives view result (read text.now) }
{
    match Value::from_str(alloc, text) {
        Ok(json) => Ok(json),
        Err(e) => {
            if e.is_memory() {
                Err(JsonError::NoMemory)
            } else {
                Err(JsonError::NotOfType)
            }
        }
    }
}

/// The values of items, one for each parameter that goes to the servant.
fn each_from(alloc: Global, params: &[Param], list: &[Value]) -> Result<List<IdlValue>, JsonError>
    ensures { Gives (λ l. values_view l.items) result (meant_of_each (kinds_in (map param_of params.now)) (items_view list.now)) }
{
    let mut values = Vec::with_capacity(alloc, list.len())?;
    let mut rest = list;
    for param in params {
        if !goes_in(param.way) {
            continue;
        }
        let [json, later @ ..] = rest else {
            return Err(JsonError::NotOfType);
        };
        values.push(from_json(alloc, &param.kind, json)?)?;
        rest = later;
    }
    if rest.is_empty() {
        Ok(List::from_vec(values))
    } else {
        Err(JsonError::NotOfType)
    }
}

/// Whether a parameter goes to the servant.
fn goes_in(way: Way) -> bool
    ensures { result ≡ goes_in way }
{
    match way {
        Way::Input => true,
        Way::Output => false,
        Way::Both => true,
    }
}
