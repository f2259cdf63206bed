//! Copies of operations, and values of constants.
ghost use Rattle.std.specs.Prelude.{◌≡◌, IfOk, map};
ghost use Rattle.std.specs.Option.{option_map};
ghost use Rattle.cdr_values.specs.Kinds.{kind_of};
ghost use Rattle.cdr_values.specs.Values as values;
ghost use Rattle.idl_constants.specs.Views as constants;
ghost use Rattle.idl_types.specs.Views.{operation_of, param_of};
ghost use Rattle.idl_reader.specs.Values.{constant_value};

use cdr_values::{IdlType, IdlValue, copy_texts, copy_type};
use idl_constants::ConstValue;
use idl_types::{Operation, Param};
use orb_base::{List, NoMemory};
use std::alloc::Global;

/// A parameter of the same way, name and type.
fn copy_param(alloc: Global, param: &Param) -> Result<Param, NoMemory>
    ensures { IfOk result (λ p. param_of p ≡ param_of param.now) }
{
    Ok(Param {
        way: param.way,
        name: param.name.copy(alloc)?,
        kind: copy_type(alloc, &param.kind)?,
    })
}

/// Copies of the parameters, in order.
fn copy_params(alloc: Global, params: &[Param]) -> Result<List<Param>, NoMemory>
    ensures { IfOk result (λ l. map param_of l.items ≡ map param_of params.now) }
{
    let mut copies = Vec::new(alloc);
    for param in params {
        copies.push(copy_param(alloc, param)?)?;
    }
    Ok(List::from_vec(copies))
}

/// A copy of a result, where there is one.
fn copy_result(alloc: Global, outcome: &Option<IdlType>) -> Result<Option<IdlType>, NoMemory>
    ensures { IfOk result (λ k. option_map kind_of k ≡ option_map kind_of outcome.now) }
{
    match outcome {
        Some(kind) => Ok(Some(copy_type(alloc, kind)?)),
        None => Ok(None),
    }
}

/// A copy of an operation. Work and memory grow with the size of its types.
pub(crate) fn copy_operation(alloc: Global, operation: &Operation) -> Result<Operation, NoMemory>
    ensures { IfOk result (λ o. operation_of o ≡ operation_of operation.now) }
{
    Ok(Operation {
        name: operation.name.copy(alloc)?,
        oneway: operation.oneway,
        result: copy_result(alloc, &operation.result)?,
        params: copy_params(alloc, operation.params.as_slice())?,
        raises: copy_texts(alloc, operation.raises.as_slice())?,
    })
}

/// The value of a constant.
pub(crate) fn constant_value(alloc: Global, value: &ConstValue) -> Result<IdlValue, NoMemory>
    ensures { IfOk result (λ v. values.value_of v ≡ constant_value (constants.value_of value.now)) }
{
    match value {
        ConstValue::Number(z) => Ok(IdlValue::Number(*z)),
        ConstValue::Character(c) => Ok(IdlValue::Char(*c)),
        ConstValue::Text(text) => Ok(IdlValue::Words(text.copy(alloc)?)),
        ConstValue::Truth(b) => Ok(IdlValue::Boolean(*b)),
        ConstValue::Choice(_, n) => Ok(IdlValue::Label(*n)),
    }
}
