//! Parameters of methods.
ghost use Rattle.std.specs.Prelude.{◌≡◌, [], map, IfOk};
ghost use Rattle.std.specs.Option.{option_copied, option_map};
ghost use Rattle.idl_types.specs.Views.{param_of};
ghost use Rattle.script_checks.specs.Methods as Spec;
ghost use Rattle.script_checks.specs.Gives.{Gives};
ghost use Rattle.script_checks.specs.Views.{var_of, vars_view};

use crate::dues::param_due;
use crate::fault::{CheckCause, CheckError};
use crate::naming::refuse;
use crate::scene::{Sort, Variable};
use idl_types::{Param, TypeRef, Way};
use orb_base::NoMemory;
use servant_scripts::{At, Part};
use std::alloc::Global;

/// The type that a parameter's value must fit, where it comes out and so may be set.
fn param_set(way: Way, due: TypeRef) -> Option<TypeRef>
    ensures { result ≡ Spec.param_set way due }
{
    match way {
        Way::Input => None,
        Way::Output => Some(due),
        Way::Both => Some(due),
    }
}

/// A parameter as the variable at an index.
fn param_var<'r>(param: &'r Param, place: usize, operation: usize, at: usize) -> Variable<'r>
    ensures { var_of result ≡ Spec.param_var place operation at (param_of param.now) }
{
    Variable {
        name: param.name.as_slice(),
        sort: Sort::Type(&param.kind),
        due: param_set(param.way, param_due(place, operation, at)),
    }
}

/// The parameters as variables.
pub(crate) fn param_vars<'r>(
    params: &'r [Param],
    place: usize,
    operation: usize,
    alloc: Global,
) -> Result<Vec<Variable<'r>>, NoMemory>
    ensures { IfOk result (λ v. vars_view v.items ≡ Spec.params_behind place operation [] (map param_of params.now)) }
{
    let mut vars = Vec::new(alloc);
    for param in params {
        let at = vars.len();
        vars.push(param_var(param, place, operation, at))?;
    }
    Ok(vars)
}

/// Whether a parameter has the name that is at its place.
fn is_named(param: Option<&Param>, part: &Part) -> bool
    ensures { result ≡ Spec.is_named (option_map param_of (option_copied param.entry)) part.now }
{
    match param {
        Some(param) => param.name.as_slice() == part.name.as_slice(),
        None => false,
    }
}

/// The fault of parameters that haven't the names of the IDL, in order.
pub(crate) fn same_names(params: &[Param], names: &[Part], close: At) -> Result<(), CheckError>
    ensures { Gives (λ u. u) result (Spec.same_names (map param_of params.now) names.now close) }
{
    for (at, part) in names.iter().enumerate() {
        if !is_named(params.get(at), part) {
            return Err(refuse(CheckCause::ParameterNames, part.at));
        }
    }
    if names.len() < params.len() {
        return Err(refuse(CheckCause::ParameterNames, close));
    }
    Ok(())
}
