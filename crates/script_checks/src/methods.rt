//! The check of methods.
ghost use Rattle.std.specs.Prelude.{◌≡◌, [], List, map};
ghost use Rattle.std.specs.Option.{option_map};
ghost use Rattle.idl_types.specs.Things.{Thing};
ghost use Rattle.idl_types.specs.Views.{operation_of, interface_of};
ghost use Rattle.servant_scripts.specs.Views.{method_of};
ghost use Rattle.script_checks.specs.Methods as Spec;
ghost use Rattle.script_checks.specs.Gives.{Gives};
ghost use Rattle.script_checks.specs.Views.{ground_of, things_in};
ghost use Rattle.script_checks.specs.Done.{goal_of, method_view, found_of};

use crate::blocks::check_lines;
use crate::checked::CheckedMethod;
use crate::done::{Found, Goal};
use crate::dues::result_due;
use crate::ending::ends;
use crate::fault::{CheckCause, CheckError};
use crate::ground::Ground;
use crate::naming::refuse;
use crate::parameters::{param_vars, same_names};
use idl_types::{Interface, Operation, TypeRef};
use servant_scripts::{At, Method, Part};

/// The operation of a name, with its index.
fn find_operation<'r>(operations: &'r [Operation], name: &[u8]) -> Option<Found<'r>>
    ensures { option_map found_of result ≡ Spec.find_operation 0 (map operation_of operations.now) name.now }
{
    for (at, operation) in operations.iter().enumerate() {
        if operation.name.as_slice() == name {
            return Some(Found { at, operation });
        }
    }
    None
}

/// Whether an operation has a method.
pub(crate) fn has_method(methods: &[CheckedMethod], operation: usize) -> bool
    ensures { (ts : List Thing) → result ≡ Spec.has_method (map (method_view ts) methods.now) operation }
{
    for method in methods {
        if method.operation == operation {
            return true;
        }
    }
    false
}

/// What an operation gives.
fn goal_for<'r>(operation: &'r Operation, place: usize, at: usize) -> Goal<'r>
    ensures { goal_of result ≡ Spec.due_of place at (operation_of operation.now) }
{
    Goal {
        result: match operation.result {
            Some(_) => Some(result_due(place, at)),
            None => None,
        },
        raises: operation.raises.as_slice(),
    }
}

/// Where a result is due, every path ends, or the `}` is at fault.
fn ends_well(due: Option<TypeRef>, ends: bool, at: At) -> Result<(), CheckError>
    ensures { Gives (λ u. u) result (Spec.ends_well due ends at) }
{
    if due.is_some() && !ends {
        return Err(refuse(CheckCause::MissingReturn, at));
    }
    Ok(())
}

/// The check of a method of an operation.
fn method_for<'r>(
    method: &'r Method,
    operation: &'r Operation,
    place: usize,
    at: usize,
    ground: &Ground<'r>,
) -> Result<CheckedMethod, CheckError>
    ensures { Gives (method_view (things_in ground.now)) result
        (Spec.method_for (ground_of ground.now) place at (operation_of operation.now) (method_of method.now)) }
{
    let params = operation.params.as_slice();
    same_names(params, method.parameters.as_slice(), method.close)?;
    let goal = goal_for(operation, place, at);
    let mut vars = param_vars(params, place, at, ground.alloc)?;
    let block = check_lines(method.body.as_slice(), goal, 0, ground, &mut vars)?;
    ends_well(goal.result, ends(method.body.as_slice()), method.end)?;
    Ok(CheckedMethod {
        operation: at,
        lets: block.lets,
        body: block.stmts,
    })
}

/// The operation of a method's name, which has no method yet.
fn new_method<'r>(
    interface: &'r Interface,
    done: &[CheckedMethod],
    name: &Part,
) -> Result<Found<'r>, CheckError>
    ensures { (ts : List Thing) → Gives found_of result
        (Spec.new_method (map (method_view ts) done.now) (interface_of interface.now) name.now) }
{
    match find_operation(interface.operations.as_slice(), name.name.as_slice()) {
        None => Err(refuse(CheckCause::UnknownOperation, name.at)),
        Some(found) => {
            if has_method(done, found.at) {
                Err(refuse(CheckCause::Twice, name.at))
            } else {
                Ok(found)
            }
        }
    }
}

/// The check of a method after those before it.
fn check_method<'r>(
    method: &'r Method,
    done: &[CheckedMethod],
    interface: &'r Interface,
    place: usize,
    ground: &Ground<'r>,
) -> Result<CheckedMethod, CheckError>
    ensures { Gives (method_view (things_in ground.now)) result
        (Spec.method (ground_of ground.now) place (interface_of interface.now)
        (map (method_view (things_in ground.now)) done.now) (method_of method.now)) }
{
    let found = new_method(interface, done, &method.name)?;
    method_for(method, found.operation, place, found.at, ground)
}

/// The check of all methods of a servant of the interface at a place.
pub(crate) fn check_methods<'r>(
    methods: &'r [Method],
    interface: &'r Interface,
    place: usize,
    ground: &Ground<'r>,
) -> Result<Vec<CheckedMethod>, CheckError>
    ensures { Gives (λ v. map (method_view (things_in ground.now)) v.items) result
        (Spec.methods (ground_of ground.now) place (interface_of interface.now) []
        (map method_of methods.now)) }
{
    let mut done = Vec::new(ground.alloc);
    for method in methods {
        let checked = check_method(method, done.as_slice(), interface, place, ground)?;
        done.push(checked)?;
    }
    Ok(done)
}
