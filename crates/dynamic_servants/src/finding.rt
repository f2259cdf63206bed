//! The servant and the method of a job.
ghost use Rattle.std.specs.Prelude.{◌≡◌, List, map, slice_get};
ghost use Rattle.std.specs.Option.{option_copied, option_map};
ghost use Rattle.idl_types.specs.Contents.{things_of};
ghost use Rattle.idl_types.specs.Things.{Thing};
ghost use Rattle.idl_types.specs.Views.{interface_of, operation_of};
ghost use Rattle.script_checks.specs.Done.{method_view, servant_view};
ghost use Rattle.script_checks.specs.Methods as methods;
ghost use Rattle.script_checks.specs.Servants.{interface_in};
ghost use Rattle.dynamic_servants.specs.Outcome as Spec;
ghost use Rattle.dynamic_servants.specs.Served.{asked_view, work_view};

use crate::target::{Asked, Work};
use idl_types::{Declaration, Interface, Operation, Repository};
use script_checks::{CheckedMethod, CheckedServant};

/// The interface at a place, where there is one.
pub(crate) fn interface_at(repository: &Repository, place: usize) -> Option<&Interface>
    ensures { option_map (λ i. (place, interface_of i)) (option_copied result) ≡ interface_in place (slice_get (things_of repository.now) place) }
{
    match repository.nth(place) {
        Some(Declaration::Interface(interface)) => Some(interface),
        _ => None,
    }
}

/// The servant of the interface at a place. Costs a comparison of numbers for each servant.
pub(crate) fn servant_at(servants: &[CheckedServant], place: usize) -> Option<&CheckedServant>
    ensures { (ts : List Thing) → option_map (servant_view ts) (option_copied result) ≡ Spec.servant_at (map (servant_view ts) servants.now) place }
{
    for servant in servants {
        if servant.interface == place {
            return Some(servant);
        }
    }
    None
}

/// The operation of a name, with its index. Costs a comparison for each operation.
pub(crate) fn find_operation<'a>(operations: &'a [Operation], name: &[u8]) -> Option<Asked<'a>>
    ensures { option_map asked_view result ≡ methods.find_operation 0 (map operation_of operations.now) name.now }
{
    for (at, operation) in operations.iter().enumerate() {
        if operation.name.as_slice() == name {
            return Some(Asked { at, operation });
        }
    }
    None
}

/// What the method of an operation runs. Costs a comparison of numbers for each method.
pub(crate) fn work_at(methods: &[CheckedMethod], operation: usize) -> Work<'_>
    ensures { (ts : List Thing) → work_view ts result ≡ Spec.work_at (map (method_view ts) methods.now) operation }
{
    for method in methods {
        if method.operation == operation {
            return Work {
                lets: method.lets,
                body: method.body.as_slice(),
            };
        }
    }
    Work { lets: 0, body: &[] }
}
