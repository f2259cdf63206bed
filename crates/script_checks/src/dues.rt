//! References to the types that are due.
ghost use Rattle.std.specs.Prelude.{◌≡◌};
ghost use Rattle.script_checks.specs.Dues as Spec;

use idl_types::{Part, TypeRef};

/// The greatest count of a reference.
const GREATEST: usize = 4_294_967_295;

/// A count as references have it.
pub(crate) fn short(n: usize) -> u32
    ensures { result ≡ Spec.short n }
{
    n.min(GREATEST) as u32
}

/// The type of a member of the struct or the exception at a place.
pub(crate) fn member_due(place: usize, at: usize) -> TypeRef
    ensures { result ≡ Spec.member_due place at }
{
    TypeRef {
        place: short(place),
        part: Part::Member(short(at)),
        steps: 0,
    }
}

/// The type of the elements of a list type.
pub(crate) fn element_due(due: TypeRef) -> TypeRef
    ensures { result ≡ Spec.element_due due }
{
    TypeRef {
        place: due.place,
        part: due.part,
        steps: short(due.steps as usize + 1),
    }
}

/// The type of the result of an operation of the interface at a place.
pub(crate) fn result_due(place: usize, operation: usize) -> TypeRef
    ensures { result ≡ Spec.result_due place operation }
{
    TypeRef {
        place: short(place),
        part: Part::Outcome(short(operation)),
        steps: 0,
    }
}

/// The type of a parameter of an operation of the interface at a place.
pub(crate) fn param_due(place: usize, operation: usize, at: usize) -> TypeRef
    ensures { result ≡ Spec.param_due place operation at }
{
    TypeRef {
        place: short(place),
        part: Part::Parameter(short(operation), short(at)),
        steps: 0,
    }
}
