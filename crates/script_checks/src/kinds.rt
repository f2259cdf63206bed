//! Kinds that are one.
ghost use Rattle.std.specs.Prelude.{◌≡◌};
ghost use Rattle.std.specs.Option.{option_copied, option_map};
ghost use Rattle.cdr_values.specs.Kinds.{kind_of};
ghost use Rattle.script_checks.specs.Kinds as Spec;
ghost use Rattle.script_checks.specs.Naming.{as_struct};
ghost use Rattle.script_checks.specs.Views.{sort_of};

use crate::scene::Sort;
use cdr_values::IdlType;

/// Whether a type is one of numbers.
fn is_number_type(kind: &IdlType) -> bool
    ensures { result ≡ Spec.same_kind Spec.number_kind (kind_of kind.now) }
{
    match kind {
        IdlType::Octet => true,
        IdlType::Short => true,
        IdlType::UShort => true,
        IdlType::Long => true,
        IdlType::ULong => true,
        IdlType::LongLong => true,
        IdlType::ULongLong => true,
        _ => false,
    }
}

/// Whether two types are of one kind. The stack grows with their depth. Takes no memory.
fn are_one(a: &IdlType, b: &IdlType) -> bool
    ensures { result ≡ Spec.same_kind (kind_of a.now) (kind_of b.now) }
{
    match (a, b) {
        (IdlType::Boolean, IdlType::Boolean) => true,
        (IdlType::Char, IdlType::Char) => true,
        (IdlType::Words(_), IdlType::Words(_)) => true,
        (IdlType::Enum(a, _), IdlType::Enum(b, _)) => a.as_slice() == b.as_slice(),
        (IdlType::Seq(a, _), IdlType::Seq(b, _)) => are_one(a, b),
        (IdlType::Array(a, m), IdlType::Array(b, n)) => *m == *n && are_one(a, b),
        (IdlType::Struct(a, _), IdlType::Struct(b, _)) => a.as_slice() == b.as_slice(),
        (IdlType::Union(a, _, _), IdlType::Union(b, _, _)) => a.as_slice() == b.as_slice(),
        _ => is_number_type(a) && is_number_type(b),
    }
}

/// Whether a kind is that of numbers.
pub(crate) fn is_number(sort: Sort<'_>) -> bool
    ensures { result ≡ Spec.same_kind Spec.number_kind (sort_of sort.entry) }
{
    match sort {
        Sort::Number => true,
        Sort::Type(kind) => is_number_type(kind),
        _ => false,
    }
}

/// Whether a kind is that of truths.
pub(crate) fn is_truth(sort: Sort<'_>) -> bool
    ensures { result ≡ Spec.same_kind Spec.truth_kind (sort_of sort.entry) }
{
    match sort {
        Sort::Truth | Sort::Type(IdlType::Boolean) => true,
        _ => false,
    }
}

fn is_text(sort: Sort<'_>) -> bool
    ensures { result ≡ Spec.same_kind Spec.text_kind (sort_of sort.entry) }
{
    match sort {
        Sort::Words | Sort::Type(IdlType::Words(_)) => true,
        _ => false,
    }
}

/// Whether the first kind, a type's, is the second.
fn is_of(kind: &IdlType, sort: Sort<'_>) -> bool
    ensures { result ≡ Spec.same_kind (kind_of kind.now) (sort_of sort.entry) }
{
    match sort {
        Sort::Type(other) => are_one(kind, other),
        Sort::Truth => match kind {
            IdlType::Boolean => true,
            _ => false,
        },
        Sort::Words => match kind {
            IdlType::Words(_) => true,
            _ => false,
        },
        Sort::Number => is_number_type(kind),
    }
}

/// Whether two kinds are one.
pub(crate) fn are_alike(a: Sort<'_>, b: Sort<'_>) -> bool
    ensures { result ≡ Spec.same_kind (sort_of a.entry) (sort_of b.entry) }
{
    match a {
        Sort::Truth => is_truth(b),
        Sort::Number => is_number(b),
        Sort::Words => is_text(b),
        Sort::Type(kind) => is_of(kind, b),
    }
}

/// Whether a kind has a length.
pub(crate) fn has_len(sort: Sort<'_>) -> bool
    ensures { result ≡ Spec.has_len (sort_of sort.entry) }
{
    match sort {
        Sort::Words | Sort::Type(IdlType::Words(_) | IdlType::Seq(_, _) | IdlType::Array(_, _)) =>
            true,
        _ => false,
    }
}

/// Whether values of a kind are compared by `==` and `!=`.
pub(crate) fn is_simple(sort: Sort<'_>) -> bool
    ensures { result ≡ Spec.is_simple (sort_of sort.entry) }
{
    match sort {
        Sort::Type(
            IdlType::Seq(_, _)
            | IdlType::Array(_, _)
            | IdlType::Struct(_, _)
            | IdlType::Union(_, _, _),
        ) => false,
        _ => true,
    }
}

/// The type of the elements of a sequence or an array.
pub(crate) fn element(kind: &IdlType) -> Option<&IdlType>
    ensures { option_map kind_of (option_copied result) ≡ Spec.element_of (kind_of kind.now) }
{
    match kind {
        IdlType::Seq(element, _) | IdlType::Array(element, _) => Some(element),
        _ => None,
    }
}

/// The type of the elements of a kind.
pub(crate) fn element_in<'r>(sort: Sort<'r>) -> Option<&'r IdlType>
    ensures { option_map kind_of (option_copied result) ≡ Spec.element_of (sort_of sort.entry) }
{
    match sort {
        Sort::Type(kind) => element(kind),
        _ => None,
    }
}

/// Whether a list of so many may be of this kind.
pub(crate) fn is_len(kind: &IdlType, len: usize) -> bool
    ensures { result ≡ Spec.is_list_len (kind_of kind.now) len }
{
    match kind {
        IdlType::Array(_, n) => *n as usize == len,
        _ => true,
    }
}

/// The type, where it is a struct's.
pub(crate) fn struct_type(kind: &IdlType) -> Option<&IdlType>
    ensures { option_map kind_of (option_copied result) ≡ as_struct (kind_of kind.now) }
{
    match kind {
        IdlType::Struct(_, _) => Some(kind),
        _ => None,
    }
}

/// The type of a kind, where it is a struct's.
pub(crate) fn struct_in<'r>(sort: Sort<'r>) -> Option<&'r IdlType>
    ensures { option_map kind_of (option_copied result) ≡ as_struct (sort_of sort.entry) }
{
    match sort {
        Sort::Type(kind) => struct_type(kind),
        _ => None,
    }
}
