//! Which types may be where.
ghost use Rattle.std.specs.Prelude.{◌≡◌};
ghost use Rattle.cdr_values.specs.Kinds.{kind_of};
ghost use Rattle.idl_constants.specs.Standing as Spec;

use cdr_values::IdlType;

/// Whether a union may switch on a type: an integer type, char, boolean or an enum. An octet is no integer type.
pub fn may_switch(kind: &IdlType) -> bool
    ensures { result ≡ Spec.may_switch (kind_of kind.now) }
{
    match kind {
        IdlType::Boolean => true,
        IdlType::Octet => false,
        IdlType::Char => true,
        IdlType::Short => true,
        IdlType::UShort => true,
        IdlType::Long => true,
        IdlType::ULong => true,
        IdlType::LongLong => true,
        IdlType::ULongLong => true,
        IdlType::Words(_) => false,
        IdlType::Seq(_, _) => false,
        IdlType::Array(_, _) => false,
        IdlType::Struct(_, _) => false,
        IdlType::Union(_, _, _) => false,
        IdlType::Enum(_, _) => true,
    }
}

/// Whether a constant may be of a type: an integer type, octet, char, boolean or string.
pub fn may_be_constant(kind: &IdlType) -> bool
    ensures { result ≡ Spec.may_be_constant (kind_of kind.now) }
{
    match kind {
        IdlType::Boolean => true,
        IdlType::Octet => true,
        IdlType::Char => true,
        IdlType::Short => true,
        IdlType::UShort => true,
        IdlType::Long => true,
        IdlType::ULong => true,
        IdlType::LongLong => true,
        IdlType::ULongLong => true,
        IdlType::Words(_) => true,
        IdlType::Seq(_, _) => false,
        IdlType::Array(_, _) => false,
        IdlType::Struct(_, _) => false,
        IdlType::Union(_, _, _) => false,
        IdlType::Enum(_, _) => false,
    }
}
