//! Values against types.
ghost use Rattle.std.specs.Prelude.{◌≡◌, pos, Ok, Err, MatchResult};
ghost use Rattle.cdr_values.specs.Kinds.{kind_of};
ghost use Rattle.idl_constants.specs.Fitting as Spec;
ghost use Rattle.idl_constants.specs.Views.{value_of};

use crate::ranges::{fit_character, fit_choice, fit_number, fit_text, fit_truth};
use crate::{ConstValue, Misfit};
use cdr_values::IdlType;

/// Whether a type has a value: a value of another kind is WrongKind, a number outside the type's range and a text longer
/// than its bound are OutOfRange. A sequence, array, struct and union has none here.
pub fn fit(kind: &IdlType, value: &ConstValue) -> Result<(), Misfit>
    ensures { result ≡ Spec.fit (kind_of kind.now) (value_of value.now) }
{
    match kind {
        IdlType::Boolean => fit_truth(value),
        IdlType::Octet => fit_number(0, 255, value),
        IdlType::Char => fit_character(value),
        IdlType::Short => fit_number(-32_768, 32_767, value),
        IdlType::UShort => fit_number(0, 65_535, value),
        IdlType::Long => fit_number(-2_147_483_648, 2_147_483_647, value),
        IdlType::ULong => fit_number(0, 4_294_967_295, value),
        IdlType::LongLong => fit_number(
            -9_223_372_036_854_775_808,
            9_223_372_036_854_775_807,
            value,
        ),
        IdlType::ULongLong => fit_number(0, 18_446_744_073_709_551_615, value),
        IdlType::Words(bound) => fit_text(*bound, value),
        IdlType::Seq(_, _) => Err(Misfit::WrongKind),
        IdlType::Array(_, _) => Err(Misfit::WrongKind),
        IdlType::Struct(_, _) => Err(Misfit::WrongKind),
        IdlType::Union(_, _, _) => Err(Misfit::WrongKind),
        IdlType::Enum(id, _) => fit_choice(id, value),
    }
}

/// The bound of a string or a sequence, or the length of an array: a number from 1 to 65,536. Another number is
/// OutOfRange, and another value WrongKind.
pub fn bound_of(value: &ConstValue) -> Result<u32, Misfit>
    ensures { Spec.IsBound result (value_of value.now) }
{
    match value {
        ConstValue::Number(z) => {
            if 1 <= *z && *z <= 65_536 {
                Ok(*z as u32)
            } else {
                Err(Misfit::OutOfRange)
            }
        }
        _ => Err(Misfit::WrongKind),
    }
}
