//! Values against one range or bound.
ghost use Rattle.std.specs.Prelude.{◌≡◌};
ghost use Rattle.idl_constants.specs.Fitting as Spec;
ghost use Rattle.idl_constants.specs.Views.{value_of};

use crate::{ConstValue, Misfit};
use orb_base::Text;

/// A number against both ends of a range.
pub(crate) fn between(low: i128, high: i128, z: i128) -> Result<(), Misfit>
    ensures { result ≡ Spec.between low high z }
{
    if low <= z && z <= high {
        Ok(())
    } else {
        Err(Misfit::OutOfRange)
    }
}

/// A value of a type of numbers with this range.
pub(crate) fn fit_number(low: i128, high: i128, value: &ConstValue) -> Result<(), Misfit>
    ensures { result ≡ Spec.fit_number low high (value_of value.now) }
{
    match value {
        ConstValue::Number(z) => between(low, high, *z),
        _ => Err(Misfit::WrongKind),
    }
}

/// A value of boolean.
pub(crate) fn fit_truth(value: &ConstValue) -> Result<(), Misfit>
    ensures { result ≡ Spec.fit_truth (value_of value.now) }
{
    match value {
        ConstValue::Truth(_) => Ok(()),
        _ => Err(Misfit::WrongKind),
    }
}

/// A value of char.
pub(crate) fn fit_character(value: &ConstValue) -> Result<(), Misfit>
    ensures { result ≡ Spec.fit_character (value_of value.now) }
{
    match value {
        ConstValue::Character(_) => Ok(()),
        _ => Err(Misfit::WrongKind),
    }
}

/// A text of so many bytes against a bound, where 0 is none.
fn within(bound: u32, len: usize) -> Result<(), Misfit>
    ensures { result ≡ Spec.within bound len }
{
    if bound == 0 || len <= bound as usize {
        Ok(())
    } else {
        Err(Misfit::OutOfRange)
    }
}

/// A value of a string with this bound.
pub(crate) fn fit_text(bound: u32, value: &ConstValue) -> Result<(), Misfit>
    ensures { result ≡ Spec.fit_text bound (value_of value.now) }
{
    match value {
        ConstValue::Text(text) => within(bound, text.len()),
        _ => Err(Misfit::WrongKind),
    }
}

/// An enumerator of an enum against another one.
fn same_enum(id: &Text, of: &Text) -> Result<(), Misfit>
    ensures { result ≡ Spec.same_enum id.now of.now }
{
    if id.as_slice() == of.as_slice() {
        Ok(())
    } else {
        Err(Misfit::WrongKind)
    }
}

/// A value of the enum with this id.
pub(crate) fn fit_choice(id: &Text, value: &ConstValue) -> Result<(), Misfit>
    ensures { result ≡ Spec.fit_choice id.now (value_of value.now) }
{
    match value {
        ConstValue::Choice(of, _) => same_enum(id, of),
        _ => Err(Misfit::WrongKind),
    }
}
