//! Numbers of the types whose values are numbers, as they are taken.
ghost use Rattle.std.specs.Prelude.{◌≡◌, length, pos};
ghost use Rattle.cdr_values.specs.Gives.{Gives};
ghost use Rattle.cdr_values.specs.Kinds.{kind_of};
ghost use Rattle.cdr_values.specs.Reading.{as_read, label_at, scalar_at, tag_at};
ghost use Rattle.cdr_values.specs.Trees.{size1, size2, size4, size8, boolean, char, unsigned, signed};

use crate::fault::DecodeFault;
use crate::kind::IdlType;
use cdr_core::{CdrCause, CdrFault, Reader};
use orb_base::{List, Text};

/// Takes a number of a type.
#[tactic(auto, unfolding(crate::specs::Reading::tag_at, crate::specs::Reading::scalar_at))]
pub(crate) fn take_number(kind: &IdlType, reader: &mut Reader<'_>) -> Result<i128, DecodeFault>
    ensures { Gives (λ z. z) result reader.new (tag_at (kind_of kind.now) reader.old) }
{
    match kind {
        IdlType::Boolean => take_boolean(reader),
        IdlType::Octet => take_octet(reader),
        IdlType::Char => take_char(reader),
        IdlType::Short => take_short(reader),
        IdlType::UShort => take_ushort(reader),
        IdlType::Long => take_long(reader),
        IdlType::ULong => take_ulong(reader),
        IdlType::LongLong => take_longlong(reader),
        IdlType::ULongLong => take_ulonglong(reader),
        IdlType::Enum(_, labels) => take_label(labels, reader),
        _ => Err(DecodeFault::Cdr(CdrFault {
            cause: CdrCause::BadEnum,
            place: reader.place(),
        })),
    }
}

#[tactic(auto, unfolding(crate::specs::Reading::scalar_at))]
fn take_boolean(reader: &mut Reader<'_>) -> Result<i128, DecodeFault>
    ensures { Gives (λ z. z) result reader.new (scalar_at boolean reader.old) }
{
    Ok(i128::from(u8::from(reader.take_bool()?)))
}

#[tactic(auto, unfolding(crate::specs::Reading::scalar_at))]
pub(crate) fn take_octet(reader: &mut Reader<'_>) -> Result<i128, DecodeFault>
    ensures { Gives (λ z. z) result reader.new (scalar_at (unsigned size1) reader.old) }
{
    Ok(i128::from(reader.take_u8()?))
}

#[tactic(auto, unfolding(crate::specs::Reading::scalar_at))]
fn take_char(reader: &mut Reader<'_>) -> Result<i128, DecodeFault>
    ensures { Gives (λ z. z) result reader.new (scalar_at char reader.old) }
{
    Ok(i128::from(reader.take_u8()?))
}

#[tactic(auto, unfolding(crate::specs::Reading::scalar_at))]
pub(crate) fn take_short(reader: &mut Reader<'_>) -> Result<i128, DecodeFault>
    ensures { Gives (λ z. z) result reader.new (scalar_at (signed size2) reader.old) }
{
    Ok(i128::from(reader.take_u16()?.cast_signed()))
}

#[tactic(auto, unfolding(crate::specs::Reading::scalar_at))]
pub(crate) fn take_ushort(reader: &mut Reader<'_>) -> Result<i128, DecodeFault>
    ensures { Gives (λ z. z) result reader.new (scalar_at (unsigned size2) reader.old) }
{
    Ok(i128::from(reader.take_u16()?))
}

#[tactic(auto, unfolding(crate::specs::Reading::scalar_at))]
pub(crate) fn take_long(reader: &mut Reader<'_>) -> Result<i128, DecodeFault>
    ensures { Gives (λ z. z) result reader.new (scalar_at (signed size4) reader.old) }
{
    Ok(i128::from(reader.take_u32()?.cast_signed()))
}

#[tactic(auto, unfolding(crate::specs::Reading::scalar_at))]
pub(crate) fn take_ulong(reader: &mut Reader<'_>) -> Result<i128, DecodeFault>
    ensures { Gives (λ z. z) result reader.new (scalar_at (unsigned size4) reader.old) }
{
    Ok(i128::from(reader.take_u32()?))
}

#[tactic(auto, unfolding(crate::specs::Reading::scalar_at))]
pub(crate) fn take_longlong(reader: &mut Reader<'_>) -> Result<i128, DecodeFault>
    ensures { Gives (λ z. z) result reader.new (scalar_at (signed size8) reader.old) }
{
    Ok(i128::from(reader.take_u64()?.cast_signed()))
}

#[tactic(auto, unfolding(crate::specs::Reading::scalar_at))]
pub(crate) fn take_ulonglong(reader: &mut Reader<'_>) -> Result<i128, DecodeFault>
    ensures { Gives (λ z. z) result reader.new (scalar_at (unsigned size8) reader.old) }
{
    Ok(i128::from(reader.take_u64()?))
}

fn take_label(labels: &List<Text>, reader: &mut Reader<'_>) -> Result<i128, DecodeFault>
    ensures { Gives (λ z. z) result reader.new (as_read pos (label_at (length labels.now.items) reader.old)) }
{
    Ok(i128::from(take_enumerator(labels.len(), reader)?))
}

/// Takes the number of an enumerator, one of so many; BadEnum is at the place of the number.
#[tactic(auto, using(crate::proofs::Places::behind_number), unfolding(crate::specs::Reading::label_at))]
pub(crate) fn take_enumerator(len: usize, reader: &mut Reader<'_>) -> Result<u32, DecodeFault>
    ensures { Gives (λ n. n) result reader.new (label_at len reader.old) }
{
    let n = reader.take_u32()?;
    if (n as usize) < len {
        return Ok(n);
    }
    Err(DecodeFault::Cdr(CdrFault {
        cause: CdrCause::BadEnum,
        place: reader.place() - 4,
    }))
}
