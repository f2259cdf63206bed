//! Values of a type, taken from bytes.
ghost use Rattle.std.specs.Prelude.{◌≤◌, length, take, Some, IfOk, IfErr};
ghost use Rattle.cdr_core.specs.Cursor.{cursor};
ghost use Rattle.cdr_values.specs.Gives.{Gives, Decodes};
ghost use Rattle.cdr_values.specs.Laws.{IsFirst, AnswersOnly, TellsFirst};
ghost use Rattle.cdr_values.specs.Kinds.{kind_of, members_view, cases_view};
ghost use Rattle.cdr_values.specs.Reading.{bounded_count_at, text_at, times, read, read_members, read_chosen};
ghost use Rattle.cdr_values.specs.Trees.{Name, enumeration, size1, size2, size4, size8, boolean, char, signed, unsigned, scalar, words, sequence, array, structure, union, members_of, cases_of};
ghost use Rattle.cdr_values.specs.Values.{value_of, values_view, member_view};
ghost use Rattle.cdr_values.specs.Spelling.{Cdr};

use crate::choice::chosen_case;
use crate::fault::DecodeFault;
use crate::kind::{Case, IdlType, Member};
use crate::number::{
    take_enumerator, take_long, take_longlong, take_number, take_octet, take_short, take_ulong,
    take_ulonglong, take_ushort,
};
use crate::value::{IdlValue, with_member, without_member};
use cdr_core::{CdrCause, CdrFault, Reader};
use orb_base::limits::MAX_MESSAGE;
use orb_base::{List, Order, Text};
use std::alloc::Global;

/// Takes a value of a type from the front of the bytes, the first of which is at the place `at`; answers it with how
/// many bytes it took. Work and memory grow with the bytes taken, and at each union with its labels, and a count takes no
/// room ahead of its elements. The stack grows with the depth of the type.
pub fn decode(
    alloc: Global,
    order: Order,
    at: usize,
    kind: &IdlType,
    bytes: &[u8],
) -> Result<(IdlValue, usize), DecodeFault>
    requires { at ≤ MAX_MESSAGE }
    ensures found { IfOk result (λ x. Cdr order at (kind_of kind.now) (value_of x.0) (take x.1 bytes.now)) }
    ensures within { IfOk result (λ x. x.1 ≤ length bytes.now) }
    ensures first { IfErr result (λ e. IsFirst e (kind_of kind.now) (cursor order at bytes.now)) }
    // Of a lawful type no other value and length, and no other fault, is ever the answer.
    ensures only { AnswersOnly result order at (kind_of kind.now) bytes.now }
    ensures told { TellsFirst result order at (kind_of kind.now) bytes.now }
    // The same of the reading, of any type.
    ensures exact { Decodes result order at (kind_of kind.now) bytes.now }
{
    decode_front(alloc, order, at, kind, bytes)
}

#[tactic(auto, using(crate::proofs::Decoded::stops))]
fn decode_front(
    alloc: Global,
    order: Order,
    at: usize,
    kind: &IdlType,
    bytes: &[u8],
) -> Result<(IdlValue, usize), DecodeFault>
    requires { at ≤ MAX_MESSAGE }
    ensures found { IfOk result (λ x. Cdr order at (kind_of kind.now) (value_of x.0) (take x.1 bytes.now)) }
    ensures within { IfOk result (λ x. x.1 ≤ length bytes.now) }
    ensures exact { Decodes result order at (kind_of kind.now) bytes.now }
{
    let mut reader = Reader::new(order, at, bytes);
    let value = decode_here(alloc, kind, &mut reader)?;
    Ok((value, reader.place() - at))
}

#[cycle(decode_here)]
fn decode_here(
    alloc: Global,
    kind: &IdlType,
    reader: &mut Reader<'_>,
) -> Result<IdlValue, DecodeFault>
    ensures { Gives value_of result reader.new (read (kind_of kind.now) reader.old) }
{
    match kind {
        IdlType::Boolean => decode_boolean(reader),
        IdlType::Char => decode_char(reader),
        IdlType::Octet => decode_octet(reader),
        IdlType::Short => decode_short(reader),
        IdlType::UShort => decode_ushort(reader),
        IdlType::Long => decode_long(reader),
        IdlType::ULong => decode_ulong(reader),
        IdlType::LongLong => decode_longlong(reader),
        IdlType::ULongLong => decode_ulonglong(reader),
        IdlType::Words(bound) => decode_words(alloc, *bound, reader),
        IdlType::Seq(element, bound) => decode_sequence(alloc, element, *bound, reader),
        IdlType::Array(element, len) => decode_array(alloc, element, *len, reader),
        IdlType::Struct(_, members) => decode_struct(alloc, members, reader),
        IdlType::Union(_, tag, cases) => decode_union(alloc, cases, tag, reader),
        IdlType::Enum(_, labels) => decode_label(labels, reader),
    }
}

#[tactic(auto, using(crate::proofs::Members::bit_back), unfolding(crate::specs::Reading::scalar_at, crate::specs::Reading::read))]
fn decode_boolean(reader: &mut Reader<'_>) -> Result<IdlValue, DecodeFault>
    ensures { Gives value_of result reader.new (read (scalar boolean) reader.old) }
{
    Ok(IdlValue::Boolean(reader.take_bool()?))
}

#[tactic(auto, unfolding(crate::specs::Reading::scalar_at, crate::specs::Reading::read))]
fn decode_char(reader: &mut Reader<'_>) -> Result<IdlValue, DecodeFault>
    ensures { Gives value_of result reader.new (read (scalar char) reader.old) }
{
    Ok(IdlValue::Char(reader.take_u8()?))
}

#[tactic(auto, unfolding(crate::specs::Reading::read))]
fn decode_octet(reader: &mut Reader<'_>) -> Result<IdlValue, DecodeFault>
    ensures { Gives value_of result reader.new (read (scalar (unsigned size1)) reader.old) }
{
    Ok(IdlValue::Number(take_octet(reader)?))
}

#[tactic(auto, unfolding(crate::specs::Reading::read))]
fn decode_short(reader: &mut Reader<'_>) -> Result<IdlValue, DecodeFault>
    ensures { Gives value_of result reader.new (read (scalar (signed size2)) reader.old) }
{
    Ok(IdlValue::Number(take_short(reader)?))
}

#[tactic(auto, unfolding(crate::specs::Reading::read))]
fn decode_ushort(reader: &mut Reader<'_>) -> Result<IdlValue, DecodeFault>
    ensures { Gives value_of result reader.new (read (scalar (unsigned size2)) reader.old) }
{
    Ok(IdlValue::Number(take_ushort(reader)?))
}

#[tactic(auto, unfolding(crate::specs::Reading::read))]
fn decode_long(reader: &mut Reader<'_>) -> Result<IdlValue, DecodeFault>
    ensures { Gives value_of result reader.new (read (scalar (signed size4)) reader.old) }
{
    Ok(IdlValue::Number(take_long(reader)?))
}

#[tactic(auto, unfolding(crate::specs::Reading::read))]
fn decode_ulong(reader: &mut Reader<'_>) -> Result<IdlValue, DecodeFault>
    ensures { Gives value_of result reader.new (read (scalar (unsigned size4)) reader.old) }
{
    Ok(IdlValue::Number(take_ulong(reader)?))
}

#[tactic(auto, unfolding(crate::specs::Reading::read))]
fn decode_longlong(reader: &mut Reader<'_>) -> Result<IdlValue, DecodeFault>
    ensures { Gives value_of result reader.new (read (scalar (signed size8)) reader.old) }
{
    Ok(IdlValue::Number(take_longlong(reader)?))
}

#[tactic(auto, unfolding(crate::specs::Reading::read))]
fn decode_ulonglong(reader: &mut Reader<'_>) -> Result<IdlValue, DecodeFault>
    ensures { Gives value_of result reader.new (read (scalar (unsigned size8)) reader.old) }
{
    Ok(IdlValue::Number(take_ulonglong(reader)?))
}

#[tactic(auto, unfolding(crate::specs::Reading::scalar_at, crate::specs::Reading::read))]
fn decode_label(labels: &List<Text>, reader: &mut Reader<'_>) -> Result<IdlValue, DecodeFault>
    ensures { (name : Name) → Gives value_of result reader.new (read (scalar (enumeration name labels.now.items)) reader.old) }
{
    Ok(IdlValue::Label(take_enumerator(labels.len(), reader)?))
}

#[tactic(auto, unfolding(crate::specs::Reading::read))]
fn decode_words(alloc: Global, bound: u32, reader: &mut Reader<'_>) -> Result<IdlValue, DecodeFault>
    ensures { Gives value_of result reader.new (read (words bound) reader.old) }
{
    let bytes = take_text(bound, reader)?;
    match Text::new(alloc, bytes) {
        Ok(text) => Ok(IdlValue::Words(text)),
        Err(_) => Err(DecodeFault::NoMemory),
    }
}

/// Takes a string within its bound; OverBound is at the place of its length.
#[tactic(auto, using(crate::proofs::Places::behind_text), unfolding(crate::specs::Reading::text_at))]
fn take_text<'a>(bound: u32, reader: &mut Reader<'a>) -> Result<&'a [u8], DecodeFault>
    ensures { Gives (λ bytes. bytes.now) result reader.new (text_at bound reader.old) }
{
    let bytes = reader.take_string()?;
    if bound != 0 && bytes.len() > bound as usize {
        return Err(DecodeFault::Cdr(CdrFault {
            cause: CdrCause::OverBound,
            place: reader.place() - (bytes.len() + 5),
        }));
    }
    Ok(bytes)
}

/// Takes the count of a sequence within its bound; OverBound is at the place of the count.
#[tactic(auto, using(crate::proofs::Places::behind_number), unfolding(crate::specs::Reading::bounded_count_at))]
fn take_bounded_count(bound: u32, reader: &mut Reader<'_>) -> Result<u32, DecodeFault>
    ensures { Gives (λ n. n) result reader.new (bounded_count_at bound reader.old) }
{
    let n = reader.take_count()?;
    if bound != 0 && n > bound {
        return Err(DecodeFault::Cdr(CdrFault {
            cause: CdrCause::OverBound,
            place: reader.place() - 4,
        }));
    }
    Ok(n)
}

#[cycle(decode_here)]
#[tactic(auto, unfolding(crate::specs::Reading::read))]
fn decode_sequence(
    alloc: Global,
    element: &IdlType,
    bound: u32,
    reader: &mut Reader<'_>,
) -> Result<IdlValue, DecodeFault>
    ensures { Gives value_of result reader.new (read (sequence (kind_of element.now) bound) reader.old) }
{
    let n = take_bounded_count(bound, reader)?;
    Ok(IdlValue::Items(decode_times(alloc, element, n, reader)?))
}

#[cycle(decode_here)]
#[tactic(auto, unfolding(crate::specs::Reading::read))]
fn decode_array(
    alloc: Global,
    element: &IdlType,
    len: u32,
    reader: &mut Reader<'_>,
) -> Result<IdlValue, DecodeFault>
    ensures { Gives value_of result reader.new (read (array (kind_of element.now) len) reader.old) }
{
    Ok(IdlValue::Items(decode_times(alloc, element, len, reader)?))
}

#[cycle(decode_here)]
#[tactic(auto, unfolding(crate::specs::Reading::read))]
fn decode_struct(
    alloc: Global,
    members: &[Member],
    reader: &mut Reader<'_>,
) -> Result<IdlValue, DecodeFault>
    ensures { (name : Name) → Gives value_of result reader.new (read (structure name (members_of (members_view members.now))) reader.old) }
{
    Ok(IdlValue::Items(decode_members(alloc, members, reader)?))
}

#[cycle(decode_here)]
fn decode_times(
    alloc: Global,
    kind: &IdlType,
    n: u32,
    reader: &mut Reader<'_>,
) -> Result<Vec<IdlValue>, DecodeFault>
    ensures { Gives (λ v. values_view v.items) result reader.new (times (read (kind_of kind.now)) n reader.old) }
{
    let mut values = Vec::new(alloc);
    for _ in 0..n {
        values.push(decode_here(alloc, kind, reader)?)?;
    }
    Ok(values)
}

#[cycle(decode_here)]
fn decode_members(
    alloc: Global,
    members: &[Member],
    reader: &mut Reader<'_>,
) -> Result<Vec<IdlValue>, DecodeFault>
    ensures { Gives (λ v. values_view v.items) result reader.new (read_members (members_of (members_view members.now)) reader.old) }
{
    let mut values = Vec::new(alloc);
    for member in members {
        values.push(decode_here(alloc, &member.kind, reader)?)?;
    }
    Ok(values)
}

#[cycle(decode_here)]
#[tactic(auto, using(crate::proofs::Members::chosen_read, crate::proofs::Members::chosen_fails, crate::proofs::Members::tag_fails))]
fn decode_union(
    alloc: Global,
    cases: &[Case],
    tag: &IdlType,
    reader: &mut Reader<'_>,
) -> Result<IdlValue, DecodeFault>
    ensures { (name : Name) → Gives value_of result reader.new (read (union name (kind_of tag.now) (cases_of (cases_view cases.now))) reader.old) }
{
    let number = take_number(tag, reader)?;
    let member = decode_chosen(alloc, chosen_case(number, cases), cases, reader)?;
    match member {
        None => Ok(without_member(number)),
        Some(member) => Ok(with_member(alloc, number, member)?),
    }
}

#[cycle(decode_here)]
#[tactic(auto, unfolding(crate::specs::Reading::read_chosen))]
fn decode_chosen(
    alloc: Global,
    index: Option<usize>,
    cases: &[Case],
    reader: &mut Reader<'_>,
) -> Result<Option<IdlValue>, DecodeFault>
    ensures { Gives member_view result reader.new (read_chosen (cases_of (cases_view cases.now)) index reader.old) }
{
    match index {
        None => Ok(None),
        Some(index) => decode_case(alloc, index, cases, reader),
    }
}

#[cycle(decode_here)]
fn decode_case(
    alloc: Global,
    index: usize,
    cases: &[Case],
    reader: &mut Reader<'_>,
) -> Result<Option<IdlValue>, DecodeFault>
    ensures { Gives member_view result reader.new (read_chosen (cases_of (cases_view cases.now)) (Some index) reader.old) }
{
    let mut left = index;
    for case in cases {
        if left == 0 {
            return Ok(Some(decode_here(alloc, &case.member.kind, reader)?));
        }
        left -= 1;
    }
    Ok(None)
}
