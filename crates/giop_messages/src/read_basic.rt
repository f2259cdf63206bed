//! Parts of a message that basic types are: numbers, octets and texts, whose bytes are borrowed.
ghost use Rattle.std.specs.Prelude.{◌≡◌, drop, IfOk};
ghost use Rattle.std.specs.Int.{w8, w16, w32};
ghost use Rattle.orb_base.specs.NulFree.{HasNoNul};
ghost use Rattle.cdr_core.specs.Reading.{number_at, octets_at, string_at};
ghost use Rattle.giop_messages.specs.Answers.{Finds};
ghost use Rattle.giop_messages.specs.MessageReading.{basic, body_from};

use crate::message_fault::MessageFault;
use cdr_core::Reader;

/// Takes an octet.
pub fn u8_at(reader: &mut Reader<'_>) -> Result<u8, MessageFault>
    ensures { Finds (λ n. n) result reader.new (basic (number_at w8 reader.old)) }
{
    Ok(reader.take_u8()?)
}

/// Takes an unsigned short.
pub fn u16_at(reader: &mut Reader<'_>) -> Result<u16, MessageFault>
    ensures { Finds (λ n. n) result reader.new (basic (number_at w16 reader.old)) }
{
    Ok(reader.take_u16()?)
}

/// Takes an unsigned long.
pub fn u32_at(reader: &mut Reader<'_>) -> Result<u32, MessageFault>
    ensures { Finds (λ n. n) result reader.new (basic (number_at w32 reader.old)) }
{
    Ok(reader.take_u32()?)
}

/// Takes an octet sequence, and gives its bytes.
pub fn octets_at<'a>(reader: &mut Reader<'a>) -> Result<&'a [u8], MessageFault>
    ensures { Finds (λ o. o.now) result reader.new (basic (octets_at reader.old)) }
{
    Ok(reader.take_octets()?)
}

/// Takes a string, and gives its bytes without the NUL.
pub fn text_at<'a>(reader: &mut Reader<'a>) -> Result<&'a [u8], MessageFault>
    ensures exact { Finds (λ t. t.now) result reader.new (basic (string_at reader.old)) }
    ensures plain { IfOk result (λ t. HasNoNul t.now) }
{
    Ok(reader.take_string()?)
}

/// The body of a message whose named fields end at the place: the bytes from the next multiple of 8 on.
pub fn body_in(bytes: &[u8], place: usize) -> &[u8]
    ensures { result.now ≡ body_from place bytes.now }
{
    let pad = (8 - place % 8) % 8;
    behind(behind(bytes, place), pad)
}

/// The bytes after so many.
fn behind(bytes: &[u8], len: usize) -> &[u8]
    ensures { result.now ≡ drop len bytes.now }
{
    if bytes.len() < len {
        &[]
    } else {
        &bytes[len..]
    }
}
