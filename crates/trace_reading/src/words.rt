//! The parts of a line, and the numbers that they are.
ghost use Rattle.std.specs.Prelude.{◌≡◌, ◌<◌, ◌≤◌, map, length, slice_index, IfSome, option_map, position};
ghost use Rattle.std.specs.Char.{is_ascii_digit};
ghost use Rattle.std.specs.List.{list_all};
ghost use Rattle.trace_reading.specs.Words as Spec;

use arrayvec::ArrayVec;
use orb_base::Priority;

/// More parts than any line has.
pub const MAX_PARTS: usize = 12;

/// The first byte of a word.
fn first_of(word: &[u8]) -> u8
    ensures { result ≡ slice_index word.now 0 }
{
    match word {
        [] => 0,
        [first, ..] => *first,
    }
}

/// Whether digits of this first one, and of so many, have no zero in front.
fn is_plain(first: u8, len: usize) -> bool
    ensures { result ≡ Spec.is_plain first len }
{
    len > 0 && (first != b'0' || len == 1)
}

/// Whether each byte is a decimal digit.
fn are_digits(word: &[u8]) -> bool
    ensures { result ≡ list_all is_ascii_digit word.now }
{
    word.iter().all(|b| b.is_ascii_digit())
}

/// Whether a word is the digits of a number, without a zero in front.
fn is_numeral(word: &[u8]) -> bool
    ensures { result ≡ Spec.is_numeral word.now }
{
    is_plain(first_of(word), word.len()) && are_digits(word)
}

/// The number of a word, where it is below this bound: decimal, without a zero in front. None for any other word. Work grows with the
/// word; it takes no memory.
#[tactic(auto, unfolding(crate::specs::Words::number_in))]
pub fn number(word: &[u8], below: u64) -> Option<u64>
    ensures value { result ≡ Spec.number_in below word.now }
    ensures small { IfSome result (λ n. n < below) }
{
    if !is_numeral(word) {
        return None;
    }
    let Ok(text) = std::str::from_utf8(word) else {
        return None;
    };
    match text.parse::<u64>() {
        Ok(n) if n < below => Some(n),
        _ => None,
    }
}

/// The number of a byte.
pub fn small_number(word: &[u8]) -> Option<u8>
    ensures { result ≡ Spec.number_in 256 word.now }
{
    let n = number(word, 256)?;
    Some(n as u8)
}

/// The number of an unsigned long.
pub fn long_number(word: &[u8]) -> Option<u32>
    ensures { result ≡ Spec.number_in 4294967296 word.now }
{
    let n = number(word, 4_294_967_296)?;
    Some(n as u32)
}

/// The number of a request, or the length of a body, which fits an unsigned long.
pub fn count_number(word: &[u8]) -> Option<usize>
    ensures { result ≡ Spec.number_in 4294967296 word.now }
{
    let n = number(word, 4_294_967_296)?;
    Some(n as usize)
}

/// A priority.
pub fn priority_number(word: &[u8]) -> Option<Priority>
    ensures { result ≡ Spec.number_in 32768 word.now }
{
    let n = number(word, 32_768)?;
    Priority::new(n as i16)
}

/// A truth value, 0 or 1.
pub fn flag_number(word: &[u8]) -> Option<bool>
    ensures { result ≡ Spec.flag_in word.now }
{
    let n = number(word, 2)?;
    Some(n == 1)
}

/// Where the first byte of this value is.
fn place_of(text: &[u8], by: u8) -> Option<usize>
    ensures at { result ≡ position (Spec.is_byte by) text.now }
    ensures within { IfSome result (λ n. n < length text.now) }
{
    text.iter().position(|b| *b == by)
}

/// The parts of a text between bytes of this value. None where they are more than any line has. Work grows with the text, up to as many
/// parts; it takes no memory.
pub fn parts_of(text: &[u8], by: u8) -> Option<ArrayVec<&[u8], MAX_PARTS>>
    ensures { option_map (λ parts. map (λ part. part.now) parts.items) result ≡ Spec.parts_in by text.now }
{
    let mut parts = ArrayVec::new();
    let mut rest = text;
    while let Some(n) = place_of(rest, by) {
        if parts.is_full() {
            return None;
        }
        let (part, after) = rest.split_at(n);
        parts.push(part);
        let (_, after) = after.split_at(1);
        rest = after;
    }
    if parts.is_full() {
        return None;
    }
    parts.push(rest);
    Some(parts)
}
