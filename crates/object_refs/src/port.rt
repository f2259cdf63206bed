//! Ports of object URLs.
ghost use Rattle.std.specs.Prelude.{◌≡◌, ◌<◌, ◌==◌, ℕ, List, IfSome, length, position, option_map};
ghost use Rattle.std.specs.Char.{is_ascii_digit};
ghost use Rattle.std.specs.List.{list_all};
ghost use Rattle.object_refs.specs.Answers.{Answers};
ghost use Rattle.object_refs.specs.Locations.{slash};
ghost use Rattle.object_refs.specs.LocationReading.{port_at, port_number, port_of, port_of_len};

use crate::fault::{RefCause, RefError, refused_at};

/// The port where none is named: CORBA 3.0.3, section 13.6.10.
const DEFAULT_PORT: u16 = 2809;

/// The most digits of a port, own profile.
const MAX_DIGITS: usize = 5;

/// Whether each byte is a decimal digit.
fn are_digits(bytes: &[u8]) -> bool
    ensures { result ≡ list_all is_ascii_digit bytes.now }
{
    bytes.iter().all(|byte| byte.is_ascii_digit())
}

/// The port of so many decimal digits at most, 1 to 65535. None where they are more, where another byte is among them, and where their
/// number is 0 or above 65535; zeros may come before. It takes time in the number of digits, and no memory.
#[tactic(auto, unfolding(crate::specs::LocationReading::port_number))]
pub fn port_number(digits: &[u8], most: usize) -> Option<u16>
    ensures { result ≡ port_number most digits.now }
{
    if digits.len() > most || !are_digits(digits) {
        return None;
    }
    let Ok(text) = std::str::from_utf8(digits) else {
        return None;
    };
    match text.parse::<u16>() {
        Ok(port) if port > 0 => Some(port),
        _ => None,
    }
}

/// How many bytes are before the first slash.
fn slash_at(text: &[u8]) -> Option<usize>
    ensures found { result ≡ position (λ byte. byte == slash) text.now }
    ensures within { IfSome result (λ len. len < length text.now) }
{
    text.iter().position(|byte| *byte == b'/')
}

/// The port of so many digits, and what is after the byte that ends them.
#[tactic(auto, unfolding(crate::specs::LocationReading::port_of_len))]
fn port_of_len(text: &[u8], len: usize) -> Option<(u16, &[u8])>
    requires { len < length text.now }
    ensures { option_map {U = ℕ × List ℕ} (λ x. (x.0, x.1.now)) result ≡ port_of_len text.now len }
{
    let port = port_number(&text[..len], MAX_DIGITS)?;
    Some((port, &text[len + 1..]))
}

/// A port, and what is after its slash.
#[tactic(auto, unfolding(crate::specs::LocationReading::port_of))]
fn port_of(text: &[u8]) -> Option<(u16, &[u8])>
    ensures { option_map {U = ℕ × List ℕ} (λ x. (x.0, x.1.now)) result ≡ port_of text.now }
{
    let len = slash_at(text)?;
    port_of_len(text, len)
}

/// The port after the byte that ended a host, and what is after its slash.
#[tactic(auto, unfolding(crate::specs::LocationReading::port_at))]
pub fn port<'a>(text: &[u8], end: u8, rest: &'a [u8]) -> Result<(u16, &'a [u8]), RefError>
    ensures { Answers {Y = ℕ × List ℕ} (λ x. (x.0, x.1.now)) result (port_at text.now end rest.now) }
{
    if end != b':' {
        return Ok((DEFAULT_PORT, rest));
    }
    match port_of(rest) {
        Some(port) => Ok(port),
        None => Err(refused_at(RefCause::BadPort, text, rest)),
    }
}
