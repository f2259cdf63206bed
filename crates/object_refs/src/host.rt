//! Hosts of object URLs.
ghost use Rattle.std.specs.Prelude.{◌≡◌, ◌<◌, ℕ, List, IfSome, length, position, option_map};
ghost use Rattle.object_refs.specs.Answers.{Answers};
ghost use Rattle.object_refs.specs.Locations.{ends_host};
ghost use Rattle.object_refs.specs.LocationReading.{part, host_of, host_of_len};
ghost use Rattle.object_refs.specs.declared.fault.RefCause.TheVariants.{BadHost};

use crate::fault::{RefCause, RefError, refused_at};

/// The most bytes of a host: the longest name of a domain, own profile.
const MAX_HOST: usize = 255;

/// Whether the byte may not be in a host.
fn ends_host(byte: u8) -> bool
    ensures { result ≡ ends_host byte }
{
    matches!(byte, b':' | b'/' | b',' | b'[' | 0)
}

/// How many bytes are before the first that may not be in a host.
fn host_len(text: &[u8]) -> Option<usize>
    ensures found { result ≡ position ends_host text.now }
    ensures within { IfSome result (λ len. len < length text.now) }
{
    text.iter().position(|byte| ends_host(*byte))
}

/// A host of so many bytes, the byte after it, and what is after that.
#[tactic(auto, unfolding(crate::specs::LocationReading::host_of_len))]
fn host_of_len(text: &[u8], len: usize) -> Option<(&[u8], u8, &[u8])>
    requires { len < length text.now }
    ensures { option_map {U = List ℕ × ℕ × List ℕ} (λ x. (x.0.now, x.1, x.2.now)) result
        ≡ host_of_len text.now len }
{
    let end = text[len];
    if 0 < len && len <= MAX_HOST && (end == b':' || end == b'/') {
        Some((&text[..len], end, &text[len + 1..]))
    } else {
        None
    }
}

/// A host, the byte that ends it, and what is after that.
#[tactic(auto, unfolding(crate::specs::LocationReading::host_of))]
fn host_of(text: &[u8]) -> Option<(&[u8], u8, &[u8])>
    ensures { option_map {U = List ℕ × ℕ × List ℕ} (λ x. (x.0.now, x.1, x.2.now)) result ≡ host_of text.now }
{
    let len = host_len(text)?;
    host_of_len(text, len)
}

/// The host at the front of an address, the colon or slash that ends it, and what is after that.
pub fn host<'a>(text: &[u8], address: &'a [u8]) -> Result<(&'a [u8], u8, &'a [u8]), RefError>
    ensures { Answers {Y = List ℕ × ℕ × List ℕ} (λ x. (x.0.now, x.1, x.2.now)) result
        (part BadHost text.now address.now (host_of address.now)) }
{
    match host_of(address) {
        Some(host) => Ok(host),
        None => Err(refused_at(RefCause::BadHost, text, address)),
    }
}
