//! Addresses on a command line.
ghost use Rattle.std.specs.Prelude.{◌≡◌, ◌<◌, ◌≤◌, ◌==◌, IfOk, OnErr, IfSome, IsSome, length, position};
ghost use Rattle.object_lines.specs.Addresses as Spec;

use object_refs::port_number;
use orb_base::{NoMemory, Text, TextFault};
use std::alloc::Global;
use std::marker::Model;

/// The most bytes of a host: the longest name of a domain, own profile.
const MAX_HOST: usize = 255;

/// The most digits of a port, own profile.
const MAX_DIGITS: usize = 10;

/// Where objects are reached.
#[derive(Drop)]
pub struct Address {
    /// A host's name or address, of 1 to 255 bytes, none of them a colon.
    pub host: Text,
    /// The port, 1 to 65535.
    pub port: u16,
}

impl Model for Address {
    ghost use Rattle.std.specs.Prelude.{◌≤◌, length};
    ghost use Rattle.object_lines.specs.Addresses.{Place};

    ghost Value = { Place };

    ghost view = { λ a. record { host = a.host; port = a.port } };

    ghost invariant = { λ a. length a.host ≤ 255 };
}

/// How many bytes are before the first colon.
fn colon_at(word: &[u8]) -> Option<usize>
    ensures found { result ≡ position (λ byte. byte == Spec.colon) word.now }
    ensures within { IfSome result (λ len. len < length word.now) }
{
    word.iter().position(|byte| *byte == b':')
}

/// The text of a host. None where it has no byte, too many, or a NUL.
#[tactic(auto, unfolding(crate::specs::Addresses::host_of))]
fn host_of(alloc: Global, host: &[u8]) -> Result<Option<Text>, NoMemory>
    ensures value { IfOk result (λ found. found ≡ Spec.host_of host.now) }
    ensures only { OnErr result (IsSome (Spec.host_of host.now)) }
    ensures short { IfOk result (λ found. IfSome found (λ text. length text ≤ 255)) }
{
    if host.is_empty() || host.len() > MAX_HOST {
        return Ok(None);
    }
    match Text::new(alloc, host) {
        Ok(text) => Ok(Some(text)),
        Err(TextFault::Nul(_)) => Ok(None),
        Err(TextFault::NoMemory) => Err(NoMemory),
    }
}

/// The address of a host of so many bytes.
#[tactic(auto, unfolding(crate::specs::Addresses::address_at))]
fn address_at(alloc: Global, word: &[u8], len: usize) -> Result<Option<Address>, NoMemory>
    requires { len < length word.now }
    ensures value { IfOk result (λ found. found ≡ Spec.address_at word.now len) }
    ensures only { OnErr result (IsSome (Spec.address_at word.now len)) }
{
    let Some(port) = port_number(&word[len + 1..], MAX_DIGITS) else {
        return Ok(None);
    };
    match host_of(alloc, &word[..len])? {
        Some(host) => Ok(Some(Address { host, port })),
        None => Ok(None),
    }
}

/// The address that a word is, HOST:PORT: a host of 1 to 255 bytes without a colon, and a port of 1 to 10 decimal digits, which is
/// 1 to 65535. None exactly where the word is none.
#[tactic(auto, unfolding(crate::specs::Addresses::address_of))]
pub fn read_address(alloc: Global, word: &[u8]) -> Result<Option<Address>, NoMemory>
    // The address, where memory is there.
    ensures value { IfOk result (λ found. found ≡ Spec.address_of word.now) }
    // Memory is asked for an address alone.
    ensures only { OnErr result (IsSome (Spec.address_of word.now)) }
{
    match colon_at(word) {
        Some(len) => address_at(alloc, word, len),
        None => Ok(None),
    }
}
