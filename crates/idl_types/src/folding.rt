//! Ids without regard to case.
ghost use Rattle.std.specs.Prelude.{◌≡◌, IfOk, take, codes};
ghost use Rattle.std.specs.Str.{str_to_ascii_lowercase, str_eq_ignore_ascii_case};
ghost use Rattle.idl_types.specs.Sound.{is_reserved};

use orb_base::{NoMemory, Text};
use std::alloc::Global;

/// The id in lower case.
pub(crate) fn folded_id(alloc: Global, id: &Text) -> Result<Vec<u8>, NoMemory>
    ensures { IfOk result (λ v. v.items ≡ str_to_ascii_lowercase id.now) }
{
    let mut low = Vec::new(alloc);
    for byte in id.as_slice() {
        low.push(byte.to_ascii_lowercase())?;
    }
    Ok(low)
}

/// Whether two names are the same, case aside.
pub(crate) fn is_same_name(one: &Text, other: &[u8]) -> bool
    ensures { result ≡ str_eq_ignore_ascii_case one.now other.now }
{
    is_same(one.as_slice(), other)
}

/// Whether an id is in the module Orb, or is that module's, case aside.
pub(crate) fn is_reserved_id(id: &Text) -> bool
    ensures { result ≡ is_reserved id.now }
{
    if is_in_orb(id.as_slice()) {
        return true;
    }
    is_same_name(id, b"IDL:Orb:1.0".as_slice())
}

fn is_in_orb(id: &[u8]) -> bool
    ensures { result ≡ str_eq_ignore_ascii_case (take 8 id.now) (codes "IDL:Orb/") }
{
    is_same(front_of(id), b"IDL:Orb/".as_slice())
}

/// Whether two names are the same, case aside.
fn is_same(one: &[u8], other: &[u8]) -> bool
    ensures { result ≡ str_eq_ignore_ascii_case one.now other.now }
{
    one.eq_ignore_ascii_case(other)
}

/// The first eight bytes, or all where there are fewer.
fn front_of(id: &[u8]) -> &[u8]
    ensures { result.now ≡ take 8 id.now }
{
    if id.len() < 8 {
        return id;
    }
    &id[..8]
}
