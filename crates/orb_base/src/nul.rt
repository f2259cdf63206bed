//! The search for a NUL.
ghost use Rattle.std.specs.Prelude.{◌≡◌, ◌<◌, length, IfSome};
ghost use Rattle.orb_base.specs.NulFree.{nul_at};

use memchr::memchr;

/// The index of the first NUL of some bytes. One pass over the bytes, many at a time; takes no memory.
#[tactic(auto, using(crate::proofs::Nuls::first_place))]
pub fn first_nul(bytes: &[u8]) -> Option<usize>
    ensures found { result ≡ nul_at bytes.now }
    ensures within { IfSome result (λ at. at < length bytes.now) }
{
    memchr(0, bytes)
}
