//! The search for a key.
ghost use Rattle.std.specs.Prelude.{◌≡◌, ◌<◌, ◌≤◌, length, IsTrue, slice_get};
ghost use Rattle.std.specs.Option.{option_copied, option_map};
ghost use Rattle.std.specs.Str.{bytes_eq};
ghost use Rattle.name_map.specs.Bindings as Map;
ghost use Rattle.name_map.specs.Bindings.{key_of, target_of};
ghost use Rattle.name_map.specs.Keys as Spec;
ghost use Rattle.name_map.specs.Places as at;

use crate::binding::Binding;

/// Whether a key is below another, by their bytes. Takes no memory.
pub(crate) fn is_below(key: &[u8], other: &[u8]) -> bool
    ensures { result ≡ Spec.is_below key.now other.now }
{
    key.cmp(&other).is_lt()
}

/// Whether a binding is of a key.
pub(crate) fn is_same(binding: &Binding, key: &[u8]) -> bool
    ensures { result ≡ bytes_eq binding.now.key key.now }
{
    binding.key.get().as_slice() == key
}

/// Whether a binding's key is below a key.
pub(crate) fn comes_before(binding: &Binding, key: &[u8]) -> bool
    ensures { result ≡ Spec.is_below binding.now.key key.now }
{
    is_below(binding.key.get().as_slice(), key)
}

/// Where a key is, or would be. By halving: compares keys as often as the number of bindings can be halved.
pub(crate) fn place(bindings: &[Binding], key: &[u8]) -> usize
    requires { Map.Rises bindings.now }
    ensures value { result ≡ at.place key.now bindings.now }
    ensures within { result ≤ length bindings.now }
{
    bindings.partition_point(|binding| comes_before(binding, key))
}

/// The binding at an index, where there is one.
fn nth(bindings: &[Binding], index: usize) -> Option<&Binding>
    ensures { option_copied result ≡ slice_get bindings.now index }
{
    bindings.get(index)
}

/// Whether the key is there, whose place is given.
pub(crate) fn is_there(bindings: &[Binding], index: usize, key: &[u8]) -> bool
    requires rises { Map.Rises bindings.now }
    requires place { index ≡ at.place key.now bindings.now }
    ensures value { result ≡ Map.has key.now bindings.now }
    ensures within { IsTrue result → index < length bindings.now }
{
    match nth(bindings, index) {
        Some(binding) => is_same(binding, key),
        None => false,
    }
}

/// The binding of a key.
pub(crate) fn find<'a>(bindings: &'a [Binding], key: &[u8]) -> Option<&'a Binding>
    requires { Map.Rises bindings.now }
    ensures { option_map target_of (option_copied result) ≡ Map.find key.now bindings.now }
{
    let index = place(bindings, key);
    if is_there(bindings, index, key) {
        nth(bindings, index)
    } else {
        None
    }
}

/// The binding of the least key above a text.
pub(crate) fn next<'a>(bindings: &'a [Binding], after: &[u8]) -> Option<&'a Binding>
    requires { Map.Rises bindings.now }
    ensures { option_map key_of (option_copied result) ≡ Map.above after.now bindings.now }
{
    let index = place(bindings, after);
    if is_there(bindings, index, after) {
        nth(bindings, index + 1)
    } else {
        nth(bindings, index)
    }
}
