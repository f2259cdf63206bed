//! What is between quotes.
ghost use Rattle.std.specs.Prelude.{◌≡◌};
ghost use Rattle.idl_tokens.specs.Quotes as Spec;

/// The bytes of a literal without the quotes around them, and none of one that is shorter than two. Constant cost.
pub fn unquoted(text: &[u8]) -> &[u8]
    ensures { result.now ≡ Spec.unquoted text.now }
{
    match text {
        [_, inner @ .., _] => inner,
        _ => b"".as_slice(),
    }
}
