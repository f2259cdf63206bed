//! Literals: CORBA 3.0.3, section 3.2.5.
ghost use Rattle.std.specs.Prelude.{◌≡◌, ◌≤◌, ◌*◌, ◌^◌, min, slice_index};
ghost use Rattle.idl_constants.specs.Literals as Spec;

/// The base of a number.
#[derive(Clone, Copy, Debug, PartialEq, Eq)]
enum Base {
    Eight,
    Ten,
    Sixteen,
}

/// A number times its base.
fn times(base: Base, n: u128) -> u128
    requires { n ≤ 2 ^ 64 }
    ensures value { result ≡ n * Spec.base_of base }
    ensures within { result ≤ 2 ^ 68 }
{
    match base {
        Base::Eight => n * 8,
        Base::Ten => n * 10,
        Base::Sixteen => n * 16,
    }
}

/// What a digit stands for, decimal or hexadecimal.
fn digit(c: u8) -> u8
    ensures { result ≡ Spec.digit c }
{
    if c < 58 {
        c.saturating_sub(48)
    } else if c < 91 {
        c - 55
    } else {
        c - 87
    }
}

/// The number that digits spell, or 2^64 where it is greater.
fn number(base: Base, digits: &[u8]) -> u128
    ensures { result ≡ min (Spec.number (Spec.base_of base) digits.now) (2 ^ 64) }
{
    let mut n: u128 = 0;
    for c in digits {
        n = (times(base, n) + u128::from(digit(*c))).min(1 << 64);
    }
    n
}

/// The number that a literal spells: decimal, octal after a 0, hexadecimal after `0x`. One above 64 bits is 2^64, which
/// fits no type. One pass over the literal.
pub fn integer_of(text: &[u8]) -> u128
    ensures { result ≡ min (Spec.integer_of text.now) (2 ^ 64) }
{
    match text {
        [b'0', b'x', digits @ ..] => number(Base::Sixteen, digits),
        [b'0', digits @ ..] => number(Base::Eight, digits),
        digits => number(Base::Ten, digits),
    }
}

/// The byte of a character between its quotes.
pub fn character_of(text: &[u8]) -> u8
    ensures { result ≡ slice_index text.now 1 }
{
    text.get(1).copied().unwrap_or(0)
}
