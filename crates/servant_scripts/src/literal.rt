//! Literals.
ghost use Rattle.std.specs.Prelude.{◌≡◌, ◌≤◌, ◌^◌, min};
ghost use Rattle.servant_scripts.specs.Literals as Spec;

/// One more than the greatest number of a script.
const LIMIT: u128 = 1 << 127;

/// The number that digits spell, or 2^127 where it is greater. One pass over them.
fn number(digits: &[u8]) -> u128
    ensures { result ≡ min (Spec.number digits.now) (2 ^ 127) }
{
    let mut n: u128 = 0;
    for c in digits {
        n = n
            .saturating_mul(10)
            .saturating_add(u128::from(c.saturating_sub(48)))
            .min(LIMIT);
    }
    n
}

/// Whether no 0 is before other bytes.
fn is_decimal(text: &[u8]) -> bool
    ensures { result ≡ Spec.is_decimal text.now }
{
    match text {
        [first, rest @ ..] => *first != b'0' || rest.is_empty(),
        [] => false,
    }
}

/// The number of an integer literal. None where it isn't decimal, or not below 2^127.
pub fn literal_of(text: &[u8]) -> Option<i128>
    ensures { result ≡ Spec.literal_of text.now }
{
    if !is_decimal(text) {
        return None;
    }
    let n = number(text);
    if n < LIMIT { Some(n as i128) } else { None }
}
