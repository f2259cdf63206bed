//! Numbers in words.
ghost use Rattle.std.specs.Prelude.{◌≡◌};
ghost use Rattle.std.specs.Char.{is_ascii_digit};
ghost use Rattle.std.specs.List.{list_all};
ghost use Rattle.command_options.specs.Numbers as Spec;

/// The most digits of a number in a word. Own profile.
pub const MAX_DIGITS: usize = 10;

/// Whether each byte is a decimal digit.
fn are_digits(bytes: &[u8]) -> bool
    ensures { result ≡ list_all is_ascii_digit bytes.now }
{
    bytes.iter().all(|byte| byte.is_ascii_digit())
}

/// The number that the word is, 0 to 4,294,967,295 in 1 to 10 decimal digits; zeros may come before. None where the word is no such
/// number. Own profile. Takes no memory.
#[tactic(auto, unfolding(crate::specs::Numbers::number_of))]
pub fn number_of(word: &str) -> Option<u32>
    ensures { result ≡ Spec.number_of word.now }
{
    if word.len() > MAX_DIGITS || !are_digits(word.as_bytes()) {
        return None;
    }
    match word.parse::<u32>() {
        Ok(number) => Some(number),
        Err(_) => None,
    }
}
