//! Words that hold a NUL.
ghost use Rattle.std.specs.Prelude.{◌≡◌, is_some, map};
ghost use Rattle.orb_base.specs.NulFree.{nul_at};
ghost use Rattle.command_options.specs.Nul as Spec;

use orb_base::first_nul;
use std::convert::AsStr;

/// Whether a word holds a NUL.
fn holds_nul(word: &str) -> bool
    ensures { result ≡ is_some (nul_at word.now) }
{
    first_nul(word.as_bytes()).is_some()
}

/// Whether one of the words holds a NUL, which no word of a command line may. Own profile. Work grows with the length of the words; takes
/// no memory.
pub fn has_nul<S: AsStr>(words: &[S]) -> bool
    ensures { result ≡ Spec.has_nul (map S.text words.now) }
{
    for word in words {
        if holds_nul(word.as_str()) {
            return true;
        }
    }
    false
}
