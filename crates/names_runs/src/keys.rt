//! How many keys a map holds.
ghost use Rattle.std.specs.Prelude.{◌≡◌, length};

use name_map::{NamesCall, NamesCell, NamesReply};
use std::sync::Wait;

/// How many keys a map holds: asks the map itself, and again where it is out of memory, which a call of its size never is.
pub fn count_keys<R: Wait>(rt: &R, map: NamesCell) -> u32
    ensures { result ≡ length map }
{
    let mut map = map;
    for _ in rt.forever() {
        if let Ok((NamesReply::Count(keys), _)) = map.apply(&NamesCall::Size) {
            return keys;
        }
    }
    unreachable!()
}
