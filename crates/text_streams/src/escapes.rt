//! Octets in a line of text.
ghost use Rattle.std.specs.Prelude.{◌≡◌};
ghost use Rattle.percent_encoding.specs.Iter.{encoded_text};
ghost use Rattle.text_streams.specs.Shown.{shown as shown_lem};

use percent_encoding::{AsciiSet, PercentEncode, percent_encode};

/// The ASCII octets that are not shown as they are: the controls, the blank, `%` and DEL.
const HIDDEN: AsciiSet = AsciiSet {
    mask: 0x1_FFFF_FFFF | 1 << 0x25 | 1 << 0x7F,
};

/// The octets as text, with `%` and two upper-case hexadecimal digits for each that isn't plain. Takes no memory.
pub fn shown(octets: &[u8]) -> PercentEncode<'_>
    ensures { encoded_text result ≡ shown_lem octets.now }
{
    percent_encode(octets, HIDDEN)
}
