//! Bodies of replies, as they are read.
ghost use Rattle.std.specs.Prelude.{◌<◌};

use orb_base::Order;

/// What is left of a reply's body, and the place of its first byte modulo 8.
#[derive(Drop)]
pub(crate) struct Body<'a> {
    pub order: Order,
    pub place: usize,
    pub rest: &'a [u8],
    ghost within: { place < 8 },
}
