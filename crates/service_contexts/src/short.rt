//! Priorities as shorts.
ghost use Rattle.std.specs.Prelude.{◌≡◌};
ghost use Rattle.std.specs.Int.{w16};
ghost use Rattle.cdr_core.specs.Field.{number_bytes};

use cdr_core::bytes_of_u16;
use orb_base::{Order, Priority};

/// The short's bytes in this order.
pub fn short_bytes(order: Order, priority: Priority) -> [u8; 2]
    ensures { result ≡ number_bytes order w16 priority }
{
    bytes_of_u16(order, priority.level())
}
