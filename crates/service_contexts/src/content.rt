//! The contents of the service contexts that carry priorities.
ghost use Rattle.std.specs.Prelude.{◌≡◌};
ghost use Rattle.cdr_core.specs.Encapsulation.{encapsulation};
ghost use Rattle.service_contexts.specs.Layout.{priority_fields, band_fields};

use crate::short::short_bytes;
use orb_base::{Band, Order, Priority};

/// The content of a context RTCorbaPriority: the encapsulation of the priority as a short. Takes no memory.
pub fn priority_context(order: Order, priority: Priority) -> [u8; 4]
    ensures { result ≡ encapsulation order (priority_fields priority) }
{
    let [a, b] = short_bytes(order, priority);
    [order as u8, 0, a, b]
}

/// The content of a context RTCorbaPriorityRange: the encapsulation of the low and the high end as shorts. Takes no
/// memory.
pub fn range_context(order: Order, band: Band) -> [u8; 6]
    ensures { result ≡ encapsulation order (band_fields band) }
{
    let [a, b] = short_bytes(order, band.low());
    let [c, d] = short_bytes(order, band.high());
    [order as u8, 0, a, b, c, d]
}
