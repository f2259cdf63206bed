//! The seats that are split from the first one.
ghost use Rattle.std.specs.Prelude.{◌≡◌};
ghost use Rattle.flat_seats.specs.Flat.{flat};

/// The number of the seat that is split as the k-th from seat n, k from 0, where the first seat has the heirs 1 to `most` and
/// no other seat has any. Takes no memory.
pub fn flat_heir(most: u32, n: u32, k: u32) -> Option<u32>
    ensures { result ≡ flat most n k }
{
    if n == 0 && k < most {
        Some(k + 1)
    } else {
        None
    }
}
