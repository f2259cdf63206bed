//! Bands that share no priority.
ghost use Rattle.std.specs.Prelude.{◌≡◌, IfOk, All};
ghost use Rattle.orb_base.specs.Apart.{IsOrdered, are_apart as are_apart_lem, climb as climb_lem};

use crate::band::Band;
use crate::no_memory::NoMemory;
use std::alloc::Global;

/// Whether no two of the bands share a priority. Copies them once and sorts the copy: for n bands work grows with
/// n log n.
pub fn are_apart(alloc: Global, bands: &[Band]) -> Result<bool, NoMemory>
    ensures { IfOk result (λ apart. apart ≡ are_apart_lem bands.now) }
{
    see_ordered(bands);
    let mut sorted = Vec::from_slice(alloc, bands)?;
    sorted.sort_unstable_by_key(|band| band.low().level());
    Ok(climb(sorted.as_slice()))
}

/// Shows of each band that its low end isn't above its high one, as of one band `low` does.
fn see_ordered(bands: &[Band])
    ensures { All IsOrdered bands.now }
{
    for band in bands {
        band.low();
    }
}

/// Whether each band ends below the next one.
fn climb(bands: &[Band]) -> bool
    ensures { result ≡ climb_lem bands.now }
{
    for at in 1..bands.len() {
        if bands[at].low() <= bands[at - 1].high() {
            return false;
        }
    }
    true
}
