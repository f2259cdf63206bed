//! Bands of which no two share a priority.
ghost use Rattle.std.specs.Prelude.{◌≡◌, ◌&&◌, ◌<◌, true, nat_le, length, IfOk, IfErr, IfSome, is_ok};
ghost use Rattle.std.specs.List.{list_any};
ghost use Rattle.orb_base.specs.Apart as Apart;
ghost use Rattle.banded_links.specs.Bands as Spec;

use orb_base::{Band, List, Priority};
use std::marker::Model;

/// The bands of an object, of which no two share a priority; there may be none. Contracts see them as their list.
#[derive(Debug, Drop)]
pub struct Bands {
    list: List<Band>,
}

impl Model for Bands {
    ghost use Rattle.std.specs.Prelude.{◌≡◌, true, List};
    ghost use Rattle.orb_base.specs.Span.{Span};
    ghost use Rattle.orb_base.specs.Apart as Apart;

    ghost Value = { List Span };

    ghost view = { λ b. b.list.items };

    ghost invariant = { λ b. Apart.are_apart b.list.items ≡ true };
}

impl Bands {
    /// The bands of a list. It is handed back exactly where two of them share a priority. For n bands work grows with n * n.
    pub fn new(list: List<Band>) -> Result<Bands, List<Band>>
        ensures apart { is_ok result ≡ Apart.are_apart list.items }
        ensures bands { IfOk result (λ bands. bands ≡ list.items) }
        ensures back { IfErr result (λ back. back ≡ list) }
    {
        if !are_apart(list.as_slice()) {
            return Err(list);
        }
        Ok(Bands { list })
    }

    /// The place from 0 of the band that holds the priority. None exactly where no band holds it. One pass over the bands.
    pub fn choose(&self, p: Priority) -> Option<usize>
        ensures place { result ≡ Spec.place_of p self.now }
        ensures within { IfSome result (λ at. at < length self.now) }
    {
        self.list
            .as_slice()
            .iter()
            .position(|band| has_priority(band, p))
    }

    /// The bands in order.
    pub fn as_slice(&self) -> &[Band]
        ensures bands { result.now ≡ self.now }
        ensures apart { Apart.are_apart self.now ≡ true }
    {
        self.list.as_slice()
    }
}

/// Whether the priority lies in the band.
fn has_priority(band: &Band, p: Priority) -> bool
    ensures { result ≡ Spec.holds p band.now }
{
    band.low() <= p && p <= band.high()
}

/// Whether no two of the bands share a priority.
fn are_apart(bands: &[Band]) -> bool
    ensures { result ≡ Apart.are_apart bands.now }
{
    for (at, band) in bands.iter().enumerate() {
        if shares_with_one(band, &bands[at + 1..]) {
            return false;
        }
    }
    true
}

/// Whether a band shares a priority with one of these.
fn shares_with_one(band: &Band, others: &[Band]) -> bool
    ensures { result ≡ list_any (Apart.overlap band.now) others.now }
{
    others.iter().any(|other| share(band, other))
}

/// Whether two bands share a priority.
fn share(a: &Band, b: &Band) -> bool
    ensures { result ≡ (nat_le a.now.low b.now.high && nat_le b.now.low a.now.high) }
{
    a.low() <= b.high() && b.low() <= a.high()
}
