//! Linear maps.
//!
//! The CORBA priorities are places from 0, and so are the native ones. The place of a CORBA priority times the count
//! of natives, divided by the count of CORBA priorities and rounded down, is the place of its native one: its share.
ghost use Rattle.std.specs.Prelude.{◌≡◌, ◌≤◌, ◌<◌, ◌+◌, ◌-◌, ◌^◌, ◌<ℤ◌, ◌≤ℤ◌, ◌+ℤ◌, ◌⊎◌, ◌↔◌, pos, MatchOption, Some, IsSome, IfSome};
ghost use Rattle.priority_maps.specs.Linear.{identity, linear_native, natives, corbas, share};
ghost use Rattle.priority_maps.specs.Least.{FindsLeast, FindsPlace};

use crate::level::{at_level, level_of};
use orb_base::{Band, Priority};
use std::marker::Model;

/// A linear map of a band of CORBA priorities onto a range of native ones.
#[derive(Clone, Copy, Debug)]
pub struct Linear {
    low: u16,
    high: u16,
    native_low: i32,
    native_high: i32,
}

impl Model for Linear {
    ghost use Rattle.std.specs.Prelude.{◌≤◌, ◌<◌, ◌^◌, ◌≤ℤ◌};
    ghost use Rattle.priority_maps.specs.Linear.{LinearMap};

    ghost Value = { LinearMap };

    ghost view = { λ m. record {
      low = m.low;
      high = m.high;
      native_low = m.native_low;
      native_high = m.native_high;
    } };

    ghost invariant = { λ m. (m.low ≤ m.high) × (m.high < 2 ^ 15) × (m.native_low ≤ℤ m.native_high) };

    ghost inverse = { λ m. record {
      low = m.low;
      high = m.high;
      native_low = m.native_low;
      native_high = m.native_high;
    } };
}

impl Linear {
    /// The map of a band onto a range. None exactly where the range's low end is above its high one.
    pub fn new(corba: Band, native_low: i32, native_high: i32) -> Option<Linear>
        ensures none { IsSome result ↔ (native_low ≤ℤ native_high) }
        ensures value { IfSome result (λ m. m ≡ (record {
          low = corba.low;
          high = corba.high;
          native_low = native_low;
          native_high = native_high;
        })) }
    {
        if native_high < native_low {
            return None;
        }
        Some(Linear {
            low: level_of(corba.low()),
            high: level_of(corba.high()),
            native_low,
            native_high,
        })
    }

    /// The map of all CORBA priorities onto the same numbers.
    pub fn identity() -> Linear
        ensures { result ≡ identity }
    {
        Linear {
            low: 0,
            high: 32767,
            native_low: 0,
            native_high: 32767,
        }
    }

    /// The native priority of a CORBA one. Constant work, no memory.
    pub fn to_native(&self, p: Priority) -> Option<i32>
        ensures { result ≡ linear_native self.now p }
    {
        self.native_at(level_of(p))
    }

    fn native_at(&self, p: u16) -> Option<i32>
        ensures { result ≡ linear_native self.now p }
    {
        if p < self.low || self.high < p {
            return None;
        }
        Some((self.native_low as i64 + self.share(p - self.low) as i64) as i32)
    }

    /// The least CORBA priority of a native one. Constant work, no memory.
    #[tactic(auto, using(crate::proofs::Natives::outside))]
    pub fn to_corba(&self, n: i32) -> Option<Priority>
        ensures { FindsLeast (linear_native self.now) n result }
    {
        match self.above_low(n) {
            None => None,
            Some(wanted) => self.at_share(n, wanted),
        }
    }

    /// How many native priorities there are.
    fn natives(&self) -> u64
        ensures count { result ≡ natives self.now }
        ensures some { 0 < result }
        ensures small { result ≤ 2 ^ 32 }
    {
        (self.native_high as i64 - self.native_low as i64).unsigned_abs() + 1
    }

    /// How many CORBA priorities there are.
    fn corbas(&self) -> u64
        ensures count { result ≡ corbas self.now }
        ensures some { 0 < result }
        ensures small { result ≤ 2 ^ 15 }
    {
        (self.high - self.low) as u64 + 1
    }

    /// The share of a place.
    fn share(&self, place: u16) -> u64
        requires { place ≤ self.now.high - self.now.low }
        ensures share { result ≡ share (natives self.now) (corbas self.now) place }
        ensures below { result < natives self.now }
    {
        place as u64 * self.natives() / self.corbas()
    }

    /// The first place with a share.
    #[tactic(auto, using(crate::proofs::Shares::place_high, crate::proofs::Shares::place_off))]
    fn place_of(&self, wanted: u64) -> Option<u16>
        requires { wanted < natives self.now }
        ensures place { FindsPlace (natives self.now) (corbas self.now) wanted result }
        ensures rises { self.now.low ≤ self.now.high }
    {
        let _ = &self.low;
        let natives = self.natives();
        let corbas = self.corbas();
        let place = (wanted * corbas + (natives - 1)) / natives;
        if corbas <= place {
            return None;
        }
        if self.share(place as u16) != wanted {
            return None;
        }
        Some(place as u16)
    }

    /// The least CORBA priority with a share.
    #[tactic(auto, using(crate::proofs::Natives::least_found, crate::proofs::Natives::least_missing))]
    fn at_share(&self, n: i32, wanted: u64) -> Option<Priority>
        requires below { wanted < natives self.now }
        requires same { n ≡ self.now.native_low +ℤ pos wanted }
        ensures { FindsLeast (linear_native self.now) n result }
    {
        match self.place_of(wanted) {
            Some(place) => self.at_place(place),
            None => None,
        }
    }

    /// The priority at a place. It is always there.
    fn at_place(&self, place: u16) -> Option<Priority>
        requires { place < corbas self.now }
        ensures { result ≡ Some (self.now.low + place) }
    {
        at_level(self.low + place)
    }

    /// How far a native priority is above the lowest one, if it is one of the map's.
    fn above_low(&self, n: i32) -> Option<u64>
        ensures cases { MatchOption result ((n <ℤ self.now.native_low) ⊎ (self.now.native_high <ℤ n))
            (λ wanted. (wanted < natives self.now) × (n ≡ self.now.native_low +ℤ pos wanted)) }
        ensures rises { self.now.native_low ≤ℤ self.now.native_high }
    {
        if n < self.native_low {
            return None;
        }
        if self.native_high < n {
            return None;
        }
        Some((n as i64 - self.native_low as i64) as u64)
    }
}
