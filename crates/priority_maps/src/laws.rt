//! Laws of maps.
ghost use Rattle.std.specs.Prelude.{◌≡◌, ◌↔◌, IsSome, IfSome};
ghost use Rattle.priority_maps.specs.Laws.{IsOrdered, KeepsOrder, KeepsEnds, GoesBack};
ghost use Rattle.priority_maps.specs.Linear.{LinearMap};
ghost use Rattle.priority_maps.specs.Maps.{to_native};

use crate::map::Map;
use orb_base::Priority;

/// The least priority with the same native one: a priority goes to its native one and back to one that is no greater
/// and has the same native one. None exactly where the priority has no native one. Takes no memory.
pub fn there_and_back(map: &Map, p: Priority) -> Option<Priority>
    ensures none { IsSome result ↔ IsSome (to_native map.now p) }
    ensures back { IfSome result (GoesBack map.now p) }
{
    match map.to_native(p) {
        Some(n) => map.to_corba(n),
        None => None,
    }
}

/// A linear map gives a greater CORBA priority no lesser native one.
#[tactic(auto, using(crate::proofs::Orders::keeps_order))]
pub fn linear_keeps_order()
    ensures { (m : LinearMap) → IsOrdered m → KeepsOrder m }
{}

/// A linear map keeps the ends of its band within those of its range.
pub fn linear_keeps_ends()
    ensures { (m : LinearMap) → IsOrdered m → KeepsEnds m }
{}
