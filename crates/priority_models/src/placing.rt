//! The lane of a request.
ghost use Rattle.std.specs.Prelude.{◌≡◌, ◌==◌, ◌<◌, ◌↔◌, length, position, IsTrue, IfSome, IfOk};
ghost use Rattle.orb_base.specs.Pool.{IsWellFormed};
ghost use Rattle.orb_base.specs.Priorities.{lane_of};
ghost use Rattle.priority_models.specs.Placing.{Placed, IsAllowed, IsLaneOf};

use crate::misplaced::Misplaced;
use orb_base::{Band, LaneSpec, PoolSpec, Priority};

/// The number of the lane that takes a request of a priority, counted from 0; without lanes it is 0. The band is the one
/// that the connection has bound, if it has bound one. The work is one pass over the lanes, of which there are at most 16.
#[tactic(auto, using(crate::proofs::Lanes::lane_is))]
pub fn placed(pool: &PoolSpec, band: Option<Band>, p: Priority) -> Result<u8, Misplaced>
    requires well_formed { IsWellFormed pool.now }
    // A priority outside the band is given as such, also where no lane has it.
    ensures placed { Placed pool.now band p result }
    ensures lane { IfOk result (IsLaneOf pool.now p) }
{
    if !is_allowed(band, p) {
        return Err(Misplaced::OutsideBand);
    }
    match lane_of(pool, p) {
        Some(lane) => Ok(lane),
        None => Err(Misplaced::NoLane),
    }
}

/// Whether the bound band, if there is one, holds the priority.
fn is_allowed(band: Option<Band>, p: Priority) -> bool
    ensures { IsTrue result ↔ IsAllowed band p }
{
    match band {
        Some(band) => band.holds(p),
        None => true,
    }
}

/// The number of the lane of a priority.
fn lane_of(pool: &PoolSpec, p: Priority) -> Option<u8>
    requires { IsWellFormed pool.now }
    ensures { result ≡ lane_of pool.now p }
{
    if !pool.laned {
        return Some(0);
    }
    match position_of(pool.lanes.as_slice(), p) {
        Some(found) => Some(found as u8),
        None => None,
    }
}

/// The index of the lane of a priority.
fn position_of(lanes: &[LaneSpec], p: Priority) -> Option<usize>
    ensures value { result ≡ position (λ lane. lane.priority == p) lanes.now }
    ensures bound { IfSome result (λ at. at < length lanes.now) }
{
    lanes.iter().position(|lane| lane.priority == p)
}
