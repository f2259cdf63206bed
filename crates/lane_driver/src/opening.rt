//! The opening of a run.
ghost use Rattle.std.specs.Prelude.{◌≡◌, IfOk};
ghost use Rattle.orb_base.specs.Pool.{IsWellFormed, HasSlots};
ghost use Rattle.lane_machine.specs.State.{opening};
ghost use Rattle.lane_driver.specs.Driving.{IsBetween};

use adapter_policies::Setup;
use lane_machine::Lanes;
use orb_base::NoMemory;
use std::alloc::Global;

/// Opens the lane machine of a setup. Takes memory for all that its run may hold.
#[tactic(auto, using(crate::proofs::Opened::can_open, crate::proofs::Opened::opened_between))]
pub fn open(alloc: Global, setup: &Setup) -> Result<Lanes, NoMemory>
    ensures value { IfOk result (λ lanes. lanes ≡ opening setup.now.pool setup.now.slots setup.now.per_slot) }
    ensures between { IfOk result IsBetween }
    ensures well_formed { IsWellFormed setup.now.pool }
    ensures slots { HasSlots setup.now.slots setup.now.per_slot }
{
    Lanes::new(alloc, setup.pool(), setup.slots(), setup.per_slot())
}
