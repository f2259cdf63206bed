//! Whether each call of a run was its caller's to make.
ghost use Rattle.std.specs.Prelude.{◌≡◌, ◌↔◌, IfOk, IsTrue};
ghost use Rattle.lane_machine.specs.State.{State, Opens};
ghost use Rattle.lane_machine.specs.Histories.{IsLegal};
ghost use Rattle.lane_machine.specs.Callers.{AreFit};
ghost use Rattle.trace_lines.specs.ReadBack.{history_of};

use crate::seats::Seats;
use orb_base::NoMemory;
use std::alloc::Global;
use trace_lines::TraceLine;

/// Whether each call of a legal run was its caller's to make, for a run that opened with these slots and connections per slot: by
/// the history that its lines say, in which a caller that is no seat of the run may call nothing. One pass of constant work a line;
/// memory grows with the slots.
pub fn are_fit(
    alloc: Global,
    slots: u8,
    per_slot: u8,
    lines: &[TraceLine],
) -> Result<bool, NoMemory>
    ensures { IfOk result (λ fit. (s : State) → Opens s → s.slots ≡ slots → s.per_slot ≡ per_slot
        → IsLegal s (history_of lines.now) → (IsTrue fit ↔ AreFit s (history_of lines.now))) }
{
    let mut seats = Seats::new(alloc, slots, per_slot)?;
    for line in lines {
        seats.hear(line);
    }
    Ok(seats.fit)
}
