//! The verdict on a whole run.
ghost use Rattle.std.specs.Prelude.{IfOk};
ghost use Rattle.lane_machine.specs.State.{CanOpen, opening};
ghost use Rattle.trace_lines.specs.ReadBack.{history_of};
ghost use Rattle.lane_audit.specs.Verdicts.{IsFirstWrong};

use crate::desk::Desk;
use crate::offers::Offers;
use orb_base::{NoMemory, PoolSpec};
use std::alloc::Global;
use trace_lines::TraceLine;

/// How many entries of a run come before the first one that the rules of the lane machine don't allow; all of them where each is
/// allowed. The run is legal exactly where that is the number of its lines. One pass over the lines for the requests that they offer,
/// and one that judges each entry; memory grows with the requests, and with what waits and is owed.
pub fn count_legal(
    alloc: Global,
    pool: &PoolSpec,
    slots: u8,
    per_slot: u8,
    lines: &[TraceLine],
) -> Result<usize, NoMemory>
    requires can { CanOpen pool.now slots per_slot }
    ensures { IfOk result (IsFirstWrong (opening pool.now slots per_slot) (history_of lines.now)) }
{
    let mut offers = Offers::new(alloc, lines)?;
    let mut desk = Desk::new(alloc, pool, slots, per_slot)?;
    for (i, line) in lines.iter().enumerate() {
        if !desk.judge(&offers, &line.action)? {
            return Ok(i);
        }
        offers.note(&line.action);
    }
    Ok(lines.len())
}
