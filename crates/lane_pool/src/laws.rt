//! What holds whenever nobody has the turn.
ghost use Rattle.std.specs.Prelude.{◌≡◌, false};
ghost use Rattle.turn_cell.specs.declared.board.Terms.{Terms};
ghost use Rattle.turn_cell.specs.Good.{Good};
ghost use Rattle.turn_cell.specs.Rule.{Kept};
ghost use Rattle.lane_machine.specs.State.{State, Opens};
ghost use Rattle.lane_machine.specs.Machine.{step};
ghost use Rattle.lane_machine.specs.Readiness.{is_ready, IsSound};
ghost use Rattle.lane_machine.specs.Callers.{heir, IsFit};
ghost use Rattle.lane_machine.specs.Histories.{History, replay};
ghost use Rattle.lane_pool.specs.Limits.{KeepsLimits, IsAtRest};

use lane_machine::within_limits;

/// After what a pass sees, and after the history that a pool gives at its end, the limits of the lane machine are kept.
pub fn limits_are_kept()
    ensures { (terms : Terms State) (h : History) → Good is_ready IsSound step Opens IsFit terms h
        → KeepsLimits terms.opening (replay terms.opening h) }
{
    within_limits();
}

/// Whenever nobody has the turn, by the rule that the table after a pool's cell keeps at any time: the machine in its slot is
/// the replay of the one history beside it, that history is legal and fit, and the machine keeps its limits.
pub fn is_at_rest()
    ensures { (terms : Terms State) (table : _) (kept : Kept is_ready IsSound step Opens IsFit heir terms table)
        → (free : kept.held ≡ false) → IsAtRest terms kept.history (kept.home free).0 }
{
    limits_are_kept();
}
