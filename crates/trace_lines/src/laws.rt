//! Laws of traces. The bodies are empty: each contract is a law of the definitions.
ghost use Rattle.std.specs.Prelude.{◌≡◌, ◌≤◌, ℕ, List};
ghost use Rattle.orb_base.specs.declared.conn_id.ConnId.{ConnId};
ghost use Rattle.lane_machine.specs.State.{State, Opens};
ghost use Rattle.lane_machine.specs.Histories.{History, IsLegal};
ghost use Rattle.lane_machine.specs.Callers.{AreFit};
ghost use Rattle.lane_machine.specs.Fates.{admitted};
ghost use Rattle.trace_lines.specs.Offers.{offers, NoNameTwice};
ghost use Rattle.trace_lines.specs.Lines.{lines_of};
ghost use Rattle.trace_lines.specs.ReadBack.{jobs_of, history_of, HasJobs};
ghost use Rattle.trace_lines.specs.Plain.{plain_history};
ghost use Rattle.trace_lines.specs.declared.trace_line.TraceLine.{TraceLine};

/// The history that is read back from the lines of a legal history, which offers no request twice, is that history but for what a
/// trace doesn't say: it is legal too, and fit where that was.
pub fn traces_are_legal()
    ensures read_back { (s : State) (h : History) → Opens s → IsLegal s h → NoNameTwice (offers h)
        → history_of (lines_of h) ≡ plain_history h }
    ensures legal { (s : State) (h : History) → Opens s → IsLegal s h → NoNameTwice (offers h)
        → IsLegal s (history_of (lines_of h)) }
    ensures fit { (s : State) (h : History) → Opens s → IsLegal s h → NoNameTwice (offers h) → AreFit s h
        → AreFit s (history_of (lines_of h)) }
{}

/// Lines that offer each request that they name, and none twice, are those of the history that is read back from them.
pub fn lines_are_read_back()
    ensures { (lines : List TraceLine) → HasJobs (jobs_of lines) lines → NoNameTwice (jobs_of lines)
        → lines_of (history_of lines) ≡ lines }
{}

/// A history that offers no request twice admits none twice.
pub fn offers_admit_once()
    ensures { (conn : ConnId) (serial : ℕ) (h : History) → NoNameTwice (offers h) → admitted conn serial h ≤ 1 }
{}

/// A legal history in which every call was fit offers no request twice, as that of a served run.
pub fn fit_offers_once()
    ensures { (s : State) (h : History) → IsLegal s h → AreFit s h → NoNameTwice (offers h) }
{}
