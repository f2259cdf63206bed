//! A law of the runs of several callers over one link. The body is empty: the contract is a law of the definitions.
ghost use Rattle.std.specs.Prelude.{◌≡◌, ◌+◌, ℕ, Some};
ghost use Rattle.orb_base.specs.Outside.{SourceState, SinkState};
ghost use Rattle.client_mux.specs.declared.why.Why.{Why};
ghost use Rattle.client_mux.specs.Machine.{History};
ghost use Rattle.client_mux.specs.Exchange.{first_loss};
ghost use Rattle.mux_sides.specs.declared.writing.WriterEnd.{WriterEnd};
ghost use Rattle.mux_runs.specs.Runs.{IsLawful, SentIn, HeardIn, IsCause};

/// A link is lost first for the cause that its reader says, or for a failed write or for memory, where its writer came out so. So a caller
/// is never answered a failed read unless the count of faults of the source rose, nor a failed write unless that of the sink did.
pub fn losses_have_their_causes()
    ensures { (callers : ℕ) (h : History) (write : WriterEnd) (read w : Why) (from to : SourceState) (out out' : SinkState) → IsLawful callers h
        → SentIn h (callers + 1) write out out' → HeardIn h (callers + 2) read from to → first_loss h ≡ Some w → IsCause write read w }
{}
