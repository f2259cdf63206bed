//! A law of texts of runs. The body is empty: the contract is a law of the definitions.
ghost use Rattle.trace_runs.specs.Laws.{GoesOnAfresh};

/// After the text of a run, of which no summary comes next, lines begin an input only if they do so alone.
pub fn texts_go_on_afresh()
    ensures { GoesOnAfresh }
{}
