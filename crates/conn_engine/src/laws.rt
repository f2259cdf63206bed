//! Laws of what bytes mean so far. The bodies are empty: each contract is a law of the definitions.
ghost use Rattle.conn_engine.specs.Laws.{HeardIsOne, HearingGrows, StreamIsInput, StreamHasInput};

/// Bytes mean one thing so far.
pub fn heard_so_far_is_one()
    ensures { HeardIsOne }
{}

/// Further bytes add calls after those of the earlier ones, and after an ending they change nothing.
pub fn further_bytes_are_heard_behind()
    ensures { HearingGrows }
{}

/// A stream that was read to an ending of its bytes or to their end means what these bytes mean as a whole input; and so do its calls
/// wherever the reading stopped.
pub fn whole_streams_are_inputs()
    ensures ending { StreamIsInput }
    ensures calls { StreamHasInput }
{}
