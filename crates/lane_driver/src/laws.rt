//! Laws on what the driver did. The bodies are empty: each contract is a law of the definitions.
ghost use Rattle.lane_driver.specs.Running.{RunsArePiped, BeginningsArePiped, DoneIsPiped, BegunIsPiped};

/// What `run_calls` did from the opening of a setup on is the run that the pipe is defined to be, or a prefix of it.
pub fn runs_are_piped()
    ensures whole { RunsArePiped }
    ensures front { BeginningsArePiped }
{}

/// Where the serial numbers of the requests rise, what `run_calls` did from the opening of a setup on is the run that the
/// pipe is defined to be, or a prefix of it, for the serial numbers for which memory was wanting.
pub fn what_is_done_is_piped()
    ensures whole { DoneIsPiped }
    ensures front { BegunIsPiped }
{}
