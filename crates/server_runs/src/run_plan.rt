//! What a server does with its acceptors.
ghost use Rattle.std.specs.Prelude.{◌≡◌, ◌<◌};
ghost use Rattle.server_runs.specs.Plans as Spec;

use crate::run_count::RunCount;

/// What a server does with its acceptors.
#[derive(Clone, Copy, Debug, PartialEq, Eq)]
pub struct RunPlan {
    /// How many runs it makes at most.
    pub runs: RunCount,
    /// Whether it writes the trace of each run before its summary.
    pub trace: bool,
}

impl RunPlan {
    /// The plan of the runs after the first.
    pub fn after_one(&self) -> RunPlan
        requires { 1 < self.now.runs }
        ensures { result ≡ Spec.after_one self.now }
    {
        RunPlan {
            runs: self.runs.one_less(),
            trace: self.trace,
        }
    }
}
