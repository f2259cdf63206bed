//! What jobs do to the values of objects.
ghost use Rattle.std.specs.Prelude.{◌≡◌, ◌≤◌, ℕ, List, Option, IfOk};
ghost use Rattle.orb_base.specs.JobRecord.{JobRecord};
ghost use Rattle.orb_base.specs.Outcomes.{body_len};
ghost use Rattle.orb_base.specs.declared.limits.TheConstants.{MAX_BODY};
ghost use Rattle.orb_base.specs.declared.outcome.Outcome.{Outcome};

use orb_base::{Arc, Job, NoMemory, Outcome, Text};

/// What jobs do to the values of objects of some interfaces. An interface is a repository id.
pub trait Staging: Drop {
    /// A value of an object.
    type State: Drop;

    /// The value that an object of the interface opens with, where it keeps one.
    ghost zero: { Self → List ℕ → Option Self.State };

    /// What an object of the interface answers to the job where it has this value, and its value after that.
    ghost staged: { Self → List ℕ → JobRecord → Option Self.State → Outcome × Option Self.State };

    /// The value that an object of the interface opens with.
    fn zero(&self, interface: &Text) -> Result<Option<Arc<Self::State>>, NoMemory>
        ensures { IfOk result (λ v. v ≡ zero self.now interface.now) };

    /// Carries a job out on an object of the interface that has this value, and gives the outcome and the value after that. When out
    /// of memory it gives neither.
    fn stage(
        &self,
        interface: &Text,
        job: &Job,
        value: &Option<Arc<Self::State>>,
    ) -> Result<(Outcome, Option<Arc<Self::State>>), NoMemory>
        ensures value { IfOk result (λ r. r ≡ staged self.now interface.now job.now value.now) }
        ensures short { IfOk result (λ r. body_len r.0 ≤ MAX_BODY) };
}
