//! What invocations are made in.
ghost use Rattle.std.specs.Prelude.{◌≡◌, ◌<◌, ◌≤◌, length};
ghost use Rattle.orb_base.specs.Outcomes.{body_len};
ghost use Rattle.orb_base.specs.declared.limits.TheConstants.{MAX_BODY};
ghost use Rattle.adapter_policies.specs.SetupData.{SetupData};
ghost use Rattle.halls.specs.Hands.{HandState, Does};

use adapter_policies::Setup;
use orb_base::{Arc, Job, Outcome};

/// What the invocations of connections are made in, by the hands of slots. Two hands may invoke at once.
pub trait Hall {
    /// What a slot invokes by.
    type Hand: Drop;

    /// The setup by which requests are judged.
    ghost judged_by: { Self → SetupData };

    /// The slot of a hand, what was done by it, and how many invocations it may make yet.
    ghost held: { Self.Hand → HandState };

    /// The hand is one of this hall.
    ghost is_of: { Self → Self.Hand → Type 0 };

    /// The setup by which requests are judged.
    fn setup(&self) -> &Setup
        ensures { result.now ≡ judged_by self.now };

    /// The number of the hand's slot, from 0.
    fn slot(&self, hand: &Self::Hand) -> u8
        ensures { result ≡ (held hand.now).slot };

    /// How many invocations the hand may make yet.
    fn spare(&self, hand: &Self::Hand) -> u32
        ensures { result ≡ (held hand.now).spare };

    /// Makes an invocation of an object of the setup, and keeps it with its outcome in the hand's list. May wait for other hands.
    fn invoke(&self, hand: &mut Self::Hand, job: &Arc<Job>) -> Outcome
        requires of { is_of self.now hand.old }
        requires spare { 0 < (held hand.old).spare }
        requires there { job.now.target < length (judged_by self.now).objects }
        ensures of { is_of self.now hand.new }
        ensures does { Does (record { job = job.now; outcome = result }) (held hand.old) (held hand.new) }
        ensures short { body_len result ≤ MAX_BODY };
}
