//! Laws of hearing. The bodies are empty: each contract is a law of the definitions.
ghost use Rattle.heard_calls.specs.Laws.{HearsOneWay, HearingGoesOn};

/// Messages mean one thing.
#[tactic(auto, using(crate::proofs::OneMeaning::hears_one))]
pub fn messages_mean_one_thing()
    ensures { HearsOneWay }
{}

/// Later messages add calls after those of the earlier ones, and nothing after one that ended the reading.
#[tactic(auto, using(crate::proofs::OneMeaning::goes_on))]
pub fn hearing_goes_on()
    ensures { HearingGoesOn }
{}
