//! Laws of contexts and policy values, each the contract of a call that does nothing.
ghost use Rattle.std.specs.Prelude.{ℕ, List};
ghost use Rattle.orb_base.specs.Span.{Span};
ghost use Rattle.orb_base.specs.Tagged.{Context, Tagged};
ghost use Rattle.cdr_core.specs.Lists.{list_fields, tagged_fields, FitsList, FitsTagged};
ghost use Rattle.service_contexts.specs.Policies.{policies_at};
ghost use Rattle.service_contexts.specs.Laws.{IsReadAsSpelled, TellOneThing};
ghost use Rattle.service_contexts.specs.Layout.{IsPriority, IsBand, ModelValue, IsModelValue, AreBands};
ghost use Rattle.service_contexts.specs.Layout.{priority_fields, band_fields, model_fields, bands_fields};
ghost use Rattle.service_contexts.specs.Reading.{priority_at, band_at, model_at, bands_at};

/// What is spelled as a priority is read as that priority, in either order and whatever follows; what is read is what
/// the bytes carry; bytes carry at most one priority.
#[tactic(auto, using(crate::proofs::Carried::priority_law))]
pub fn priorities_are_read_as_spelled()
    ensures { IsReadAsSpelled ℕ IsPriority priority_fields priority_at }
{}

/// The same of bands.
#[tactic(auto, using(crate::proofs::Carried::band_law))]
pub fn ranges_are_read_as_spelled()
    ensures { IsReadAsSpelled Span IsBand band_fields band_at }
{}

/// The same of models.
#[tactic(auto, using(crate::proofs::Carried::model_law))]
pub fn models_are_read_as_spelled()
    ensures { IsReadAsSpelled ModelValue IsModelValue model_fields model_at }
{}

/// The same of lists of bands.
#[tactic(auto, using(crate::proofs::Carried::bands_law))]
pub fn bands_are_read_as_spelled()
    ensures { IsReadAsSpelled (List Span) AreBands bands_fields bands_at }
{}

/// The same of components of policies.
#[tactic(auto, using(crate::proofs::Published::policies_law))]
pub fn policies_are_read_as_spelled()
    ensures { IsReadAsSpelled (List Tagged) (FitsList FitsTagged) (list_fields tagged_fields) policies_at }
{}

/// The contexts of a message tell one thing, or have one first fault, and not both.
#[tactic(auto, using(crate::proofs::Faults::tell_one_thing))]
pub fn contexts_tell_one_thing()
    ensures { (list : List Context) → TellOneThing list }
{}
