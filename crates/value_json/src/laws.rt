//! Laws of values and their JSON, each the contract of a call that does nothing.
ghost use Rattle.value_json.specs.Laws.{ReadsBack, MeansOfType};

/// What is printed of a value of a lawful type reads back as that value.
#[tactic(auto, using(crate::proofs::Back::reads_back))]
pub fn reads_back()
    ensures { ReadsBack }
{}

/// What is read of a type is of that type.
#[tactic(auto, using(crate::proofs::OfType::means_of_type))]
pub fn means_of_type()
    ensures { MeansOfType }
{}
