//! Laws of typed values, each the contract of a call that does nothing.
ghost use Rattle.cdr_values.specs.Laws.{ReadsExactly, ReadsBack, ReadsOneWay};

/// A value of a lawful type has a reading exactly where its bytes spell it, and else the first fault.
#[tactic(auto, using(crate::proofs::LawProofs::reads_exactly_law))]
pub fn reads_exactly()
    ensures { ReadsExactly }
{}

/// What is spelled is read back as that value, whatever follows, in every order and at every place.
pub fn reads_back()
    ensures { ReadsBack }
{}

/// In one order, at one place and of one lawful type at most one value and one prefix of the bytes fit.
pub fn reads_one_way()
    ensures { ReadsOneWay }
{}
