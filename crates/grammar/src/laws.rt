//! Laws of reading by a grammar, each the contract of a call that does nothing.
ghost use Rattle.grammar.specs.Laws.{ReadsTexts, ReadsEachText, StopsAtFirstFault};
ghost use Rattle.grammar.specs.Views.{language};

use crate::Builder;

/// What is read is a text of the rule, and what was built is built of it.
#[tactic(auto, using(crate::proofs::WholeTexts::whole_sound))]
pub fn reads_texts<B: Builder>()
    ensures { ReadsTexts (language B.inside B.act B.judge B.stop) }
{}

/// Each text of a rule is read, where the choices of the grammar are told apart by one token.
pub fn reads_each_text<B: Builder>()
    ensures { ReadsEachText (language B.inside B.act B.judge B.stop) }
{}

/// Any other text is refused at its first token at fault.
#[tactic(auto, using(crate::proofs::WholeTexts::whole_refused))]
pub fn stops_at_first_fault<B: Builder>()
    ensures { StopsAtFirstFault (language B.inside B.act B.judge B.stop) }
{}
