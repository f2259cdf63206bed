//! What reading has to do with the grammar: the contracts of calls that do nothing.
ghost use Rattle.servant_scripts.specs.Scripts.{ReadsScripts, ReadsEachScript, StopsAtFirstFault};

/// What is read is spelled by the text.
#[tactic(auto, using(crate::proofs::Texts::scripts_spelled))]
pub fn reads_scripts()
    ensures { ReadsScripts }
{}

/// What a text spells is read of it, so that it spells one script at most.
pub fn reads_each_script()
    ensures { ReadsEachScript }
{}

/// Any other text is refused at its first token at fault.
#[tactic(auto, using(crate::proofs::Texts::stops_at_fault))]
pub fn stops_at_first_fault()
    ensures { StopsAtFirstFault }
{}
