//! That no script meets an empty stack, each law the contract of a call that does nothing.
ghost use Rattle.script_depths.specs.Laws.{LabelsTakeNoMore, FindsWhatItTakes, LeavesNothing, BelowIsLeft};

/// What is done at a mark is done to the newest items alone, as many as the mark takes: where these are there, it is the
/// same whatever is below them, and what is below stays.
pub fn labels_take_no_more()
    ensures { LabelsTakeNoMore }
{}

/// Along each sentence of the grammar of scripts each mark finds what it takes, and after the last one nothing is left but
/// whole servants. So the script is the same whatever was on the stacks before it, and that stays.
pub fn no_script_meets_an_empty_stack()
    ensures found { FindsWhatItTakes }
    ensures left { LeavesNothing }
    ensures below { BelowIsLeft }
{}
