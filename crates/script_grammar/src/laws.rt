//! That the laws of reading hold for scripts.
ghost use Rattle.script_grammar.specs.Plain.{IsPlainScript};

use crate::{Inner, ScriptFault, ScriptLabel};
use grammar::Builder;

/// One token tells the rules of scripts apart, whatever is built along them, so that the laws of reading hold: the
/// contract of a call that does nothing.
pub fn rules_are_plain<B: Builder<Label = ScriptLabel, Inner = Inner, Fault = ScriptFault>>()
    ensures { IsPlainScript B.act B.judge }
{}
