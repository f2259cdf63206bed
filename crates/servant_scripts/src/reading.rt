//! Reads a script.
ghost use Rattle.std.specs.Prelude.{◌≡◌, ◌≤◌, ◌^◌, length, List, IfOk, IfErr, Ok};
ghost use Rattle.idl_tokens.specs.Found.{found_stream};
ghost use Rattle.servant_scripts.specs.Answers.{Tells};
ghost use Rattle.servant_scripts.specs.Trees.{ServantSaid};
ghost use Rattle.servant_scripts.specs.Views.{script_of};
ghost use Rattle.servant_scripts.specs.Scripts.{script_reading, tokens_reading, Spells, TellsFault};

use crate::draft::Draft;
use crate::{Script, ScriptError};
use grammar::{MAX_OPEN, ReadError, read_whole};
use idl_tokens::{Dialect, Found, Kind, tokens_of};
use script_grammar::file_rule;
use std::alloc::Global;

/// Reads the tokens of a text.
#[tactic(auto, unfolding(crate::specs::Scripts::tokens_reading))]
fn read_tokens(alloc: Global, found: &Found<'_>) -> Result<Script, ScriptError>
    ensures { Tells result (tokens_reading (found_stream found.now)) }
{
    let mut draft = Draft::new(alloc);
    let mut tokens = found.stream();
    match read_whole(file_rule(), &mut tokens, &mut draft, Kind::End, MAX_OPEN) {
        Ok(()) => Ok(draft.script()),
        Err(ReadError::Refused(fault)) => Err(ScriptError::Refused(fault)),
        Err(ReadError::NoMemory) => Err(ScriptError::NoMemory),
    }
}

/// Reads a text.
fn read_text(alloc: Global, text: &[u8]) -> Result<Script, ScriptError>
    requires { length text.now ≤ 2 ^ 20 }
    ensures { Tells result (script_reading text.now) }
{
    match tokens_of(alloc, Dialect::Script, text) {
        Ok(found) => read_tokens(alloc, &found),
        Err(_) => Err(ScriptError::NoMemory),
    }
}

/// Reads a script. Refuses a text that isn't of the grammar, at its first token at fault: a byte that begins no token, a
/// token that the grammar hasn't got there, the 65th open bracket, an integer that isn't decimal or isn't below 2^127,
/// or the end. The work grows with the text's bytes, and takes memory for its tokens and its tree.
pub fn read_script(alloc: Global, text: &[u8]) -> Result<Script, ScriptError>
    requires { length text.now ≤ 2 ^ 20 }
    // The script is the text's, whose sentence spells it.
    ensures spelled { IfOk result (λ s. Spells text.now (script_of s)) }
    // A text that spells a script isn't refused, and answers no other one.
    ensures only { (servants : List ServantSaid) → Spells text.now servants → Tells result (Ok servants) }
    // A refusal is at the first token at fault.
    ensures fault { IfErr result (λ e. TellsFault text.now e) }
    // All of it as one reading.
    ensures reading { Tells result (script_reading text.now) }
{
    read_text(alloc, text)
}
