//! The names of a whole text.
ghost use Rattle.std.specs.Prelude.{◌≤◌, length};
ghost use Rattle.idl_names.specs.Declaring.{text_names};
ghost use Rattle.idl_names.specs.Memory.{Yields};
ghost use Rattle.idl_names.specs.State.{Built};
ghost use Rattle.idl_names.specs.Views.{built_of};
ghost use Rattle.idl_names.specs.Whole.{Declares, TellsNames, TellsOnly};

use crate::changes::with_memory;
use crate::state::Names;
use grammar::{MAX_OPEN, ReadError, read_whole};
use idl_grammar::{IdlFault, file_rule};
use idl_tokens::{Dialect, Kind, MAX_TEXT, tokens_of};
use std::alloc::Global;

/// Reads a text along its labels.
fn read_text(alloc: Global, text: &[u8]) -> Result<Names, ReadError<IdlFault>>
    requires { length text.now ≤ MAX_TEXT }
    ensures { Yields built_of result (text_names text.now) }
{
    let found = with_memory(tokens_of(alloc, Dialect::Idl, text))?;
    let mut names = Names::new(alloc);
    let mut tokens = found.stream();
    match read_whole(file_rule(), &mut tokens, &mut names, Kind::End, MAX_OPEN) {
        Ok(()) => Ok(names),
        Err(ReadError::Refused(fault)) => Err(ReadError::Refused(fault)),
        Err(ReadError::NoMemory) => Err(ReadError::NoMemory),
    }
}

/// The names that a text of IDL of at most 1,048,576 bytes declares, or its first token at fault with its cause, its line and
/// its column. At most 64 brackets may be open at once. One pass over the text; each name is looked up by an index.
pub fn read_names(alloc: Global, text: &[u8]) -> Result<Names, ReadError<IdlFault>>
    requires { length text.now ≤ MAX_TEXT }
    // it is what reading by the grammar, label by label, gives
    ensures exact { Yields built_of result (text_names text.now) }
    // what it tells is so, said without reading
    ensures whole { TellsNames result text.now }
    // and a text that declares names is never refused
    ensures only { (new : Built) → Declares text.now new → TellsOnly result new }
{
    read_text(alloc, text)
}
